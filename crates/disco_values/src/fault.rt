//! Faults: why a call was refused.
ghost use Rattle.std.specs.Prelude.{◌≡◌};
ghost use Rattle.disco_values.specs.declared.fault.Fault.TheVariants.{OutOfMemory};

use std::alloc::{AllocError, AllocFailed};
use std::fmt;
use thiserror::Error;

/// A required member of a registration.
#[derive(Clone, Copy, Debug, PartialEq, Eq)]
pub enum Field {
    InstanceId,
    HostName,
    IpAddr,
    App,
    DataCenterInfo,
}

impl Field {
    ghost use Rattle.disco_values.specs.Fault.{field_name};

    /// The member's name in JSON.
    pub fn name(self) -> &'static str
        ensures { result.now ≡ field_name self }
    {
        match self {
            Field::InstanceId => "instanceId",
            Field::HostName => "hostName",
            Field::IpAddr => "ipAddr",
            Field::App => "app",
            Field::DataCenterInfo => "dataCenterInfo",
        }
    }
}

impl fmt::Display for Field {
    fn fmt<W: fmt::Write>(&self, f: &mut fmt::Formatter<W>) -> fmt::Result {
        f.write_str(self.name())
    }
}

/// Why a call was refused. Each has a number, which the program prints.
#[derive(Clone, Copy, Debug, PartialEq, Eq, Error)]
pub enum Fault {
    #[error("out of memory")]
    OutOfMemory,
    #[error("the body is not the JSON that was wanted")]
    BadJson,
    #[error("a required member is missing: {0}")]
    MissingField(Field),
    #[error("the record is of another app than the path")]
    MismatchedApp,
    #[error("there is no such instance")]
    NotFound,
    #[error("the text names no status")]
    BadStatus,
    #[error("no version is left")]
    VersionsSpent,
    #[error("the registry is full")]
    TooManyInstances,
    #[error("deltas are turned off")]
    DeltaDisabled,
    #[error("no representation is acceptable")]
    NotAcceptable,
    #[error("the head is too large")]
    HeadTooLarge,
    #[error("the body is too large")]
    BodyTooLarge,
    #[error("the request is malformed")]
    BadRequest,
    #[error("the method is not allowed")]
    BadMethod,
    #[error("the content coding is not supported")]
    UnsupportedCoding,
    #[error("a round is open")]
    RoundOpen,
    #[error("no round is open")]
    NoRound,
    #[error("keys of the round are left")]
    KeysLeft,
    #[error("the document has no meaning")]
    BadDocument,
    #[error("reading failed")]
    ReadFailed,
    #[error("writing failed")]
    WriteFailed,
    #[error("nothing was fetched")]
    NotFetched,
    #[error("event {0} is bad")]
    BadEvent(u64),
    #[error("the run is not greater than the present one")]
    RunNotNew,
}

impl Fault {
    ghost use Rattle.disco_values.specs.Fault.{fault_number};

    /// Its number, 1 to 24.
    pub fn number(&self) -> u32
        ensures { result ≡ fault_number self.now }
    {
        match self {
            Fault::OutOfMemory => 1,
            Fault::BadJson => 2,
            Fault::MissingField(_) => 3,
            Fault::MismatchedApp => 4,
            Fault::NotFound => 5,
            Fault::BadStatus => 6,
            Fault::VersionsSpent => 7,
            Fault::TooManyInstances => 8,
            Fault::DeltaDisabled => 9,
            Fault::NotAcceptable => 10,
            Fault::HeadTooLarge => 11,
            Fault::BodyTooLarge => 12,
            Fault::BadRequest => 13,
            Fault::BadMethod => 14,
            Fault::UnsupportedCoding => 15,
            Fault::RoundOpen => 16,
            Fault::NoRound => 17,
            Fault::KeysLeft => 18,
            Fault::BadDocument => 19,
            Fault::ReadFailed => 20,
            Fault::WriteFailed => 21,
            Fault::NotFetched => 22,
            Fault::BadEvent(_) => 23,
            Fault::RunNotNew => 24,
        }
    }
}

impl From<AllocError> for Fault {
    ghost from_gives = { λ _ e. e ≡ OutOfMemory };

    fn from(_e: AllocError) -> Fault {
        Fault::OutOfMemory
    }
}

impl<T: Drop> From<AllocFailed<T>> for Fault {
    ghost from_gives = { λ _ e. e ≡ OutOfMemory };

    fn from(_e: AllocFailed<T>) -> Fault {
        Fault::from(AllocError)
    }
}
