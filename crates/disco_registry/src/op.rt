//! Operations and their outcomes.
ghost use Rattle.std.specs.Prelude.{◌≡◌};

use disco_history::Change;
use disco_instance::Record;
use disco_values::{Entries, Key, Text};

/// An operation: what a client asks of the registry.
#[derive(Debug, Drop)]
pub enum Op {
    /// Eureka's `POST /apps/{app}`.
    Register(Record),
    /// Eureka's `DELETE /apps/{app}/{id}`.
    Cancel(Key),
    /// Eureka's `PUT /apps/{app}/{id}`.
    Renew(Key),
    /// Eureka's `PUT /apps/{app}/{id}/status`, with the name of the status.
    SetStatus(Key, Text),
    /// Eureka's `DELETE /apps/{app}/{id}/status`, with the name of the status where one is given.
    DropStatus(Key, Option<Text>),
    /// Eureka's `PUT /apps/{app}/{id}/metadata`.
    Metadata(Key, Entries),
}

impl Op {
    ghost use Rattle.disco_registry.specs.Op.{op_view, op_key};

    /// The key that it is about.
    pub fn key(&self) -> &Key
        ensures { result.now ≡ op_key (op_view self.now) }
    {
        match self {
            Op::Register(posted) => &posted.key,
            Op::Cancel(key) => key,
            Op::Renew(key) => key,
            Op::SetStatus(key, _) => key,
            Op::DropStatus(key, _) => key,
            Op::Metadata(key, _) => key,
        }
    }
}

/// What an accepted operation did.
#[derive(Debug, Drop)]
pub enum Applied {
    Changed(Change),
    /// There was nothing to change.
    Same,
}
