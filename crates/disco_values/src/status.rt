//! Statuses of instances.
ghost use Rattle.std.specs.Prelude.{◌≡◌};
ghost use Rattle.disco_values.specs.Status.{is_same, status_named, status_name};

/// The status of an instance, as the instance or an operator sets it.
#[derive(Clone, Copy, Debug, PartialEq, Eq)]
pub enum Status {
    Up,
    Down,
    Starting,
    OutOfService,
    Unknown,
}

/// The status of exactly that name.
pub fn status_of(text: &str) -> Option<Status>
    ensures { result ≡ status_named text.now }
{
    match text {
        "UP" => Some(Status::Up),
        "DOWN" => Some(Status::Down),
        "STARTING" => Some(Status::Starting),
        "OUT_OF_SERVICE" => Some(Status::OutOfService),
        "UNKNOWN" => Some(Status::Unknown),
        _ => None,
    }
}

impl Status {
    /// Its name in a document.
    pub fn name(self) -> &'static str
        ensures { result.now ≡ status_name self }
    {
        match self {
            Status::Up => "UP",
            Status::Down => "DOWN",
            Status::Starting => "STARTING",
            Status::OutOfService => "OUT_OF_SERVICE",
            Status::Unknown => "UNKNOWN",
        }
    }

    /// Whether the two are the same status.
    pub fn is(self, other: Status) -> bool
        ensures { result ≡ is_same self other }
    {
        self == other
    }
}
