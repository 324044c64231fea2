//! The timeouts of connections.
ghost use Rattle.std.specs.Prelude.{◌≡◌};
ghost use Rattle.disco_connections.specs.Timeouts.{longest};

/// What a timeout is for.
#[derive(Clone, Copy, Debug, PartialEq, Eq)]
pub enum Phase {
    /// The first byte of a next request.
    Between,
    /// The rest of a head.
    Head,
    /// The rest of a body.
    Body,
    /// Room for the rest of a reply.
    Reply,
    /// Its end behind a last reply.
    Ending,
}

/// The timeouts of a connection, in milliseconds.
#[derive(Clone, Copy, Debug)]
pub struct Timeouts {
    /// The longest silence between requests.
    pub between: u64,
    /// The longest time from a head's first bytes to its end.
    pub head: u64,
    /// The longest time from a head's end to that of its body.
    pub body: u64,
    /// The longest time for a reply to be taken, beside that for its length.
    pub reply: u64,
    /// So much more for each whole 65,536 bytes of it.
    pub piece: u64,
    /// How long what comes behind a last reply is read and dropped.
    pub ending: u64,
    /// How often deadlines are checked.
    pub look: u64,
}

impl Timeouts {
    /// Those of a server: 75 seconds between requests, 30 for a head, 60 for a body, 30 for a reply and
    /// one more for each 65,536 bytes of it, and 2 behind the last. Deadlines are checked each second.
    pub fn of_server() -> Timeouts
        ensures { result ≡ record { between = 75000; head = 30000; body = 60000; reply = 30000; piece = 1000; ending = 2000; look = 1000 } }
    {
        Timeouts {
            between: 75_000,
            head: 30_000,
            body: 60_000,
            reply: 30_000,
            piece: 1_000,
            ending: 2_000,
            look: 1_000,
        }
    }

    /// The timeout of a phase in milliseconds, up to 2^64 - 1. A reply has so many bytes when it begins.
    pub fn longest(&self, phase: Phase, bytes: u64) -> u64
        ensures { result ≡ longest self.now phase bytes }
    {
        match phase {
            Phase::Between => self.between,
            Phase::Head => self.head,
            Phase::Body => self.body,
            Phase::Reply => self
                .reply
                .saturating_add(self.piece.saturating_mul(bytes / 65_536)),
            Phase::Ending => self.ending,
        }
    }
}
