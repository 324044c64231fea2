//! Limits of a connection.
ghost use Rattle.std.specs.Prelude.{◌<◌, ◌^◌, ◌≡◌};

/// Limits of a connection: of its messages, and of the number of its requests.
#[derive(Clone, Copy, Debug)]
pub struct Limits {
    /// Bytes of a head with its empty line, of a chunk's line, and of the fields behind the last
    /// chunk.
    pub head: usize,
    /// Fields of a head, and fields behind the last chunk.
    pub fields: usize,
    /// Bytes of a body, fewer than 2^63.
    pub body: u64,
    /// Requests of a connection.
    pub requests: u64,
    ghost body_fits: { body < 2 ^ 63 },
    ghost some_head: { 0 < head },
    ghost some_requests: { 0 < requests },
}

impl Limits {
    /// The limits of a server: heads of 16 KiB with 100 fields, bodies of 1 MiB, and 1,000 requests.
    pub fn of_server() -> Limits
        ensures head { result.head ≡ 16384 }
        ensures fields { result.fields ≡ 100 }
        ensures body { result.body ≡ 1048576 }
        ensures requests { result.requests ≡ 1000 }
    {
        Limits {
            head: 16_384,
            fields: 100,
            body: 1_048_576,
            requests: 1_000,
        }
    }

    /// The limits of a client: as a server's, with bodies of 256 MiB.
    pub fn of_client() -> Limits
        ensures head { result.head ≡ 16384 }
        ensures fields { result.fields ≡ 100 }
        ensures body { result.body ≡ 268435456 }
        ensures requests { result.requests ≡ 1000 }
    {
        Limits {
            head: 16_384,
            fields: 100,
            body: 268_435_456,
            requests: 1_000,
        }
    }
}
