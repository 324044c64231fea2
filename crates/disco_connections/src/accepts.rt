//! How a connection is accepted, and which failures of it pass.
ghost use Rattle.std.specs.Prelude.{◌≡◌, ◌≢◌, ◌⊎◌, ◌+◌, ◌-◌, ◌^◌, ℕ, None, Some, min, pos};
ghost use Rattle.disco_connections.specs.Acceptors.{IsOpen};
ghost use Rattle.disco_connections.specs.Accepts.{WhereOneOf, came_of, gone_numbers, lacking_numbers};
ghost use Rattle.disco_connections.specs.declared.acceptor.Refusal.TheVariants.{ByHost};
ghost use Rattle.disco_connections.specs.declared.accepts.Accepted.TheVariants.{Taken, Nothing, Gone, Full, Later, Refused};

use crate::acceptor::{Acceptor, Refusal};
use std::net::OpenListener;

/// What a failure of an accept is.
#[derive(Clone, Copy, Debug, PartialEq, Eq)]
enum Failure {
    /// No connection waits.
    Nothing,
    /// The connection was gone again, or was refused on its way.
    Gone,
    /// The program has as many descriptors as it may.
    Full,
    /// The host lacks descriptors or memory.
    Lacking,
    /// It lasts.
    Lasting,
}

/// What a failure is, by Linux's number for it.
fn failure_of(number: Option<i32>) -> Failure
    // It would wait, there is no descriptor for the program, and what was given is no listener.
    ensures nothing { number ≡ Some (pos 11) → result ≡ Failure.Nothing }
    ensures gone { WhereOneOf gone_numbers number (result ≡ Failure.Gone) }
    ensures full { number ≡ Some (pos 24) → result ≡ Failure.Full }
    ensures lacking { WhereOneOf lacking_numbers number (result ≡ Failure.Lacking) }
    ensures lasting { number ≡ Some (pos 22) → result ≡ Failure.Lasting }
    ensures unnumbered { number ≡ None → result ≡ Failure.Lasting }
{
    match number {
        Some(11) => Failure::Nothing,
        // Interrupted, and a connection that is gone or was refused on its way.
        Some(1 | 4 | 64 | 71 | 92 | 95 | 100 | 101 | 103 | 110 | 112 | 113) => Failure::Gone,
        Some(24) => Failure::Full,
        // No memory, no descriptor of the host's, no buffer.
        Some(12 | 23 | 105) => Failure::Lacking,
        _ => Failure::Lasting,
    }
}

/// What an accept came to.
#[derive(Drop)]
pub enum Accepted<T> {
    /// A connection, with its number from 1.
    Taken(T, u64),
    /// No connection waits.
    Nothing,
    /// None was taken, and the next may be at once.
    Gone,
    /// None was taken, since the program has as many descriptors as it may.
    Full,
    /// None was taken, since the host lacks descriptors or memory.
    Later,
    /// No connection more is taken.
    Refused,
}

/// What an accept came to that failed so. Where the failure lasts the acceptor is shut.
fn failed<T>(failure: Failure, acceptor: &mut Acceptor) -> Accepted<T>
    ensures came { result ≡ came_of failure }
    ensures shut { failure ≡ Failure.Lasting → acceptor.new ≡ record acceptor.old { refused = Some ByHost } }
    ensures same { failure ≢ Failure.Lasting → acceptor.new ≡ acceptor.old }
{
    match failure {
        Failure::Nothing => Accepted::Nothing,
        Failure::Gone => Accepted::Gone,
        Failure::Full => Accepted::Full,
        Failure::Lacking => Accepted::Later,
        Failure::Lasting => {
            acceptor.refuse(Refusal::ByHost);
            Accepted::Refused
        }
    }
}

/// Accepts the next connection by an acceptor, without waiting for one. One that is shut takes none,
/// and where the host refuses a connection for good it is shut.
pub fn accept<L: OpenListener>(listener: &L, acceptor: &mut Acceptor) -> Accepted<L::Stream>
    ensures taken { (stream : L.Stream) → (number : ℕ) → result ≡ Taken stream number
        → IsOpen acceptor.old × (number ≡ min (acceptor.old.taken + 1) (2 ^ 64 - 1)) × (acceptor.new ≡ record acceptor.old { taken = number }) }
    ensures refused { result ≡ Refused → (acceptor.new ≡ acceptor.old) ⊎ (acceptor.new ≡ record acceptor.old { refused = Some ByHost }) }
    ensures same { (result ≡ Nothing) ⊎ ((result ≡ Gone) ⊎ ((result ≡ Full) ⊎ (result ≡ Later))) → acceptor.new ≡ acceptor.old }
{
    if !acceptor.is_open() {
        return Accepted::Refused;
    }
    let error = match listener.accept() {
        Ok((stream, _)) => return Accepted::Taken(stream, acceptor.take()),
        Err(error) => error,
    };
    failed(failure_of(error.raw_os_error()), acceptor)
}
