//! What was seen on a connection.
use crate::heard::Heard;
use crate::published_log::{Naming, PublishedLog};
use std::marker::Model;

/// What the seat knew that answered the last request of a connection. The seat that answers the next
/// one is told it. It exists in proofs alone, but for a length.
#[derive(Drop)]
pub struct Seen<J: Naming> {
    pub(crate) known: PublishedLog<J>,
    pub(crate) heard: Heard<J>,
}

impl<J: Naming> Model for Seen<J> {
    ghost use Rattle.disco_press.specs.Seats.{SeenState};

    ghost Value = { SeenState };

    ghost view = { λ s. record { known = s.known; heard = s.heard } };
}
