//! Beginnings of what a desk noted. They exist in proofs alone.
ghost use Rattle.std.specs.Prelude.{◌≡◌};
ghost use Rattle.disco_press.specs.Logs.{all_noted, notes_in, publications, logged};

use crate::entry::LogEntry;
use crate::monotone_list::PrefixWitness;
use crate::published_log::{LogPrefix, Naming};
use std::marker::{Model, PhantomData};

/// What the desk of this name has noted up to some moment, published or not.
#[derive(Drop)]
pub struct Heard<J: Naming> {
    witness: PrefixWitness<LogEntry>,
    of: PhantomData<J>,
}

impl<J: Naming> Model for Heard<J> {
    ghost use Rattle.std.specs.Prelude.{◌≡◌, List};
    ghost use Rattle.disco_hub.specs.Press.{Note};
    ghost use Rattle.disco_press.specs.Logs.{all_noted, logged};

    ghost Value = { List Note };

    ghost view = { λ h. all_noted (logged h.witness.items) };

    ghost invariant = { λ h. h.witness.name ≡ J.list };
}

impl<J: Naming> Heard<J> {
    pub(crate) fn of_witness(witness: PrefixWitness<LogEntry>) -> Heard<J>
        requires { witness.name ≡ J.list }
        ensures { result ≡ all_noted (logged witness.items) }
    {
        Heard {
            witness,
            of: PhantomData,
        }
    }

    /// What was noted up to a publish.
    pub fn of(prefix: LogPrefix) -> Heard<J>
        requires { prefix.witness.name ≡ J.list }
        ensures { result ≡ notes_in (publications prefix.witness.items) }
    {
        let LogPrefix { len: _, witness } = prefix;
        Heard::of_witness(witness)
    }

    /// A copy.
    pub fn again(&self) -> Heard<J>
        ensures { result ≡ self.now }
    {
        Heard::of_witness(self.witness.again())
    }

    pub(crate) fn witness(&self) -> &PrefixWitness<LogEntry>
        ensures { (result.now.name ≡ J.list) × (all_noted (logged result.now.items) ≡ self.now) }
    {
        &self.witness
    }
}
