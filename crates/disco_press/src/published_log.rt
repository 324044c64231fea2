//! Beginnings of a press list that end with a publish. They exist in proofs alone, but for their
//! length.
ghost use Rattle.std.specs.Prelude.{◌≡◌, ℕ, ◌-◌, ◌<◌, ◌^◌, ◌⊎◌, [], false, length, true};
ghost use mathlib.Core.List.{IsPrefix};
ghost use Rattle.disco_press.specs.Logs.{logged};

use crate::entry::LogEntry;
use crate::monotone_list::PrefixWitness;
use std::marker::{Brand, Model, PhantomData};
use std::sync::ledger::Ledger;

/// The name of a desk, which its seats have too. Each call that opens a desk picks one, and it is
/// known to proofs alone. [`Brand`] has it for programs.
pub trait Naming: Ledger {
    // The name of the desk's press list.
    ghost list: { ℕ };
}

impl Naming for Brand {
    ghost list = { 0 };
}

/// A beginning of a press list that ends with a publish, and its length. A length of 2^64 - 1 says
/// nothing, since it isn't counted further.
#[derive(Drop)]
pub struct LogPrefix {
    pub len: u64,
    pub witness: PrefixWitness<LogEntry>,
    pub ghost counted: { len < 2 ^ 64 - 1 → len ≡ length witness.items },
    pub ghost ended: { (logged witness.items).pending ≡ [] },
}

impl LogPrefix {
    /// A copy. Takes no memory.
    pub fn again(&self) -> LogPrefix
        ensures { result.witness ≡ self.now.witness }
    {
        LogPrefix {
            len: self.len,
            witness: self.witness.again(),
        }
    }

    /// Whether the other one goes on from this one: it does where it isn't shorter. Of one with
    /// 2^64 - 1 entries it isn't known.
    pub fn is_before(&self, other: &LogPrefix) -> bool
        requires { other.now.witness.name ≡ self.now.witness.name }
        ensures begins { result ≡ true → IsPrefix self.now.witness.items other.now.witness.items }
        ensures known { result ≡ false → (other.now.len < self.now.len) ⊎ (other.now.len ≡ 2 ^ 64 - 1) }
    {
        if self.len > other.len || other.len == u64::MAX {
            return false;
        }
        // For the proof alone: the shorter of two witnesses begins the longer one.
        self.witness.begins(&other.witness);
        true
    }
}

/// What the desk of this name has published up to some moment.
#[derive(Drop)]
pub struct PublishedLog<J: Naming> {
    prefix: LogPrefix,
    of: PhantomData<J>,
}

impl<J: Naming> Model for PublishedLog<J> {
    ghost use Rattle.std.specs.Prelude.{◌≡◌, List};
    ghost use Rattle.disco_hub.specs.Press.{Note};
    ghost use Rattle.disco_press.specs.Logs.{publications};

    ghost Value = { List (List Note) };

    ghost view = { λ f. publications f.prefix.witness.items };

    ghost invariant = { λ f. f.prefix.witness.name ≡ J.list };
}

impl<J: Naming> PublishedLog<J> {
    ghost use Rattle.disco_press.specs.Logs.{publications};

    /// The publications in a beginning of the press list.
    pub fn of(prefix: LogPrefix) -> PublishedLog<J>
        requires { prefix.witness.name ≡ J.list }
        ensures { result ≡ publications prefix.witness.items }
    {
        PublishedLog {
            prefix,
            of: PhantomData,
        }
    }

    /// Whether the other one goes on from this one. It is false where the other has 2^64 - 1 entries.
    #[tactic(auto, using(crate::proofs::Publications::begins_too))]
    pub fn is_before(&self, other: &PublishedLog<J>) -> bool
        ensures { result ≡ true → IsPrefix self.now other.now }
    {
        self.prefix.is_before(&other.prefix)
    }

    /// A copy. Takes no memory.
    pub fn again(&self) -> PublishedLog<J>
        ensures { result ≡ self.now }
    {
        PublishedLog::of(self.prefix.again())
    }

    /// The beginning of the press list.
    pub fn prefix(&self) -> &LogPrefix
        ensures { (result.now.witness.name ≡ J.list) × (publications result.now.witness.items ≡ self.now) }
    {
        &self.prefix
    }

    /// The beginning of the press list, owned.
    pub fn into_prefix(self) -> LogPrefix
        ensures { (result.witness.name ≡ J.list) × (publications result.witness.items ≡ self) }
    {
        let PublishedLog { prefix, of: _ } = self;
        prefix
    }
}
