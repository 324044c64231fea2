//! The keys of the edition that readers see, and the round in which they are copied anew.
ghost use Rattle.std.specs.Prelude.{◌≡◌, ◌≢◌, [], IfErr, IfOk, IfSome, None, OnErr, OnOk, length, option_map, slice_get};
ghost use Rattle.std.specs.FinMap as finmap;
ghost use Rattle.disco_values.specs.declared.fault.Fault.TheVariants.{NoRound, OutOfMemory, RoundOpen};
ghost use Rattle.disco_hub.specs.Rounds.{Advances, Begins, Ends, StaysOpen, round_keys};

use crate::keys::round_keys;
use crate::round::{CopiedKey, Round};
use disco_cache::DocCache;
use disco_values::{DocKey, Fault};
use std::alloc::Global;
use std::marker::Model;

/// The keys of the edition, and the open round, if there is one.
#[derive(Drop)]
pub struct Rounds {
    /// The keys that the last finished round copied.
    edition: Vec<CopiedKey>,
    round: Option<Round>,
}

impl Model for Rounds {
    ghost use Rattle.std.specs.Coded.{codes};
    ghost use Rattle.std.specs.FinMap.{code};
    ghost use Rattle.disco_hub.specs.Rounds as plain;
    ghost use Rattle.disco_hub.specs.Rounds.{kept_keys};
    ghost use Rattle.disco_hub.specs.Stored.{key_pairs};

    ghost Value = { plain.Rounds };

    ghost coded = { Prim.hlevel (codes, code) };

    ghost view = { λ r. record { edition = kept_keys (key_pairs r.edition.items); round = r.round } };
}

impl Rounds {
    /// No edition and no round.
    pub fn new(alloc: Global) -> Rounds
        ensures { result ≡ record { edition = finmap.empty; round = None } }
    {
        Rounds {
            edition: Vec::new(alloc),
            round: None,
        }
    }

    /// Begins a round of the edition's keys and of those of kept documents. Answers how many keys it
    /// has.
    ///
    /// # Errors
    ///
    /// `RoundOpen` in an open round, and `OutOfMemory`. The rounds are then as they were.
    pub fn begin(&mut self, alloc: Global, cache: &DocCache) -> Result<usize, Fault>
        ensures begun { IfOk result (λ n. Begins (round_keys self.old.edition cache.now) n self.old self.new) }
        ensures refused { IfErr result (λ e. e ≢ OutOfMemory → (e ≡ RoundOpen) × (self.old.round ≢ None)) }
        ensures as_before { OnErr result (self.new ≡ self.old) }
    {
        if self.round.is_some() {
            return Err(Fault::RoundOpen);
        }
        let keys = round_keys(alloc, &self.edition, cache)?;
        let round = Round::of(alloc, keys.as_slice())?;
        let len = round.len();
        self.round = Some(round);
        Ok(len)
    }

    /// How many keys of the open round are left.
    pub fn left(&self) -> Option<usize>
        ensures { result ≡ option_map (λ r. length r.left) self.now.round }
    {
        match &self.round {
            Some(round) => Some(round.len()),
            None => None,
        }
    }

    /// The first key that is left of the open round, if one is.
    ///
    /// # Errors
    ///
    /// `NoRound` where no round is open.
    pub fn first(&self) -> Result<Option<&DocKey>, Fault>
        ensures first { IfOk result (λ o. IfSome self.now.round (λ r. option_map (λ k. k.now) o ≡ slice_get r.left 0)) }
        ensures open { OnOk result (self.now.round ≢ None) }
        ensures refused { IfErr result (λ e. (e ≡ NoRound) × (self.now.round ≡ None)) }
    {
        match &self.round {
            Some(round) => Ok(round.first()),
            None => Err(Fault::NoRound),
        }
    }

    /// Removes the first key that is left of the open round.
    ///
    /// # Errors
    ///
    /// `NoRound` where no round is open or no key is left. The rounds are then as they were.
    pub fn mark(&mut self, kept: bool) -> Result<(), Fault>
        ensures marked { OnOk result (Advances kept self.old self.new) }
        ensures refused { IfErr result (λ e. (e ≡ NoRound) × IfSome self.old.round (λ r. r.left ≡ [])) }
        ensures as_before { OnErr result (self.new ≡ self.old) }
    {
        let Some(round) = &mut self.round else {
            return Err(Fault::NoRound);
        };
        if round.mark(kept) {
            Ok(())
        } else {
            Err(Fault::NoRound)
        }
    }

    /// Ends the open round, of which no key may have been copied.
    ///
    /// # Errors
    ///
    /// `NoRound` where no round is open or a key was copied. The rounds are then as they were.
    pub fn abandon(&mut self) -> Result<(), Fault>
        ensures abandoned { OnOk result (IfSome self.old.round (λ r. r.done ≡ []) × (self.old.round ≢ None) × (self.new ≡ record self.old { round = None })) }
        ensures refused { IfErr result (λ e. (e ≡ NoRound) × IfSome self.old.round (λ r. r.done ≢ [])) }
        ensures as_before { OnErr result (self.new ≡ self.old) }
    {
        match &self.round {
            Some(round) if round.is_new() => {
                self.round = None;
                Ok(())
            }
            _ => Err(Fault::NoRound),
        }
    }

    /// Ends the open round, of which no key may be left: the keys that had a document are the
    /// edition's. Answers how many these are.
    ///
    /// # Errors
    ///
    /// `NoRound` where no round is open, and `KeysLeft` where a key is left. The rounds are then as
    /// they were.
    pub fn finish(&mut self) -> Result<usize, Fault>
        ensures finished { IfOk result (λ n. Ends n self.old self.new) }
        ensures refused { IfErr result (λ e. StaysOpen e self.old.round) }
        ensures as_before { OnErr result (self.new ≡ self.old) }
    {
        match self.round.take() {
            None => Err(Fault::NoRound),
            Some(round) if round.len() > 0 => {
                self.round = Some(round);
                Err(Fault::KeysLeft)
            }
            Some(round) => {
                let (done, kept) = round.end();
                self.edition = done;
                Ok(kept)
            }
        }
    }
}
