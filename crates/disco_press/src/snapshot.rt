//! A snapshot for readers: an edition with its publications.

use crate::published_log::{LogPrefix, Naming};
use crossbeam_utils::rule::{Outcome, Protocol};
use disco_cache::Edition;
use left_right::Absorb;
use std::alloc::AllocError;
use std::marker::PhantomData;

/// An edition with its publications.
#[derive(Drop)]
pub struct Snapshot {
    pub docs: Edition,
    pub prefix: LogPrefix,
}

/// An edition is shown whole, so there are no operations.
impl Absorb<()> for Snapshot {
    type State = ();

    ghost state = { λ _. tt };

    ghost applied = { λ _ _. tt };

    ghost never_fails = { Unit {0} };

    fn absorb_first(&mut self, _operation: &(), _other: &Snapshot) -> Result<(), AllocError> {
        Ok(())
    }
}

/// The rule that each step of readers and writer keeps: what readers take is an edition of this
/// desk.
pub(crate) struct Press<J: Naming>(PhantomData<J>);

impl<J: Naming> Protocol<Snapshot, ()> for Press<J> {
    ghost use Rattle.disco_press.specs.Editions.{IsShown};

    ghost holds = { λ x _. IsShown J.list x };

    ghost first = { tt };
}

/// What each step sees: an edition of this desk.
pub(crate) struct Sees<J: Naming>(PhantomData<J>);

impl<J: Naming> Outcome<Snapshot, ()> for Sees<J> {
    ghost use Rattle.disco_press.specs.Editions.{IsShown};

    ghost then = { λ _ _ y _. IsShown J.list y };
}
