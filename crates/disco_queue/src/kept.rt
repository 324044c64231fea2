//! A kept change.
ghost use Rattle.std.specs.Prelude.{◌≡◌, true};
ghost use Rattle.disco_history.specs.Change.{is_proper};

use disco_history::Change;

/// A change with the moment at which it came, in milliseconds.
#[derive(Drop)]
pub(crate) struct Kept {
    pub(crate) change: Change,
    pub(crate) moment: u64,
    /// A later change of the same key is kept too, so this one isn't its last.
    pub(crate) superseded: bool,
    ghost proper: { is_proper change ≡ true },
}
