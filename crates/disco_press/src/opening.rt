//! The name of a desk before the desk is opened.
ghost use Rattle.std.specs.Prelude.{◌≡◌, []};

use crate::entry::LogEntry;
use crate::monotone_list::MonotoneList;
use std::sync::ledger::Blank;

/// As many seats as a desk may have, and one part that is left.
const PARTS: u64 = 65;

/// The name of a desk and its seats, before a type has it.
#[derive(Drop)]
pub struct Opening {
    pub marks: MonotoneList<LogEntry>,
    pub blank: Blank,
    pub ghost empty: { marks.items ≡ [] },
    pub ghost parts: { blank.parts ≡ 65 },
}

impl Opening {
    /// A new name.
    pub fn new() -> Opening {
        Opening {
            marks: MonotoneList::open(),
            blank: Blank::new(PARTS),
        }
    }
}
