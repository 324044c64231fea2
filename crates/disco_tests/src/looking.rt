//! Threads that look.
use disco_press::{Looked, Naming, Seat};
use disco_values::DocKey;
use std::sync::Wait;
use std::sync::atomic::{AtomicU64, Ordering};

/// What the looks of a seat saw.
#[derive(Clone, Copy, Debug)]
pub(crate) struct Seen {
    /// The version of the last document.
    pub(crate) version: u64,
    /// How many looks found a document.
    pub(crate) found: u64,
    /// Whether a look saw an older version than one before it, or none where one was seen before.
    pub(crate) went_back: bool,
}

impl Seen {
    const NOTHING: Seen = Seen {
        version: 0,
        found: 0,
        went_back: false,
    };

    /// With one look more.
    fn with(&self, looked: &Looked) -> Seen {
        let version = match looked {
            Looked::Doc(doc) => doc.version,
            Looked::Miss | Looked::Shut => 0,
        };
        Seen {
            version,
            found: self.found.saturating_add(u64::from(version > 0)),
            went_back: self.went_back || version < self.version,
        }
    }
}

/// Looks until all is published, and once more.
pub(crate) fn look_until<J: Naming, R: Wait>(
    rt: &R,
    seat: &mut Seat<J>,
    key: &DocKey,
    done: &AtomicU64,
) -> Seen {
    let mut seen = Seen::NOTHING;
    for _ in rt.forever() {
        let last = done.load(Ordering::SeqCst) != 0;
        seen = seen.with(&seat.look(key));
        if last {
            break;
        }
    }
    seen
}

/// So many looks.
pub(crate) fn look_often<J: Naming>(seat: &mut Seat<J>, key: &DocKey, times: u64) -> Seen {
    let mut seen = Seen::NOTHING;
    for _ in 0..times {
        seen = seen.with(&seat.look(key));
    }
    seen
}
