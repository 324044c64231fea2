//! The answers of a desk and of seats, as answer lines.
use std::fmt;

#[derive(Clone, Copy, Debug)]
pub(crate) enum Answer {
    Done,
    Doc { base: u64, version: u64 },
    Round(usize),
    Copied(u64),
    Dropped,
    NothingLeft,
    Published(usize),
    Miss,
    Shut,
    Fault(u32),
}

impl fmt::Display for Answer {
    fn fmt<W: fmt::Write>(&self, f: &mut fmt::Formatter<W>) -> fmt::Result {
        match self {
            Answer::Done => write!(f, "ok"),
            Answer::Doc { base, version } => write!(f, "doc {base} {version}"),
            Answer::Round(keys) => write!(f, "round {keys}"),
            Answer::Copied(version) => write!(f, "copied {version}"),
            Answer::Dropped => write!(f, "dropped"),
            Answer::NothingLeft => write!(f, "done"),
            Answer::Published(documents) => write!(f, "published {documents}"),
            Answer::Miss => write!(f, "miss"),
            Answer::Shut => write!(f, "shut"),
            Answer::Fault(number) => write!(f, "fault {number}"),
        }
    }
}
