//! Changes of instances from one copy to the next.
use disco_instance::Record;

/// What became of an instance from one copy to the next.
#[derive(Clone, Copy, Debug)]
pub(crate) enum What {
    Came,
    Changed,
    Went,
}

/// An instance, as it is or last was, and what became of it.
#[derive(Clone, Copy)]
pub(crate) struct Change<'a> {
    pub(crate) what: What,
    pub(crate) rec: &'a Record,
}
