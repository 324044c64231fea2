//! Room that a connection keeps from one request to the next.
ghost use Rattle.std.specs.Prelude.{◌≡◌, OnOk};

use httparse::spans::HeaderSpan;
use std::alloc::{AllocError, Global};

/// Room for the head of a request. It grows to the largest head that was put there.
#[derive(Debug, Drop)]
pub struct HeadRoom {
    pub(crate) text: Vec<u8>,
    pub(crate) spans: Vec<HeaderSpan>,
    pub(crate) target: Vec<u8>,
}

impl HeadRoom {
    /// No room yet. Takes no memory.
    pub fn new(alloc: Global) -> HeadRoom {
        HeadRoom {
            text: Vec::new(alloc),
            spans: Vec::new(alloc),
            target: Vec::new(alloc),
        }
    }
}

/// Replaces the kept bytes.
pub(crate) fn refill_bytes(kept: &mut Vec<u8>, bytes: &[u8]) -> Result<(), AllocError>
    ensures { OnOk result (kept.new.items ≡ bytes.now) }
{
    kept.clear();
    kept.extend_from_slice(bytes)
}

/// Replaces the kept spans.
pub(crate) fn refill_spans(
    kept: &mut Vec<HeaderSpan>,
    spans: &[HeaderSpan],
) -> Result<(), AllocError>
    ensures { OnOk result (kept.new.items ≡ spans.now) }
{
    kept.clear();
    kept.extend_from_slice(spans)
}
