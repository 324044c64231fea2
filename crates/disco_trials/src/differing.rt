//! Where two texts differ.
ghost use Rattle.std.specs.Prelude.{◌≡◌, IfNone};

/// How many bytes at the front of two texts are the same.
pub(crate) fn same_bytes(wanted: &[u8], came: &[u8]) -> usize {
    wanted
        .iter()
        .zip(came.iter())
        .take_while(|(wanted, came)| wanted == came)
        .count()
}

/// Where two texts differ first, if they do, in bytes from 0.
pub fn difference(wanted: &[u8], came: &[u8]) -> Option<usize>
    ensures { IfNone result (wanted.now ≡ came.now) }
{
    if wanted == came {
        return None;
    }
    Some(same_bytes(wanted, came))
}
