//! The pieces of a hash code.
ghost use Rattle.std.specs.Prelude.{◌≡◌, ◌≤◌, ◌+◌, ◌++◌, [], OnOk, length, string_bytes, vec_len};
ghost use Rattle.std.specs.Vec.{vec_capacity};
ghost use Rattle.disco_values.specs.Status.{status_name};
ghost use Rattle.disco_history.specs.Hash.{then_piece};

use disco_values::Status;
use itoa::Buffer;
use std::alloc::AllocError;

/// Writes the piece of a status behind a text.
pub(crate) fn write_piece(text: &mut String, status: Status, count: u64) -> Result<(), AllocError>
    ensures { OnOk result (string_bytes text.new ≡ string_bytes text.old ++ then_piece (status_name status) count []) }
{
    if count > 0 {
        let mut digits = Buffer::new();
        text.push_str(status.name())?;
        text.push_str("_")?;
        text.push_str(digits.format(count))?;
        text.push_str("_")?;
    }
    Ok(())
}

fn push_text(out: &mut Vec<u8>, text: &str)
    requires { vec_len out.old + length text.now ≤ vec_capacity out.old }
    ensures text { out.new.items ≡ out.old.items ++ text.now }
    ensures len { vec_len out.new ≡ vec_len out.old + length text.now }
    ensures capacity { vec_capacity out.new ≡ vec_capacity out.old }
{
    for byte in text.as_bytes() {
        out.push_reserved(*byte);
    }
}

/// Pushes the piece of a status into room that is there.
pub(crate) fn push_piece(out: &mut Vec<u8>, status: Status, count: u64)
    requires { vec_len out.old + (length (status_name status) + 22) ≤ vec_capacity out.old }
    ensures text { out.new.items ≡ out.old.items ++ then_piece (status_name status) count [] }
    ensures len { vec_len out.new ≤ vec_len out.old + (length (status_name status) + 22) }
    ensures capacity { vec_capacity out.new ≡ vec_capacity out.old }
{
    if count > 0 {
        let mut digits = Buffer::new();
        push_text(out, status.name());
        out.push_reserved(b'_');
        push_text(out, digits.format(count));
        out.push_reserved(b'_');
    }
}
