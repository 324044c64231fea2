//! Instances that are up under a vip.
ghost use Rattle.std.specs.Prelude.{◌≡◌, ◌==◌, ◌&&◌, not, length, map};
ghost use Rattle.std.specs.List.{list_any};
ghost use Rattle.std.specs.Str.{bytes_eq};
ghost use Rattle.disco_instance.specs.Row.{row};
ghost use Rattle.disco_values.specs.Text.{in_upper_case};
ghost use Rattle.disco_history.specs.Query.{vips};
ghost use Rattle.disco_client.specs.Copies.{is_up_under};

use disco_instance::Record;
use disco_values::Status;

/// Whether two texts are one, but for the case of ASCII letters.
fn is_alike(text: &str, other: &str) -> bool
    ensures { result ≡ bytes_eq (in_upper_case other.now) (in_upper_case text.now) }
{
    text.eq_ignore_ascii_case(other)
}

/// Whether a text is that vip, but for the case of ASCII letters. The empty text is no vip.
fn is_vip(text: &str, vip: &str) -> bool
    ensures { result ≡ (not (length text.now == 0) && bytes_eq (in_upper_case vip.now) (in_upper_case text.now)) }
{
    !text.is_empty() && is_alike(text, vip)
}

/// Whether a vip is one of an address, but for the case of ASCII letters.
fn has_vip(address: &str, vip: &str) -> bool
    ensures { result ≡ list_any (bytes_eq (in_upper_case vip.now)) (map in_upper_case (vips address.now)) }
{
    address.split(',').any(|piece| is_vip(piece, vip))
}

/// Whether an instance is up and has a vip, but for the case of ASCII letters.
pub(crate) fn is_up_under(rec: &Record, vip: &str) -> bool
    ensures { result ≡ is_up_under vip.now (row rec.now) }
{
    rec.status.is(Status::Up) && has_vip(rec.details.vip_address.as_str(), vip)
}
