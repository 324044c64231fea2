//! Names as the lines have them.
ghost use Rattle.std.specs.Prelude.{◌≡◌};
ghost use Rattle.percent_encoding.specs.Iter.{encoded_text};
ghost use Rattle.disco_follow.specs.Names.{shown_name};

use percent_encoding::{AsciiSet, NON_ALPHANUMERIC, PercentEncode, ascii_set, utf8_percent_encode};

/// The bytes of ASCII that no name has in a line: all but letters, digits and `-._:~`.
const ENCODED: AsciiSet = ascii_set!(
    NON_ALPHANUMERIC
        .remove(b'-')
        .remove(b'.')
        .remove(b'_')
        .remove(b':')
        .remove(b'~')
);

/// A name as the lines have it, with each byte percent-encoded that isn't an ASCII letter, a digit or
/// one of `-._:~`: so it holds no word and no line of its own.
pub(crate) fn shown(name: &str) -> PercentEncode<'_>
    ensures { encoded_text result ≡ shown_name name.entry.now }
{
    utf8_percent_encode(name, ENCODED)
}
