//! Takes the pieces of a hash code off the front of a text.
ghost use Rattle.std.specs.Prelude.{◌≡◌, ◌∷◌, [], decimal};
ghost use Rattle.std.specs.Option.{option_copied};
ghost use Rattle.disco_values.specs.Status.{status_name};
ghost use Rattle.disco_history.specs.Hash.{then_piece};
ghost use Rattle.disco_index.specs.Behind.{behind};

use disco_values::Status;
use itoa::Buffer;

/// The rest of a text behind a byte, where the text begins with it.
fn behind_byte(text: &[u8], byte: u8) -> Option<&[u8]>
    ensures { option_copied result ≡ behind (byte ∷ []) text.now }
{
    let (first, rest) = text.split_first()?;
    if *first == byte { Some(rest) } else { None }
}

/// The rest of a text behind a name, where the text begins with it.
fn behind_name<'a>(text: &'a [u8], name: &str) -> Option<&'a [u8]>
    ensures { option_copied result ≡ behind name.now text.now }
{
    text.strip_prefix(name.as_bytes())
}

/// The rest of a text behind a number in decimal digits, where the text begins with it.
fn behind_number(text: &[u8], number: u64) -> Option<&[u8]>
    ensures { option_copied result ≡ behind (decimal number) text.now }
{
    let mut digits = Buffer::new();
    behind_name(text, digits.format(number))
}

/// The rest of a text behind the piece of a status, where the text begins with it.
pub(crate) fn behind_piece(text: &[u8], status: Status, count: u64) -> Option<&[u8]>
    ensures { option_copied result ≡ behind (then_piece (status_name status) count []) text.now }
{
    if count == 0 {
        return Some(text);
    }
    let rest = behind_name(text, status.name())?;
    let rest = behind_byte(rest, b'_')?;
    let rest = behind_number(rest, count)?;
    behind_byte(rest, b'_')
}
