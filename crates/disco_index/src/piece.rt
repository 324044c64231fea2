//! The first piece of a text, which ends before the first comma or with the text.
ghost use Rattle.std.specs.Prelude.{◌≡◌};
ghost use Rattle.std.specs.Cmp.Lexicographic.{slice_cmp};
ghost use Rattle.std.specs.List.{position_or_len};
ghost use Rattle.std.specs.Ordering.{nat_cmp};
ghost use Rattle.disco_index.specs.Pieces.{first_piece, is_comma};

use std::cmp::Ordering;

/// How many bytes the first piece has.
fn len_of_piece(text: &[u8]) -> usize
    ensures { result ≡ position_or_len is_comma text.now }
{
    text.iter()
        .position(|byte| *byte == b',')
        .unwrap_or(text.len())
}

pub(crate) fn first_piece(text: &[u8]) -> &[u8]
    ensures { result.now ≡ first_piece text.now }
{
    &text[..len_of_piece(text)]
}

/// The order of the first piece and another text. It looks at one byte more than the other text has.
pub(crate) fn compare_piece(text: &[u8], other: &[u8]) -> Ordering
    ensures { result ≡ slice_cmp nat_cmp (first_piece text.now) other.now }
{
    let most = text.len().min(other.len() + 1);
    first_piece(&text[..most]).cmp(other)
}
