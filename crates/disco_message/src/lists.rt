//! Lists of elements with commas between them.
ghost use Rattle.std.specs.Prelude.{◌≡◌, length, map, reverse, All};
ghost use Rattle.std.specs.List.{list_any};
ghost use Rattle.httparse.specs.Grammar.{skip_ows, trim_ows};
ghost use Rattle.httparse.specs.Spans.{IsHeaderWithin, header_bytes};
ghost use Rattle.disco_message.specs.Fields.{lists, field_values};

use crate::fields::{eq_ignore_case, next_value};
use httparse::is_space_or_tab;
use httparse::spans::HeaderSpan;

fn trim_start(mut text: &[u8]) -> &[u8]
    ensures { result.now ≡ skip_ows text.now }
{
    while let [first, rest @ ..] = text
        && is_space_or_tab(*first)
    {
        text = rest;
    }
    text
}

fn trim_end(mut text: &[u8]) -> &[u8]
    ensures { result.now ≡ reverse (skip_ows (reverse text.now)) }
{
    while let [rest @ .., last] = text
        && is_space_or_tab(*last)
    {
        text = rest;
    }
    text
}

/// A text without the spaces and tabs round it.
#[tactic(auto, unfolding(httparse::specs::Grammar::trim_ows))]
fn trim(text: &[u8]) -> &[u8]
    ensures { result.now ≡ trim_ows text.now }
{
    trim_end(trim_start(text))
}

/// Whether a list has a word, in any case.
fn lists(list: &[u8], word: &[u8]) -> bool
    ensures { result ≡ lists word.now list.now }
{
    list.split(|b| *b == b',')
        .any(|element| eq_ignore_case(trim(element), word))
}

/// Whether any field of the name lists the word.
pub(crate) fn any_lists(text: &[u8], fields: &[HeaderSpan], name: &[u8], word: &[u8]) -> bool
    requires { All (IsHeaderWithin (length text.now)) fields.now }
    ensures { result ≡ list_any (λ v. lists word.now v) (field_values name.now (map (header_bytes text.now) fields.now)) }
{
    let mut left = fields;
    while let Some((value, after)) = next_value(text, left, name) {
        if lists(value, word) {
            return true;
        }
        left = after;
    }
    false
}
