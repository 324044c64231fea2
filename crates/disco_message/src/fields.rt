//! The fields of a head, by their names.
ghost use Rattle.std.specs.Prelude.{◌≡◌, ◌<◌, [], ◌∷◌, map, length, All, MatchOption, IfSome};
ghost use Rattle.httparse.specs.Spans.{IsHeaderWithin, header_bytes};
ghost use Rattle.disco_message.specs.Fields.{eq_ignore_case, field_values};
ghost use Rattle.disco_message.specs.Few.{FewAre};

use httparse::spans::HeaderSpan;

/// Whether two texts are the same, but for the case of ASCII letters.
#[tactic(auto, unfolding(crate::specs::Fields::eq_ignore_case))]
pub fn eq_ignore_case(a: &[u8], b: &[u8]) -> bool
    ensures { result ≡ eq_ignore_case a.now b.now }
{
    a.eq_ignore_ascii_case(b)
}

/// The next value of a name, and the fields behind it.
pub(crate) fn next_value<'a, 'f>(
    text: &'a [u8],
    fields: &'f [HeaderSpan],
    name: &[u8],
) -> Option<(&'a [u8], &'f [HeaderSpan])>
    requires { All (IsHeaderWithin (length text.now)) fields.now }
    ensures within { IfSome result (λ found. All (IsHeaderWithin (length text.now)) found.1.now) }
    ensures shorter { IfSome result (λ found. length found.1.now < length fields.now) }
    ensures value { MatchOption result
        (field_values name.now (map (header_bytes text.now) fields.now) ≡ [])
        (λ found. field_values name.now (map (header_bytes text.now) fields.now) ≡ found.0.now ∷ field_values name.now (map (header_bytes text.now) found.1.now)) }
{
    let mut left = fields;
    while let [field, after @ ..] = left {
        left = after;
        if eq_ignore_case(field.name.of(text), name) {
            return Some((field.value.of(text), left));
        }
    }
    None
}

/// The values of the fields of a name: none, one, or more.
#[derive(Clone, Copy, Debug)]
pub(crate) enum Few<'a> {
    None,
    One(&'a [u8]),
    Many,
}

pub(crate) fn few_values<'a>(text: &'a [u8], fields: &[HeaderSpan], name: &[u8]) -> Few<'a>
    requires { All (IsHeaderWithin (length text.now)) fields.now }
    ensures { FewAre result (field_values name.now (map (header_bytes text.now) fields.now)) }
{
    match next_value(text, fields, name) {
        None => Few::None,
        Some((value, rest)) => match next_value(text, rest, name) {
            None => Few::One(value),
            Some(_) => Few::Many,
        },
    }
}

/// The values of a name, one after another.
#[derive(Clone, Copy, Debug)]
pub struct Values<'a> {
    text: &'a [u8],
    fields: &'a [HeaderSpan],
    name: &'a [u8],
    ghost within: { All (IsHeaderWithin (length text.now)) fields.now },
}

impl<'a> Values<'a> {
    ghost use Rattle.disco_message.specs.ValuesLeft.{values_left};

    pub(crate) fn new(text: &'a [u8], fields: &'a [HeaderSpan], name: &'a [u8]) -> Values<'a>
        requires { All (IsHeaderWithin (length text.now)) fields.now }
        ensures { values_left result ≡ field_values name.now (map (header_bytes text.now) fields.now) }
    {
        Values { text, fields, name }
    }
}

impl<'a> Iterator for Values<'a> {
    ghost use Rattle.std.specs.Iterator.{YieldsFirstRef, item_count};
    ghost use Rattle.disco_message.specs.ValuesLeft.{values_left};

    type Item = &'a [u8];

    ghost next_gives = { YieldsFirstRef values_left };

    ghost remaining = { item_count values_left };

    fn next(&mut self) -> Option<&'a [u8]> {
        let (value, rest) = next_value(self.text, self.fields, self.name)?;
        self.fields = rest;
        Some(value)
    }
}
