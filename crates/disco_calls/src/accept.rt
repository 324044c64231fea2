//! Which documents a client accepts, by the fields of its request.
ghost use Rattle.std.specs.Prelude.{◌≡◌, codes};
ghost use Rattle.disco_message.specs.Fields.{field_values};
ghost use Rattle.disco_calls.specs.Accept.{begins, form_of, has_word, have_word, takes_json};

use disco_message::{Request, eq_ignore_case};
use disco_values::Form;

/// Whether a value begins with a word, in any case.
fn begins(value: &[u8], word: &[u8]) -> bool
    ensures { result ≡ begins word.now value.now }
{
    word.len() <= value.len() && eq_ignore_case(&value[..word.len()], word)
}

/// Whether a value has a word in it, in any case.
fn has_word(value: &[u8], word: &[u8]) -> bool
    ensures { result ≡ has_word word.now value.now }
{
    let mut rest = value;
    while let [_, behind @ ..] = rest {
        if begins(rest, word) {
            return true;
        }
        rest = behind;
    }
    false
}

/// Whether an Accept field has a word in it, in any case.
fn accepts(request: &Request, word: &[u8]) -> bool
    ensures { result ≡ have_word word.now (field_values (codes "accept") request.now.fields) }
{
    request.values(b"accept").any(|value| has_word(value, word))
}

/// Whether JSON may be answered: not where the Accept fields name XML, and neither JSON nor `*/*` (this
/// project's own rule for RFC 9110, section 12.5.1).
pub(crate) fn takes_json(request: &Request) -> bool
    ensures { result ≡ takes_json request.now.fields }
{
    !accepts(request, b"xml") || accepts(request, b"json") || accepts(request, b"*/*")
}

/// The form that is asked for: the compact one where the first `X-Eureka-Accept` is `compact`, in any
/// case, and else the full one.
pub(crate) fn form_of(request: &Request) -> Form
    ensures { result ≡ form_of request.now.fields }
{
    match request.values(b"x-eureka-accept").next() {
        Some(value) if eq_ignore_case(value, b"compact") => Form::Compact,
        _ => Form::Full,
    }
}
