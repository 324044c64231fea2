//! The certificate of a received document.
ghost use Rattle.std.specs.Prelude.{◌≡◌, List, ℕ};
ghost use Rattle.std.specs.List.{before_first, position};
ghost use Rattle.disco_message.specs.Certificate.{behind_space, cert_spelled, is_blank, only_cert};
ghost use Rattle.disco_message.specs.Few.{FewAre};

use crate::fields::Few;
use crate::framing::number;
use disco_values::Cert;

fn first_space(text: &[u8]) -> Option<usize>
    ensures { result ≡ position is_blank text.now }
{
    text.iter().position(|b| *b == b' ')
}

/// The parts of a text before and after its first space.
fn split(text: &[u8]) -> (&[u8], &[u8])
    ensures front { result.0.now ≡ before_first is_blank text.now }
    ensures behind { result.1.now ≡ behind_space text.now }
{
    match first_space(text) {
        Some(at) => (&text[..at], &text[at + 1..]),
        None => (text, &[]),
    }
}

fn spelled(text: &[u8]) -> Option<Cert>
    ensures { result ≡ cert_spelled text.now }
{
    let (run, rest) = split(text);
    let (base, version) = split(rest);
    Some(Cert {
        run: number(run)?,
        base: number(base)?,
        version: number(version)?,
    })
}

/// The certificate that a field's only value spells.
pub(crate) fn only_cert(texts: Few<'_>) -> Option<Cert>
    ensures { (vs : List (List ℕ)) → FewAre texts.entry vs → result ≡ only_cert vs }
{
    match texts {
        Few::One(text) => spelled(text),
        _ => None,
    }
}
