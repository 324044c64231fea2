//! How the body behind a head is framed.
ghost use Rattle.std.specs.Prelude.{◌≡◌, ◌⊎◌, IfErr, ℕ, List, length, map, All};
ghost use Rattle.std.specs.List.{list_all};
ghost use Rattle.std.specs.Str.{bytes_eq};
ghost use Rattle.httparse.specs.Spans.{IsHeaderWithin, header_bytes};
ghost use Rattle.disco_values.specs.Digits.{digits_number};
ghost use Rattle.disco_message.specs.Fields.{field_values};
ghost use Rattle.disco_message.specs.Few.{FewAre};
ghost use Rattle.disco_message.specs.Framing.{framing_of, has_host, stated, framed};

use crate::fields::{Few, eq_ignore_case, few_values, next_value};
use disco_values::{Fault, number_of_digits};
use httparse::spans::HeaderSpan;

/// How a body is framed (RFC 9112, section 6).
#[derive(Clone, Copy, Debug, PartialEq, Eq)]
pub enum Framing {
    /// A body of so many bytes.
    Sized(u64),
    /// A body of chunks, with fields behind the last one.
    Chunked,
}

/// The number that digits spell.
pub(crate) fn number(value: &[u8]) -> Option<u64>
    ensures { result ≡ digits_number value.now }
{
    match str::from_utf8(value) {
        Ok(text) => number_of_digits(text),
        Err(_) => None,
    }
}

/// How a body is framed, by the values of Content-Length and Transfer-Encoding.
pub(crate) fn framing_of(minor: u8, length: Few<'_>, coding: Few<'_>) -> Option<Framing>
    ensures { (lengths codings : List (List ℕ)) → FewAre length.entry lengths → FewAre coding.entry codings → result ≡ framing_of minor lengths codings }
{
    match (length, coding) {
        (Few::None, Few::None) => Some(Framing::Sized(0)),
        (Few::One(digits), Few::None) => match number(digits) {
            Some(n) => Some(Framing::Sized(n)),
            None => None,
        },
        (Few::None, Few::One(coding)) if minor == 1 && eq_ignore_case(coding, b"chunked") => {
            Some(Framing::Chunked)
        }
        _ => None,
    }
}

fn has_host(minor: u8, hosts: Few<'_>) -> bool
    ensures { (vs : List (List ℕ)) → FewAre hosts.entry vs → result ≡ has_host minor vs }
{
    minor == 0 || matches!(hosts, Few::One(_))
}

/// Whether each field of a name has this value, byte for byte.
fn all_are(text: &[u8], fields: &[HeaderSpan], name: &[u8], wanted: &[u8]) -> bool
    requires { All (IsHeaderWithin (length text.now)) fields.now }
    ensures { result ≡ list_all (λ v. bytes_eq v wanted.now) (field_values name.now (map (header_bytes text.now) fields.now)) }
{
    let mut left = fields;
    while let Some((value, after)) = next_value(text, left, name) {
        if value != wanted {
            return false;
        }
        left = after;
    }
    true
}

/// The framing that the fields state, if the hosts and the framing are as they must be.
fn stated(text: &[u8], minor: u8, fields: &[HeaderSpan]) -> Option<Framing>
    requires { All (IsHeaderWithin (length text.now)) fields.now }
    ensures { result ≡ stated minor (map (header_bytes text.now) fields.now) }
{
    if !has_host(minor, few_values(text, fields, b"host")) {
        return None;
    }
    let length = few_values(text, fields, b"content-length");
    let coding = few_values(text, fields, b"transfer-encoding");
    framing_of(minor, length, coding)
}

/// How the body is framed, or what the head is refused for.
pub(crate) fn framed(text: &[u8], minor: u8, fields: &[HeaderSpan]) -> Result<Framing, Fault>
    requires { All (IsHeaderWithin (length text.now)) fields.now }
    ensures framing { result ≡ framed minor (map (header_bytes text.now) fields.now) }
    ensures fault { IfErr result (λ fault. (fault ≡ Fault.BadRequest) ⊎ (fault ≡ Fault.UnsupportedCoding)) }
{
    let is_plain = all_are(text, fields, b"content-encoding", b"identity");
    match stated(text, minor, fields) {
        None => Err(Fault::BadRequest),
        Some(framing) if is_plain => Ok(framing),
        Some(_) => Err(Fault::UnsupportedCoding),
    }
}
