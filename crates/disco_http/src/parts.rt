//! What stands at the front of bytes: a head, a chunk's line, or the fields behind the last chunk.
ghost use Rattle.std.specs.Prelude.{◌≡◌, ◌≤◌, ◌<◌, ◌++◌, ℕ, List, IfErr, IfNone, IfOk, IfSome, IsTrue, length, vec_len};
ghost use Rattle.disco_http.specs.Coming.{is_of_bytes};
ghost use Rattle.disco_http.specs.Found.{IsFound, Looked};
ghost use Rattle.disco_http.specs.Parts.{HasNo, SomeFront};
ghost use Rattle.disco_http.specs.Unread.{bytes_of};

use crate::unread::Unread;
use disco_message::Limits;
use disco_values::Fault;
use httparse::spans::{
    HeaderSpan, RequestSpans, ResponseSpans, parse_headers, parse_request, parse_response,
};
use httparse::{Error, Status, parse_chunk_size};

/// A part of a message that is looked for.
#[derive(Clone, Copy, Debug)]
pub(crate) enum Part {
    RequestHead,
    ReplyHead,
    /// The line in front of a chunk.
    SizeLine,
    /// The fields behind the last chunk, with the empty line.
    Trailer,
}

/// A part that was found.
#[derive(Clone, Copy, Debug)]
pub(crate) enum Found {
    RequestHead(RequestSpans),
    ReplyHead(ResponseSpans),
    /// The length of the line, and the size of its chunk.
    SizeLine(usize, u64),
    /// The length of the fields with the empty line.
    Trailer(usize),
}

/// The part at the front of bytes, if it is whole.
fn parse_at(part: Part, bytes: &[u8], spans: &mut [HeaderSpan]) -> Result<Option<Found>, Fault>
    ensures looked { Looked (length spans.old) part bytes.now spans.new result }
    ensures length { length spans.new ≡ length spans.old }
    ensures fault { IfErr result (λ fault. IsTrue (is_of_bytes fault)) }
{
    match part {
        Part::RequestHead => match parse_request(bytes, spans) {
            Ok(Status::Complete(head)) => Ok(Some(Found::RequestHead(head))),
            Ok(Status::Partial) => Ok(None),
            Err(Error::TooManyHeaders) => Err(Fault::HeadTooLarge),
            Err(_) => Err(Fault::BadRequest),
        },
        Part::ReplyHead => match parse_response(bytes, spans) {
            Ok(Status::Complete(head)) => Ok(Some(Found::ReplyHead(head))),
            Ok(Status::Partial) => Ok(None),
            Err(Error::TooManyHeaders) => Err(Fault::HeadTooLarge),
            Err(_) => Err(Fault::BadRequest),
        },
        Part::SizeLine => match parse_chunk_size(bytes) {
            Ok(Status::Complete((len, size))) => Ok(Some(Found::SizeLine(len, size))),
            Ok(Status::Partial) => Ok(None),
            Err(_) => Err(Fault::BadRequest),
        },
        Part::Trailer => match parse_headers(bytes, spans) {
            Ok(Status::Complete((len, _))) => Ok(Some(Found::Trailer(len))),
            Ok(Status::Partial) => Ok(None),
            Err(Error::TooManyHeaders) => Err(Fault::HeadTooLarge),
            Err(_) => Err(Fault::BadRequest),
        },
    }
}

/// The part at the front of what came, if it is whole.
///
/// Refused as `HeadTooLarge` or `BadRequest` for what came, whatever follows it.
pub(crate) fn find(
    limits: &Limits,
    part: Part,
    unread: &Unread,
    spans: &mut Vec<HeaderSpan>,
) -> Result<Option<Found>, Fault>
    requires size { vec_len unread.now.buffer ≤ limits.now.head }
    requires places { vec_len spans.old ≡ limits.now.fields }
    ensures found { IfOk result (λ found. IfSome found (IsFound limits.now.fields part (bytes_of unread.now) spans.new.items)) }
    ensures none { IfOk result (λ found. IfNone found (HasNo part (bytes_of unread.now))) }
    ensures small { IfOk result (λ found. IfNone found (length (bytes_of unread.now) < limits.now.head)) }
    ensures refused { IfErr result (λ fault. (more : List ℕ) → SomeFront limits.now part fault (bytes_of unread.now ++ more)) }
    ensures fault { IfErr result (λ fault. IsTrue (is_of_bytes fault)) }
    ensures places { vec_len spans.new ≡ vec_len spans.old }
{
    let bytes = unread.bytes();
    let found = parse_at(part, bytes, spans)?;
    if found.is_none() && bytes.len() >= limits.head {
        return Err(Fault::HeadTooLarge);
    }
    Ok(found)
}
