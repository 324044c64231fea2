//! The head of a reply that was received.
ghost use Rattle.std.specs.Prelude.{◌≡◌, ◌==◌, ◌⊎◌, ℕ, List, length, take, map, All, IfOk, IfErr, IsOk, Err};
ghost use Rattle.httparse.specs.Grammar.{ResponseHead};
ghost use Rattle.httparse.specs.Spans.{IsResponseAt, IsResponseWithin, IsHeaderWithin, header_bytes};
ghost use Rattle.disco_values.specs.declared.fault.Fault.TheVariants.{BadRequest, OutOfMemory};
ghost use Rattle.disco_message.specs.Received.{received, body_extent, extent_of};
ghost use Rattle.disco_message.specs.Few.{FewAre};

use crate::certificate::only_cert;
use crate::fields::{Few, Values, few_values};
use crate::framing::{Framing, framing_of};
use crate::head::closes;
use disco_values::{Cert, Fault};
use httparse::spans::{HeaderSpan, ResponseSpans};
use std::alloc::{AllocError, Global};
use std::marker::Model;

/// How the body of a reply ends (RFC 9112, section 6.3).
#[derive(Clone, Copy, Debug, PartialEq, Eq)]
pub enum Extent {
    Framed(Framing),
    /// At the end of the input.
    UntilEnd,
}

/// The head of a reply. Contracts see what it says.
#[derive(Debug, Drop)]
pub struct ReceivedHead {
    text: Vec<u8>,
    spans: Vec<HeaderSpan>,
    status: u16,
    extent: Extent,
    closes: bool,
}

impl Model for ReceivedHead {
    ghost use Rattle.std.specs.Prelude.{length, map, All};
    ghost use Rattle.httparse.specs.Spans.{IsHeaderWithin, header_bytes};
    ghost use Rattle.disco_message.specs.Received.{Received};

    ghost Value = { Received };

    ghost view = { λ h. record {
      status = h.status;
      fields = map (header_bytes h.text.items) h.spans.items;
      extent = h.extent;
      closes = h.closes;
    } };

    ghost invariant = { λ h. All (IsHeaderWithin (length h.text.items)) h.spans.items };
}

fn is_none(few: Few<'_>) -> bool
    ensures { (vs : List (List ℕ)) → FewAre few.entry vs → result ≡ (length vs == 0) }
{
    matches!(few, Few::None)
}

/// How the body ends, by the values of Content-Length and Transfer-Encoding.
fn extent_of(minor: u8, length: Few<'_>, coding: Few<'_>) -> Option<Extent>
    ensures { (lengths codings : List (List ℕ)) → FewAre length.entry lengths → FewAre coding.entry codings → result ≡ extent_of minor lengths codings }
{
    if is_none(length) && is_none(coding) {
        return Some(Extent::UntilEnd);
    }
    match framing_of(minor, length, coding) {
        Some(framing) => Some(Extent::Framed(framing)),
        None => None,
    }
}

/// How the body ends; a reply of status 204 has none.
fn body_extent(text: &[u8], line: &ResponseSpans, fields: &[HeaderSpan]) -> Option<Extent>
    requires { All (IsHeaderWithin (length text.now)) fields.now }
    ensures { result ≡ body_extent line.now.code line.now.version (map (header_bytes text.now) fields.now) }
{
    if line.code == 204 {
        return Some(Extent::Framed(Framing::Sized(0)));
    }
    let length = few_values(text, fields, b"content-length");
    let coding = few_values(text, fields, b"transfer-encoding");
    extent_of(line.version, length, coding)
}

/// Copies a head out of the buffer that it was found in.
fn copy(
    alloc: Global,
    buf: &[u8],
    spans: &[HeaderSpan],
    line: &ResponseSpans,
    extent: Extent,
    closes: bool,
) -> Result<ReceivedHead, AllocError>
    requires { IsResponseWithin buf.now spans.now line.now }
    ensures status { IfOk result (λ head. head.status ≡ line.now.code) }
    ensures fields { IfOk result (λ head. head.fields ≡ map (header_bytes buf.now) (take line.now.headers spans.now)) }
    ensures extent { IfOk result (λ head. head.extent ≡ extent) }
    ensures closes { IfOk result (λ head. head.closes ≡ closes) }
{
    let text = Vec::from_slice(alloc, &buf[..line.len])?;
    let spans = Vec::from_slice(alloc, &spans[..line.headers])?;
    Ok(ReceivedHead {
        text,
        spans,
        status: line.code,
        extent,
        closes,
    })
}

impl ReceivedHead {
    ghost use Rattle.disco_message.specs.Fields.{field_values};
    ghost use Rattle.disco_message.specs.ValuesLeft.{values_left};
    ghost use Rattle.disco_message.specs.Certificate.{certificate_of};

    /// The head that was found at the front of a buffer.
    ///
    /// # Errors
    ///
    /// `BadRequest` for what the head says, and else `OutOfMemory`.
    pub fn new(
        alloc: Global,
        buf: &[u8],
        spans: &[HeaderSpan],
        line: &ResponseSpans,
    ) -> Result<ReceivedHead, Fault>
        requires { IsResponseWithin buf.now spans.now line.now }
        ensures says { (h : ResponseHead) → IsResponseAt buf.now spans.now line.now h → (result ≡ received h)
            ⊎ ((result ≡ Err OutOfMemory) × IsOk (received h)) }
        ensures fault { IfErr result (λ fault. (fault ≡ BadRequest) ⊎ (fault ≡ OutOfMemory)) }
    {
        let fields = &spans[..line.headers];
        let Some(extent) = body_extent(buf, line, fields) else {
            return Err(Fault::BadRequest);
        };
        let closes = closes(buf, line.version, fields);
        match copy(alloc, buf, spans, line, extent, closes) {
            Ok(head) => Ok(head),
            Err(AllocError) => Err(Fault::OutOfMemory),
        }
    }

    /// The status code.
    pub fn status(&self) -> u16
        ensures { result ≡ self.now.status }
    {
        self.status
    }

    /// How the body ends.
    pub fn extent(&self) -> Extent
        ensures { result ≡ self.now.extent }
    {
        self.extent
    }

    /// Whether the connection ends after the reply.
    pub fn closes(&self) -> bool
        ensures { result ≡ self.now.closes }
    {
        self.closes
    }

    /// The certificate of the document (this project's own rule): the run, the base and the version
    /// that `X-Discovery-Certificate` spells, in digits with one space between them. `None` where
    /// the field is absent, comes twice or spells none.
    pub fn certificate(&self) -> Option<Cert>
        ensures { result ≡ certificate_of self.now.fields }
    {
        only_cert(few_values(&self.text, &self.spans, b"x-discovery-certificate"))
    }

    /// The values of the fields of this name, in any case, in their order.
    pub fn values<'a>(&'a self, name: &'a [u8]) -> Values<'a>
        ensures { values_left result ≡ field_values name.now self.now.fields }
    {
        Values::new(&self.text, &self.spans, name)
    }
}
