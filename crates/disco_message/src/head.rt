//! The head of a request, copied out of its buffer.
ghost use Rattle.std.specs.Prelude.{◌≡◌, ◌⊎◌, length, take, map, All, IfOk, IfErr, IsErrOf, IsOk, Err};
ghost use Rattle.http_header.specs.Token.{IsToken};
ghost use Rattle.httparse.specs.Grammar.{RequestHead};
ghost use Rattle.httparse.specs.Spans.{IsRequestAt, IsRequestWithin, IsHeaderWithin, header_bytes};
ghost use Rattle.disco_message.specs.Heading.{heading, closes};
ghost use Rattle.disco_values.specs.declared.fault.Fault.TheVariants.{BadRequest, UnsupportedCoding, OutOfMemory};

use crate::fields::Values;
use crate::framing::{Framing, framed};
use crate::lists::any_lists;
use crate::room::{HeadRoom, refill_bytes, refill_spans};
use crate::target::{Path, path_of};
use disco_values::Fault;
use http::Method;
use http::method::MethodError;
use httparse::spans::{HeaderSpan, RequestSpans};
use std::alloc::{AllocError, Global};
use std::marker::Model;

/// The head of a request that isn't refused. Contracts see what it says.
#[derive(Debug, Drop)]
pub struct Head {
    method: Method,
    text: Vec<u8>,
    spans: Vec<HeaderSpan>,
    target: Vec<u8>,
    framing: Framing,
    closes: bool,
}

impl Model for Head {
    ghost use Rattle.std.specs.Prelude.{length, map, All};
    ghost use Rattle.httparse.specs.Spans.{IsHeaderWithin, header_bytes};
    ghost use Rattle.disco_message.specs.Heading.{Heading};

    ghost Value = { Heading };

    ghost view = { λ h. record {
      method = h.method;
      target = h.target.items;
      fields = map (header_bytes h.text.items) h.spans.items;
      framing = h.framing;
      closes = h.closes;
    } };

    ghost invariant = { λ h. All (IsHeaderWithin (length h.text.items)) h.spans.items };
}

/// Whether the connection ends behind the reply.
pub(crate) fn closes(text: &[u8], minor: u8, fields: &[HeaderSpan]) -> bool
    requires { All (IsHeaderWithin (length text.now)) fields.now }
    ensures { result ≡ closes minor (map (header_bytes text.now) fields.now) }
{
    minor == 0 || any_lists(text, fields, b"connection", b"close")
}

/// The method of that name. A name that is no token has none.
fn method_of(alloc: Global, name: &[u8]) -> Result<Method, Fault>
    ensures method { IfOk result (λ method. method ≡ name.now) }
    ensures invalid { IsErrOf result BadRequest → IsToken name.now → ⊥ }
    ensures fault { IfErr result (λ fault. (fault ≡ BadRequest) ⊎ (fault ≡ OutOfMemory)) }
{
    match Method::from_bytes(alloc, name) {
        Ok(method) => Ok(method),
        Err(MethodError::Invalid) => Err(Fault::BadRequest),
        Err(MethodError::OutOfMemory) => Err(Fault::OutOfMemory),
    }
}

/// Copies a head out of the buffer that it was found in.
fn copy(
    room: HeadRoom,
    buf: &[u8],
    spans: &[HeaderSpan],
    line: &RequestSpans,
    method: Method,
    path: Path<'_>,
    framing: Framing,
    closes: bool,
) -> Result<Head, AllocError>
    requires { IsRequestWithin buf.now spans.now line.now }
    ensures method { IfOk result (λ head. head.method ≡ method) }
    ensures target { IfOk result (λ head. head.target ≡ path.entry) }
    ensures fields { IfOk result (λ head. head.fields ≡ map (header_bytes buf.now) (take line.now.headers spans.now)) }
    ensures framing { IfOk result (λ head. head.framing ≡ framing) }
    ensures closes { IfOk result (λ head. head.closes ≡ closes) }
{
    let HeadRoom {
        mut text,
        spans: mut fields,
        mut target,
    } = room;
    path.copy_to(&mut target)?;
    refill_bytes(&mut text, &buf[..line.len])?;
    refill_spans(&mut fields, &spans[..line.headers])?;
    Ok(Head {
        method,
        text,
        spans: fields,
        target,
        framing,
        closes,
    })
}

impl Head {
    ghost use Rattle.disco_message.specs.Fields.{field_values};
    ghost use Rattle.disco_message.specs.ValuesLeft.{values_left};

    /// The head that was found at the front of a buffer, copied into room.
    ///
    /// # Errors
    ///
    /// `BadRequest` or `UnsupportedCoding` for what the head says, and else `OutOfMemory`.
    pub fn new(
        alloc: Global,
        room: HeadRoom,
        buf: &[u8],
        spans: &[HeaderSpan],
        line: &RequestSpans,
    ) -> Result<Head, Fault>
        requires { IsRequestWithin buf.now spans.now line.now }
        ensures says { (h : RequestHead) → IsRequestAt buf.now spans.now line.now h → (result ≡ heading h) ⊎ ((result ≡ Err OutOfMemory) × IsOk (heading h)) }
        ensures fault { IfErr result (λ fault. (fault ≡ BadRequest) ⊎ ((fault ≡ UnsupportedCoding) ⊎ (fault ≡ OutOfMemory))) }
    {
        let fields = &spans[..line.headers];
        let Some(path) = path_of(line.path.of(buf)) else {
            return Err(Fault::BadRequest);
        };
        let framing = framed(buf, line.version, fields)?;
        let closes = closes(buf, line.version, fields);
        let method = method_of(alloc, line.method.of(buf))?;
        match copy(room, buf, spans, line, method, path, framing, closes) {
            Ok(head) => Ok(head),
            Err(AllocError) => Err(Fault::OutOfMemory),
        }
    }

    /// Gives back the room that it takes.
    pub(crate) fn into_room(self) -> HeadRoom {
        let Head {
            text,
            spans,
            target,
            ..
        } = self;
        HeadRoom {
            text,
            spans,
            target,
        }
    }

    /// The method, as in the request.
    pub fn method(&self) -> &Method
        ensures { result.now ≡ self.now.method }
    {
        &self.method
    }

    /// The path with its query.
    pub fn target(&self) -> &[u8]
        ensures { result.now ≡ self.now.target }
    {
        &self.target
    }

    /// How the body is framed.
    pub fn framing(&self) -> Framing
        ensures { result ≡ self.now.framing }
    {
        self.framing
    }

    /// Whether the connection ends after the reply.
    pub fn closes(&self) -> bool
        ensures { result ≡ self.now.closes }
    {
        self.closes
    }

    /// The values of the fields of this name, in any case, in their order.
    pub fn values<'a>(&'a self, name: &'a [u8]) -> Values<'a>
        ensures { values_left result ≡ field_values name.now self.now.fields }
    {
        Values::new(&self.text, &self.spans, name)
    }
}
