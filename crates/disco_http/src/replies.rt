//! Replies that are written, without memory.
ghost use Rattle.std.specs.Prelude.{◌≡◌, ◌≤◌, is_err, IfErr, IsFalse, OnOk, OnErr, length, option_map};
ghost use Rattle.std.specs.Io.KnownBytes.{Appends};
ghost use Rattle.std.specs.Vec.{vec_capacity};
ghost use Rattle.disco_values.specs.declared.fault.Fault.TheVariants.{WriteFailed};
ghost use Rattle.disco_message.specs.ReplyText.{reply_view, reply_text, reply_body};
ghost use Rattle.disco_http.specs.Causes.{Raises};
ghost use Rattle.disco_http.specs.Exchanges.{HasText};
ghost use Rattle.disco_http.specs.Writes.{AppendsProperFront};
ghost use Rattle.disco_http.specs.Sinks.{is_writer_spent, sink_of};

use crate::source::Sink;
use crate::writer::{SMALL_BODY, Writer};
use disco_message::{Document, Reply, push_bytes, push_head};
use disco_values::Fault;

/// The bytes of the document, but for a reply without content.
pub(crate) fn body_of<D: Document>(reply: &Reply<D>) -> &[u8]
    ensures { result.now ≡ reply_body reply.now.status (option_map D.content reply.now.document) }
{
    if reply.status.as_u16() == 204 {
        return b"";
    }
    match &reply.document {
        Some(document) => document.bytes(),
        None => b"",
    }
}

/// The number of bytes of the document, if there is one.
pub(crate) fn size_of<D: Document>(reply: &Reply<D>) -> Option<u64>
    ensures { result ≡ option_map length (option_map D.content reply.now.document) }
{
    match &reply.document {
        Some(document) => Some(document.bytes().len() as u64),
        None => None,
    }
}

/// Puts the head of a reply into the room, and its body behind it where that is small. Answers how
/// long both are.
pub(crate) fn put<D: Document>(text: &mut Vec<u8>, reply: &Reply<D>, last: bool) -> usize
    requires { 4352 ≤ vec_capacity text.old }
    ensures size { result ≡ length (reply_text (reply_view D.content reply.now) last) }
    ensures text { HasText (reply_text (reply_view D.content reply.now) last) text.new.items
        (reply_body reply.now.status (option_map D.content reply.now.document)) }
    ensures capacity { vec_capacity text.old ≤ vec_capacity text.new }
{
    let body = body_of(reply);
    text.clear();
    push_head(
        text,
        reply.status,
        reply.allow,
        size_of(reply),
        reply.cert,
        last,
    );
    let head = text.len();
    if body.len() <= SMALL_BODY {
        push_bytes(text, body);
    }
    head + body.len()
}

/// Writes a reply; `last` says that the connection ends behind it. Takes no memory.
///
/// # Errors
///
/// `WriteFailed` alone. Then a front of the reply was written, and the writer is spent.
pub fn write_reply<W: Sink, D: Document>(
    writer: &mut Writer<W>,
    reply: &Reply<D>,
    last: bool,
) -> Result<(), Fault>
    requires { IsFalse (is_writer_spent writer.old) }
    ensures written { OnOk result (Appends (W.contents (sink_of writer.old)) (W.contents (sink_of writer.new))
        (reply_text (reply_view D.content reply.now) last)) }
    ensures front { OnErr result (AppendsProperFront (W.contents (sink_of writer.old)) (W.contents (sink_of writer.new))
        (reply_text (reply_view D.content reply.now) last)) }
    ensures fault { IfErr result (λ fault. fault ≡ WriteFailed) }
    ensures cause { OnErr result (Raises (W.failed (sink_of writer.old)) (W.failed (sink_of writer.new))) }
    ensures none_failed { OnOk result (W.failed (sink_of writer.new) ≡ W.failed (sink_of writer.old)) }
    ensures spent { is_writer_spent writer.new ≡ is_err result }
{
    let size = put(&mut writer.room, reply, last);
    let result = writer.send(size, body_of(reply));
    writer.spent = result.is_err();
    result
}
