//! The head of a reply, pushed into room that is there.
ghost use Rattle.std.specs.Prelude.{◌≡◌, ◌≤◌, ◌+◌, ◌++◌, codes, decimal, length, vec_len};
ghost use Rattle.std.specs.Vec.{vec_capacity};
ghost use Rattle.disco_message.specs.ReplyText.{type_line, length_line, certificate_line, allow_line, close_line, body_lines, reply_head};
ghost use Rattle.disco_message.specs.StatusLine.{status_line};

use crate::status_line::{Allow, phrase};
use disco_values::Cert;
use http::StatusCode;
use itoa::Buffer;

/// How many bytes have room for the head of any reply.
pub const HEAD_ROOM: usize = 256;

/// Pushes bytes into room that is there. Takes no memory.
pub fn push_bytes(out: &mut Vec<u8>, bytes: &[u8])
    requires { vec_len out.old + length bytes.now ≤ vec_capacity out.old }
    ensures bytes { out.new.items ≡ out.old.items ++ bytes.now }
    ensures len { vec_len out.new ≡ vec_len out.old + length bytes.now }
    ensures capacity { vec_capacity out.old ≤ vec_capacity out.new }
{
    out.extend_from_slice(bytes).unwrap();
}

/// Pushes a number in decimal digits.
fn push_number(out: &mut Vec<u8>, number: u64)
    requires { vec_len out.old + 20 ≤ vec_capacity out.old }
    ensures text { out.new.items ≡ out.old.items ++ decimal number }
    ensures len { vec_len out.new ≤ vec_len out.old + 20 }
    ensures capacity { vec_capacity out.old ≤ vec_capacity out.new }
{
    let mut digits = Buffer::new();
    push_bytes(out, digits.format(number).as_bytes());
}

#[tactic(auto, unfolding(crate::specs::ReplyText::type_line))]
fn type_line() -> &'static [u8]
    ensures text { result.now ≡ type_line }
    ensures short { length result.now ≡ 32 }
{
    b"Content-Type: application/json\r\n"
}

#[tactic(auto, unfolding(crate::specs::ReplyText::close_line))]
fn close_line(last: bool) -> &'static [u8]
    ensures text { result.now ≡ close_line last }
    ensures short { length result.now ≤ 19 }
{
    if last { b"Connection: close\r\n" } else { b"" }
}

fn push_status(out: &mut Vec<u8>, status: StatusCode)
    requires { vec_len out.old + 46 ≤ vec_capacity out.old }
    ensures text { out.new.items ≡ out.old.items ++ status_line status }
    ensures len { vec_len out.new ≤ vec_len out.old + 46 }
    ensures capacity { vec_capacity out.old ≤ vec_capacity out.new }
{
    push_bytes(out, b"HTTP/1.1 ");
    push_bytes(out, status.as_str().as_bytes());
    push_bytes(out, b" ");
    push_bytes(out, phrase(status).as_bytes());
    push_bytes(out, b"\r\n");
}

fn push_length(out: &mut Vec<u8>, size: u64)
    requires { vec_len out.old + 38 ≤ vec_capacity out.old }
    ensures text { out.new.items ≡ out.old.items ++ length_line size }
    ensures len { vec_len out.new ≤ vec_len out.old + 38 }
    ensures capacity { vec_capacity out.old ≤ vec_capacity out.new }
{
    push_bytes(out, b"Content-Length: ");
    push_number(out, size);
    push_bytes(out, b"\r\n");
}

/// Pushes a number and a space behind it.
fn push_spaced(out: &mut Vec<u8>, number: u64)
    requires { vec_len out.old + 21 ≤ vec_capacity out.old }
    ensures text { out.new.items ≡ out.old.items ++ (decimal number ++ codes " ") }
    ensures len { vec_len out.new ≤ vec_len out.old + 21 }
    ensures capacity { vec_capacity out.old ≤ vec_capacity out.new }
{
    push_number(out, number);
    out.push_reserved(b' ');
}

fn push_certificate(out: &mut Vec<u8>, cert: Option<Cert>)
    requires { vec_len out.old + 89 ≤ vec_capacity out.old }
    ensures text { out.new.items ≡ out.old.items ++ certificate_line cert }
    ensures len { vec_len out.new ≤ vec_len out.old + 89 }
    ensures capacity { vec_capacity out.old ≤ vec_capacity out.new }
{
    if let Some(cert) = cert {
        push_bytes(out, b"X-Discovery-Certificate: ");
        push_spaced(out, cert.run);
        push_spaced(out, cert.base);
        push_number(out, cert.version);
        push_bytes(out, b"\r\n");
    }
}

fn push_allow(out: &mut Vec<u8>, allow: Option<Allow>)
    requires { vec_len out.old + 25 ≤ vec_capacity out.old }
    ensures text { out.new.items ≡ out.old.items ++ allow_line allow }
    ensures len { vec_len out.new ≤ vec_len out.old + 25 }
    ensures capacity { vec_capacity out.old ≤ vec_capacity out.new }
{
    if let Some(methods) = allow {
        push_bytes(out, b"Allow: ");
        push_bytes(out, methods.text());
        push_bytes(out, b"\r\n");
    }
}

/// Pushes the lines on the body: of a document of `size` bytes, or an empty one.
fn push_body_lines(out: &mut Vec<u8>, status: StatusCode, size: Option<u64>)
    requires { vec_len out.old + 70 ≤ vec_capacity out.old }
    ensures text { out.new.items ≡ out.old.items ++ body_lines status size }
    ensures len { vec_len out.new ≤ vec_len out.old + 70 }
    ensures capacity { vec_capacity out.old ≤ vec_capacity out.new }
{
    if status.as_u16() == 204 {
        return;
    }
    match size {
        None => push_length(out, 0),
        Some(size) => {
            push_bytes(out, type_line());
            push_length(out, size);
        }
    }
}

/// Pushes the head of a reply with a document of `size` bytes and its certificate, or with none,
/// into room that is there; `last` says that the connection ends behind the reply. Takes no memory.
pub fn push_head(
    out: &mut Vec<u8>,
    status: StatusCode,
    allow: Option<Allow>,
    size: Option<u64>,
    cert: Option<Cert>,
    last: bool,
)
    requires { vec_len out.old + HEAD_ROOM ≤ vec_capacity out.old }
    ensures text { out.new.items ≡ out.old.items ++ reply_head status allow size cert last }
    ensures len { vec_len out.new ≤ vec_len out.old + HEAD_ROOM }
    ensures capacity { vec_capacity out.old ≤ vec_capacity out.new }
{
    push_status(out, status);
    push_body_lines(out, status, size);
    push_certificate(out, cert);
    push_allow(out, allow);
    push_bytes(out, close_line(last));
    push_bytes(out, b"\r\n");
}
