//! Messages of HTTP/1.x as bytes: what a request's head says and asks, and the text of a reply.
//!
//! Nothing here reads or writes: heads come as slices, and a reply's head goes into room that is
//! there. Rules are those of RFC 9110 and RFC 9112, narrowed where a line says so.
#![tactic(auto)]

mod certificate;
mod fields;
mod framing;
mod head;
pub mod laws;
mod limits;
mod lists;
mod received;
mod reply;
mod reply_head;
mod request;
mod room;
mod status_line;
mod target;

pub use fields::{Values, eq_ignore_case};
pub use framing::Framing;
pub use head::Head;
pub use http::{Method, StatusCode};
pub use limits::Limits;
pub use received::{Extent, ReceivedHead};
pub use reply::{Document, Reply};
pub use reply_head::{HEAD_ROOM, push_bytes, push_head};
pub use request::Request;
pub use room::HeadRoom;
pub use status_line::{Allow, refusal};
