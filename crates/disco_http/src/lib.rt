//! HTTP/1.x on one connection: requests and replies are read through a buffer, a service answers the
//! requests, and the replies are written. Whole inputs are read and whole texts written too.
#![tactic(auto)]

mod body;
mod incoming;
mod outgoing;
mod parts;
mod reader;
mod received;
mod replies;
mod requests;
mod service;
mod session;
mod source;
mod steps;
mod unread;
mod whole;
mod writer;

pub use disco_message::{Allow, Document, Limits, Method, Reply, Request, StatusCode};
pub use reader::Reader;
pub use received::ReceivedReply;
pub use replies::write_reply;
pub use service::Service;
pub use session::{End, Served, serve};
pub use source::{Counted, Failed, Sink, Source, Stage};
pub use steps::{Buffers, Next, Session};
pub use whole::{read_all, write_all};
pub use writer::Writer;
