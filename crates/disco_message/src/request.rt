//! A request.
ghost use Rattle.std.specs.Prelude.{◌≡◌};
ghost use Rattle.disco_message.specs.RequestView.{request_view};

use crate::fields::Values;
use crate::head::Head;
use crate::room::HeadRoom;
use http::Method;
use std::marker::Model;

/// A whole request. Contracts see what it asks.
#[derive(Debug, Drop)]
pub struct Request {
    head: Head,
    body: Vec<u8>,
}

impl Model for Request {
    ghost use Rattle.disco_message.specs.RequestView.{RequestView, request_view};

    ghost Value = { RequestView };

    ghost view = { λ r. request_view r.head r.body.items };
}

impl Request {
    ghost use Rattle.disco_message.specs.Fields.{field_values};
    ghost use Rattle.disco_message.specs.ValuesLeft.{values_left};

    /// A head, and the body behind it. Takes no memory.
    pub fn new(head: Head, body: Vec<u8>) -> Request
        ensures { result ≡ request_view head body.items }
    {
        Request { head, body }
    }

    /// Gives back the room of its head and that of its body, for the next request.
    pub fn into_room(self) -> (HeadRoom, Vec<u8>) {
        (self.head.into_room(), self.body)
    }

    /// The method, as in the request: `get` is another one than `GET`.
    pub fn method(&self) -> &Method
        ensures { result.now ≡ self.now.method }
    {
        self.head.method()
    }

    /// The path with its query, not decoded. It begins with `/`.
    pub fn target(&self) -> &[u8]
        ensures { result.now ≡ self.now.target }
    {
        self.head.target()
    }

    /// Whether the connection ends after the reply.
    pub fn closes(&self) -> bool
        ensures { result ≡ self.now.closes }
    {
        self.head.closes()
    }

    /// The body, whatever it was framed by.
    pub fn body(&self) -> &[u8]
        ensures { result.now ≡ self.now.body }
    {
        &self.body
    }

    /// The values of the fields of this name, in any case, in their order.
    pub fn values<'a>(&'a self, name: &'a [u8]) -> Values<'a>
        ensures { values_left result ≡ field_values name.now self.now.fields }
    {
        self.head.values(name)
    }
}
