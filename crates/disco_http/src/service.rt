//! What answers requests.
ghost use Rattle.disco_message.specs.RequestView.{RequestView};
ghost use Rattle.disco_message.specs.ReplyText.{ReplyView, reply_view};

use disco_message::{Document, Reply, Request};

/// Answers requests, one after another.
pub trait Service {
    /// The documents of its replies.
    type Body: Document + Drop;

    // From the first state the reply answers what is asked, and leaves the second state.
    ghost answers: { Self → RequestView → ReplyView → Self → Type 0 };

    /// The reply to a request.
    fn call(&mut self, request: &Request) -> Reply<Self::Body>
        ensures { answers self.old request.now (reply_view Self.Body.content result) self.new };
}
