//! Documents that are answered.

use disco_cache::Payload;
use disco_message::Document;
use std::alloc::Global;
use std::sync::Arc;

/// A document that readers share: no byte of it is copied.
#[derive(Debug, Drop)]
pub struct Shared {
    pub payload: Arc<Payload, Global>,
}

impl Document for Shared {
    ghost use Rattle.disco_server.specs.Replies.{shared_text};

    ghost content = { shared_text };

    fn bytes(&self) -> &[u8] {
        self.payload.text.as_slice()
    }
}
