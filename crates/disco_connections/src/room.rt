//! What a worker lends to the connections that it serves.
use disco_http::Buffers;
use disco_message::Limits;
use std::alloc::{AllocError, Global};

/// Bytes of one read whose bytes are dropped, at most.
const DROPPED: usize = 4096;

/// What a worker lends to the connection that it serves.
#[derive(Drop)]
pub struct Room {
    /// What still comes behind a last reply.
    pub(crate) dropped: Vec<u8>,
    pub(crate) buffers: Buffers,
}

impl Room {
    /// Room for connections within these limits.
    ///
    /// # Errors
    ///
    /// `AllocError` where memory is refused.
    pub fn new(alloc: Global, limits: Limits) -> Result<Room, AllocError> {
        Ok(Room {
            dropped: vec![in alloc; 0; DROPPED]?,
            buffers: Buffers::new(alloc, limits)?,
        })
    }
}
