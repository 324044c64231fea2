//! What one worker at a time polls with.
use crate::acceptor::Acceptor;
use mio::{Events, Poll, Token};
use std::time::Duration;

/// The acceptor, and what tells which connections are ready.
#[derive(Drop)]
pub struct Poller {
    pub acceptor: Acceptor,
    pub(crate) poll: Poll,
    pub(crate) events: Events,
    /// How many of the events were handled.
    pub(crate) taken: usize,
    /// How many ready connections were served since the last one of the queue.
    pub(crate) before: usize,
    /// When deadlines were checked last.
    pub(crate) looked: u64,
}

impl Poller {
    /// The next token of the last poll.
    pub(crate) fn next_token(&mut self) -> Option<Token> {
        let event = self.events.iter().nth(self.taken)?;
        self.taken = self.taken.saturating_add(1);
        Some(event.token())
    }

    /// Polls for so many milliseconds at most. False where the host refuses.
    pub(crate) fn wait(&mut self, millis: u64) -> bool {
        self.taken = 0;
        let time = Duration::from_millis(millis);
        self.poll.poll(&mut self.events, Some(time)).is_ok()
    }
}
