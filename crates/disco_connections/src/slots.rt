//! The slots of all connections.
use crate::connection::Connection;
use crate::slot::Slot;
use crate::timeouts::Phase;
use slab::Slab;
use std::alloc::{AllocError, Global};
use std::collections::VecDeque;

/// How many connections are in the queue at most.
const QUEUE: usize = 4_096;

/// A slot for each open connection, and a queue of those to serve next.
#[derive(Drop)]
pub(crate) struct Slots<D, K> {
    slots: Slab<Slot<Box<Connection<D, K>>>>,
    most: usize,
    /// The keys of connections that could go on, or are to end. Ready ones are served before.
    queue: VecDeque<usize>,
    /// A worker waits in the poll, and the queue is empty.
    is_waiting: bool,
    /// The next connection is accepted as soon as there is a slot for it.
    pub(crate) is_awaited: bool,
    /// No more connections are accepted.
    pub(crate) is_shut: bool,
}

impl<D: Drop, K: Drop> Slots<D, K> {
    /// No connection.
    pub(crate) fn new(alloc: Global, most: usize) -> Result<Slots<D, K>, AllocError> {
        Ok(Slots {
            slots: Slab::new(alloc),
            most,
            queue: VecDeque::with_capacity(alloc, QUEUE)?,
            is_waiting: false,
            is_awaited: false,
            is_shut: false,
        })
    }

    /// Whether no connection has a slot.
    pub(crate) fn is_empty(&self) -> bool {
        self.slots.is_empty()
    }

    /// Whether there are as many connections as there may be.
    pub(crate) fn is_full(&self) -> bool {
        self.slots.len() >= self.most
    }

    /// A slot for a connection that a worker has. None where there is no memory.
    pub(crate) fn add(&mut self) -> Option<usize> {
        self.slots.insert(Slot::Served).ok()
    }

    /// Frees a slot. Gives the connection that waited there.
    pub(crate) fn free(&mut self, key: usize) -> Option<Box<Connection<D, K>>> {
        match self.slots.try_remove(key) {
            Some(Slot::Waits(connection)) => Some(connection),
            _ => None,
        }
    }

    /// As [`Slot::call`].
    pub(crate) fn call(&mut self, key: usize) -> Option<Box<Connection<D, K>>> {
        self.slots.get_mut(key)?.call()
    }

    /// As [`Slot::rest`].
    pub(crate) fn rest(
        &mut self,
        connection: Box<Connection<D, K>>,
    ) -> Option<Box<Connection<D, K>>> {
        self.slots.get_mut(connection.key)?.rest(connection)
    }

    /// Puts a connection into its slot, also where it was ready meanwhile.
    pub(crate) fn leave(&mut self, connection: Box<Connection<D, K>>) {
        if let Some(slot) = self.slots.get_mut(connection.key) {
            *slot = Slot::Waits(connection);
        }
    }

    /// Puts a connection into the queue. Gives it back where a worker waits in the poll: then nothing is
    /// ready that would be served before. It is an error where the queue is full.
    pub(crate) fn enqueue(
        &mut self,
        connection: Box<Connection<D, K>>,
    ) -> Result<Option<Box<Connection<D, K>>>, Box<Connection<D, K>>> {
        if self.is_waiting {
            return Ok(Some(connection));
        }
        if self.queue.len() >= QUEUE || self.queue.push_back(connection.key).is_err() {
            return Err(connection);
        }
        self.leave(connection);
        Ok(None)
    }

    /// Puts the connections into the queue that are past their deadlines, while it has room. Whoever takes
    /// one ends it, which may take long, without this lock.
    pub(crate) fn queue_late(&mut self, now: u64) {
        for key in 0..self.bound() {
            if self.queue.len() >= QUEUE {
                return;
            }
            if self.is_late(key, now) && self.queue.push_back(key).is_err() {
                let _ = self.free(key);
            }
        }
    }

    /// Whether the connection in a slot is past its deadline, and wasn't noted as such. It is noted.
    fn is_late(&mut self, key: usize, now: u64) -> bool {
        match self.waiting(key) {
            Some(connection) if !connection.is_late && connection.deadline.is_over(now) => {
                connection.is_late = true;
                true
            }
            _ => false,
        }
    }

    /// Takes the first connection of the queue.
    pub(crate) fn next_queued(&mut self) -> Option<Box<Connection<D, K>>> {
        let key = self.queue.pop_front()?;
        self.call(key)
    }

    /// A worker is about to poll. Whether it may wait: only while the queue is empty.
    pub(crate) fn begin_wait(&mut self) -> bool {
        self.is_waiting = self.queue.is_empty();
        self.is_waiting
    }

    /// It has polled.
    pub(crate) fn end_wait(&mut self) {
        self.is_waiting = false;
    }

    /// All keys are below this.
    pub(crate) fn bound(&self) -> usize {
        self.slots.capacity()
    }

    /// The connection that waits in a slot.
    pub(crate) fn waiting(&mut self, key: usize) -> Option<&mut Box<Connection<D, K>>> {
        match self.slots.get_mut(key) {
            Some(Slot::Waits(connection)) => Some(connection),
            _ => None,
        }
    }

    /// The key of the connection that has been idle longest between requests.
    pub(crate) fn idlest(&self) -> Option<usize> {
        let mut found: Option<(usize, u64)> = None;
        for (key, slot) in self.slots.iter() {
            let Slot::Waits(connection) = slot else {
                continue;
            };
            let deadline = connection.deadline;
            if deadline.phase != Phase::Between {
                continue;
            }
            if found.is_none_or(|(_, moment)| deadline.moment < moment) {
                found = Some((key, deadline.moment));
            }
        }
        found.map(|(key, _)| key)
    }
}
