//! The event loop that all workers of a server share.
ghost use Rattle.std.specs.Prelude.{◌≡◌, ◌⊎◌, IfErr, IsFalse};
ghost use Rattle.disco_values.specs.declared.fault.Fault.TheVariants.{OutOfMemory, ReadFailed};

use crate::acceptor::{Acceptor, Refusal};
use crate::accepts::{Accepted, accept};
use crate::connection::{Connection, Turn};
use crate::deadline::Deadline;
use crate::held::Held;
use crate::poller::Poller;
use crate::room::Room;
use crate::send_buffer::bound_send_buffer;
use crate::slots::Slots;
use crate::timeouts::{Phase, Timeouts};
use disco_http::{Service, Session};
use disco_message::{Document, Limits};
use disco_values::Fault;
use mio::unix::SourceFd;
use mio::{Events, Interest, Poll, Registry, Token, Waker};
use std::alloc::Global;
use std::net::{Net, TcpListener, TcpStream};
use std::os::fd::{AsRawFd, RawFd};
use std::sync::{Mutex, MutexGuard, Wait};
use std::time::{Duration, Instant};
use std::{io, mem, rt, thread};

/// How many events one wait gives, at most.
const EVENTS: usize = 64;

/// So many ready connections are served before one of the queue.
const BEFORE: usize = 8;

/// The token of the listener.
const LISTENER: Token = Token(usize::MAX);

/// The token of what wakes the worker that waits.
const WAKER: Token = Token(usize::MAX - 1);

/// How many milliseconds a worker pauses where the host refuses a wait.
const PAUSE_MILLIS: u64 = 50;

/// All connections of a listener. Workers share them: the one that has the lock of the poller waits
/// for a connection that is ready, takes it out of its slot, and unlocks the poller. Workers keep a `K`
/// with each connection between two turns.
#[derive(Drop)]
pub struct EventLoop<'a, D, K> {
    listener: &'a TcpListener,
    limits: Limits,
    timeouts: Timeouts,
    /// The moment 0; nothing where the host's clock can't be read.
    begun: Option<Instant>,
    registry: Registry,
    waker: Waker,
    /// Its lock is taken before that of the slots.
    pub poller: Mutex<Poller>,
    slots: Mutex<Slots<D, K>>,
    held: Held,
}

/// Has the poll report the listener again, where a connection is to be accepted.
fn rearm_listener(registry: &Registry, listener: &TcpListener) -> io::Result<()> {
    let fd = listener.as_raw_fd();
    registry.reregister(&mut SourceFd(&fd), LISTENER, Interest::READABLE)
}

/// Has the poll report a connection once there is something to read, and with `room` also once there is
/// room to write. It reports at once what is so already.
fn arm(registry: &Registry, fd: RawFd, key: usize, first: bool, room: bool) -> io::Result<()> {
    let interest = if room {
        Interest::READABLE | Interest::WRITABLE
    } else {
        Interest::READABLE
    };
    let mut source = SourceFd(&fd);
    if first {
        registry.register(&mut source, Token(key), interest)
    } else {
        registry.reregister(&mut source, Token(key), interest)
    }
}

impl<'a, D: Document + Drop, K: Drop> EventLoop<'a, D, K> {
    /// No connection yet. At most `slots` are open at once, and `connections` are accepted in all, where
    /// that isn't 0.
    ///
    /// # Errors
    ///
    /// What the host says where it refuses a descriptor, and want of memory.
    pub fn new<N: Net + rt::Clock>(
        rt: &N,
        alloc: Global,
        listener: &'a TcpListener,
        limits: Limits,
        timeouts: Timeouts,
        slots: usize,
        connections: u64,
    ) -> io::Result<EventLoop<'a, D, K>> {
        listener.set_nonblocking(true)?;
        let events = Events::with_capacity(alloc, EVENTS)?;
        let poll = Poll::new(rt)?;
        let registry = poll.registry().try_clone()?;
        let waker = Waker::new(&registry, WAKER)?;
        let fd = listener.as_raw_fd();
        registry.register(&mut SourceFd(&fd), LISTENER, Interest::READABLE)?;
        let poller = Poller {
            acceptor: Acceptor::new(connections),
            poll,
            events,
            taken: 0,
            before: 0,
            looked: 0,
        };
        Ok(EventLoop {
            listener,
            limits,
            timeouts,
            begun: Instant::now(rt).ok(),
            registry,
            waker,
            poller: Mutex::new(poller),
            slots: Mutex::new(Slots::new(alloc, slots)?),
            held: Held::new(),
        })
    }

    /// Why connections were refused, if they were.
    ///
    /// # Errors
    ///
    /// As [`Acceptor::outcome`].
    pub fn into_outcome(self) -> Result<(), Fault>
        ensures { IfErr result (λ fault. (fault ≡ OutOfMemory) ⊎ (fault ≡ ReadFailed)) }
    {
        let EventLoop { poller, .. } = self;
        poller.into_inner().acceptor.outcome()
    }

    /// The moment in milliseconds since the loop was made; 0 where the host's clock can't be read.
    fn moment<R: rt::Clock>(&self, rt: &R) -> u64 {
        match &self.begun {
            Some(begun) => match begun.elapsed(rt) {
                Ok(time) => u64::try_from(time.as_millis()).unwrap_or(u64::MAX),
                Err(_) => 0,
            },
            None => 0,
        }
    }

    /// The next connection to serve: one that is ready, or else the first of the queue. Waits for one. None
    /// once no more are accepted and all have ended.
    pub fn next<R: Wait + rt::Clock>(
        &self,
        rt: &R,
        alloc: Global,
    ) -> Option<Box<Connection<D, K>>> {
        let mut poller = self.poller.lock(rt);
        for _ in rt.forever() {
            if self.is_over(rt, &poller.acceptor) {
                return None;
            }
            let taken = if poller.before < BEFORE {
                self.next_ready(rt, alloc, &mut *poller)
            } else {
                self.next_queued(rt, &mut *poller)
            };
            if taken.is_some() {
                return taken;
            }
        }
        None
    }

    /// A connection that is ready, if there is one. Else it polls, and waits only while the queue is empty.
    fn next_ready<R: Wait + rt::Clock>(
        &self,
        rt: &R,
        alloc: Global,
        poller: &mut Poller,
    ) -> Option<Box<Connection<D, K>>> {
        match poller.next_token() {
            Some(token) => {
                poller.before = poller.before.saturating_add(1);
                self.take(rt, alloc, &mut poller.acceptor, token)
            }
            None => {
                if self.wait(rt, poller) {
                    return None;
                }
                self.next_queued(rt, poller)
            }
        }
    }

    /// The first connection of the queue.
    fn next_queued<R: Wait>(&self, rt: &R, poller: &mut Poller) -> Option<Box<Connection<D, K>>> {
        poller.before = 0;
        self.slots.lock(rt).next_queued()
    }

    /// Whether no more connections are accepted and all have ended.
    fn is_over<R: Wait>(&self, rt: &R, acceptor: &Acceptor) -> bool {
        if acceptor.is_open() {
            return false;
        }
        let mut slots = self.slots.lock(rt);
        slots.is_shut = true;
        slots.is_empty()
    }

    /// Polls until something is ready or deadlines are due to be checked; while there is a queue, without
    /// waiting. Whether something is ready.
    fn wait<R: Wait + rt::Clock>(&self, rt: &R, poller: &mut Poller) -> bool {
        let now = self.moment(rt);
        if now.saturating_sub(poller.looked) >= self.timeouts.look {
            poller.looked = now;
            self.check_deadlines(rt, now);
        }
        let may_wait = self.slots.lock(rt).begin_wait();
        let waited = poller.wait(if may_wait { self.timeouts.look } else { 0 });
        self.slots.lock(rt).end_wait();
        if !waited {
            thread::sleep(rt, Duration::from_millis(PAUSE_MILLIS));
        }
        waited && !poller.events.is_empty()
    }

    /// The connection of a token: the one in the slot, or a new one.
    fn take<R: Wait + rt::Clock>(
        &self,
        rt: &R,
        alloc: Global,
        acceptor: &mut Acceptor,
        token: Token,
    ) -> Option<Box<Connection<D, K>>> {
        if token == LISTENER {
            self.accept_next(rt, alloc, acceptor)
        } else if token == WAKER {
            None
        } else {
            self.slots.lock(rt).call(token.0)
        }
    }

    /// Accepts a connection, if there is a slot for one.
    fn accept_next<R: Wait + rt::Clock>(
        &self,
        rt: &R,
        alloc: Global,
        acceptor: &mut Acceptor,
    ) -> Option<Box<Connection<D, K>>> {
        if !acceptor.is_open() || !self.make_slot(rt) {
            return None;
        }
        match accept(self.listener, acceptor) {
            Accepted::Taken(stream, number) => {
                let _ = rearm_listener(&self.registry, self.listener);
                self.open(rt, alloc, stream, number)
            }
            Accepted::Gone => {
                let _ = rearm_listener(&self.registry, self.listener);
                None
            }
            Accepted::Full => {
                if self.end_idlest(self.slots.lock(rt)) {
                    let _ = rearm_listener(&self.registry, self.listener);
                }
                None
            }
            Accepted::Later => {
                self.slots.lock(rt).is_awaited = true;
                None
            }
            Accepted::Nothing | Accepted::Refused => None,
        }
    }

    /// Whether there is a slot for one more connection. The idlest one may end for it.
    fn make_slot<R: Wait>(&self, rt: &R) -> bool {
        let slots = self.slots.lock(rt);
        !slots.is_full() || self.end_idlest(slots)
    }

    /// Ends the connection that has been idle longest between requests. False where none is idle: then a
    /// free slot is awaited from now on.
    fn end_idlest(&self, mut slots: MutexGuard<'_, Slots<D, K>>) -> bool {
        let Some(key) = slots.idlest() else {
            slots.is_awaited = true;
            return false;
        };
        let ended = slots.free(key);
        MutexGuard::unlock(slots);
        self.close(ended);
        true
    }

    /// Closes a connection. Its bytes no longer count.
    fn close(&self, ended: Option<Box<Connection<D, K>>>) {
        if let Some(mut connection) = ended {
            connection.release(&self.held);
        }
    }

    /// Gives a new connection a slot. Closes it where there is no memory, or where the host refuses its
    /// options.
    fn open<R: Wait + rt::Clock>(
        &self,
        rt: &R,
        alloc: Global,
        stream: TcpStream,
        number: u64,
    ) -> Option<Box<Connection<D, K>>> {
        let is_set = stream.set_nonblocking(true).is_ok()
            && stream.set_nodelay(true).is_ok()
            && bound_send_buffer(stream.as_raw_fd());
        if !is_set {
            return None;
        }
        let key = self.slots.lock(rt).add()?;
        let session = Session::new(alloc, self.limits);
        let deadline = Deadline::new(&self.timeouts, self.moment(rt));
        let connection = Connection::new(stream, session, number, key, deadline);
        match Box::new(alloc, connection) {
            Ok(connection) => Some(connection),
            Err(_) => {
                self.free_slot(rt, key);
                None
            }
        }
    }

    /// Serves a connection for a turn. [`EventLoop::leave`] follows.
    pub fn serve<S: Service<Body = D>>(
        &self,
        alloc: Global,
        connection: &mut Connection<D, K>,
        room: &mut Room,
        service: &mut S,
    ) -> Turn {
        connection.go_on(alloc, &self.held, room, service)
    }

    /// Puts a connection back behind a turn, or ends it. Gives it back where it could go on and nothing else
    /// is ready: ready connections go first.
    pub fn leave<R: Wait + rt::Clock>(
        &self,
        rt: &R,
        mut connection: Box<Connection<D, K>>,
        turn: Turn,
    ) -> Option<Box<Connection<D, K>>> {
        let freed = mem::replace(&mut connection.has_released, false) || turn == Turn::Over;
        let again = if turn == Turn::Over {
            self.end(rt, connection);
            None
        } else {
            connection.expect(&self.timeouts, self.moment(rt));
            self.put_back(rt, connection, turn)
        };
        if freed && self.held.is_short() {
            self.resume_reads(&mut *self.slots.lock(rt));
        }
        again
    }

    /// Ends a connection.
    fn end<R: Wait>(&self, rt: &R, connection: Box<Connection<D, K>>) {
        let key = connection.key;
        self.close(Some(connection));
        self.free_slot(rt, key);
    }

    /// Frees the slot of a connection that a worker had.
    fn free_slot<R: Wait>(&self, rt: &R, key: usize) {
        let mut slots = self.slots.lock(rt);
        let _ = slots.free(key);
        self.notify_free(slots);
    }

    /// Notifies whoever waits for a free slot, or for the last connection to end.
    fn notify_free(&self, mut slots: MutexGuard<'_, Slots<D, K>>) {
        let is_awaited = mem::replace(&mut slots.is_awaited, false);
        let is_over = slots.is_shut && slots.is_empty();
        MutexGuard::unlock(slots);
        if is_awaited {
            let _ = rearm_listener(&self.registry, self.listener);
        }
        if is_over {
            let _ = self.waker.wake();
        }
    }

    /// Puts a connection back whose deadline is set. Gives it back where it could go on and nothing else is
    /// ready.
    fn put_back<R: Wait>(
        &self,
        rt: &R,
        connection: Box<Connection<D, K>>,
        turn: Turn,
    ) -> Option<Box<Connection<D, K>>>
        requires { IsFalse connection.value.has_answered }
    {
        if connection.is_paused {
            self.held.note_short(true);
        }
        if turn != Turn::Rests {
            return self.enqueue(rt, connection);
        }
        let lacks_room = connection.phase() == Phase::Reply && !connection.awaits_room;
        if !connection.is_armed || lacks_room {
            self.rest_armed(rt, connection);
            return None;
        }
        let again = self.slots.lock(rt).rest(connection)?;
        self.enqueue(rt, again)
    }

    /// Puts a connection into the queue. Gives it back where nothing is ready.
    fn enqueue<R: Wait>(
        &self,
        rt: &R,
        connection: Box<Connection<D, K>>,
    ) -> Option<Box<Connection<D, K>>> {
        let put = self.slots.lock(rt).enqueue(connection);
        match put {
            Ok(again) => again,
            Err(connection) => {
                self.rest_armed(rt, connection);
                None
            }
        }
    }

    /// Puts a connection into its slot, and has the poll report it: at once where it is ready, behind the
    /// others. The slots stay locked meanwhile, so nobody takes it before.
    fn rest_armed<R: Wait>(&self, rt: &R, mut connection: Box<Connection<D, K>>) {
        let (fd, key) = (connection.stream.as_raw_fd(), connection.key);
        let first = !connection.is_armed;
        let room = connection.awaits_room || connection.phase() == Phase::Reply;
        connection.is_armed = true;
        connection.awaits_room = room;
        let mut slots = self.slots.lock(rt);
        slots.leave(connection);
        if arm(&self.registry, fd, key, first, room).is_err() {
            self.close(slots.free(key));
            self.notify_free(slots);
        }
    }

    /// Puts the connections into the queue that are past their deadlines, and resumes reads where there is
    /// memory again.
    fn check_deadlines<R: Wait>(&self, rt: &R, now: u64) {
        let mut slots = self.slots.lock(rt);
        slots.queue_late(now);
        self.resume_reads(&mut *slots);
        if mem::replace(&mut slots.is_awaited, false) {
            let _ = rearm_listener(&self.registry, self.listener);
        }
    }

    /// Resumes reads that were paused: all of them where there is memory again. Else the one that keeps most
    /// is read to the end of its body, one at a time.
    fn resume_reads(&self, slots: &mut Slots<D, K>) {
        let all = self.held.has_room();
        let mut most: Option<(usize, u64)> = None;
        for key in 0..slots.bound() {
            let Some(connection) = slots.waiting(key) else {
                continue;
            };
            if !connection.is_paused {
                continue;
            }
            if all {
                self.rearm(connection);
            } else if most.is_none_or(|(_, held)| connection.held > held) {
                most = Some((key, connection.held));
            }
        }
        self.held.note_short(most.is_some());
        if let Some((key, _)) = most
            && let Some(connection) = slots.waiting(key)
            && self.held.begin_pass()
        {
            connection.may_pass = true;
            self.rearm(connection);
        }
    }

    /// Has the poll report again what a connection has to read.
    fn rearm(&self, connection: &mut Connection<D, K>) {
        connection.is_paused = false;
        let (fd, room) = (connection.stream.as_raw_fd(), connection.awaits_room);
        let _ = arm(&self.registry, fd, connection.key, false, room);
    }
}
