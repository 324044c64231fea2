//! One connection of a socket. A worker steps it until it would wait.
ghost use Rattle.std.specs.Prelude.{◌≡◌, IsFalse};
ghost use Rattle.disco_connections.specs.Awaited.{IsAwaited, awaited};

use crate::close::has_last_reply;
use crate::deadline::Deadline;
use crate::held::{FEW, Held};
use crate::room::Room;
use crate::timeouts::{Phase, Timeouts};
use disco_http::{End, Next, Service, Session, Stage};
use disco_message::Document;
use disco_values::Fault;
use std::alloc::Global;
use std::io::{ErrorKind, Read, Write};
use std::net::{Shutdown, TcpStream};

/// How many reads, answers and writes a worker makes for a connection before it turns to the others.
const STEPS: u64 = 256;

/// Bytes of one write, at most. What is left of a reply is written behind the others: a host may take
/// megabytes at once.
const WRITE: usize = 65_536;

/// How far a connection has gone.
#[derive(Clone, Copy, Debug, PartialEq, Eq)]
pub enum Turn {
    /// It waits for the host.
    Rests,
    /// It could go on.
    Goes,
    /// It is over.
    Over,
}

/// What a connection waits for, by whether it is ending, what it does next, and what came of its next
/// request.
fn phase_of(is_ending: bool, next: Next, stage: Stage) -> Phase
    ensures { result ≡ awaited is_ending next stage }
{
    if is_ending {
        return Phase::Ending;
    }
    match next {
        Next::Write => Phase::Reply,
        Next::Read | Next::Answer | Next::Over(_) => match stage {
            Stage::Between => Phase::Between,
            Stage::Head => Phase::Head,
            Stage::Body => Phase::Body,
        },
    }
}

/// A connection between two turns. Workers keep a `K` with it for whoever serves its next turn.
#[derive(Drop)]
pub struct Connection<D, K> {
    pub(crate) stream: TcpStream,
    pub(crate) session: Session<D>,
    /// Its number, from 1.
    pub number: u64,
    /// What is kept for its next turn, behind the first.
    pub kept: Option<K>,
    /// Its slot.
    pub(crate) key: usize,
    pub(crate) deadline: Deadline,
    /// It is past its deadline.
    pub(crate) is_late: bool,
    /// Its sending side is shut down, and what comes is dropped.
    is_ending: bool,
    /// A request was answered since the deadline was set.
    pub(crate) has_answered: bool,
    /// How many of its bytes count in [`Held`].
    pub(crate) held: u64,
    /// Reads are paused, since all connections keep too many bytes.
    pub(crate) is_paused: bool,
    /// It keeps fewer bytes than before the turn.
    pub(crate) has_released: bool,
    /// It may read on though reads are paused.
    pub(crate) may_pass: bool,
    /// The poll reports it.
    pub(crate) is_armed: bool,
    /// The poll reports room to write, too.
    pub(crate) awaits_room: bool,
}

impl<D: Document + Drop, K> Connection<D, K> {
    /// A connection of which nothing came.
    pub(crate) fn new(
        stream: TcpStream,
        session: Session<D>,
        number: u64,
        key: usize,
        deadline: Deadline,
    ) -> Connection<D, K> {
        Connection {
            stream,
            session,
            number,
            kept: None,
            key,
            deadline,
            is_late: false,
            is_ending: false,
            has_answered: false,
            held: 0,
            is_paused: false,
            has_released: false,
            may_pass: false,
            is_armed: false,
            awaits_room: false,
        }
    }

    /// What it waits for.
    pub(crate) fn phase(&self) -> Phase
        ensures { IsAwaited self.now result }
    {
        phase_of(self.is_ending, self.session.next(), self.session.stage())
    }

    /// Goes on until it would wait, for [`STEPS`] steps at most.
    pub(crate) fn go_on<S: Service<Body = D>>(
        &mut self,
        alloc: Global,
        held: &Held,
        room: &mut Room,
        service: &mut S,
    ) -> Turn {
        if self.is_late {
            return Turn::Over;
        }
        for _ in 0..STEPS {
            if let Some(turn) = self.step(alloc, held, room, service) {
                return turn;
            }
        }
        // The poll reports reads and writes alone: an answer, and then the begin of an end, come first.
        for _ in 0..2 {
            if self.is_up_to_host() {
                break;
            }
            if let Some(turn) = self.step(alloc, held, room, service) {
                return turn;
            }
        }
        Turn::Goes
    }

    /// Whether its next step is a read or a write.
    fn is_up_to_host(&self) -> bool {
        self.is_ending || matches!(self.session.next(), Next::Read | Next::Write)
    }

    /// Takes one step. None where the next may follow at once.
    fn step<S: Service<Body = D>>(
        &mut self,
        alloc: Global,
        held: &Held,
        room: &mut Room,
        service: &mut S,
    ) -> Option<Turn> {
        match self.session.next() {
            Next::Read => self.read(alloc, held),
            Next::Answer => {
                self.session.answer(alloc, &mut room.buffers, service);
                self.count(held);
                if self.session.next() == Next::Write {
                    self.has_answered = true;
                }
                self.is_long().then_some(Turn::Goes)
            }
            Next::Write => self.write(room),
            Next::Over(end) => self.end(end, room),
        }
    }

    /// Counts the bytes that it keeps.
    fn count(&mut self, held: &Held) {
        let now = self.session.held() as u64;
        held.change(self.held, now);
        self.has_released = self.has_released || now < self.held;
        self.held = now;
        if self.may_pass && now <= FEW {
            self.may_pass = false;
            held.end_pass();
        }
    }

    /// Its bytes no longer count, since it ends.
    pub(crate) fn release(&mut self, held: &Held) {
        held.change(self.held, 0);
        if self.may_pass {
            held.end_pass();
        }
    }

    /// Reads once, into the room that the session lends.
    fn read(&mut self, alloc: Global, held: &Held) -> Option<Turn> {
        self.is_paused = self.held > FEW && !self.may_pass && held.is_full();
        if self.is_paused {
            return Some(Turn::Rests);
        }
        if self.session.make_room().is_err() {
            return Some(Turn::Over);
        }
        let mut stream = &self.stream;
        let read = stream.read(self.session.lend());
        let count = match &read {
            Ok(count) => *count,
            Err(_) => 0,
        };
        self.session.came(alloc, count);
        match read {
            Ok(0) => {
                self.session.end_input();
                None
            }
            Ok(_) => {
                self.count(held);
                None
            }
            Err(error) => match error.kind() {
                ErrorKind::WouldBlock => Some(Turn::Rests),
                ErrorKind::Interrupted => None,
                _ => {
                    self.session.fail(Fault::ReadFailed);
                    None
                }
            },
        }
    }

    /// Whether it has more to write than one write gives.
    fn is_long(&self) -> bool {
        self.session.next() == Next::Write && self.session.unsent() > WRITE
    }

    /// Writes once. A connection with more to write has had its turn.
    fn write(&mut self, room: &mut Room) -> Option<Turn> {
        let mut stream = &self.stream;
        let text = self.session.text(&mut room.buffers);
        match stream.write(&text[..text.len().min(WRITE)]) {
            Ok(0) => {
                self.session.fail(Fault::WriteFailed);
                None
            }
            Ok(count) => {
                self.session.sent(count);
                let is_whole = count == WRITE && self.session.next() == Next::Write;
                is_whole.then_some(Turn::Goes)
            }
            Err(error) => match error.kind() {
                ErrorKind::WouldBlock => Some(Turn::Rests),
                ErrorKind::Interrupted => None,
                _ => {
                    self.session.fail(Fault::WriteFailed);
                    None
                }
            },
        }
    }

    /// Ends the sending behind a last reply, and drops what comes then.
    fn end(&mut self, end: End, room: &mut Room) -> Option<Turn> {
        if !self.is_ending {
            self.is_ending = has_last_reply(end) && self.stream.shutdown(Shutdown::Write).is_ok();
            return if self.is_ending {
                None
            } else {
                Some(Turn::Over)
            };
        }
        let mut stream = &self.stream;
        match stream.read(&mut room.dropped) {
            Ok(0) => Some(Turn::Over),
            Ok(_) => None,
            Err(error) => match error.kind() {
                ErrorKind::WouldBlock => Some(Turn::Rests),
                ErrorKind::Interrupted => None,
                _ => Some(Turn::Over),
            },
        }
    }

    /// Sets its deadline behind a turn.
    pub(crate) fn expect(&mut self, timeouts: &Timeouts, now: u64)
        ensures awaited { IsAwaited self.old self.new.deadline.phase }
        ensures answered { IsFalse self.new.has_answered }
    {
        let bytes = self.session.unsent() as u64;
        let phase = self.phase();
        self.deadline
            .expect(timeouts, phase, bytes, self.has_answered, now);
        self.has_answered = false;
    }
}
