//! One connection from its first byte to its end, step by step and without a socket.
ghost use Rattle.std.specs.Prelude.{◌≤◌, vec_len};
ghost use Rattle.std.specs.Borrow.{sem};
ghost use Rattle.std.specs.Vec.{vec_capacity};

use crate::incoming::{Incoming, Phase, Room};
use crate::outgoing::{Outgoing, answer, refuse};
use crate::replies::{body_of, put};
use crate::service::Service;
use crate::session::End;
use crate::source::Stage;
use crate::writer::SMALL_BODY;
use disco_message::{Document, HEAD_ROOM, Limits, Reply, Request};
use disco_values::Fault;
use std::alloc::{AllocError, Global};

/// Bytes of the first room for a head.
const HEAD: usize = 1024;

/// Bytes of the first room for what comes of a body.
const BODY: usize = 16_384;

/// What a session does next.
#[derive(Clone, Copy, Debug, PartialEq, Eq)]
pub enum Next {
    /// It waits for bytes: [`Session::lend`] and [`Session::came`], or [`Session::end_input`].
    Read,
    /// Bytes came at which it hasn't looked: [`Session::answer`].
    Answer,
    /// It has bytes to put out: [`Session::text`] and [`Session::sent`].
    Write,
    /// It is over.
    Over(End),
}

/// How far a session is.
#[derive(Drop)]
pub(crate) enum State<D> {
    /// It has no whole request.
    Waits,
    /// It may have one.
    Looks,
    Writes(Outgoing<D>),
    Over(End),
}

/// What a worker lends to the session that it steps: places for the fields of a head, the room of the
/// last request, and room for the head of a reply with a small body.
#[derive(Drop)]
pub struct Buffers {
    room: Room,
    text: Vec<u8>,
    ghost fits: { 4352 ≤ vec_capacity text },
}

impl Buffers {
    ghost use Rattle.std.specs.Prelude.{◌≡◌, length, option_map};
    ghost use Rattle.disco_message.specs.ReplyText.{reply_body, reply_text, reply_view};
    ghost use Rattle.disco_http.specs.Exchanges.{HasText};

    /// Buffers for sessions within these limits.
    ///
    /// # Errors
    ///
    /// `AllocError` where memory is refused.
    pub fn new(alloc: Global, limits: Limits) -> Result<Buffers, AllocError> {
        Ok(Buffers {
            room: Room::new(alloc, limits.fields)?,
            text: Vec::with_capacity(alloc, HEAD_ROOM + SMALL_BODY)?,
        })
    }

    /// Puts a reply into the room.
    fn put<D: Document>(&mut self, reply: &Reply<D>, last: bool) -> usize
        ensures size { result ≡ length (reply_text (reply_view D.content reply.now) last) }
        ensures text { HasText (reply_text (reply_view D.content reply.now) last) self.new.text.items
            (reply_body reply.now.status (option_map D.content reply.now.document)) }
    {
        put(&mut self.text, reply, last)
    }
}

/// One connection from its first byte to its end, without a socket.
#[derive(Drop)]
pub struct Session<D> {
    pub(crate) limits: Limits,
    pub(crate) incoming: Incoming,
    /// How many requests were answered.
    pub(crate) requests: u64,
    /// The input has ended.
    pub(crate) has_ended: bool,
    pub(crate) state: State<D>,
    ghost size: { vec_len incoming.unread.buffer ≤ limits.head },
}

impl<D: Document + Drop> Session<D> {
    ghost use Rattle.std.specs.Prelude.{◌≡◌, ◌↔◌, ◌⊎◌, ◌+◌, ◌-◌, ◌^◌, ◌≤◌, ◌<◌, ◌++◌, [], ℕ, List, IsFalse, IsTrue, None, OnOk, Some, length, min, take};
    ghost use Rattle.disco_message.specs.RequestView as message;
    ghost use Rattle.disco_http.specs.Coming.{most};
    ghost use Rattle.disco_http.specs.Exchanges.{Finds, LooksAt, Pauses, Stands, end_of};
    ghost use Rattle.disco_http.specs.Sessions.{Answered, HasDone, LendsRoom, lent, next_of, unsent, with_lent};
    ghost use Rattle.disco_http.specs.Unread.{bytes_of};
    ghost use Rattle.disco_http.specs.declared.incoming.Phase.TheVariants as phase;
    ghost use Rattle.disco_http.specs.declared.steps.State.TheVariants as state;

    /// A connection of which nothing came. Takes no memory.
    pub fn new(alloc: Global, limits: Limits) -> Session<D>
        ensures done { HasDone D.content result [] [] [] [] }
        ensures limits { result.limits ≡ limits }
    {
        Session::over(limits, Incoming::none(alloc))
    }

    /// A connection of which this came, and was not looked at.
    pub(crate) fn over(limits: Limits, incoming: Incoming) -> Session<D>
        requires size { vec_len incoming.unread.buffer ≤ limits.head }
        requires between { incoming.phase ≡ phase.Head }
        ensures done { HasDone D.content result (bytes_of incoming.unread) [] [] [] }
        ensures looks { result.state ≡ state.Looks }
        ensures none { result.requests ≡ 0 }
        ensures goes { IsFalse result.has_ended }
        ensures limits { result.limits ≡ limits }
        ensures incoming { result.incoming ≡ incoming }
    {
        Session {
            limits,
            incoming,
            requests: 0,
            has_ended: false,
            state: State::Looks,
        }
    }

    /// What it does next.
    pub fn next(&self) -> Next
        ensures { result ≡ next_of self.now.state }
    {
        match &self.state {
            State::Waits => Next::Read,
            State::Looks => Next::Answer,
            State::Writes(_) => Next::Write,
            State::Over(end) => Next::Over(*end),
        }
    }

    /// Whether it waits for bytes.
    pub(crate) fn waits(&self) -> bool
        ensures { IsTrue result ↔ (self.now.state ≡ state.Waits) }
    {
        matches!(self.state, State::Waits)
    }

    /// How it ended, if it has.
    pub(crate) fn end(&self) -> Option<End>
        ensures { result ≡ end_of self.now.state }
    {
        match self.state {
            State::Over(end) => Some(end),
            _ => None,
        }
    }

    /// What came of the next request.
    pub fn stage(&self) -> Stage {
        self.incoming.stage()
    }

    /// How many bytes of memory it keeps of what came.
    pub fn held(&self) -> usize {
        self.incoming.held()
    }

    /// How many bytes of the reply that is going out are still to be written.
    pub fn unsent(&self) -> usize {
        match &self.state {
            State::Writes(outgoing) => outgoing.left,
            _ => 0,
        }
    }

    /// Makes room for bytes, where it waits for some.
    ///
    /// # Errors
    ///
    /// `AllocError` where memory is refused. Then it can't read on.
    pub fn make_room(&mut self) -> Result<(), AllocError>
        ensures done { (given : List ℕ) (asks : List message.RequestView) (texts : List (List ℕ)) (out : List ℕ)
            → HasDone D.content self.old given asks texts out → HasDone D.content self.new given asks texts out }
        ensures room { OnOk result ((given : List ℕ) (asks : List message.RequestView) (texts : List (List ℕ)) (out : List ℕ)
            → HasDone D.content self.old given asks texts out → self.old.state ≡ state.Waits → 0 < length (lent self.new)) }
        ensures state { self.new.state ≡ self.old.state }
    {
        if let State::Waits = self.state {
            let least = match self.incoming.phase {
                Phase::Head => HEAD,
                Phase::Body(_, _) => BODY,
            };
            self.incoming.unread.grow(least, self.limits.head)?;
        }
        Ok(())
    }

    /// How much room it lends.
    fn room_size(&self) -> usize
        ensures size { result ≡ length (lent self.now) }
        ensures waits { 0 < result → self.now.state ≡ state.Waits }
        ensures within { self.now.incoming.unread.end + result ≤ vec_len self.now.incoming.unread.buffer }
    {
        let unread = &self.incoming.unread;
        match self.state {
            State::Waits => unread.buffer.len() - unread.end,
            _ => 0,
        }
    }

    /// Lends the room for bytes that come, where it waits for some. [`Session::came`] says how many came.
    pub fn lend(&mut self) -> &mut [u8]
        ensures* writes_back { sem 𝓛 (LendsRoom D.row self.entry result) }
        ensures room { result.now ≡ lent self.old }
        ensures lent { (came : List ℕ) → length came ≡ length (lent self.old) → lent (with_lent self.old came) ≡ came }
        ensures done { (came given : List ℕ) (asks : List message.RequestView) (texts : List (List ℕ)) (out : List ℕ)
            → HasDone D.content self.old given asks texts out → HasDone D.content (with_lent self.old came) given asks texts out }
    {
        let size = self.room_size();
        self.incoming.room(size)
    }

    /// Is told that so many bytes came into the front of the room that it lent. Where none did and
    /// nothing is unread, it gives the room back.
    pub fn came(&mut self, alloc: Global, count: usize)
        ensures came { (given : List ℕ) (asks : List message.RequestView) (texts : List (List ℕ)) (out : List ℕ)
            → HasDone D.content self.old given asks texts out → HasDone D.content self.new (given ++ take count (lent self.old)) asks texts out }
        ensures idle { count ≡ 0 → bytes_of self.old.incoming.unread ≡ [] → vec_capacity self.new.incoming.unread.buffer ≡ 0 }
    {
        if count.min(self.room_size()) == 0 {
            self.incoming.unread.release(alloc);
            return;
        }
        self.incoming.unread.add(count);
        self.state = State::Looks;
    }

    /// Is told that the input has ended. A request of which some came is refused then.
    pub fn end_input(&mut self)
        ensures done { (given : List ℕ) (asks : List message.RequestView) (texts : List (List ℕ)) (out : List ℕ)
            → HasDone D.content self.old given asks texts out → HasDone D.content self.new given asks texts out }
        ensures ended { self.old.state ≡ state.Waits → (self.new.state ≡ state.Looks) × IsTrue self.new.has_ended }
    {
        if let State::Waits = self.state {
            self.has_ended = true;
            self.state = State::Looks;
        }
    }

    /// Ends at once, since a read or a write failed.
    pub fn fail(&mut self, fault: Fault)
        ensures state { self.new.state ≡ state.Over (End.Fault fault) }
        ensures incoming { self.new.incoming ≡ self.old.incoming }
        ensures limits { self.new.limits ≡ self.old.limits }
        ensures ended { self.new.has_ended ≡ self.old.has_ended }
        ensures requests { self.new.requests ≡ self.old.requests }
    {
        self.state = State::Over(End::Fault(fault));
    }

    /// Takes the next request, if it is whole. With none it waits for bytes, or at the end of the input,
    /// between requests, is over.
    pub(crate) fn take_request(
        &mut self,
        alloc: Global,
        room: &mut Room,
    ) -> Result<Option<Request>, Fault>
        requires looks { self.old.state ≡ state.Looks }
        requires places { vec_len room.old.spans ≡ self.old.limits.fields }
        ensures found { (given : List ℕ) (asks : List message.RequestView) (texts : List (List ℕ)) (out : List ℕ)
            → HasDone D.content self.old given asks texts out → Finds D.content self.new given asks texts out result }
        ensures stands { Stands self.new result }
        ensures small { self.new.state ≡ state.Waits → length (bytes_of self.new.incoming.unread) < self.new.limits.head }
        ensures least { self.new.state ≡ state.Waits → most self.new.limits self.new.incoming.phase (bytes_of self.new.incoming.unread)
            ≤ most self.old.limits self.old.incoming.phase (bytes_of self.old.incoming.unread) }
        ensures goes { self.new.state ≡ state.Waits → IsFalse self.new.has_ended }
        ensures limits { self.new.limits ≡ self.old.limits }
        ensures ended { self.new.has_ended ≡ self.old.has_ended }
        ensures requests { self.new.requests ≡ self.old.requests }
        ensures size { vec_len self.new.incoming.unread.buffer ≡ vec_len self.old.incoming.unread.buffer }
        ensures places { vec_len room.new.spans ≡ vec_len room.old.spans }
    {
        if let Some(request) = self.incoming.advance(alloc, &self.limits, room)? {
            return Ok(Some(request));
        }
        if !self.has_ended {
            self.state = State::Waits;
            return Ok(None);
        }
        if !self.incoming.is_between() {
            return Err(Fault::BadRequest);
        }
        self.state = State::Over(End::Closed);
        Ok(None)
    }

    /// The service answers the request that was found, and what can be none is refused. With none the
    /// session stays as it is.
    pub(crate) fn reply<S: Service<Body = D>>(
        &mut self,
        room: &mut Room,
        text: &mut Vec<u8>,
        service: &mut S,
        found: Result<Option<Request>, Fault>,
    )
        requires stands { Stands self.old found }
        requires capacity { 4352 ≤ vec_capacity text.old }
        ensures replied { (given : List ℕ) (asks : List message.RequestView) (texts : List (List ℕ)) (out : List ℕ)
            → Finds D.content self.old given asks texts out found
            → LooksAt D.content S.answers self.old.requests self.new service.old service.new given asks texts out }
        ensures pauses { Pauses D.content self.new.limits text.new.items self.old.requests self.new.requests self.new.state }
        ensures waits { self.new.state ≡ state.Waits → self.old.state ≡ state.Waits }
        ensures incoming { self.new.incoming ≡ self.old.incoming }
        ensures limits { self.new.limits ≡ self.old.limits }
        ensures ended { self.new.has_ended ≡ self.old.has_ended }
        ensures places { vec_len room.new.spans ≡ vec_len room.old.spans }
        ensures capacity { vec_capacity text.old ≤ vec_capacity text.new }
        ensures counted { (self.new.requests ≡ self.old.requests) ⊎ (self.new.requests ≡ min (self.old.requests + 1) (2 ^ 64 - 1)) }
    {
        match found {
            Ok(Some(request)) => {
                self.state = State::Writes(answer(
                    &self.limits,
                    &mut self.requests,
                    room,
                    text,
                    service,
                    request,
                ));
            }
            Ok(None) => {}
            Err(fault) => self.state = State::Writes(refuse(text, fault)),
        }
    }

    /// Gives an empty buffer back while it waits.
    fn spare(&mut self, alloc: Global)
        ensures bytes { bytes_of self.new.incoming.unread ≡ bytes_of self.old.incoming.unread }
        ensures phase { self.new.incoming.phase ≡ self.old.incoming.phase }
        ensures state { self.new.state ≡ self.old.state }
        ensures idle { self.old.state ≡ state.Waits → bytes_of self.old.incoming.unread ≡ [] → vec_capacity self.new.incoming.unread.buffer ≡ 0 }
        ensures limits { self.new.limits ≡ self.old.limits }
        ensures ended { self.new.has_ended ≡ self.old.has_ended }
        ensures requests { self.new.requests ≡ self.old.requests }
    {
        if let State::Waits = self.state {
            self.incoming.unread.release(alloc);
        }
    }

    /// Looks at what came: the next whole request is answered by the service, and what can be none is
    /// refused.
    pub fn answer<S: Service<Body = D>>(
        &mut self,
        alloc: Global,
        buffers: &mut Buffers,
        service: &mut S,
    )
        ensures answered { self.old.state ≡ state.Looks → Answered D.content S.answers self.old self.new service.old service.new }
        ensures stops { self.old.state ≡ state.Looks → self.new.state ≡ state.Looks → ⊥ }
        ensures counted { (self.new.requests ≡ self.old.requests) ⊎ (self.new.requests ≡ min (self.old.requests + 1) (2 ^ 64 - 1)) }
        ensures idle { self.old.state ≡ state.Looks → self.new.state ≡ state.Waits → bytes_of self.new.incoming.unread ≡ [] → vec_capacity self.new.incoming.unread.buffer ≡ 0 }
        ensures other { (self.old.state ≡ state.Looks → ⊥) → (self.new ≡ self.old) × (service.new ≡ service.old) }
    {
        if !matches!(self.state, State::Looks) {
            return;
        }
        if buffers.room.fit(self.limits.fields).is_err() {
            self.state = State::Writes(refuse(&mut buffers.text, Fault::OutOfMemory));
            return;
        }
        let found = self.take_request(alloc, &mut buffers.room);
        self.reply(&mut buffers.room, &mut buffers.text, service, found);
        self.spare(alloc);
    }

    /// The bytes that are to be written next: some, where there are any.
    pub fn text<'a>(&'a self, buffers: &'a mut Buffers) -> &'a [u8]
        ensures front { (given : List ℕ) (asks : List message.RequestView) (texts : List (List ℕ)) (out : List ℕ) → HasDone D.content self.now given asks texts out
            → (rest : List ℕ) × (unsent D.content self.now.state ≡ result.now ++ rest) }
        ensures some { 0 < length (unsent D.content self.now.state) → 0 < length result.now }
    {
        let State::Writes(outgoing) = &self.state else {
            return b"";
        };
        let size = buffers.put(&outgoing.reply, outgoing.end.is_some());
        let from = size.saturating_sub(outgoing.left);
        if from < buffers.text.len() {
            &buffers.text[from..]
        } else {
            let body = body_of(&outgoing.reply);
            &body[body.len().saturating_sub(outgoing.left)..]
        }
    }

    /// Is told that so many of these bytes were written.
    pub fn sent(&mut self, count: usize)
        ensures sent { (given : List ℕ) (asks : List message.RequestView) (texts : List (List ℕ)) (out : List ℕ) → HasDone D.content self.old given asks texts out
            → count ≤ length (unsent D.content self.old.state) → HasDone D.content self.new given asks texts (out ++ take count (unsent D.content self.old.state)) }
        ensures whole { (o : Outgoing D) → self.old.state ≡ state.Writes o → o.left ≤ count → o.end ≡ None → self.new.state ≡ state.Looks }
        ensures last { (o : Outgoing D) (end : End) → self.old.state ≡ state.Writes o → o.left ≤ count → o.end ≡ Some end → self.new.state ≡ state.Over end }
        ensures incoming { self.new.incoming ≡ self.old.incoming }
        ensures limits { self.new.limits ≡ self.old.limits }
        ensures ended { self.new.has_ended ≡ self.old.has_ended }
        ensures requests { self.new.requests ≡ self.old.requests }
    {
        if let State::Writes(outgoing) = &mut self.state {
            outgoing.left = outgoing.left.saturating_sub(count);
            if outgoing.left > 0 {
                return;
            }
            self.state = match outgoing.end {
                Some(end) => State::Over(end),
                None => State::Looks,
            };
        }
    }
}
