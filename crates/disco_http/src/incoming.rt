//! A request that comes, piece by piece.
ghost use Rattle.std.specs.Prelude.{◌≡◌, ◌↔◌, ◌+◌, ◌≤◌, ◌<◌, ◌++◌, [], ℕ, List, IfErr, IfNone, IfOk, IfSome, IsSome, IsTrue, OnOk, length, take, vec_len};
ghost use Rattle.std.specs.Borrow.{sem};
ghost use Rattle.disco_values.specs.declared.fault.Fault.TheVariants.{BadRequest};

use crate::body::Body;
use crate::parts::{Found, Part, find};
use crate::source::Stage;
use crate::unread::Unread;
use disco_message::{Extent, Head, HeadRoom, Limits, Request};
use disco_values::Fault;
use httparse::spans::{EMPTY_HEADER_SPAN, HeaderSpan};
use std::alloc::{AllocError, Global};
use std::mem;

/// Room for what is read of a message: the places of its fields, and what a request that was answered
/// left for the next one.
#[derive(Drop)]
pub(crate) struct Room {
    pub(crate) spans: Vec<HeaderSpan>,
    pub(crate) head: HeadRoom,
    pub(crate) body: Vec<u8>,
}

impl Room {
    /// Room for so many fields.
    pub(crate) fn new(alloc: Global, fields: usize) -> Result<Room, AllocError>
        ensures places { IfOk result (λ room. vec_len room.spans ≡ fields) }
    {
        let spans = vec![in alloc; EMPTY_HEADER_SPAN; fields]?;
        Ok(Room {
            spans,
            head: HeadRoom::new(alloc),
            body: Vec::new(alloc),
        })
    }

    /// Makes room for so many fields.
    pub(crate) fn fit(&mut self, fields: usize) -> Result<(), AllocError>
        ensures places { OnOk result (vec_len self.new.spans ≡ fields) }
    {
        self.spans.resize(fields, EMPTY_HEADER_SPAN)
    }

    /// Keeps the room of a request that was answered.
    pub(crate) fn keep(&mut self, request: Request)
        ensures places { vec_len self.new.spans ≡ vec_len self.old.spans }
    {
        (self.head, self.body) = request.into_room();
    }

    /// The room for a body, with nothing in it.
    pub(crate) fn take_body(&mut self, alloc: Global) -> Vec<u8>
        ensures none { result.items ≡ [] }
        ensures places { vec_len self.new.spans ≡ vec_len self.old.spans }
    {
        let mut body = mem::replace(&mut self.body, Vec::new(alloc));
        body.clear();
        body
    }
}

/// What of a request is read.
#[derive(Drop)]
pub(crate) enum Phase {
    /// Its head isn't whole.
    Head,
    /// Its head is, and its body isn't.
    Body(Head, Body),
}

/// What came of requests, and isn't used.
#[derive(Drop)]
pub(crate) struct Incoming {
    pub(crate) unread: Unread,
    pub(crate) phase: Phase,
}

impl Incoming {
    ghost use Rattle.disco_http.specs.Coming.{IsBetween, LendsRoom, PhaseAt, StandsFor, WaitsOn, is_of_asked, most};
    ghost use Rattle.disco_http.specs.Parts.{HasNo};
    ghost use Rattle.disco_http.specs.Requests.{HasNone, Refused, TakesRequest};
    ghost use Rattle.disco_http.specs.declared.parts.Part.TheVariants.{RequestHead};
    ghost use Rattle.disco_http.specs.Unread.{bytes_of, room_of};
    ghost use Rattle.disco_http.specs.declared.incoming.Phase.TheVariants as phase;

    /// Nothing of a request, and no buffer.
    pub(crate) fn none(alloc: Global) -> Incoming
        ensures none { bytes_of result.unread ≡ [] }
        ensures size { vec_len result.unread.buffer ≡ 0 }
        ensures phase { result.phase ≡ phase.Head }
    {
        Incoming {
            unread: Unread::none(alloc),
            phase: Phase::Head,
        }
    }

    /// Whether nothing came of the next request.
    pub(crate) fn is_between(&self) -> bool
        ensures { IsTrue result ↔ IsBetween self.now }
    {
        matches!(self.phase, Phase::Head) && self.unread.bytes().is_empty()
    }

    /// How many bytes of memory it keeps of what came.
    pub(crate) fn held(&self) -> usize {
        let body = match &self.phase {
            Phase::Head => 0,
            Phase::Body(_, body) => body.bytes.capacity(),
        };
        self.unread.bytes().len().saturating_add(body)
    }

    /// So much of the room behind what came.
    pub(crate) fn room(&mut self, size: usize) -> &mut [u8]
        requires { self.old.unread.end + size ≤ vec_len self.old.unread.buffer }
        ensures* writes_back { sem 𝓛 (LendsRoom self.entry result) }
        ensures value { result.now ≡ take size (room_of self.old.unread) }
    {
        self.unread.room(size)
    }

    /// What came of the next request.
    pub(crate) fn stage(&self) -> Stage {
        match self.phase {
            Phase::Head => {
                if self.unread.bytes().is_empty() {
                    Stage::Between
                } else {
                    Stage::Head
                }
            }
            Phase::Body(_, _) => Stage::Body,
        }
    }

    /// The head at the front of what came, if it is whole, and a body of which nothing was read.
    fn begin(
        &mut self,
        alloc: Global,
        limits: &Limits,
        room: &mut Room,
    ) -> Result<Option<(Head, Body)>, Fault>
        requires size { vec_len self.old.unread.buffer ≤ limits.now.head }
        requires places { vec_len room.old.spans ≡ limits.now.fields }
        ensures begun { IfOk result (λ begun. IfSome begun (λ pair. PhaseAt limits.now (bytes_of self.old.unread) (phase.Body pair.0 pair.1) (bytes_of self.new.unread))) }
        ensures least { IfOk result (λ begun. IfSome begun (λ pair.
            most limits.now (phase.Body pair.0 pair.1) (bytes_of self.new.unread) ≤ most limits.now phase.Head (bytes_of self.old.unread))) }
        ensures none { IfOk result (λ begun. IfNone begun ((bytes_of self.new.unread ≡ bytes_of self.old.unread) × HasNo RequestHead (bytes_of self.old.unread))) }
        ensures small { IfOk result (λ begun. IfNone begun (length (bytes_of self.old.unread) < limits.now.head)) }
        ensures refused { IfErr result (λ fault. (more : List ℕ) → Refused limits.now fault (bytes_of self.old.unread ++ more)) }
        ensures fault { IfErr result (λ fault. IsTrue (is_of_asked fault)) }
        ensures phase { self.new.phase ≡ self.old.phase }
        ensures size { vec_len self.new.unread.buffer ≡ vec_len self.old.unread.buffer }
        ensures places { vec_len room.new.spans ≡ vec_len room.old.spans }
    {
        let found = find(limits, Part::RequestHead, &self.unread, &mut room.spans)?;
        let Some(Found::RequestHead(line)) = found else {
            return Ok(None);
        };
        let kept = mem::replace(&mut room.head, HeadRoom::new(alloc));
        let head = Head::new(alloc, kept, self.unread.bytes(), &room.spans, &line)?;
        self.unread.consume(line.len);
        let body = Body::new(
            limits,
            Extent::Framed(head.framing()),
            room.take_body(alloc),
        )?;
        Ok(Some((head, body)))
    }

    /// The head of the request that comes, once it is whole, and what of its body was read.
    fn resume(
        &mut self,
        alloc: Global,
        limits: &Limits,
        room: &mut Room,
    ) -> Result<Option<(Head, Body)>, Fault>
        requires size { vec_len self.old.unread.buffer ≤ limits.now.head }
        requires places { vec_len room.old.spans ≡ limits.now.fields }
        ensures begun { IfOk result (λ begun. IfSome begun (λ pair. (given : List ℕ) → StandsFor limits.now self.old given
            → PhaseAt limits.now given (phase.Body pair.0 pair.1) (bytes_of self.new.unread))) }
        ensures least { IfOk result (λ begun. IfSome begun (λ pair.
            most limits.now (phase.Body pair.0 pair.1) (bytes_of self.new.unread) ≤ most limits.now self.old.phase (bytes_of self.old.unread))) }
        ensures none { IfOk result (λ begun. IfNone begun ((self.old.phase ≡ phase.Head) × (bytes_of self.new.unread ≡ bytes_of self.old.unread) × HasNo RequestHead (bytes_of self.old.unread))) }
        ensures small { IfOk result (λ begun. IfNone begun (length (bytes_of self.old.unread) < limits.now.head)) }
        ensures refused { IfErr result (λ fault. (given more : List ℕ) → StandsFor limits.now self.old given → Refused limits.now fault (given ++ more)) }
        ensures fault { IfErr result (λ fault. IsTrue (is_of_asked fault)) }
        ensures phase { self.new.phase ≡ phase.Head }
        ensures size { vec_len self.new.unread.buffer ≡ vec_len self.old.unread.buffer }
        ensures places { vec_len room.new.spans ≡ vec_len room.old.spans }
    {
        match mem::replace(&mut self.phase, Phase::Head) {
            Phase::Head => self.begin(alloc, limits, room),
            Phase::Body(head, body) => Ok(Some((head, body))),
        }
    }

    /// Reads on in a body, as far as it came. None where it isn't whole.
    fn go_on(
        &mut self,
        limits: &Limits,
        room: &mut Room,
        head: Head,
        body: Body,
    ) -> Result<Option<Request>, Fault>
        requires size { vec_len self.old.unread.buffer ≤ limits.now.head }
        requires places { vec_len room.old.spans ≡ limits.now.fields }
        requires phase { self.old.phase ≡ phase.Head }
        ensures whole { IfOk result (λ found. IfSome found (λ request. (given more : List ℕ) → PhaseAt limits.now given (phase.Body head body) (bytes_of self.old.unread)
            → TakesRequest limits.now (given ++ more) request (bytes_of self.new.unread ++ more))) }
        ensures waits { IfOk result (λ found. IfNone found ((given : List ℕ) → PhaseAt limits.now given (phase.Body head body) (bytes_of self.old.unread)
            → StandsFor limits.now self.new given × HasNone limits.now given × Refused limits.now BadRequest given)) }
        ensures small { IfOk result (λ found. IfNone found (length (bytes_of self.new.unread) < limits.now.head)) }
        ensures least { IfOk result (λ found. IfNone found
            (most limits.now self.new.phase (bytes_of self.new.unread) ≤ most limits.now (phase.Body head body) (bytes_of self.old.unread))) }
        ensures refused { IfErr result (λ fault. (given more : List ℕ) → PhaseAt limits.now given (phase.Body head body) (bytes_of self.old.unread)
            → Refused limits.now fault (given ++ more)) }
        ensures fault { IfErr result (λ fault. IsTrue (is_of_asked fault)) }
        ensures phase { IfOk result (λ found. IsSome found → self.new.phase ≡ phase.Head) }
        ensures size { vec_len self.new.unread.buffer ≡ vec_len self.old.unread.buffer }
        ensures places { vec_len room.new.spans ≡ vec_len room.old.spans }
    {
        let mut body = body;
        if body.advance(limits, &mut self.unread, &mut room.spans)? {
            return Ok(Some(Request::new(head, body.bytes)));
        }
        self.phase = Phase::Body(head, body);
        Ok(None)
    }

    /// The next request, if it is whole. None where it waits for bytes.
    pub(crate) fn advance(
        &mut self,
        alloc: Global,
        limits: &Limits,
        room: &mut Room,
    ) -> Result<Option<Request>, Fault>
        requires size { vec_len self.old.unread.buffer ≤ limits.now.head }
        requires places { vec_len room.old.spans ≡ limits.now.fields }
        ensures whole { IfOk result (λ found. IfSome found (λ request. (given more : List ℕ) → StandsFor limits.now self.old given
            → TakesRequest limits.now (given ++ more) request (bytes_of self.new.unread ++ more))) }
        ensures waits { IfOk result (λ found. IfNone found (WaitsOn limits.now self.old self.new)) }
        ensures small { IfOk result (λ found. IfNone found (length (bytes_of self.new.unread) < limits.now.head)) }
        ensures least { IfOk result (λ found. IfNone found
            (most limits.now self.new.phase (bytes_of self.new.unread) ≤ most limits.now self.old.phase (bytes_of self.old.unread))) }
        ensures refused { IfErr result (λ fault. (given more : List ℕ) → StandsFor limits.now self.old given → Refused limits.now fault (given ++ more)) }
        ensures fault { IfErr result (λ fault. IsTrue (is_of_asked fault)) }
        ensures phase { IfOk result (λ found. IsSome found → self.new.phase ≡ phase.Head) }
        ensures size { vec_len self.new.unread.buffer ≡ vec_len self.old.unread.buffer }
        ensures places { vec_len room.new.spans ≡ vec_len room.old.spans }
    {
        match self.resume(alloc, limits, room)? {
            Some((head, body)) => self.go_on(limits, room, head, body),
            None => Ok(None),
        }
    }
}
