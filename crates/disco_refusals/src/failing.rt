//! A client whose connection fails at each read and at each write in turn.
use crate::copies::has;
use crate::samples::{GONE, NONE, ONE};
use crate::streams::{Given, Taking};
use disco_http::{Counted, Reader, Writer};
use disco_message::Limits;
use disco_reconcile::{Client, Fetch, HttpFetch, Refreshed};
use disco_values::{Fault, Form};
use std::alloc::{AllocError, Global};

/// How many bytes a read gives at most.
const PIECE: usize = 100;

/// More reads than all fetches need.
const READS: u32 = 64;

/// How many fetches two refreshes make.
const FETCHES: u32 = 3;

/// The copy of a client: none, or that of a document.
#[derive(Clone, Copy, Debug, PartialEq)]
enum Held {
    Nothing,
    OfNone,
    OfOne,
    OfAnother,
}

/// What a refresh came to, and the copy that it left.
#[derive(Clone, Copy, Debug, PartialEq)]
struct Left {
    came: Result<Refreshed, Fault>,
    copy: Held,
}

/// What two refreshes left, one after the other.
#[derive(Clone, Copy, Debug, PartialEq)]
struct Both {
    first: Left,
    second: Left,
}

/// What two refreshes come to, by how many of the fetches go well: all apps, the delta, which takes the
/// instance out and has another hash code, and all apps again.
const ENDS: [Both; 4] = [
    Both {
        first: Left {
            came: Err(Fault::NotFetched),
            copy: Held::Nothing,
        },
        second: Left {
            came: Err(Fault::NotFetched),
            copy: Held::Nothing,
        },
    },
    Both {
        first: Left {
            came: Ok(Refreshed::Full),
            copy: Held::OfOne,
        },
        second: Left {
            came: Err(Fault::NotFetched),
            copy: Held::OfOne,
        },
    },
    Both {
        first: Left {
            came: Ok(Refreshed::Full),
            copy: Held::OfOne,
        },
        second: Left {
            came: Err(Fault::NotFetched),
            copy: Held::OfNone,
        },
    },
    Both {
        first: Left {
            came: Ok(Refreshed::Full),
            copy: Held::OfOne,
        },
        second: Left {
            came: Ok(Refreshed::DeltaThenFull),
            copy: Held::OfOne,
        },
    },
];

/// What the server sends.
fn replies(alloc: Global) -> Result<String, AllocError> {
    let mut text = String::new(alloc);
    for body in [ONE, GONE, ONE] {
        let length = body.len();
        write!(
            text,
            "HTTP/1.1 200 OK\r\nContent-Length: {length}\r\n\r\n{body}"
        )?;
    }
    Ok(text)
}

fn copy_held<F: Fetch>(alloc: Global, client: &Client<F>) -> Result<Held, Fault> {
    if client.copy().is_none() {
        return Ok(Held::Nothing);
    }
    if has(alloc, client, Some(NONE))? {
        return Ok(Held::OfNone);
    }
    if has(alloc, client, Some(ONE))? {
        return Ok(Held::OfOne);
    }
    Ok(Held::OfAnother)
}

fn refreshed<F: Fetch>(alloc: Global, client: &mut Client<F>) -> Result<Left, Fault> {
    let came = client.refresh();
    if came == Err(Fault::OutOfMemory) {
        return Err(Fault::OutOfMemory);
    }
    Ok(Left {
        came,
        copy: copy_held(alloc, client)?,
    })
}

fn refreshed_twice<F: Fetch>(alloc: Global, client: &mut Client<F>) -> Result<Both, Fault> {
    let first = refreshed(alloc, client)?;
    let second = refreshed(alloc, client)?;
    Ok(Both { first, second })
}

/// How many fetches go well on a connection of so many reads and writes, if the refreshes come to what
/// they then have to.
fn going_well(alloc: Global, sent: &str, reads: u32, writes: u32) -> Result<Option<usize>, Fault> {
    let given = Given {
        rest: sent.as_bytes(),
        piece: PIECE,
        reads,
    };
    let reader = Reader::new(alloc, Counted::new(given), Limits::of_client())?;
    let writer = Writer::new(alloc, Counted::new(Taking { writes }))?;
    let mut client = Client::new(alloc, HttpFetch::new(alloc, reader, writer), Form::Full);
    let came = refreshed_twice(alloc, &mut client)?;
    Ok(ENDS.iter().position(|end| *end == came))
}

/// Each read more lets as many fetches go well, or one more, up to all.
pub(crate) fn reads_in_turn(alloc: Global) -> Result<bool, Fault> {
    let sent = replies(alloc)?;
    let mut before = 0;
    for reads in 0..READS {
        let Some(well) = going_well(alloc, sent.as_str(), reads, FETCHES)? else {
            return Ok(false);
        };
        if well < before || well - before > 1 {
            return Ok(false);
        }
        before = well;
    }
    Ok(before == 3)
}

/// As many fetches go well as there are writes.
pub(crate) fn writes_in_turn(alloc: Global) -> Result<bool, Fault> {
    let sent = replies(alloc)?;
    for (writes, well) in [(0, 0), (1, 1), (2, 2), (FETCHES, 3)] {
        if going_well(alloc, sent.as_str(), READS, writes)? != Some(well) {
            return Ok(false);
        }
    }
    Ok(true)
}
