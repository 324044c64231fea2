//! Refreshes by what a script answers.
use crate::copies::has;
use crate::samples::{GONE, NONE, ONE, SPACED, TURNED};
use crate::script::{Reply, Script, Turn};
use disco_reconcile::{Client, Refreshed};
use disco_values::{Fault, Form};
use std::alloc::Global;
use std::cell::Cell;

/// What a server answers while a client refreshes, what that comes to, and the document whose copy the
/// client then has, if it has one.
#[derive(Clone, Copy, Debug)]
struct Case {
    turn: Turn,
    came: Result<Refreshed, Fault>,
    copy: Option<&'static str>,
}

/// One refresh after another.
const CASES: &[Case] = &[
    Case {
        turn: Turn::NONE,
        came: Err(Fault::NotFetched),
        copy: None,
    },
    Case {
        turn: Turn {
            delta: Reply::Fails,
            apps: Reply::Is(200, "{"),
        },
        came: Err(Fault::BadDocument),
        copy: None,
    },
    Case {
        turn: Turn {
            delta: Reply::Fails,
            apps: Reply::Is(404, ""),
        },
        came: Err(Fault::NotFetched),
        copy: None,
    },
    Case {
        turn: Turn {
            delta: Reply::Fails,
            apps: Reply::Is(200, NONE),
        },
        came: Ok(Refreshed::Full),
        copy: Some(NONE),
    },
    Case {
        turn: Turn {
            delta: Reply::Is(403, ""),
            apps: Reply::Is(200, ONE),
        },
        came: Ok(Refreshed::Full),
        copy: Some(ONE),
    },
    Case {
        turn: Turn {
            delta: Reply::Is(200, GONE),
            apps: Reply::Is(200, ONE),
        },
        came: Ok(Refreshed::DeltaThenFull),
        copy: Some(ONE),
    },
    Case {
        turn: Turn {
            delta: Reply::Is(200, ONE),
            apps: Reply::Fails,
        },
        came: Ok(Refreshed::Delta),
        copy: Some(ONE),
    },
    Case {
        turn: Turn {
            delta: Reply::Fails,
            apps: Reply::Is(200, NONE),
        },
        came: Err(Fault::NotFetched),
        copy: Some(ONE),
    },
    Case {
        turn: Turn {
            delta: Reply::Is(200, "{"),
            apps: Reply::Is(200, NONE),
        },
        came: Err(Fault::BadDocument),
        copy: Some(ONE),
    },
    Case {
        turn: Turn {
            delta: Reply::Is(404, ""),
            apps: Reply::Fails,
        },
        came: Err(Fault::NotFetched),
        copy: Some(ONE),
    },
    Case {
        turn: Turn {
            delta: Reply::Is(200, SPACED),
            apps: Reply::Fails,
        },
        came: Ok(Refreshed::Delta),
        copy: Some(ONE),
    },
    Case {
        turn: Turn {
            delta: Reply::Is(200, GONE),
            apps: Reply::Fails,
        },
        came: Err(Fault::NotFetched),
        copy: Some(NONE),
    },
    Case {
        turn: Turn {
            delta: Reply::Is(404, ""),
            apps: Reply::Is(200, SPACED),
        },
        came: Ok(Refreshed::Full),
        copy: Some(ONE),
    },
    Case {
        turn: Turn {
            delta: Reply::Is(200, GONE),
            apps: Reply::Is(200, "{"),
        },
        came: Err(Fault::BadDocument),
        copy: Some(NONE),
    },
    Case {
        turn: Turn {
            delta: Reply::Is(404, ""),
            apps: Reply::Is(404, ""),
        },
        came: Err(Fault::NotFetched),
        copy: Some(NONE),
    },
    Case {
        turn: Turn {
            delta: Reply::Is(404, ""),
            apps: Reply::Is(200, TURNED),
        },
        came: Ok(Refreshed::Full),
        copy: Some(ONE),
    },
];

/// Whether a refresh that found no memory left the copy as it was, or as a delta makes it that takes
/// the instance out.
fn is_left(
    alloc: Global,
    client: &Client<Script<'_>>,
    before: Option<&str>,
) -> Result<bool, Fault> {
    Ok(has(alloc, client, before)? || has(alloc, client, Some(NONE))?)
}

/// Whether the next refresh comes to that, and leaves that copy. One that finds no memory is made once
/// more.
fn comes_to(
    alloc: Global,
    client: &mut Client<Script<'_>>,
    before: Option<&str>,
    case: &Case,
) -> Result<bool, Fault> {
    let mut came = client.refresh();
    if came == Err(Fault::OutOfMemory) {
        if !is_left(alloc, client, before)? {
            return Ok(false);
        }
        came = client.refresh();
    }
    Ok(came == case.came && has(alloc, client, case.copy)?)
}

/// Of how many cases it came so, up to the first of which it didn't.
fn cases_came(
    alloc: Global,
    client: &mut Client<Script<'_>>,
    turn: &Cell<Turn>,
) -> Result<usize, Fault> {
    let mut before = None;
    for (i, case) in CASES.iter().enumerate() {
        turn.set(case.turn);
        if !comes_to(alloc, client, before, case)? {
            return Ok(i);
        }
        before = case.copy;
    }
    Ok(CASES.len())
}

/// How many instances of the copy are up with a vip, if there is a copy.
fn found_up(alloc: Global, client: &Client<Script<'_>>) -> Result<Option<usize>, Fault> {
    match client.copy() {
        Some(copy) => Ok(Some(copy.up(alloc, "orders")?.len())),
        None => Ok(None),
    }
}

/// Of how many cases it came so, up to the first of which it didn't, and how many instances of the last
/// copy are up with a vip.
#[derive(Clone, Copy, Debug, PartialEq, Eq)]
pub(crate) struct Came {
    cases: usize,
    up: Option<usize>,
}

/// What has to be.
pub(crate) fn wanted() -> Came {
    Came {
        cases: CASES.len(),
        up: Some(1),
    }
}

/// A client refreshes by deltas and in full.
pub(crate) fn refresh_all(alloc: Global) -> Result<Came, Fault> {
    let turn = Cell::new(Turn::NONE);
    let script = Script {
        alloc,
        turn: &turn,
        failures: 0,
    };
    let mut client = Client::new(alloc, script, Form::Full);
    let cases = cases_came(alloc, &mut client, &turn);
    let up = found_up(alloc, &client);
    Ok(Came {
        cases: cases?,
        up: up?,
    })
}
