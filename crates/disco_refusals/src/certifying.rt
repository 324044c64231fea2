//! Refreshes of a certified client by what a script answers.
use crate::copies::has;
use crate::samples::{GONE, NONE, ONE};
use crate::script::{Reply, Script, Turn};
use disco_reconcile::{Client, Refreshed};
use disco_values::{Cert, Fault, Form};
use std::alloc::Global;
use std::cell::Cell;

/// A copy: the document that makes it, and the run and the version that are shown of it.
#[derive(Clone, Copy, Debug)]
struct Held {
    document: &'static str,
    run: u64,
    version: u64,
}

/// What a server answers while a client refreshes, what that comes to, and the copy that the client then
/// has, if it has one.
#[derive(Clone, Copy, Debug)]
struct Case {
    turn: Turn,
    came: Result<Refreshed, Fault>,
    copy: Option<Held>,
}

/// The copy that most refreshes leave.
const HELD: Option<Held> = Some(Held {
    document: ONE,
    run: 0,
    version: 1,
});

/// One refresh after another.
const CASES: &[Case] = &[
    Case {
        turn: Turn {
            delta: Reply::Fails,
            apps: Reply::Is(200, ONE),
        },
        came: Err(Fault::BadDocument),
        copy: None,
    },
    Case {
        turn: Turn {
            delta: Reply::Fails,
            apps: Reply::Certified(
                ONE,
                Cert {
                    run: 0,
                    base: 2,
                    version: 2,
                },
            ),
        },
        came: Err(Fault::BadDocument),
        copy: None,
    },
    Case {
        turn: Turn {
            delta: Reply::Fails,
            apps: Reply::Certified(
                ONE,
                Cert {
                    run: 0,
                    base: 1,
                    version: 1,
                },
            ),
        },
        came: Ok(Refreshed::Full),
        copy: HELD,
    },
    Case {
        turn: Turn {
            delta: Reply::Certified(
                ONE,
                Cert {
                    run: 0,
                    base: 0,
                    version: 1,
                },
            ),
            apps: Reply::Fails,
        },
        came: Ok(Refreshed::Delta),
        copy: HELD,
    },
    Case {
        turn: Turn {
            delta: Reply::Certified(
                GONE,
                Cert {
                    run: 0,
                    base: 2,
                    version: 3,
                },
            ),
            apps: Reply::Certified(
                NONE,
                Cert {
                    run: 0,
                    base: 0,
                    version: 0,
                },
            ),
        },
        came: Ok(Refreshed::Kept),
        copy: HELD,
    },
    Case {
        turn: Turn {
            delta: Reply::Is(403, ""),
            apps: Reply::Is(200, ONE),
        },
        came: Err(Fault::BadDocument),
        copy: HELD,
    },
    Case {
        turn: Turn {
            delta: Reply::Is(404, ""),
            apps: Reply::Certified(
                NONE,
                Cert {
                    run: 0,
                    base: 0,
                    version: 0,
                },
            ),
        },
        came: Ok(Refreshed::Kept),
        copy: HELD,
    },
    Case {
        turn: Turn {
            delta: Reply::Is(200, ONE),
            apps: Reply::Certified(
                ONE,
                Cert {
                    run: 0,
                    base: 1,
                    version: 1,
                },
            ),
        },
        came: Ok(Refreshed::DeltaThenFull),
        copy: HELD,
    },
    Case {
        turn: Turn {
            delta: Reply::Certified(
                GONE,
                Cert {
                    run: 0,
                    base: 1,
                    version: 4,
                },
            ),
            apps: Reply::Fails,
        },
        came: Err(Fault::NotFetched),
        copy: HELD,
    },
    Case {
        turn: Turn {
            delta: Reply::Certified(
                "{",
                Cert {
                    run: 0,
                    base: 1,
                    version: 1,
                },
            ),
            apps: Reply::Fails,
        },
        came: Err(Fault::BadDocument),
        copy: HELD,
    },
    Case {
        turn: Turn {
            delta: Reply::Certified(
                GONE,
                Cert {
                    run: 0,
                    base: 1,
                    version: 3,
                },
            ),
            apps: Reply::Fails,
        },
        came: Ok(Refreshed::Delta),
        copy: Some(Held {
            document: NONE,
            run: 0,
            version: 3,
        }),
    },
    Case {
        turn: Turn {
            delta: Reply::Certified(
                GONE,
                Cert {
                    run: 7,
                    base: 0,
                    version: 3,
                },
            ),
            apps: Reply::Certified(
                ONE,
                Cert {
                    run: 7,
                    base: 1,
                    version: 1,
                },
            ),
        },
        came: Ok(Refreshed::DeltaThenFull),
        copy: Some(Held {
            document: ONE,
            run: 7,
            version: 1,
        }),
    },
    Case {
        turn: Turn {
            delta: Reply::Is(403, ""),
            apps: Reply::Certified(
                NONE,
                Cert {
                    run: 6,
                    base: 0,
                    version: 0,
                },
            ),
        },
        came: Ok(Refreshed::Full),
        copy: Some(Held {
            document: NONE,
            run: 6,
            version: 0,
        }),
    },
];

fn is_copy<'a>(
    alloc: Global,
    client: &Client<Script<'a>>,
    held: Option<Held>,
) -> Result<bool, Fault> {
    match held {
        Some(held) => {
            let is_shown = client.run() == Some(held.run) && client.version() == Some(held.version);
            Ok(is_shown && has(alloc, client, Some(held.document))?)
        }
        None => Ok(client.version().is_none() && has(alloc, client, None)?),
    }
}

/// Whether the next refresh comes to that, and leaves that copy. One that finds no memory leaves the
/// copy as it was, and is made once more.
fn comes_to(
    alloc: Global,
    client: &mut Client<Script<'_>>,
    before: Option<Held>,
    case: &Case,
) -> Result<bool, Fault> {
    let mut came = client.refresh();
    if came == Err(Fault::OutOfMemory) {
        if !is_copy(alloc, client, before)? {
            return Ok(false);
        }
        came = client.refresh();
    }
    Ok(came == case.came && is_copy(alloc, client, case.copy)?)
}

/// Of how many cases it came so, up to the first of which it didn't.
fn cases_came(
    alloc: Global,
    client: &mut Client<Script<'_>>,
    turn: &Cell<Turn>,
) -> Result<usize, Fault> {
    let mut before = None;
    for (i, case) in CASES.iter().enumerate() {
        turn.set(case.turn);
        if !comes_to(alloc, client, before, case)? {
            return Ok(i);
        }
        before = case.copy;
    }
    Ok(CASES.len())
}

/// Of how many cases it has to come so.
pub(crate) fn wanted() -> usize {
    CASES.len()
}

/// A certified client refreshes by the certificates of documents.
pub(crate) fn refresh_all(alloc: Global) -> Result<usize, Fault> {
    let turn = Cell::new(Turn::NONE);
    let script = Script {
        alloc,
        turn: &turn,
        failures: 0,
    };
    let mut client = Client::certified(alloc, script, Form::Full);
    cases_came(alloc, &mut client, &turn)
}
