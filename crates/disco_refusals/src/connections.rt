//! Fetches over connections that lie in memory.
ghost use Rattle.std.specs.Prelude.{◌≡◌};

use crate::streams::{Given, Taking};
use disco_http::{Counted, Reader, Writer};
use disco_message::Limits;
use disco_reconcile::{Fetch, Fetched, HttpFetch};
use disco_values::{Cert, DocKey, Fault, Form, Query};
use std::alloc::Global;
use std::io::Write;

fn key(query: Query) -> DocKey
    ensures { result.query ≡ query }
{
    DocKey {
        query,
        form: Form::Compact,
    }
}

/// What all apps and then the delta are answered, each by its status or else the number of its fault,
/// and how often fetches have failed then.
#[derive(Clone, Copy, Debug, PartialEq, Eq)]
pub(crate) struct Fetches {
    apps: u32,
    delta: u32,
    failures: u64,
}

/// The status that a fetch brought, or the number of its fault.
fn number(answer: Result<Fetched, Fault>) -> Result<u32, Fault> {
    match answer {
        Ok(fetched) => Ok(u32::from(fetched.status)),
        Err(Fault::OutOfMemory) => Err(Fault::OutOfMemory),
        Err(fault) => Ok(fault.number()),
    }
}

/// Fetches all apps and then the delta over a connection that gives these bytes and then fails.
fn fetch_both<W: Write + Drop>(alloc: Global, bytes: &str, out: W) -> Result<Fetches, Fault> {
    let given = Given {
        rest: bytes.as_bytes(),
        piece: 1000,
        reads: 1000,
    };
    let reader = Reader::new(alloc, Counted::new(given), Limits::of_client())?;
    let writer = Writer::new(alloc, Counted::new(out))?;
    let mut fetcher = HttpFetch::new(alloc, reader, writer);
    let apps = number(fetcher.fetch(&key(Query::Apps)));
    let delta = number(fetcher.fetch(&key(Query::Delta)));
    Ok(Fetches {
        apps: apps?,
        delta: delta?,
        failures: fetcher.failures(),
    })
}

/// What a connection gives, how many writes it takes, and what comes of it.
#[derive(Clone, Copy, Debug)]
pub(crate) struct Connection {
    bytes: &'static str,
    writes: u32,
    came: Fetches,
}

/// The connections.
pub(crate) const CONNECTIONS: &[Connection] = &[
    Connection {
        bytes: "HTTP/1.1 200 OK\r\nContent-Length: 2\r\n\r\n{}HTTP/1.1 404 Not Found\r\nContent-Length: 0\r\n\r\n",
        writes: 2,
        came: Fetches {
            apps: 200,
            delta: 404,
            failures: 0,
        },
    },
    Connection {
        bytes: "HTTP/1.1 200 OK\r\nConnection: close\r\nContent-Length: 0\r\n\r\nHTTP/1.1 200 OK\r\nContent-Length: 0\r\n\r\n",
        writes: 2,
        came: Fetches {
            apps: 200,
            delta: 22,
            failures: 1,
        },
    },
    Connection {
        bytes: "HTTP/1.1 200 OK\r\nContent-Length: 2\r\n\r\n{",
        writes: 2,
        came: Fetches {
            apps: 20,
            delta: 22,
            failures: 2,
        },
    },
    Connection {
        bytes: "HTTP/1.1 200 OK\r\nContent-Length: 0\r\n\r\n",
        writes: 0,
        came: Fetches {
            apps: 21,
            delta: 22,
            failures: 2,
        },
    },
];

/// How many connections are used until they end, up to the first that isn't.
pub(crate) fn ended(alloc: Global) -> Result<usize, Fault> {
    for (i, connection) in CONNECTIONS.iter().enumerate() {
        let out = Taking {
            writes: connection.writes,
        };
        if fetch_both(alloc, connection.bytes, out)? != connection.came {
            return Ok(i);
        }
    }
    Ok(CONNECTIONS.len())
}

/// What two fetches write.
pub(crate) const WRITTEN: &str =
    "GET /eureka/v2/apps HTTP/1.1\r\nHost: localhost\r\nX-Eureka-Accept: compact\r\n\r\nGET /eureka/v2/apps/delta HTTP/1.1\r\nHost: localhost\r\nX-Eureka-Accept: compact\r\n\r\n";

/// One request is written for each fetch.
pub(crate) fn write_requests(alloc: Global) -> Result<String, Fault> {
    let mut written: Vec<u8> = Vec::new(alloc);
    written.reserve(WRITTEN.len())?;
    fetch_both(alloc, CONNECTIONS[0].bytes, &mut written)?;
    Ok(String::from_utf8_lossy(alloc, written.as_slice())?)
}

/// Lines of a head, and the certificate that is read of them.
pub(crate) const CERTIFICATES: &[(&str, Option<Cert>)] = &[
    ("", None),
    (
        "X-Discovery-Certificate: 7 0 1\r\n",
        Some(Cert {
            run: 7,
            base: 0,
            version: 1,
        }),
    ),
    (
        "x-discovery-CERTIFICATE: 0 0 0\r\n",
        Some(Cert {
            run: 0,
            base: 0,
            version: 0,
        }),
    ),
    (
        "X-Discovery-Certificate: 18446744073709551615 18446744073709551615 18446744073709551615\r\n",
        Some(Cert {
            run: u64::MAX,
            base: u64::MAX,
            version: u64::MAX,
        }),
    ),
    (
        "X-Discovery-Certificate: 7 0 1\r\nX-Discovery-Certificate: 7 0 1\r\n",
        None,
    ),
    ("X-Discovery-Certificate: 0 1\r\n", None),
    ("X-Discovery-Certificate: 7 0 1 2\r\n", None),
    ("X-Discovery-Certificate: 7  0 1\r\n", None),
    ("X-Discovery-Certificate: 7 +0 1\r\n", None),
    (
        "X-Discovery-Certificate: 18446744073709551616 0 0\r\n",
        None,
    ),
];

/// The certificate of a document that is fetched, where these lines stand in its head.
fn cert_fetched(alloc: Global, lines: &str) -> Result<Option<Cert>, Fault> {
    let bytes = format!(in alloc; "HTTP/1.1 200 OK\r\nContent-Length: 2\r\n{lines}\r\n{{}}")?;
    let given = Given {
        rest: bytes.as_bytes(),
        piece: 1000,
        reads: 1000,
    };
    let reader = Reader::new(alloc, Counted::new(given), Limits::of_client())?;
    let writer = Writer::new(alloc, Counted::new(Taking { writes: 1 }))?;
    let mut fetcher = HttpFetch::new(alloc, reader, writer);
    let fetched = fetcher.fetch(&key(Query::Apps))?;
    Ok(fetched.cert)
}

/// A reply has a certificate where its head spells one in one line, and none else; it is never refused
/// for it. In how many cases it is so, up to the first in which it isn't.
pub(crate) fn certificates_read(alloc: Global) -> Result<usize, Fault> {
    for (i, (lines, cert)) in CERTIFICATES.iter().enumerate() {
        if cert_fetched(alloc, lines)? != *cert {
            return Ok(i);
        }
    }
    Ok(CERTIFICATES.len())
}
