//! Compares a connection with what its row wants.
use crate::connection::{Came, over_a_desk, over_a_hub};
use crate::exchange::Exchange;
use disco_http::{End, Served};
use disco_press::Opening;
use disco_trials::difference;
use disco_values::Settings;
use std::alloc::{AllocError, Global};
use std::io;
use std::marker::Brand;
use std::rt::Files;
use std::sync::Wait;

/// How many bytes a read gives at most, in one run and the next.
const PIECES: [usize; 4] = [1, 2, 7, 1_000];

/// What a client sends on a connection, what it has to get, and how the connection has to end, where
/// that is said.
#[derive(Clone, Copy, Debug)]
struct Sent<'a> {
    bytes: &'a [u8],
    reply: &'a [u8],
    served: Option<&'a [u8]>,
}

/// Over what a connection is served, and how many bytes a read gives at most.
#[derive(Clone, Copy, Debug)]
struct Way {
    over: &'static str,
    piece: usize,
}

/// How many requests were answered, and how the connection ended, as a row says it.
fn line_of(alloc: Global, served: Served) -> Result<String, AllocError> {
    let requests = served.requests;
    match served.end {
        End::Closed => format!(in alloc; "{requests} closed\n"),
        End::Asked => format!(in alloc; "{requests} asked\n"),
        End::Limit => format!(in alloc; "{requests} limit\n"),
        End::Fault(fault) => format!(in alloc; "{requests} fault {}\n", fault.number()),
    }
}

/// Tells whether a connection ended as the row says, if it says how; else it prints how it ended.
fn is_ended<R: AllocGlobal + Print>(
    rt: &R,
    name: &str,
    way: Way,
    sent: Sent<'_>,
    served: Served,
) -> io::Result<bool> {
    let Some(wanted) = sent.served else {
        return Ok(true);
    };
    let line = line_of(rt.alloc(), served)?;
    if difference(wanted, line.as_bytes()).is_none() {
        return Ok(true);
    }
    let (over, piece) = (way.over, way.piece);
    print!(rt; "{name}: over a {over}, in pieces of {piece}, it ended {line}")?;
    Ok(false)
}

/// Tells whether a client got what is wanted; else it prints where it didn't.
fn is_replied<R: Print>(
    rt: &R,
    name: &str,
    way: Way,
    sent: Sent<'_>,
    came: &[u8],
) -> io::Result<bool> {
    match difference(sent.reply, came) {
        Some(at) => {
            let (over, piece, sent) = (way.over, way.piece, sent.bytes.len());
            println!(rt;
                "{name}: over a {over}, of {sent} bytes in pieces of {piece}, it differs at byte {at}"
            )?;
            Ok(false)
        }
        None => Ok(true),
    }
}

/// Tells whether a connection came to what is wanted.
fn is_wanted<R: AllocGlobal + Print>(
    rt: &R,
    name: &str,
    way: Way,
    sent: Sent<'_>,
    came: &Came,
) -> io::Result<bool> {
    Ok(
        is_replied(rt, name, way, sent, came.reply.as_slice())?
            && is_ended(rt, name, way, sent, came.served)?,
    )
}

/// Sends these bytes in pieces of that size, to a hub and to a desk, and tells whether each replies
/// with what the row wants.
fn is_kept_at<R: Files + Wait + AllocGlobal + Print>(
    rt: &R,
    name: &str,
    settings: &Settings,
    sent: Sent<'_>,
    piece: usize,
) -> io::Result<bool> {
    let alloc = rt.alloc();
    let hub = over_a_hub(alloc, settings, sent.bytes, piece)?;
    let desk = over_a_desk::<Brand, R>(rt, alloc, Opening::new(), settings, sent.bytes, piece)?;
    Ok(
        is_wanted(rt, name, Way { over: "hub", piece }, sent, &hub)?
            && is_wanted(
                rt,
                name,
                Way {
                    over: "desk",
                    piece,
                },
                sent,
                &desk,
            )?,
    )
}

/// Sends these bytes in pieces of each size.
fn is_kept_in_pieces<R: Files + Wait + AllocGlobal + Print>(
    rt: &R,
    name: &str,
    settings: &Settings,
    sent: Sent<'_>,
) -> io::Result<bool> {
    for piece in PIECES {
        if !is_kept_at(rt, name, settings, sent, piece)? {
            return Ok(false);
        }
    }
    Ok(true)
}

/// Sends the whole request.
fn is_kept_whole<R: Files + Wait + AllocGlobal + Print>(
    rt: &R,
    name: &str,
    exchange: &Exchange,
) -> io::Result<bool> {
    let sent = Sent {
        bytes: exchange.request.as_slice(),
        reply: exchange.reply.as_slice(),
        served: exchange.served_line(),
    };
    is_kept_in_pieces(rt, name, &exchange.settings, sent)
}

/// Sends what comes before each byte of the request, and then no more. Where nothing came nothing is
/// replied.
fn is_kept_cut<R: Files + Wait + AllocGlobal + Print>(
    rt: &R,
    name: &str,
    exchange: &Exchange,
) -> io::Result<bool> {
    for end in 0..exchange.request.len() {
        let sent = Sent {
            bytes: &exchange.request[..end],
            reply: if end == 0 {
                b""
            } else {
                exchange.reply.as_slice()
            },
            served: None,
        };
        if !is_kept_in_pieces(rt, name, &exchange.settings, sent)? {
            return Ok(false);
        }
    }
    Ok(true)
}

/// Sends an exchange, and tells whether it is as it has to be; else it prints where it isn't.
pub(crate) fn is_exchange_kept<R: Files + Wait + AllocGlobal + Print>(
    rt: &R,
    name: &str,
    exchange: &Exchange,
) -> io::Result<bool> {
    if exchange.is_cut {
        is_kept_cut(rt, name, exchange)
    } else {
        is_kept_whole(rt, name, exchange)
    }
}
