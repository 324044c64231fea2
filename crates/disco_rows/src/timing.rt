//! Times a connection.
use crate::connection::over_a_desk;
use crate::exchange::read_exchange;
use crate::row::Row;
use disco_press::Opening;
use std::io;
use std::marker::Brand;
use std::rt::{Clock, Files};
use std::sync::Wait;
use std::time::Instant;

/// What is timed.
#[derive(Debug, Drop)]
pub(crate) struct Timing<'a> {
    /// What the paths of its row's files begin with.
    path: &'a str,
    /// How often it is run.
    times: u32,
    /// How many bytes a read gives at most.
    piece: usize,
}

impl<'a> Timing<'a> {
    /// What the words name: the path of a row, how often it is run, and the bytes of a read.
    pub(crate) fn of(words: &'a [String]) -> Option<Timing<'a>> {
        let [path, times, piece] = words else {
            return None;
        };
        Some(Timing {
            path: path.as_str(),
            times: times.as_str().parse().ok()?,
            piece: piece.as_str().parse().ok()?,
        })
    }
}

/// Prints how many nanoseconds all runs take together, and how many bytes each writes.
pub(crate) fn run<R: Clock + Files + Wait + AllocGlobal + Print>(
    rt: &R,
    timing: &Timing<'_>,
) -> io::Result<bool> {
    let row = Row::read(rt, timing.path)?;
    let Some(exchange) = read_exchange(rt, &row)? else {
        return Ok(false);
    };
    let start = Instant::now(rt)?;
    let mut size = 0;
    for _ in 0..timing.times {
        let request = exchange.request.as_slice();
        let came = over_a_desk::<Brand, R>(
            rt,
            rt.alloc(),
            Opening::new(),
            &exchange.settings,
            request,
            timing.piece,
        )?;
        size = came.reply.len();
    }
    println!(rt; "{} {size}", start.elapsed(rt)?.as_nanos())?;
    Ok(true)
}
