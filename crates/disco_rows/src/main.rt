//! Runs the rows in the folders of the current folder, and compares every byte with what is wanted.
//!
//! It also joins each answered document anew, from texts that are made of the document's own mentions,
//! and compares the two. It runs each connection four times over a hub and four times over a desk under
//! its lock, in pieces of 1, 2, 7 and 1,000 bytes, and a cut one as often for each of its bytes.
//!
//! It prints the name of each row that is as wanted, and of another one where it differs first; then
//! the exit status is 1. With the word `--came` it also writes what came of such a row, to files beside
//! its own, unless the row is of a connection. With the words `PATH TIMES PIECE` it times a connection.
//! The README beside `src/` says what the files of a row hold.
#![tactic(auto)]

mod anew;
mod connection;
mod exchange;
mod kept;
mod meanings;
mod outcomes;
mod paths;
mod pieces;
mod row;
mod settings;
mod timing;

use anew::outcome_anew;
use disco_trials::Difference;
use exchange::read_exchange;
use kept::is_exchange_kept;
use outcomes::{came, wanted, write_outcome};
use paths::paths;
use row::Row;
use std::alloc::Global;
use std::net::{Net, TcpListener, TcpStream};
use std::process::ExitCode;
use std::rt::{Clock, Env, Files};
use std::sync::Wait;
use std::thread::Threads;
use std::{env, io};
use timing::Timing;

/// Runs a row of events or documents, and tells whether it is as it has to be; else it prints where
/// it isn't.
fn is_outcome_kept<R>(rt: &R, writes: bool, name: &str, row: &Row<'_>) -> io::Result<bool>
where
    R: Net<Listener = TcpListener, Stream = TcpStream> + Threads + Wait + Clock,
    R: Files + AllocGlobal + Print + Sync,
{
    let wanted = wanted(rt, row)?;
    let came = came(rt, row)?;
    let anew = outcome_anew(rt.alloc(), &came)?;
    match Difference::first(&wanted, &came).or(Difference::first(&anew, &came)) {
        Some(difference) => {
            difference.write(&mut io::writer(rt), name)?;
            if writes {
                write_outcome(rt, row, &came)?;
            }
            Ok(false)
        }
        None => Ok(true),
    }
}

/// Runs the row of a path, prints its name where it is as it has to be, and tells whether it is.
fn is_kept<R>(rt: &R, writes: bool, name: &str, path: &str) -> io::Result<bool>
where
    R: Net<Listener = TcpListener, Stream = TcpStream> + Threads + Wait + Clock,
    R: Files + AllocGlobal + Print + Sync,
{
    let row = Row::read(rt, path)?;
    let kept = match read_exchange(rt, &row)? {
        Some(exchange) => is_exchange_kept(rt, name, &exchange)?,
        None => is_outcome_kept(rt, writes, name, &row)?,
    };
    if kept {
        println!(rt; "{name}")?;
    }
    Ok(kept)
}

/// As [`is_kept`]. Prints why the files of a row can't be read, or that there is no memory.
fn is_kept_or_told<R>(rt: &R, writes: bool, path: &str) -> io::Result<bool>
where
    R: Net<Listener = TcpListener, Stream = TcpStream> + Threads + Wait + Clock,
    R: Files + AllocGlobal + Print + Sync,
{
    let name = match path.rsplit_once('/') {
        Some((_, name)) => name,
        None => path,
    };
    match is_kept(rt, writes, name, path) {
        Ok(kept) => Ok(kept),
        Err(error) => {
            println!(rt; "{name}: {error}")?;
            Ok(false)
        }
    }
}

/// Runs all rows, and tells whether each is as it has to be.
fn are_kept<R>(rt: &R, writes: bool) -> io::Result<bool>
where
    R: Net<Listener = TcpListener, Stream = TcpStream> + Threads + Wait + Clock,
    R: Files + AllocGlobal + Print + Clone + Drop + Sync,
{
    let mut all = true;
    for path in &paths(rt)? {
        all = is_kept_or_told(rt, writes, path.as_str())? && all;
    }
    Ok(all)
}

/// Times a connection where the words say so, else runs all rows. Tells whether all is as it has to be.
fn run<R>(rt: &R, words: &[String]) -> io::Result<bool>
where
    R: Net<Listener = TcpListener, Stream = TcpStream> + Threads + Wait + Clock,
    R: Files + AllocGlobal + Print + Clone + Drop + Sync,
{
    match Timing::of(words) {
        Some(timing) => timing::run(rt, &timing),
        None => are_kept(
            rt,
            words.first().is_some_and(|word| word.as_str() == "--came"),
        ),
    }
}

/// Does what the words of the command line ask for.
fn run_words<R>(rt: &R) -> io::Result<bool>
where
    R: Net<Listener = TcpListener, Stream = TcpStream> + Threads + Wait + Clock,
    R: Env + Files + AllocGlobal + Print + Clone + Drop + Sync,
{
    let words: Vec<String> = env::args(rt)?.skip(1).collect(rt.alloc())?;
    run(rt, words.as_slice())
}

fn main(rt: HostRuntime) -> ExitCode {
    match run_words(&rt) {
        Ok(true) => ExitCode::SUCCESS,
        _ => ExitCode::FAILURE,
    }
}
