//! Asks a desk for rounds and looks, and a client for refreshes.
//!
//! It prints each answer of the desk and of two of its seats as `replay` writes it, of a document its
//! base and its version alone. It makes a call that finds no memory once more, and asks for each
//! document twice, so that it is kept where it wasn't at first. So the answers are the same whichever
//! growth is refused.
//!
//! The client refreshes by what a script answers, and over connections that lie in memory and fail. It
//! prints the name of each of these trials with its result. It makes a refresh by the script that finds
//! no memory once more, and the script then answers as if there had been some.
//!
//! With the word `desk` the desk alone is asked, and with the word `refreshes` the client alone, by the
//! script: `bench/refusals.sh` refuses each growth of these in turn. Ends with status 1, behind what was
//! printed before it, where the desk can't be opened, where a trial fails or finds no memory of its own,
//! or where nothing can be printed.
#![tactic(auto)]

mod answers;
mod asking;
mod certifying;
mod connections;
mod copies;
mod desk;
mod failing;
mod following;
mod refreshing;
mod samples;
mod script;
mod streams;

use connections::{CERTIFICATES, CONNECTIONS};
use disco_press::Opening;
use disco_trials::{compared, told};
use std::alloc::Global;
use std::marker::Brand;
use std::process::ExitCode;
use std::rt::{Clock, Env};
use std::sync::Wait;
use std::{env, io};

/// Asks a desk.
fn ask_desk<R: Wait + AllocGlobal + Print>(rt: &R) -> io::Result<()> {
    desk::run::<Brand, R>(rt, Opening::new())
}

fn try_script<R: Print>(rt: &R, alloc: Global) -> io::Result<bool> {
    let (plain, certified) = (refreshing::wanted(), certifying::wanted());
    let plain = compared(rt, "refreshes", &plain, refreshing::refresh_all(alloc))?;
    let certified = compared(
        rt,
        "certified refreshes",
        &certified,
        certifying::refresh_all(alloc),
    )?;
    Ok(plain && certified)
}

/// Compares what is written.
fn try_texts<R: Print + Clock>(rt: &R, alloc: Global) -> io::Result<bool> {
    let told = String::from_str(alloc, following::TOLD)?;
    let written = String::from_str(alloc, connections::WRITTEN)?;
    let all = [
        compared(
            rt,
            "lines of refreshes",
            &told,
            following::follow(rt, alloc),
        )?,
        compared(
            rt,
            "a request for each",
            &written,
            connections::write_requests(alloc),
        )?,
    ];
    Ok(all.iter().all(|well| *well))
}

fn try_all<R: Print + Clock>(rt: &R, alloc: Global) -> io::Result<bool> {
    let (connections, certificates) = (CONNECTIONS.len(), CERTIFICATES.len());
    let all = [
        try_script(rt, alloc)?,
        try_texts(rt, alloc)?,
        compared(
            rt,
            "fetches to the end",
            &connections,
            connections::ended(alloc),
        )?,
        compared(
            rt,
            "certificates",
            &certificates,
            connections::certificates_read(alloc),
        )?,
        told(rt, "reads that fail", failing::reads_in_turn(alloc))?,
        told(rt, "writes that fail", failing::writes_in_turn(alloc))?,
    ];
    Ok(all.iter().all(|well| *well))
}

fn words_given<R: Env + AllocGlobal>(rt: &R) -> io::Result<Vec<String>> {
    Ok(env::args(rt)?.skip(1).collect(rt.alloc())?)
}

fn run<R: Wait + Env + AllocGlobal + Print + Clock>(rt: &R) -> io::Result<bool> {
    let words = words_given(rt)?;
    match words.as_slice() {
        [] => {
            ask_desk(rt)?;
            try_all(rt, rt.alloc())
        }
        [word] if word.as_str() == "desk" => {
            ask_desk(rt)?;
            Ok(true)
        }
        [word] if word.as_str() == "refreshes" => try_script(rt, rt.alloc()),
        _ => {
            println!(rt; "disco_refusals [desk | refreshes]")?;
            Ok(false)
        }
    }
}

fn main(rt: HostRuntime) -> ExitCode {
    match run(&rt) {
        Ok(true) => ExitCode::SUCCESS,
        _ => ExitCode::FAILURE,
    }
}
