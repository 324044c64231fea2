//! Tries what no contract and no row of files says: streams that fail, more instances than a file of
//! lines should have, a host whose time jumps, and looks from several threads beside a desk that
//! publishes.
//!
//! It prints the result of each trial, and ends with status 1 where one fails.
//!
//! With the words `looks <apps> <threads> <looks> <busy>` it tries nothing, but times so many looks on
//! each thread, each at a document of its own in an edition with one for each app, while one thread more
//! writes, loads and publishes where `busy` is 1.
#![tactic(auto)]

mod clocks;
mod given;
mod looking;
mod press;
mod program;
mod publishing;
mod seats;
mod serving;
mod timing;

use disco_press::Opening;
use disco_trials::compared;
use disco_values::Fault;
use press::Seen;
use std::alloc::Global;
use std::io;
use std::marker::Brand;
use std::process::ExitCode;
use std::rt::{Clock, Env};
use std::sync::Wait;
use std::thread::Threads;
use timing::Timing;

fn try_streams<R: Print>(rt: &R, alloc: Global) -> io::Result<bool> {
    let (reads, writes) = (program::READS.len(), program::WRITES.len());
    let all = [
        compared(
            rt,
            "65,536 instances",
            &program::WANTED,
            program::most_held(alloc),
        )?,
        compared(
            rt,
            "a read that fails",
            &reads,
            program::failed_reads(alloc),
        )?,
        compared(
            rt,
            "a write that fails",
            &writes,
            program::failed_writes(alloc),
        )?,
        compared(
            rt,
            "connections that fail",
            &None,
            serving::first_wrong(alloc),
        )?,
    ];
    Ok(all.iter().all(|well| *well))
}

/// Tries all that takes one thread, and tells what came of the trial of two.
fn tell_all<R: Print>(rt: &R, alloc: Global, threads: Result<Seen, Fault>) -> io::Result<bool> {
    let all = [
        try_streams(rt, alloc)?,
        compared(
            rt,
            "a host's time that jumps",
            &clocks::WANTED,
            clocks::moments(),
        )?,
        compared(rt, "looks from another thread", &press::WANTED, threads)?,
    ];
    Ok(all.iter().all(|well| *well))
}

/// Tries all, and tells whether all is as it has to be.
fn try_all<R>(rt: &R) -> io::Result<bool>
where
    R: Threads + Wait + AllocGlobal + Print + Sync + Clone + Drop,
{
    let alloc = rt.alloc();
    let threads = press::seen_by_another_thread::<Brand, R>(rt, alloc, Opening::new());
    let well = tell_all(rt, alloc, threads)?;
    let none_goes_back = seats::none_goes_back::<Brand, R>(rt, Opening::new())?;
    Ok(well && none_goes_back)
}

/// Times the looks that the words name.
fn time_looks<R>(rt: &R, words: &[String]) -> io::Result<bool>
where
    R: Threads + Wait + Clock + AllocGlobal + Print + Sync + Clone + Drop,
{
    match Timing::of(words) {
        Some(timing) => timing::run::<Brand, R>(rt, &timing, Opening::new()),
        None => {
            println!(rt; "disco_tests [looks <apps> <threads> <looks> <busy>]")?;
            Ok(false)
        }
    }
}

fn words_given<R: Env + AllocGlobal>(rt: &R) -> io::Result<Vec<String>> {
    Ok(std::env::args(rt)?.skip(1).collect(rt.alloc())?)
}

fn run<R>(rt: &R) -> io::Result<bool>
where
    R: Threads + Wait + Clock + Env + AllocGlobal + Print + Sync + Clone + Drop,
{
    let words = words_given(rt)?;
    if words.is_empty() {
        return try_all(rt);
    }
    time_looks(rt, words.as_slice())
}

fn main(rt: HostRuntime) -> ExitCode {
    match run(&rt) {
        Ok(true) => ExitCode::SUCCESS,
        _ => ExitCode::FAILURE,
    }
}
