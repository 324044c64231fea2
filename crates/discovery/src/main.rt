//! `discovery`: a service registry. Runs the command that its words name, over the standard streams,
//! and ends with its exit status.
#![tactic(auto)]

use disco_http::Counted;
use disco_options::without_words;
use disco_prog::{Opening, run};
use std::marker::Brand;
use std::process::ExitCode;
use std::{env, io};

fn words_given(rt: &HostRuntime) -> io::Result<Vec<String>> {
    Ok(env::args(rt)?.skip(1).collect(rt.alloc())?)
}

fn main(rt: HostRuntime) -> ExitCode {
    let (mut input, mut out) = (Counted::new(rt.stdin()), Counted::new(rt.stdout()));
    let mut errors = Counted::new(rt.stderr());
    let status = match words_given(&rt) {
        Ok(words) => run::<Brand, _, _, _, _>(
            &rt,
            rt.alloc(),
            Opening::new(),
            &mut input,
            &mut out,
            &mut errors,
            words.as_slice(),
        ),
        Err(error) => without_words(&error, &mut errors),
    };
    ExitCode::from(status)
}
