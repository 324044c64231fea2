//! Runs of the program over streams that fail, and over more instances than it holds.
use crate::given::strings;
use disco_http::Counted;
use disco_prog::replay;
use disco_trials::difference;
use disco_values::Fault;
use std::alloc::{AllocError, Global};
use std::io;
use std::io::{Read, Write};

fn push_registration(input: &mut String, id: u32) -> Result<(), AllocError> {
    writeln!(
        input,
        r#"register 1 A {{"instance":{{"instanceId":"{id}","hostName":"h","app":"A","ipAddr":"10.0.0.1","dataCenterInfo":{{"name":"MyOwn"}}}}}}"#
    )
}

/// Registrations of one instance more than are held, and what they are answered.
fn push_most(input: &mut String, want: &mut String) -> Result<(), AllocError> {
    for id in 1..65537u32 {
        push_registration(input, id)?;
        writeln!(want, "ok {id}")?;
    }
    push_registration(input, 65537)?;
    want.push_str("fault 8\n")
}

/// The exit status of a run, and where its answers differ from what they have to be, if they do.
#[derive(Clone, Copy, Debug, PartialEq, Eq)]
pub(crate) struct Ended {
    status: u8,
    differs_at: Option<usize>,
}

/// What has to be.
pub(crate) const WANTED: Ended = Ended {
    status: 0,
    differs_at: None,
};

fn run(alloc: Global, input: &str, want: &str) -> Result<Ended, Fault> {
    let words = strings(alloc, &["replay"])?;
    let mut reader = Counted::new(input.as_bytes());
    let (mut out, mut errors) = (Counted::new(Vec::new(alloc)), Counted::new(Vec::new(alloc)));
    let status = replay(alloc, &mut reader, &mut out, &mut errors, words.as_slice());
    Ok(Ended {
        status,
        differs_at: difference(want.as_bytes(), out.inner.as_slice()),
    })
}

/// 65,536 instances are held, and no more.
pub(crate) fn most_held(alloc: Global) -> Result<Ended, Fault> {
    let (mut input, mut want) = (String::new(alloc), String::new(alloc));
    push_most(&mut input, &mut want)?;
    run(alloc, input.as_str(), want.as_str())
}

/// A source that fails where its bytes end.
#[derive(Drop)]
struct Torn<'a> {
    rest: &'a [u8],
}

impl Read for Torn<'_> {
    fn read(&mut self, buf: &mut [u8]) -> io::Result<usize> {
        if self.rest.is_empty() {
            return Err(io::Error::from(io::ErrorKind::ConnectionReset));
        }
        self.rest.read(buf)
    }
}

fn fails_behind(alloc: Global, words: &[String], rest: &str) -> bool {
    let mut reader = Counted::new(Torn {
        rest: rest.as_bytes(),
    });
    let (mut out, mut errors) = (Counted::new(Vec::new(alloc)), Counted::new(Vec::new(alloc)));
    let status = replay(alloc, &mut reader, &mut out, &mut errors, words);
    let told = errors.inner.as_slice() == b"discovery: fault 20\n".as_slice();
    status == 1 && told && out.inner.is_empty()
}

/// What comes before a read that fails.
pub(crate) const READS: &[&str] = &["", "load full apps\n", "hello\n", "load"];

/// Behind how many of these nothing is answered, and it is said, up to the first that isn't so.
pub(crate) fn failed_reads(alloc: Global) -> Result<usize, Fault> {
    let words = strings(alloc, &["replay"])?;
    Ok(
        READS
            .iter()
            .take_while(|rest| fails_behind(alloc, words.as_slice(), rest))
            .count(),
    )
}

/// A sink that takes so many bytes and then fails.
#[derive(Drop)]
struct Full {
    room: usize,
}

impl Write for Full {
    fn write(&mut self, buf: &[u8]) -> io::Result<usize> {
        if self.room == 0 {
            return Err(io::Error::from(io::ErrorKind::StorageFull));
        }
        let taken = buf.len().min(self.room);
        self.room -= taken;
        Ok(taken)
    }

    fn flush(&mut self) -> io::Result<()> {
        Ok(())
    }
}

fn fails_past(alloc: Global, word: &str, room: usize) -> Result<bool, Fault> {
    let words = strings(alloc, &[word])?;
    let mut reader = Counted::new(b"cancel 1 A 1".as_slice());
    let (mut out, mut errors) = (Counted::new(Full { room }), Counted::new(Vec::new(alloc)));
    let status = replay(alloc, &mut reader, &mut out, &mut errors, words.as_slice());
    Ok(status == 1 && errors.inner.as_slice() == b"discovery: fault 21\n".as_slice())
}

/// The word of a run, and how many bytes it writes before a write fails.
pub(crate) const WRITES: &[(&str, usize)] = &[
    ("replay", 0),
    ("replay", 7),
    ("--help", 0),
    ("--help", 5),
];

/// In how many of these runs it is said, up to the first in which it isn't.
pub(crate) fn failed_writes(alloc: Global) -> Result<usize, Fault> {
    for (i, (word, room)) in WRITES.iter().enumerate() {
        if !fails_past(alloc, word, *room)? {
            return Ok(i);
        }
    }
    Ok(WRITES.len())
}
