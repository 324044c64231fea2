//! What a run ends with, and where it differs from what was wanted.
ghost use Rattle.std.specs.Prelude.{◌≡◌, IfNone};

use crate::differing::same_bytes;
use std::io;
use std::io::Write;

/// The exit status that a run ends with, as a line, and all that it wrote.
#[derive(Debug, Drop)]
pub struct Outcome {
    pub status: Vec<u8>,
    /// What standard output gets.
    pub answers: Vec<u8>,
    /// What standard error gets.
    pub faults: Vec<u8>,
}

/// The first line in which what came differs from what was wanted, and where in it. A text that has
/// ended has no such line.
#[derive(Debug, Drop)]
pub struct Difference<'a> {
    what: &'static str,
    /// The lines before this one, which are the same.
    same: usize,
    /// The bytes of this line that are the same in both.
    bytes: usize,
    wanted: Option<&'a [u8]>,
    came: Option<&'a [u8]>,
}

fn is_feed(byte: &u8) -> bool {
    *byte == b'\n'
}

fn same_lines(wanted: &[u8], came: &[u8]) -> usize {
    wanted
        .split(is_feed)
        .zip(came.split(is_feed))
        .take_while(|(wanted, came)| wanted == came)
        .count()
}

fn line(text: &[u8], before: usize) -> Option<&[u8]> {
    text.split(is_feed).nth(before)
}

fn first_in<'a>(what: &'static str, wanted: &'a [u8], came: &'a [u8]) -> Option<Difference<'a>>
    ensures { IfNone result (wanted.now ≡ came.now) }
{
    if wanted == came {
        return None;
    }
    let same = same_lines(wanted, came);
    let (wanted, came) = (line(wanted, same), line(came, same));
    let bytes = match (wanted, came) {
        (Some(wanted), Some(came)) => same_bytes(wanted, came),
        _ => 0,
    };
    Some(Difference {
        what,
        same,
        bytes,
        wanted,
        came,
    })
}

fn write_line<W: Write>(out: &mut W, head: &str, line: Option<&[u8]>) -> io::Result<()> {
    match line {
        Some(line) => {
            write!(out, "  {head} ")?;
            out.write_all(line)?;
            writeln!(out, "")
        }
        None => writeln!(out, "  {head} no such line"),
    }
}

impl<'a> Difference<'a> {
    /// Where two outcomes differ first: in what standard output gets, in what standard error gets, or
    /// in the status. There is nothing to show only where they are the same.
    pub fn first(wanted: &'a Outcome, came: &'a Outcome) -> Option<Difference<'a>>
        ensures status { IfNone result (wanted.now.status.items ≡ came.now.status.items) }
        ensures answers { IfNone result (wanted.now.answers.items ≡ came.now.answers.items) }
        ensures faults { IfNone result (wanted.now.faults.items ≡ came.now.faults.items) }
    {
        first_in(
            "answers",
            wanted.answers.as_slice(),
            came.answers.as_slice(),
        )
        .or(first_in("faults", wanted.faults.as_slice(), came.faults.as_slice()))
        .or(first_in("status", wanted.status.as_slice(), came.status.as_slice()))
    }

    /// Writes a name with the numbers of the line and of the byte in it, both from 1, and that line as
    /// it was wanted and as it came.
    ///
    /// # Errors
    ///
    /// What the host says where nothing can be written.
    pub fn write<W: Write>(&self, out: &mut W, name: &str) -> io::Result<()> {
        let (what, line) = (self.what, self.same.saturating_add(1));
        let byte = self.bytes.saturating_add(1);
        writeln!(
            out,
            "{name}: line {line} of its {what}, from byte {byte} on"
        )?;
        write_line(out, "wanted", self.wanted)?;
        write_line(out, "came  ", self.came)
    }
}
