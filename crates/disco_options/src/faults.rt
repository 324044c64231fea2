//! Messages of failed runs on standard error, and exit statuses.
ghost use Rattle.std.specs.Prelude.{◌≡◌, ◌≢◌, ◌⊎◌, ◌++◌, ℕ, List, IfErr, IfOk, IfSome, OnOk, codes, decimal, string_bytes};
ghost use Rattle.std.specs.Io.KnownBytes.{Appends};
ghost use Rattle.std.specs.IoError.{error_kind};
ghost use Rattle.clap.specs.Words.{HasKind, Kinds, kind_of};
ghost use Rattle.disco_options.specs.Ending.{EndsBy};
ghost use Rattle.disco_options.specs.Faults.{IsCauseLine, Says, SaysAny, SaysBehind, TellsCause, report_line, status_of_kind, status_without_words};
ghost use Rattle.disco_http.specs.Causes.{Raises};
ghost use Rattle.disco_http.specs.Writes.{WritesBytes};
ghost use Rattle.disco_values.specs.declared.fault.Fault.TheVariants.{OutOfMemory, ReadFailed, WriteFailed};

use clap::Error;
use clap::error::ErrorKind;
use disco_http::{Sink, write_all};
use disco_values::Fault;
use itoa::Buffer;
use std::alloc::{AllocError, Global};
use std::fmt::Display;
use std::io;

/// Writes a text, and a number behind it.
fn write_number<E: Sink>(text: &[u8], number: u64, errors: &mut E) -> Result<(), Fault>
    ensures { WritesBytes (E.contents errors.old) (E.contents errors.new) (E.failed errors.old) (E.failed errors.new) result (text.now ++ decimal number) }
{
    let mut digits = Buffer::new();
    write_all(errors, text)?;
    write_all(errors, digits.format(number).as_bytes())
}

/// Writes the end of a line behind a number.
fn write_end<E: Sink>(text: &[u8], number: u64, errors: &mut E) -> Result<(), Fault>
    ensures { WritesBytes (E.contents errors.old) (E.contents errors.new) (E.failed errors.old) (E.failed errors.new) result
        (text.now ++ decimal number ++ codes "\n") }
{
    write_number(text, number, errors)?;
    write_all(errors, b"\n")
}

fn write_bad_line<E: Sink>(number: u64, line: u64, errors: &mut E) -> Result<(), Fault>
    ensures { WritesBytes (E.contents errors.old) (E.contents errors.new) (E.failed errors.old) (E.failed errors.new) result
        (codes "discovery: fault " ++ decimal number ++ codes " at line " ++ decimal line ++ codes "\n") }
{
    write_number(b"discovery: fault ", number, errors)?;
    write_end(b" at line ", line, errors)
}

fn write_report<E: Sink>(fault: &Fault, errors: &mut E) -> Result<(), Fault>
    ensures { WritesBytes (E.contents errors.old) (E.contents errors.new) (E.failed errors.old) (E.failed errors.new) result (report_line fault.now) }
{
    let number = fault.number() as u64;
    match fault {
        Fault::BadEvent(line) => write_bad_line(number, *line, errors),
        _ => write_end(b"discovery: fault ", number, errors),
    }
}

/// Writes the one line that names a fault, and gives the status 1. A line that can't be written is
/// dropped. Takes no memory.
pub fn report<E: Sink>(fault: &Fault, errors: &mut E) -> u8
    ensures status { result ≡ 1 }
    ensures says { Says fault.now (E.contents errors.old) (E.contents errors.new) (E.failed errors.old) (E.failed errors.new) }
    ensures counted { (E.failed errors.new ≡ E.failed errors.old) ⊎ Raises (E.failed errors.old) (E.failed errors.new) }
    ensures told { SaysAny (E.contents errors.old) (E.contents errors.new) (E.failed errors.old) (E.failed errors.new) }
{
    match write_report(fault, errors) {
        Ok(()) => 1,
        Err(_) => 1,
    }
}

/// The line that says what the host refuses at an address, and why.
fn cause_line<A: Display>(
    alloc: Global,
    what: &str,
    address: &A,
    error: &io::Error,
) -> Result<String, AllocError>
    ensures { IfOk result (λ line. IsCauseLine (string_bytes line)) }
{
    let address = format!(in alloc; "{address}")?;
    let cause = format!(in alloc; "{error}")?;
    format!(in alloc; "discovery: {what} {address}: {cause}\n")
}

/// Tells what the host refuses at an address, and why, where there is memory for it.
fn explain<A: Display, E: Sink>(
    alloc: Global,
    what: &str,
    address: &A,
    error: &io::Error,
    errors: &mut E,
)
    ensures { (text : List ℕ) × Appends (E.contents errors.old) (E.contents errors.new) text
        × TellsCause text (E.failed errors.old) (E.failed errors.new)
        × ((E.failed errors.new ≡ E.failed errors.old) ⊎ Raises (E.failed errors.old) (E.failed errors.new)) }
{
    let Ok(line) = cause_line(alloc, what, address, error) else {
        return;
    };
    let _ = write_all(errors, line.as_bytes());
}

/// Tells what the host refuses at an address, and why, where there is memory for it. Writes the line
/// of the fault `ReadFailed` behind it, and gives the status 1.
pub fn report_address<A: Display, E: Sink>(
    alloc: Global,
    what: &str,
    address: &A,
    error: &io::Error,
    errors: &mut E,
) -> u8
    ensures status { result ≡ 1 }
    ensures says { SaysBehind ReadFailed (E.contents errors.old) (E.contents errors.new) (E.failed errors.old) (E.failed errors.new) }
    ensures told { SaysAny (E.contents errors.old) (E.contents errors.new) (E.failed errors.old) (E.failed errors.new) }
{
    explain(alloc, what, address, error, errors);
    let status = report(&Fault::ReadFailed, errors);
    // For the proof alone: how far failures are counted.
    let _failures = errors.failures();
    status
}

/// The status for a command line that gave no settings: 0 where help was asked for, 1 for want of
/// memory, 2 for a mistake in the words.
pub(crate) fn status_of(error: &Error) -> u8
    ensures { result ≡ status_of_kind (kind_of error.now) }
{
    match error.kind() {
        ErrorKind::OutOfMemory => 1,
        ErrorKind::DisplayHelp | ErrorKind::DisplayVersion => 0,
        _ => 2,
    }
}

/// Shows a text. Refused as `WriteFailed`, with a front of it written, and as `OutOfMemory`.
fn show<D: Display + Drop, W: Sink>(alloc: Global, text: D, out: &mut W) -> Result<(), Fault>
    ensures shown { OnOk result (IfSome (D.output text) (Appends (W.contents out.old) (W.contents out.new))) }
    ensures refused { IfErr result (λ fault. (fault ≡ OutOfMemory) ⊎ (fault ≡ WriteFailed)) }
{
    let text = format!(in alloc; "{text}")?;
    write_all(out, text.as_bytes())
}

/// Shows what a command line that gave no settings is answered with, and gives the status: help on
/// `out`, a mistake on `errors`. Where there is no memory for the text of a mistake, it isn't shown.
pub fn refused<W: Sink, E: Sink>(alloc: Global, error: &Error, out: &mut W, errors: &mut E) -> u8
    // Help that can't be written ends with 1.
    ensures status { (result ≡ status_of_kind (kind_of error.now))
        ⊎ ((status_of_kind (kind_of error.now) ≡ 0) × (result ≡ 1)) }

    ensures unwritten { status_of_kind (kind_of error.now) ≢ 0 → out.new ≡ out.old }
    ensures memory { status_of_kind (kind_of error.now) ≡ 1
        → Says OutOfMemory (E.contents errors.old) (E.contents errors.new) (E.failed errors.old) (E.failed errors.new) }
    ensures ends { (faults : Kinds) → HasKind faults error.now
        → EndsBy E.contents E.failed faults result out.old out.new errors.old errors.new }
{
    match status_of(error) {
        0 => match show(alloc, error, out) {
            Ok(()) => 0,
            Err(fault) => report(&fault, errors),
        },
        1 => report(&Fault::OutOfMemory, errors),
        status => {
            let _ = show(alloc, error, errors);
            status
        }
    }
}

/// The status where the words themselves can't be had: 1 for want of memory, 2 where one isn't
/// text.
pub fn without_words<E: Sink>(error: &io::Error, errors: &mut E) -> u8
    ensures status { result ≡ status_without_words (error_kind error.now) }
    ensures told { result ≡ 1 → SaysAny (E.contents errors.old) (E.contents errors.new) (E.failed errors.old) (E.failed errors.new) }
{
    match error.kind() {
        io::ErrorKind::OutOfMemory => report(&Fault::OutOfMemory, errors),
        _ => {
            let _ = write_all(errors, b"error: a word of the command line is not UTF-8\n");
            2
        }
    }
}
