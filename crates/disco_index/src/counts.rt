//! How many instances have each status.
ghost use Rattle.std.specs.Prelude.{◌≡◌, ◌<◌, ◌≤◌, ◌+◌, ◌-◌, ◌^◌, ◌++◌, [], List, IfOk, IfErr, None, Some, string_bytes, vec_len};
ghost use Rattle.std.specs.FinMap.{FinMap, get, insert, remove};
ghost use Rattle.std.specs.Option.{option_copied};
ghost use Rattle.std.specs.Str.{bytes_eq};
ghost use Rattle.std.specs.Vec.{vec_capacity};
ghost use Rattle.disco_values.specs.Key.{key_cmp};
ghost use Rattle.disco_instance.specs.Row.{Row};
ghost use Rattle.disco_values.specs.declared.key.Key.{Key};
ghost use Rattle.disco_values.specs.declared.fault.Fault.TheVariants.{OutOfMemory};
ghost use Rattle.disco_history.specs.Change.{Entry};
ghost use Rattle.disco_history.specs.Hash.{hash, hash_by};
ghost use Rattle.disco_index.specs.Behind.{behind};
ghost use Rattle.disco_index.specs.Tally.{count_in, fewer, more, tally_in, tally_of};

use crate::behind::behind_piece;
use crate::pieces::{push_piece, write_piece};
use disco_values::{Fault, Status, Text};
use std::alloc::{AllocError, Global};
use std::marker::Model;

/// How many instances have each status.
#[derive(Debug, Drop)]
pub struct Counts {
    down: u64,
    out_of_service: u64,
    starting: u64,
    unknown: u64,
    up: u64,
}

impl Model for Counts {
    ghost use Rattle.disco_index.specs.Tally.{Tally};

    ghost Value = { Tally };

    ghost view = { λ c. record { down = c.down; out_of_service = c.out_of_service; starting = c.starting; unknown = c.unknown; up = c.up } };
}

impl Counts {
    /// No instances.
    pub fn new() -> Counts
        ensures { result ≡ tally_of [] }
    {
        Counts {
            down: 0,
            out_of_service: 0,
            starting: 0,
            unknown: 0,
            up: 0,
        }
    }

    /// How many instances have the status. Takes no memory.
    pub fn of(&self, status: Status) -> u64
        ensures { result ≡ count_in self.now status }
    {
        match status {
            Status::Down => self.down,
            Status::OutOfService => self.out_of_service,
            Status::Starting => self.starting,
            Status::Unknown => self.unknown,
            Status::Up => self.up,
        }
    }

    /// A copy of the counts. Takes no memory.
    pub fn again(&self) -> Counts
        ensures { result ≡ self.now }
    {
        Counts {
            down: self.down,
            out_of_service: self.out_of_service,
            starting: self.starting,
            unknown: self.unknown,
            up: self.up,
        }
    }

    /// Counts one more instance of the status. Takes no memory.
    pub fn add(&mut self, status: Status)
        requires { count_in self.old status < 2 ^ 64 - 1 }
        ensures more { self.new ≡ more self.old status }
        ensures tally { (m : FinMap key_cmp Entry) (k : Key) (e : Entry) → e.0.status ≡ status → get m k ≡ None → self.old ≡ tally_in m
            → self.new ≡ tally_in (insert m k e) }
    {
        self.count(status);
    }

    /// Counts one instance of the status fewer. Takes no memory.
    pub fn take(&mut self, status: Status)
        requires { 0 < count_in self.old status }
        ensures fewer { self.new ≡ fewer self.old status }
        ensures tally { (m : FinMap key_cmp Entry) (k : Key) (e : Entry) → e.0.status ≡ status → get m k ≡ Some e → self.old ≡ tally_in m
            → self.new ≡ tally_in (remove m k) }
    {
        self.uncount(status);
    }

    fn count(&mut self, status: Status)
        requires { count_in self.old status < 2 ^ 64 - 1 }
        ensures { self.new ≡ more self.old status }
    {
        match status {
            Status::Down => self.down += 1,
            Status::OutOfService => self.out_of_service += 1,
            Status::Starting => self.starting += 1,
            Status::Unknown => self.unknown += 1,
            Status::Up => self.up += 1,
        }
    }

    fn uncount(&mut self, status: Status)
        requires { 0 < count_in self.old status }
        ensures { self.new ≡ fewer self.old status }
    {
        match status {
            Status::Down => self.down -= 1,
            Status::OutOfService => self.out_of_service -= 1,
            Status::Starting => self.starting -= 1,
            Status::Unknown => self.unknown -= 1,
            Status::Up => self.up -= 1,
        }
    }

    /// The hash code: Eureka's `apps__hashcode`.
    ///
    /// # Errors
    ///
    /// `OutOfMemory` alone.
    pub fn text(&self, alloc: Global) -> Result<Text, Fault>
        ensures text { IfOk result (λ t. (rows : List Row) → self.now ≡ tally_of rows → t ≡ hash rows) }
        ensures memory { IfErr result (λ e. e ≡ OutOfMemory) }
    {
        Ok(Text::from_string(self.written(alloc)?))
    }

    fn written(&self, alloc: Global) -> Result<String, AllocError>
        ensures { IfOk result (λ t. string_bytes t ≡ hash_by (count_in self.now)) }
    {
        let mut text = String::new(alloc);
        write_piece(&mut text, Status::Down, self.down)?;
        write_piece(&mut text, Status::OutOfService, self.out_of_service)?;
        write_piece(&mut text, Status::Starting, self.starting)?;
        write_piece(&mut text, Status::Unknown, self.unknown)?;
        write_piece(&mut text, Status::Up, self.up)?;
        Ok(text)
    }

    /// Pushes the hash code into room that is there. Takes no memory.
    pub fn text_into(&self, out: &mut Vec<u8>)
        requires { vec_len out.old + 160 ≤ vec_capacity out.old }
        ensures text { (rows : List Row) → self.now ≡ tally_of rows → out.new.items ≡ out.old.items ++ hash rows }
        ensures capacity { vec_capacity out.new ≡ vec_capacity out.old }
    {
        push_piece(out, Status::Down, self.down);
        push_piece(out, Status::OutOfService, self.out_of_service);
        push_piece(out, Status::Starting, self.starting);
        push_piece(out, Status::Unknown, self.unknown);
        push_piece(out, Status::Up, self.up);
    }

    /// Whether a text is the hash code. Takes no memory.
    pub fn is_text(&self, text: &str) -> bool
        ensures { (rows : List Row) → self.now ≡ tally_of rows → result ≡ bytes_eq text.now (hash rows) }
    {
        match self.behind_text(text.as_bytes()) {
            Some(rest) => rest.is_empty(),
            None => false,
        }
    }

    /// The rest of a text behind the hash code, where the text begins with it.
    fn behind_text<'a>(&self, text: &'a [u8]) -> Option<&'a [u8]>
        ensures { option_copied result ≡ behind (hash_by (count_in self.now)) text.now }
    {
        let text = behind_piece(text, Status::Down, self.down)?;
        let text = behind_piece(text, Status::OutOfService, self.out_of_service)?;
        let text = behind_piece(text, Status::Starting, self.starting)?;
        let text = behind_piece(text, Status::Unknown, self.unknown)?;
        behind_piece(text, Status::Up, self.up)
    }
}
