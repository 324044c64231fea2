//! A fetcher that opens another connection to its server when one has ended.
ghost use Rattle.std.specs.Prelude.{◌≡◌, ◌≢◌, ◌≤◌, ◌⊎◌, IfOk};
ghost use Rattle.disco_values.specs.declared.fault.Fault.TheVariants.{OutOfMemory};
ghost use Rattle.disco_values.specs.declared.query.Query.TheVariants.{Apps, Delta};
ghost use Rattle.disco_http.specs.Causes.{Raises};
ghost use Rattle.disco_http.specs.Streams.{reader_limits};
ghost use Rattle.disco_reconcile.specs.Connection.{reader_of};

use crate::connection::connect;
use crate::pace::Pace;
use crate::reply_source::ReplySource;
use disco_http::{Counted, Reader, Writer};
use disco_message::Limits;
use disco_reconcile::{Fetch, Fetched, HttpFetch};
use disco_values::{DocKey, Fault};
use std::alloc::{AllocError, Global};
use std::io;
use std::io::ErrorKind;
use std::marker::Model;
use std::net::{Net, TcpStream};
use std::rt::Clock;

/// A connection, with the fetcher over it.
#[derive(Drop)]
struct Connected<'a, N> {
    stream: TcpStream,
    fetches: HttpFetch<ReplySource<'a, N>, Counted<TcpStream>>,
}

/// Fetches over a connection of three streams. A body may have 256 MiB.
fn fetching<'a, N: Clock>(
    rt: &'a N,
    alloc: Global,
    pace: &'a Pace,
    streams: (TcpStream, TcpStream, TcpStream),
) -> Result<Connected<'a, N>, AllocError>
    ensures { IfOk result (λ connected. (reader_limits (reader_of connected.fetches)).body ≡ 268435456) }
{
    let (stream, source, sink) = streams;
    let reader = Reader::new(
        alloc,
        ReplySource::new(rt, source, pace),
        Limits::of_client(),
    )?;
    let writer = Writer::new(alloc, Counted::new(sink))?;
    Ok(Connected {
        stream,
        fetches: HttpFetch::new(alloc, reader, writer),
    })
}

/// Opens a connection to a server, as three handles.
pub(crate) fn connect_thrice<N: Net<Stream = TcpStream>>(
    rt: &N,
    address: &str,
) -> io::Result<(TcpStream, TcpStream, TcpStream)> {
    let (source, sink) = connect(rt, address)?;
    Ok((source.try_clone()?, source, sink))
}

/// Whether nothing came over a stream, and it hasn't ended.
fn is_silent(stream: &TcpStream) -> bool {
    if stream.set_nonblocking(true).is_err() {
        return false;
    }
    let seen = stream.peek(&mut [0]);
    let silent = matches!(seen, Err(error) if error.kind() == ErrorKind::WouldBlock);
    silent && stream.set_nonblocking(false).is_ok()
}

/// A fetcher over a connection to a server, and over another one when that has ended. Contracts see how
/// many fetches have failed over all of them.
#[derive(Drop)]
pub(crate) struct Line<'a, N> {
    rt: &'a N,
    alloc: Global,
    /// The server's address, which is looked up for each connection.
    address: &'a str,
    pace: &'a Pace,
    connected: Option<Connected<'a, N>>,
    failures: u64,
}

impl<'a, N> Model for Line<'a, N> {
    ghost use Rattle.std.specs.Prelude.{ℕ};

    ghost Value = { ℕ };

    ghost view = { λ l. l.failures };
}

impl<N> Line<'_, N> {
    /// Counts a failure, but for want of memory.
    fn count(&mut self, fault: Fault)
        ensures count { self.old ≤ self.new }
        ensures cause { fault ≢ OutOfMemory → Raises self.old self.new }
    {
        if !matches!(fault, Fault::OutOfMemory) {
            self.failures = self.failures.saturating_add(1);
        }
    }
}

impl<'a, N: Net<Stream = TcpStream> + Clock> Line<'a, N> {
    /// A fetcher for an address, with an open connection.
    pub(crate) fn new(
        rt: &'a N,
        alloc: Global,
        address: &'a str,
        pace: &'a Pace,
        streams: (TcpStream, TcpStream, TcpStream),
    ) -> Result<Line<'a, N>, AllocError>
        ensures { IfOk result (λ line. line ≡ 0) }
    {
        let connected = fetching(rt, alloc, pace, streams)?;
        Ok(Line {
            rt,
            alloc,
            address,
            pace,
            connected: Some(connected),
            failures: 0,
        })
    }

    /// Asks over the connection. Bytes that came before the request end it.
    fn ask(&mut self, key: &DocKey) -> Result<Fetched, Fault>
        requires { (key.now.query ≡ Apps) ⊎ (key.now.query ≡ Delta) }
        ensures { self.new ≡ self.old }
    {
        match &mut self.connected {
            Some(connected) if is_silent(&connected.stream) && self.pace.begin(self.rt) => {
                connected.fetches.fetch(key)
            }
            _ => Err(Fault::NotFetched),
        }
    }

    /// Opens another connection in place of the old one.
    fn connect(&mut self) -> Result<(), Fault>
        ensures { self.new ≡ self.old }
    {
        let Ok(streams) = connect_thrice(self.rt, self.address) else {
            return Err(Fault::NotFetched);
        };
        self.connected = Some(fetching(self.rt, self.alloc, self.pace, streams)?);
        Ok(())
    }

    /// Asks over another connection.
    fn ask_anew(&mut self, key: &DocKey) -> Result<Fetched, Fault>
        requires { (key.now.query ≡ Apps) ⊎ (key.now.query ≡ Delta) }
        ensures { self.new ≡ self.old }
    {
        self.connect()?;
        self.ask(key)
    }

    /// Asks over the connection, and where that fails otherwise than for want of memory, over another
    /// one. To ask twice does no more than to ask once (RFC 9110, section 9.2.2).
    fn ask_again(&mut self, key: &DocKey) -> Result<Fetched, Fault>
        requires { (key.now.query ≡ Apps) ⊎ (key.now.query ≡ Delta) }
        ensures { self.new ≡ self.old }
    {
        match self.ask(key) {
            Ok(fetched) => Ok(fetched),
            Err(Fault::OutOfMemory) => Err(Fault::OutOfMemory),
            Err(_) => self.ask_anew(key),
        }
    }
}

impl<N: Net<Stream = TcpStream> + Clock> Fetch for Line<'_, N> {
    ghost gives = { λ _ _ _ _. Unit {0} };

    ghost failed = { λ failures. failures };

    fn fetch(&mut self, key: &DocKey) -> Result<Fetched, Fault> {
        match self.ask_again(key) {
            Ok(fetched) => Ok(fetched),
            Err(fault) => {
                self.count(fault);
                Err(fault)
            }
        }
    }

    fn failures(&self) -> u64 {
        self.failures
    }
}
