//! Connections of clients.
ghost use Rattle.std.specs.Prelude.{◌≡◌, IfOk};
ghost use Rattle.disco_http.specs.Streams.{reader_limits};
ghost use Rattle.disco_reconcile.specs.Connection.{reader_of};

use disco_http::{Counted, Reader, Writer};
use disco_message::Limits;
use disco_reconcile::HttpFetch;
use std::alloc::{AllocError, Global};
use std::io;
use std::net::{Net, TcpStream, ToSocketAddrs};
use std::time::Duration;

/// How long a client waits for bytes of a reply, in seconds.
const PATIENCE: u64 = 60;

/// Fetches over a connection.
pub type Connected = HttpFetch<Counted<TcpStream>, Counted<TcpStream>>;

/// Opens a connection to an address or a name, as two handles. A read fails where nothing comes for a
/// minute.
///
/// # Errors
///
/// The error of the host, where it doesn't find the name or refuses the connection.
pub fn connect<N: Net<Stream = TcpStream>, A: ToSocketAddrs>(
    rt: &N,
    address: A,
) -> io::Result<(TcpStream, TcpStream)> {
    let stream = TcpStream::connect(rt, address)?;
    stream.set_nodelay(true)?;
    stream.set_read_timeout(Some(Duration::from_secs(PATIENCE)))?;
    let other = stream.try_clone()?;
    Ok((stream, other))
}

/// Fetches over a connection, of which one stream is read and the other written. A body may have
/// 256 MiB.
///
/// # Errors
///
/// `AllocError` where memory is refused.
pub fn fetcher(alloc: Global, source: TcpStream, sink: TcpStream) -> Result<Connected, AllocError>
    ensures { IfOk result (λ connected. (reader_limits (reader_of connected)).body ≡ 268435456) }
{
    let reader = Reader::new(alloc, Counted::new(source), Limits::of_client())?;
    let writer = Writer::new(alloc, Counted::new(sink))?;
    Ok(HttpFetch::new(alloc, reader, writer))
}
