//! The client's end of a connection.
use disco_http::{Counted, Reader};
use disco_message::Limits;
use std::alloc::Global;
use std::io;
use std::io::{Read, Write};
use std::net::{Net, SocketAddr, TcpStream};
use std::time::Duration;

/// How many seconds a client waits for a reply, at most.
const PATIENCE_SECS: u64 = 20;

/// Asks for all apps, and for the connection's end.
pub(crate) const LAST_APPS: &[u8] =
    b"GET /eureka/v2/apps HTTP/1.1\r\nHost: a\r\nConnection: close\r\n\r\n";

/// A heartbeat.
pub(crate) const BEAT: &[u8] =
    b"PUT /eureka/v2/apps/A/1 HTTP/1.1\r\nHost: a\r\nContent-Length: 0\r\n\r\n";

/// A connection to the server.
pub(crate) fn visit<R: Net<Stream = TcpStream>>(
    rt: &R,
    server: SocketAddr,
) -> io::Result<TcpStream> {
    let stream = TcpStream::connect(rt, server)?;
    stream.set_nodelay(true)?;
    stream.set_read_timeout(Some(Duration::from_secs(PATIENCE_SECS)))?;
    Ok(stream)
}

/// Sends bytes.
pub(crate) fn send(mut stream: &TcpStream, bytes: &[u8]) -> io::Result<()> {
    stream.write_all(bytes)
}

/// Whether the next reply has this status.
pub(crate) fn hears(alloc: Global, stream: &TcpStream, status: u16) -> bool {
    let Ok(mut reader) = Reader::new(alloc, Counted::new(stream), Limits::of_client()) else {
        return false;
    };
    match reader.read_reply(alloc) {
        Ok(reply) => reply.head.status() == status,
        Err(_) => false,
    }
}

/// Whether nothing more comes, and the connection has an end.
pub(crate) fn is_at_end(mut stream: &TcpStream) -> bool {
    let mut byte = [0u8; 1];
    matches!(stream.read(&mut byte), Ok(0))
}
