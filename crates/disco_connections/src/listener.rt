//! Listening on this host.
use std::io;
use std::net::{Ipv4Addr, Net, SocketAddr, TcpListener};

/// A listener on a port of 127.0.0.1; on a free one where it is 0. As many connections wait at it as
/// the host lets wait.
///
/// # Errors
///
/// What the host says where it refuses the listener.
pub fn listen<N: Net>(rt: &N, port: u16) -> io::Result<TcpListener> {
    let listener = mio::net::TcpListener::bind(rt, SocketAddr::from((Ipv4Addr::LOCALHOST, port)))?;
    let listener = TcpListener::from(listener);
    listener.set_nonblocking(false)?;
    Ok(listener)
}
