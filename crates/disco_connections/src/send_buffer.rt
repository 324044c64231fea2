//! How much the host keeps of a reply whose client doesn't read it.
use libc::net as c;
use std::os::fd::RawFd;

/// How many bytes. Linux takes as many again, for what it keeps beside them.
const SEND_BUFFER: i32 = 131_072;

/// Has the host keep so many bytes of what is written to a socket and didn't arrive. Else it takes up to
/// 4 MiB for each socket, and near its bound for all of them (`tcp_mem`) it drops what comes. Whether it does.
pub(crate) fn bound_send_buffer(socket: RawFd) -> bool {
    let mut value = [0u8; 16];
    value[..4].copy_from_slice(&SEND_BUFFER.to_ne_bytes());
    let done = unsafe { c::setsockopt(socket, c::SOL_SOCKET, c::SO_SNDBUF, &value, 4) };
    done == 0
}
