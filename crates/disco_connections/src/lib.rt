//! Connections over sockets: [`listen`] opens a listener, and an [`EventLoop`] has all its connections. A
//! worker takes the next one that is ready, serves it until it would wait, and puts it back. So a silent
//! or slow connection keeps no worker.
#![tactic(auto)]

mod acceptor;
mod accepts;
mod close;
mod connection;
mod deadline;
mod event_loop;
mod held;
mod listener;
mod poller;
mod room;
mod send_buffer;
mod slot;
mod slots;
mod timeouts;

pub use acceptor::{Acceptor, Refusal};
pub use accepts::{Accepted, accept};
pub use connection::{Connection, Turn};
pub use deadline::Deadline;
pub use event_loop::EventLoop;
pub use listener::listen;
pub use poller::Poller;
pub use room::Room;
pub use slot::Slot;
pub use timeouts::{Phase, Timeouts};
