//! What workers pass on their way through a request.

/// A place on the way through a request. Its number is that of the request's connection, from 1 in
/// the order in which connections were taken; it stops at 2^64 - 1.
#[derive(Clone, Copy, Debug, PartialEq, Eq)]
pub enum Point {
    /// The request was read, and its answer isn't begun.
    Received(u64),
    /// The reply is there, and no byte of it is written.
    Answered(u64),
}

/// What each worker passes with each request. It may hold the worker.
pub trait Gate {
    /// Passes a point.
    fn pass(&self, point: Point);
}

/// A gate that holds nobody.
#[derive(Clone, Copy, Debug)]
pub struct Open;

impl Gate for Open {
    fn pass(&self, _point: Point) {}
}
