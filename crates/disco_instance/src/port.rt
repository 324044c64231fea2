//! A port of an instance.

/// A port, and whether the instance listens there.
#[derive(Clone, Copy, Debug)]
pub struct Port {
    /// The member `$`.
    pub number: u16,
    /// The member `@enabled`.
    pub enabled: bool,
}
