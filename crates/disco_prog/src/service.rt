//! The options of `serve`.
ghost use Rattle.std.specs.Prelude.{◌<◌, ◌≤◌};

use disco_values::Settings;

/// The options of `serve`.
#[derive(Clone, Copy, Debug)]
pub(crate) struct Service {
    pub(crate) settings: Settings,
    pub(crate) port: u16,
    pub(crate) workers: usize,
    /// After how many connections it ends; 0 is no end.
    pub(crate) connections: u64,
    /// How many connections are open at once, at most.
    pub(crate) slots: usize,
    pub(crate) ghost some: { 0 < workers },
    pub(crate) ghost few: { workers ≤ 64 },
}
