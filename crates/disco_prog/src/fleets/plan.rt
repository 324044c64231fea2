//! The options of `fleet`.
ghost use Rattle.std.specs.Prelude.{◌<◌, ◌≤◌};

use disco_values::Settings;

/// The options of `fleet`.
#[derive(Clone, Copy, Debug)]
pub(super) struct Plan {
    pub(super) settings: Settings,
    pub(super) writers: u64,
    pub(super) clients: u64,
    pub(super) instances: u64,
    /// Whether the clients go by certificates.
    pub(super) certified: bool,
    /// Whether the server begins anew when all is shown.
    pub(super) restart: bool,
    pub(super) ghost some_writers: { 0 < writers },
    pub(super) ghost some_clients: { 0 < clients },
    pub(super) ghost few_clients: { clients ≤ 64 },
}
