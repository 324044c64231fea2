//! The rows of the table of paths.

/// A row of the table of paths, without the names in it.
#[derive(Clone, Copy, Debug, PartialEq, Eq)]
pub(crate) enum Route {
    Apps,
    Delta,
    App,
    Instance,
    Status,
    Metadata,
    Id,
    Vip,
    Svip,
}
