//! What `follow` writes.
use disco_values::Text;

/// What `follow` writes of a client's copies, and how.
#[derive(Debug, Drop)]
pub struct Wanted {
    /// The vip whose UP instances are written, each with its host and port.
    pub vip: Option<Text>,
    /// Whether each line is a JSON object.
    pub json: bool,
}
