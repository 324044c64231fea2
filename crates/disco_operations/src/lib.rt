//! Makes the operation on the registry that a request or an event asks for: the key of an app and an
//! id, a registration under an app's name, changes of status and metadata. Decodes names and query
//! strings.
#![tactic(auto)]

mod operations;
mod percent;
mod query;

pub use operations::{add_metadata, cancel, drop_status, key_named, register, renew, set_status};
pub use percent::{decoded, decoded_text};
pub use query::{entries_of_query, value_of};
