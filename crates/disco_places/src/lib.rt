//! Maps by key: of values, and of places that may be empty. Each app has a map of its own.
#![tactic(auto)]

mod id_map;
mod ids;
mod iter;
mod key_map;
mod places;
mod rest;

pub use id_map::IdMap;
pub use iter::Iter;
pub use key_map::KeyMap;
pub use places::Places;
