//! The values of a registry: texts, keys, metadata entries, statuses, actions, queries, forms, keys and
//! certificates of documents, decimal numbers, limits ([`Settings`]) and faults. Every refusal of the
//! library is a [`Fault`].
#![tactic(auto)]

mod action;
mod bytes;
mod cert;
mod digits;
mod doc_key;
mod entries;
mod fault;
mod form;
mod front;
mod inline_text;
mod key;
mod limits;
mod merge;
mod query;
mod settings;
mod status;
mod storage;
mod text;

pub use action::{Action, action_of};
pub use bytes::Bytes;
pub use cert::Cert;
pub use digits::number_of_digits;
pub use doc_key::DocKey;
pub use entries::Entries;
pub use fault::{Fault, Field};
pub use form::Form;
pub use key::Key;
pub use limits::{MOST_ENTRIES, MOST_INSTANCES, MOST_QUEUE, MOST_VERSIONS, RETENTION};
pub use query::Query;
pub use settings::Settings;
pub use status::{Status, status_of};
pub use text::{Text, upper, upper_text};
