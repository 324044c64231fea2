//! The methods that a path has.
ghost use Rattle.std.specs.Prelude.{◌≡◌};
ghost use Rattle.disco_calls.specs.Methods.{allow_of, lists_method};

use crate::place::Place;
use disco_message::Allow;

/// The methods of the path of a place.
pub(crate) fn allow_of<T>(place: &Place<T>) -> Allow
    ensures { result ≡ allow_of place.now }
{
    match place {
        Place::Apps | Place::Delta => Allow::Get,
        Place::App { .. } => Allow::GetPost,
        Place::Instance { .. } => Allow::GetPutDelete,
        Place::Status { .. } => Allow::PutDelete,
        Place::Metadata { .. } => Allow::Put,
        Place::Id { .. } | Place::Vip { .. } | Place::Svip { .. } => Allow::Get,
    }
}

/// Whether a method is among them. It is compared in its case (RFC 9110, section 9.1).
pub(crate) fn lists(allow: Allow, method: &str) -> bool
    ensures { result ≡ lists_method allow method.now }
{
    match allow {
        Allow::Get => matches!(method, "GET"),
        Allow::GetPost => matches!(method, "GET" | "POST"),
        Allow::GetPutDelete => matches!(method, "GET" | "PUT" | "DELETE"),
        Allow::PutDelete => matches!(method, "PUT" | "DELETE"),
        Allow::Put => matches!(method, "PUT"),
    }
}
