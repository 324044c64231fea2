//! Places with their names decoded.
ghost use Rattle.std.specs.Prelude.{◌≡◌, IfOk, IfErr};
ghost use Rattle.disco_values.specs.declared.fault.Fault.TheVariants.{OutOfMemory};
ghost use Rattle.disco_calls.specs.Places.{place_view};
ghost use Rattle.disco_calls.specs.Decoding.{decoded, two_texts};

use crate::place::Place;
use disco_operations::decoded_text;
use disco_values::{Fault, Text};
use std::alloc::Global;

/// What two parts spell.
fn two_texts(alloc: Global, one: &[u8], other: &[u8]) -> Result<Option<(Text, Text)>, Fault>
    ensures texts { IfOk result (λ found. found ≡ two_texts one.now other.now) }
    ensures memory { IfErr result (λ e. e ≡ OutOfMemory) }
{
    let Some(first) = decoded_text(alloc, one)? else {
        return Ok(None);
    };
    let Some(second) = decoded_text(alloc, other)? else {
        return Ok(None);
    };
    Ok(Some((first, second)))
}

/// A place with what its names spell, `None` where one of them spells no text. Refused only as
/// `OutOfMemory`.
pub(crate) fn decoded(alloc: Global, place: Place<&[u8]>) -> Result<Option<Place<Text>>, Fault>
    ensures place { IfOk result (λ found. found ≡ decoded (place_view place.entry)) }
    ensures memory { IfErr result (λ e. e ≡ OutOfMemory) }
{
    match place {
        Place::Apps => Ok(Some(Place::Apps)),
        Place::Delta => Ok(Some(Place::Delta)),
        Place::App { app } => Ok(decoded_text(alloc, app)?.map(|app| Place::App { app })),
        Place::Instance { app, id } => {
            Ok(two_texts(alloc, app, id)?.map(|(app, id)| Place::Instance { app, id }))
        }
        Place::Status { app, id } => {
            Ok(two_texts(alloc, app, id)?.map(|(app, id)| Place::Status { app, id }))
        }
        Place::Metadata { app, id } => {
            Ok(two_texts(alloc, app, id)?.map(|(app, id)| Place::Metadata { app, id }))
        }
        Place::Id { id } => Ok(decoded_text(alloc, id)?.map(|id| Place::Id { id })),
        Place::Vip { vip } => Ok(decoded_text(alloc, vip)?.map(|vip| Place::Vip { vip })),
        Place::Svip { svip } => Ok(decoded_text(alloc, svip)?.map(|svip| Place::Svip { svip })),
    }
}
