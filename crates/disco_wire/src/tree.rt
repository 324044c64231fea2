//! The JSON tree of some bytes.
ghost use Rattle.std.specs.Prelude.{◌≡◌, option_map};
ghost use Rattle.serde_json.specs.View.{view};
ghost use Rattle.disco_instance.specs.Instance.{Gives};
ghost use Rattle.disco_wire.specs.Tree.{json_of, object_at};

use disco_values::Fault;
use serde_json::Value;
use std::alloc::Global;

/// The tree of a JSON text (RFC 8259) in UTF-8. Refused as `BadJson` where the bytes are none, and
/// as `OutOfMemory`.
#[tactic(auto, using(crate::proofs::Trees::tree_read, crate::proofs::Trees::tree_refused))]
pub(crate) fn tree_of(alloc: Global, bytes: &[u8]) -> Result<Value, Fault>
    ensures { Gives view result (json_of bytes.now) }
{
    match Value::from_slice(alloc, bytes) {
        Ok(value) => Ok(value),
        Err(error) if error.is_memory() => Err(Fault::OutOfMemory),
        Err(_) => Err(Fault::BadJson),
    }
}

/// The member of that name where it is an object.
pub(crate) fn object_member<'v>(value: &'v Value, name: &str) -> Option<&'v Value>
    ensures { option_map (λ v. view v.now) result ≡ object_at name.now (view value.now) }
{
    value.get(name).filter(|v| v.is_object())
}
