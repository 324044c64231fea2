//! Makes operations from names, values and bodies.
ghost use Rattle.std.specs.Prelude.{◌≡◌, IfOk, IfErr, Ok, OnOk, false, true};
ghost use Rattle.std.specs.Str.{bytes_eq};
ghost use Rattle.disco_instance.specs.Instance.{Gives};
ghost use Rattle.disco_values.specs.Text.{in_upper_case};
ghost use Rattle.disco_values.specs.declared.fault.Fault.TheVariants.{MismatchedApp, OutOfMemory};
ghost use Rattle.disco_registry.specs.Op as asking;
ghost use Rattle.disco_registry.specs.Op.{op_view};
ghost use Rattle.disco_wire.specs.Registration.{registration_of};
ghost use Rattle.disco_operations.specs.Operations.{key_named, registers};

use disco_registry::Op;
use disco_values::{Entries, Fault, Key, Text};
use disco_wire::read_registration;
use std::alloc::Global;

/// The key of an app and an id: the app's name counts in upper case.
///
/// # Errors
///
/// `OutOfMemory` alone.
#[inline]
pub fn key_named(alloc: Global, app: Text, id: Text) -> Result<Key, Fault>
    ensures key { IfOk result (λ k. k ≡ key_named app id) }
    ensures memory { IfErr result (λ e. e ≡ OutOfMemory) }
{
    Ok(Key {
        app: app.into_upper(alloc)?,
        id,
    })
}

/// Whether a name, put in upper case, is an app's own name.
fn is_own(name: &[u8], own: &[u8]) -> bool
    ensures { result ≡ bytes_eq (in_upper_case name.now) own.now }
{
    name.len() == own.len()
        && name
            .iter()
            .zip(own)
            .all(|(byte, own)| byte.to_ascii_uppercase() == *own)
}

/// Refuses a name that isn't an app's own in upper case, as `MismatchedApp`. Takes no memory.
fn check_app(name: &Text, own: &Text) -> Result<(), Fault>
    ensures right { OnOk result (bytes_eq (in_upper_case name.now) own.now ≡ true) }
    ensures wrong { IfErr result (λ e. (bytes_eq (in_upper_case name.now) own.now ≡ false) × (e ≡ MismatchedApp)) }
{
    if !is_own(name.as_str().as_bytes(), own.as_str().as_bytes()) {
        return Err(Fault::MismatchedApp);
    }
    Ok(())
}

/// A registration under an app's name, with the JSON of its body.
///
/// # Errors
///
/// `BadJson` and `MissingField` where the body is no registration, `MismatchedApp` where it is one
/// of another app, and `OutOfMemory`.
pub fn register(alloc: Global, app: &Text, body: &[u8]) -> Result<Op, Fault>
    ensures { Gives op_view result (registers app.now (registration_of body.now)) }
{
    let posted = read_registration(alloc, body)?;
    check_app(app, &posted.key.app)?;
    Ok(Op::Register(posted))
}

/// A cancel of the instance of an app and an id.
///
/// # Errors
///
/// `OutOfMemory` alone.
pub fn cancel(alloc: Global, app: Text, id: Text) -> Result<Op, Fault>
    ensures { Gives op_view result (Ok (asking.cancel (key_named app id))) }
{
    Ok(Op::Cancel(key_named(alloc, app, id)?))
}

/// A renewal of that instance's lease.
///
/// # Errors
///
/// `OutOfMemory` alone.
#[inline]
pub fn renew(alloc: Global, app: Text, id: Text) -> Result<Op, Fault>
    ensures { Gives op_view result (Ok (asking.renew (key_named app id))) }
{
    Ok(Op::Renew(key_named(alloc, app, id)?))
}

/// A change of that instance's status.
///
/// # Errors
///
/// `OutOfMemory` alone: the registry refuses a text that is no status.
#[inline]
pub fn set_status(alloc: Global, app: Text, id: Text, status: Text) -> Result<Op, Fault>
    ensures { Gives op_view result (Ok (asking.set_status (key_named app id) status)) }
{
    Ok(Op::SetStatus(key_named(alloc, app, id)?, status))
}

/// The removal of that instance's override, with the status that it has then, if one is given.
///
/// # Errors
///
/// `OutOfMemory` alone.
pub fn drop_status(alloc: Global, app: Text, id: Text, status: Option<Text>) -> Result<Op, Fault>
    ensures { Gives op_view result (Ok (asking.drop_status (key_named app id) status)) }
{
    Ok(Op::DropStatus(key_named(alloc, app, id)?, status))
}

/// A change of that instance's metadata.
///
/// # Errors
///
/// `OutOfMemory` alone.
pub fn add_metadata(alloc: Global, app: Text, id: Text, entries: Entries) -> Result<Op, Fault>
    ensures { Gives op_view result (Ok (asking.add_metadata (key_named app id) entries)) }
{
    Ok(Op::Metadata(key_named(alloc, app, id)?, entries))
}
