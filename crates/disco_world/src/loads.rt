//! Documents that are served.
ghost use Rattle.std.specs.Prelude.{◌≡◌, IfOk, IfErr};
ghost use Rattle.disco_values.specs.declared.fault.Fault.TheVariants.{OutOfMemory};
ghost use Rattle.disco_world.specs.Events.{effect, query_asked};
ghost use Rattle.disco_world.specs.Steps.{Performs, reply_of};
ghost use Rattle.disco_world.specs.declared.event.Event.TheVariants as event;
ghost use Rattle.disco_world.specs.declared.event.Step.TheVariants as step;
ghost use Rattle.disco_hub.specs.State.{rules_of};

use crate::event::Reply;
use disco_cache::Payload;
use disco_hub::Hub;
use disco_operations::key_named;
use disco_values::{DocKey, Fault, Form, Query, Text, upper};
use std::alloc::Global;
use std::sync::Arc;

pub(crate) fn query_asked(alloc: Global, query: &Query) -> Result<Query, Fault>
    ensures query { IfOk result (λ q. q ≡ query_asked query.now) }
    ensures memory { IfErr result (λ e. e ≡ OutOfMemory) }
{
    match query {
        Query::App(name) => Ok(Query::App(upper(alloc, name.as_str())?)),
        Query::Instance(key) => {
            let key = key_named(alloc, key.app.clone()?, key.id.clone()?)?;
            Ok(Query::Instance(key))
        }
        other => Ok(other.clone()?),
    }
}

/// The reply to a load.
fn served(loaded: Result<Arc<Payload, Global>, Fault>) -> Reply
    ensures { result ≡ reply_of loaded }
{
    match loaded {
        Ok(payload) => Reply::Doc(payload),
        Err(fault) => Reply::Refused(fault),
    }
}

/// Answers a load, by a key whose app may be in any case.
pub(crate) fn load(alloc: Global, hub: &mut Hub, key: &DocKey) -> Reply
    ensures does { Performs hub.old hub.new (λ w. effect (rules_of hub.old) w (event.Step (step.Load key.now))) result }
    ensures rules { rules_of hub.new ≡ rules_of hub.old }
    ensures rounds { hub.new.rounds ≡ hub.old.rounds }
{
    match query_asked(alloc, &key.query) {
        Ok(query) => served(hub.load(&DocKey {
            query,
            form: key.form,
        })),
        Err(fault) => Reply::Refused(fault),
    }
}

/// Answers a load of the instance of an id.
pub(crate) fn load_by_id(hub: &Hub, id: &Text, form: Form) -> Reply
    ensures { Performs hub.now hub.now (λ w. effect (rules_of hub.now) w (event.Step (step.LoadById id.now form))) result }
{
    served(hub.by_id(id.as_str(), form))
}
