//! Makes the call of a request.
ghost use Rattle.disco_instance.specs.Instance.{Gives};
ghost use Rattle.disco_registry.specs.Op.{op_view};
ghost use Rattle.disco_calls.specs.Places.{place_view};
ghost use Rattle.disco_calls.specs.Calls.{call, call_by, called, delete_of, get_of, post_of, put_call, read_of, call_view};

use crate::accept::{form_of, takes_json};
use crate::call::Call;
use crate::method::{allow_of, lists};
use crate::names::decoded;
use crate::place::Place;
use crate::query::split_target;
use crate::routes::Routes;
use disco_message::Request;
use disco_operations::{
    add_metadata, cancel, drop_status, entries_of_query, key_named, register, renew, set_status,
    value_of,
};
use disco_registry::Op;
use disco_values::{DocKey, Fault, Form, Query, Text, upper};
use std::alloc::Global;
use std::str;

/// What a GET of a place asks for, in a form.
fn read_of(alloc: Global, place: Place<Text>, form: Form) -> Result<Call, Fault>
    ensures { Gives call_view result (read_of place form) }
{
    let query = match place {
        Place::Apps => Query::Apps,
        Place::Delta => Query::Delta,
        Place::App { app } => Query::App(upper(alloc, app.as_str())?),
        Place::Vip { vip } => Query::Vip(vip),
        Place::Svip { svip } => Query::Svip(svip),
        Place::Instance { app, id } => {
            return Ok(Call::Instance(key_named(alloc, app, id)?, form));
        }
        Place::Id { id } => return Ok(Call::ById(id, form)),
        Place::Status { .. } | Place::Metadata { .. } => return Err(Fault::BadMethod),
    };
    Ok(Call::Load(DocKey { query, form }))
}

/// What a GET asks for.
fn call_of_get(alloc: Global, place: Place<Text>, request: &Request) -> Result<Call, Fault>
    ensures { Gives call_view result (get_of place request.now) }
{
    if !takes_json(request) {
        return Err(Fault::NotAcceptable);
    }
    read_of(alloc, place, form_of(request))
}

/// What a POST with a body asks for.
fn post_of(alloc: Global, place: Place<Text>, body: &[u8]) -> Result<Op, Fault>
    ensures { Gives op_view result (post_of place body.now) }
{
    match place {
        Place::App { app } => register(alloc, &app, body),
        _ => Err(Fault::BadMethod),
    }
}

/// What a PUT with a query asks for.
fn put_of(alloc: Global, place: Place<Text>, query: &[u8]) -> Result<Op, Fault>
    ensures { Gives op_view result (put_call place query.now) }
{
    match place {
        Place::Instance { app, id } => renew(alloc, app, id),
        Place::Status { app, id } => match value_of(alloc, query)? {
            Some(status) => set_status(alloc, app, id, status),
            None => Err(Fault::BadStatus),
        },
        Place::Metadata { app, id } => {
            add_metadata(alloc, app, id, entries_of_query(alloc, query)?)
        }
        _ => Err(Fault::BadMethod),
    }
}

/// What a DELETE with a query asks for.
fn delete_of(alloc: Global, place: Place<Text>, query: &[u8]) -> Result<Op, Fault>
    ensures { Gives op_view result (delete_of place query.now) }
{
    match place {
        Place::Instance { app, id } => cancel(alloc, app, id),
        Place::Status { app, id } => drop_status(alloc, app, id, value_of(alloc, query)?),
        _ => Err(Fault::BadMethod),
    }
}

/// What a request with this query asks for at a place, by its method.
fn call_by(
    alloc: Global,
    place: Place<Text>,
    request: &Request,
    query: &[u8],
) -> Result<Call, Fault>
    ensures { Gives call_view result (call_by place request.now query.now) }
{
    match request.method().as_str() {
        "GET" => call_of_get(alloc, place, request),
        "POST" => Ok(Call::Write(post_of(alloc, place, request.body())?)),
        "PUT" => Ok(Call::Write(put_of(alloc, place, query)?)),
        "DELETE" => Ok(Call::Write(delete_of(alloc, place, query)?)),
        _ => Err(Fault::BadMethod),
    }
}

/// What a request with this query asks for at a place whose names are still encoded.
fn call_at(
    alloc: Global,
    place: Place<&[u8]>,
    request: &Request,
    query: &[u8],
) -> Result<Call, Fault>
    ensures { Gives call_view result (called (place_view place.entry) request.now query.now) }
{
    let allow = allow_of(&place);
    if !lists(allow, request.method().as_str()) {
        return Ok(Call::Lacks(allow));
    }
    match decoded(alloc, place)? {
        Some(place) => call_by(alloc, place, request, query),
        None => Err(Fault::BadRequest),
    }
}

/// What a request asks for, at the path of its target and with its method. Where the path lacks the
/// method, the call names the methods that it has.
///
/// # Errors
///
/// By the first cause that fits, `NotFound` where the path is none of the table, `BadRequest` where
/// a name in it isn't UTF-8, `NotAcceptable` where the reader of a document takes XML alone, and
/// `BadJson`, `MissingField`, `MismatchedApp` or `BadStatus` where an operation is asked for that
/// is wrong by itself. Besides these, `OutOfMemory`.
pub fn call_of(alloc: Global, routes: &Routes, request: &Request) -> Result<Call, Fault>
    ensures { Gives call_view result (call request.now) }
{
    let (path, query) = split_target(request.target());
    let Ok(path) = str::from_utf8(path) else {
        return Err(Fault::BadRequest);
    };
    match routes.find(path) {
        Some(place) => call_at(alloc, place, request, query),
        None => Err(Fault::NotFound),
    }
}
