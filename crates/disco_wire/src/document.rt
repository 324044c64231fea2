//! Reads documents.
ghost use Rattle.std.specs.Prelude.{◌≡◌, [], codes, is_some, map, option_map, option_and_then, unwrap_or, IfOk, Err, None, Some};
ghost use Rattle.std.specs.Option.{ok_or, option_copied};
ghost use Rattle.disco_wire.specs.declared.wire.Shape.TheVariants.{App, Many, One};
ghost use Rattle.serde_json.specs.Find.{get as member_at};
ghost use Rattle.serde_json.specs.View.{view};
ghost use Rattle.disco_instance.specs.Instance.{Gives};
ghost use Rattle.disco_values.specs.declared.fault.Fault.TheVariants.{BadDocument};
ghost use Rattle.disco_instance.specs.Members.{as_whole, text_at};
ghost use Rattle.disco_wire.specs.Meaning.{all_told, listed_in, meaning_of, meant, told_app, told_apps, told_in};
ghost use Rattle.disco_wire.specs.Steps.{told_item, told_on};
ghost use Rattle.disco_wire.specs.Documents.{document_of};
ghost use Rattle.disco_wire.specs.Wire.{wire_meaning, tell_all};

use crate::tree::{object_member, tree_of};
use crate::wire::{Mention, Mentions, Shape, Wire};
use disco_instance::{Record, action_from_value, text_member, whole};
use disco_values::{Fault, Text};
use serde_json::Value;
use std::alloc::{AllocError, Global};

/// What a document means: the body of an answer to one of Eureka's `GET`s.
///
/// # Errors
///
/// `BadJson` where the bytes are no JSON text (RFC 8259), `BadDocument` where its tree means
/// nothing, and `OutOfMemory`.
pub fn read_document(alloc: Global, bytes: &[u8]) -> Result<Wire, Fault>
    ensures { Gives wire_meaning result (document_of bytes.now) }
{
    let tree = tree_of(alloc, bytes)?;
    from_tree(alloc, &tree)
}

#[tactic(auto, unfolding(crate::specs::Meaning::meaning_of))]
fn from_tree(alloc: Global, tree: &Value) -> Result<Wire, Fault>
    ensures { Gives wire_meaning result (ok_or (meaning_of (view tree.now)) BadDocument) }
{
    if let Some(applications) = object_member(tree, "applications") {
        many(alloc, applications)
    } else if let Some(app) = object_member(tree, "application") {
        one_app(alloc, app)
    } else if let Some(instance) = object_member(tree, "instance") {
        one_instance(alloc, instance)
    } else {
        Err(Fault::BadDocument)
    }
}

fn one_app(alloc: Global, app: &Value) -> Result<Wire, Fault>
    ensures { Gives wire_meaning result (ok_or (option_map (meant App None None) (told_app (view app.now))) BadDocument) }
{
    let mut mentions = Vec::new(alloc);
    push_app(alloc, &mut mentions, app)?;
    Ok(Wire {
        shape: Shape::App,
        mentions: Mentions::from_vec(mentions),
        hash: None,
        version: None,
    })
}

fn one_instance(alloc: Global, instance: &Value) -> Result<Wire, Fault>
    ensures { Gives wire_meaning result (ok_or (option_map (meant One None None) (told_in None (view instance.now))) BadDocument) }
{
    let mut mentions = Vec::new(alloc);
    push_instance(alloc, &mut mentions, None, instance)?;
    Ok(Wire {
        shape: Shape::One,
        mentions: Mentions::from_vec(mentions),
        hash: None,
        version: None,
    })
}

fn many(alloc: Global, applications: &Value) -> Result<Wire, Fault>
    ensures { Gives wire_meaning result (ok_or (option_map (meant Many (text_at (codes "apps__hashcode") (view applications.now))
        (option_and_then as_whole (member_at (codes "versions__delta") (view applications.now)))) (told_apps (view applications.now))) BadDocument) }
{
    let hash = text_of_member(alloc, applications, "apps__hashcode")?;
    let version = version_of(applications);
    let mut mentions = Vec::new(alloc);
    if let Some(listed) = applications.get("application") {
        push_listed_apps(alloc, &mut mentions, listed)?;
    }
    Ok(Wire {
        shape: Shape::Many,
        mentions: Mentions::from_vec(mentions),
        hash,
        version,
    })
}

fn text_of_member(alloc: Global, value: &Value, name: &str) -> Result<Option<Text>, AllocError>
    ensures { IfOk result (λ o. o ≡ text_at name.now (view value.now)) }
{
    match text_member(value, name) {
        Some(text) => Ok(Some(Text::new(alloc, text)?)),
        None => Ok(None),
    }
}

/// Whether this is an array, an object or null.
fn is_listed(value: &Value) -> bool
    ensures { result ≡ is_some (listed_in (view value.now)) }
{
    matches!(value, Value::Null | Value::Array(_) | Value::Object(_))
}

/// The items of an array, or one object. Another value has none.
fn items_in(value: &Value) -> &[Value]
    ensures { map view result.now ≡ unwrap_or (listed_in (view value.now)) [] }
{
    match value {
        Value::Array(list) => list.as_slice(),
        Value::Object(_) => std::slice::from_ref(value),
        _ => &[],
    }
}

fn version_of(applications: &Value) -> Option<u64>
    ensures { result ≡ option_and_then as_whole (member_at (codes "versions__delta") (view applications.now)) }
{
    match applications.get("versions__delta") {
        Some(value) => whole(value),
        None => None,
    }
}

#[tactic(auto, using(crate::proofs::ToldLists::step, crate::proofs::ToldLists::stop))]
fn push_apps(alloc: Global, out: &mut Vec<Mention>, values: &[Value]) -> Result<(), Fault>
    ensures { Gives (λ _. tell_all out.new.items) result (told_on (tell_all out.old.items) (all_told told_item (map view values.now))) }
{
    for value in values {
        push_item(alloc, out, value)?;
    }
    Ok(())
}

fn push_listed_apps(alloc: Global, out: &mut Vec<Mention>, listed: &Value) -> Result<(), Fault>
    ensures { Gives (λ _. tell_all out.new.items) result (told_on (tell_all out.old.items)
        (option_and_then (all_told told_item) (listed_in (view listed.now)))) }
{
    if !is_listed(listed) {
        return Err(Fault::BadDocument);
    }
    push_apps(alloc, out, items_in(listed))
}

fn push_item(alloc: Global, out: &mut Vec<Mention>, value: &Value) -> Result<(), Fault>
    ensures { Gives (λ _. tell_all out.new.items) result (told_on (tell_all out.old.items) (told_item (view value.now))) }
{
    if value.is_object() {
        push_app(alloc, out, value)
    } else {
        Err(Fault::BadDocument)
    }
}

fn push_app(alloc: Global, out: &mut Vec<Mention>, app: &Value) -> Result<(), Fault>
    ensures { Gives (λ _. tell_all out.new.items) result (told_on (tell_all out.old.items) (told_app (view app.now))) }
{
    match app.get("instance") {
        Some(listed) => push_listed_instances(alloc, out, text_member(app, "name"), listed),
        None => Ok(()),
    }
}

#[tactic(auto, using(crate::proofs::ToldLists::step, crate::proofs::ToldLists::stop))]
fn push_instances(
    alloc: Global,
    out: &mut Vec<Mention>,
    within: Option<&str>,
    values: &[Value],
) -> Result<(), Fault>
    ensures { Gives (λ _. tell_all out.new.items) result (told_on (tell_all out.old.items)
        (all_told (told_in (option_copied within.entry)) (map view values.now))) }
{
    for value in values {
        push_instance(alloc, out, within, value)?;
    }
    Ok(())
}

fn push_listed_instances(
    alloc: Global,
    out: &mut Vec<Mention>,
    within: Option<&str>,
    listed: &Value,
) -> Result<(), Fault>
    ensures { Gives (λ _. tell_all out.new.items) result (told_on (tell_all out.old.items)
        (option_and_then (all_told (told_in (option_copied within.entry))) (listed_in (view listed.now)))) }
{
    if !is_listed(listed) {
        return Err(Fault::BadDocument);
    }
    push_instances(alloc, out, within, items_in(listed))
}

#[tactic(auto, unfolding(crate::specs::Meaning::told_in))]
fn push_instance(
    alloc: Global,
    out: &mut Vec<Mention>,
    within: Option<&str>,
    value: &Value,
) -> Result<(), Fault>
    ensures { Gives (λ _. tell_all out.new.items) result (told_on (tell_all out.old.items) (told_in (option_copied within.entry) (view value.now))) }
{
    match Record::from_value(alloc, value, within) {
        Ok(rec) => {
            let action = action_from_value(value);
            out.push(Mention { rec, action })?;
            Ok(())
        }
        Err(Fault::OutOfMemory) => Err(Fault::OutOfMemory),
        Err(_) => Err(Fault::BadDocument),
    }
}
