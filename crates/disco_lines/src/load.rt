//! Reads which document the words behind `load` and `look` ask for.
ghost use Rattle.std.specs.Prelude.{◌≡◌, IfOk, IfErr, option_and_then};
ghost use Rattle.disco_values.specs.declared.fault.Fault.TheVariants.{OutOfMemory};
ghost use Rattle.disco_lines.specs.Loads.{form_named, one_target, load_of, look_for, named, target, target_by, target_of_kind, whole_target};
ghost use Rattle.disco_operations.specs.Decoding.{decoded_text};

use crate::words::Words;
use disco_operations::{decoded, decoded_text};
use disco_values::{DocKey, Fault, Form, Key, Query, Text};
use disco_world::Step;
use std::alloc::Global;

/// The document that a reader asks for.
#[derive(Drop)]
pub(crate) enum Target {
    /// The one of a query, in a form.
    ByKey(DocKey),
    /// The one of the instance of an id, in a form.
    ById(Text, Form),
}

fn form_named(name: &str) -> Option<Form>
    ensures { result ≡ form_named name.now }
{
    match name {
        "full" => Some(Form::Full),
        "compact" => Some(Form::Compact),
        _ => None,
    }
}

fn form_of_word(alloc: Global, word: &[u8]) -> Result<Option<Form>, Fault>
    ensures value { IfOk result (λ found. found ≡ option_and_then form_named (decoded_text word.now)) }
    ensures memory { IfErr result (λ e. e ≡ OutOfMemory) }
{
    match decoded(alloc, word)? {
        Some(name) => Ok(form_named(name.as_str())),
        None => Ok(None),
    }
}

fn target_by(form: Form, query: Query) -> Target
    ensures { result ≡ target_by form query }
{
    Target::ByKey(DocKey { query, form })
}

/// What is asked for by a form and a kind of query that nothing stands behind.
fn whole(form: Form, kind: &str) -> Option<Target>
    ensures { result ≡ whole_target form kind.now }
{
    match kind {
        "apps" => Some(target_by(form, Query::Apps)),
        "delta" => Some(target_by(form, Query::Delta)),
        _ => None,
    }
}

/// What is asked for by a form, a kind of query and a text.
fn named(form: Form, kind: &str, text: Text) -> Option<Target>
    ensures { result ≡ named form kind.now text }
{
    match kind {
        "app" => Some(target_by(form, Query::App(text))),
        "vip" => Some(target_by(form, Query::Vip(text))),
        "svip" => Some(target_by(form, Query::Svip(text))),
        "id" => Some(Target::ById(text, form)),
        _ => None,
    }
}

fn instance(form: Form, kind: &str, app: Text, id: Text) -> Option<Target>
    ensures { result ≡ one_target form kind.now app id }
{
    match kind {
        "one" => Some(target_by(form, Query::Instance(Key { app, id }))),
        _ => None,
    }
}

/// What is asked for by a form, a kind of query and the words behind it.
fn target_of_kind(
    alloc: Global,
    form: Form,
    kind: &str,
    words: Words,
) -> Result<Option<Target>, Fault>
    ensures value { IfOk result (λ found. found ≡ target_of_kind form kind.now words.entry) }
    ensures memory { IfErr result (λ e. e ≡ OutOfMemory) }
{
    let Some((first, words)) = words.split() else {
        return Ok(whole(form, kind));
    };
    let second = words.split();
    let Some(first) = decoded_text(alloc, first)? else {
        return Ok(None);
    };
    let Some((second, words)) = second else {
        return Ok(named(form, kind, first));
    };
    if words.split().is_some() {
        return Ok(None);
    }
    match decoded_text(alloc, second)? {
        Some(second) => Ok(instance(form, kind, first, second)),
        None => Ok(None),
    }
}

/// What the words behind `load` or `look` ask for, `None` where they ask for nothing.
pub(crate) fn target_of(alloc: Global, words: Words) -> Result<Option<Target>, Fault>
    ensures value { IfOk result (λ found. found ≡ target words.entry) }
    ensures memory { IfErr result (λ e. e ≡ OutOfMemory) }
{
    let Some((form, words)) = words.split() else {
        return Ok(None);
    };
    let Some((kind, words)) = words.split() else {
        return Ok(None);
    };
    let Some(form) = form_of_word(alloc, form)? else {
        return Ok(None);
    };
    match decoded(alloc, kind)? {
        Some(kind) => target_of_kind(alloc, form, kind.as_str(), words),
        None => Ok(None),
    }
}

/// The load of what is asked for.
pub(crate) fn load_of(target: Target) -> Step
    ensures { result ≡ load_of target }
{
    match target {
        Target::ByKey(key) => Step::Load { key },
        Target::ById(id, form) => Step::LoadById { id, form },
    }
}

/// The look for what is asked for.
pub(crate) fn look_for(target: Target) -> Step
    ensures { result ≡ look_for target }
{
    match target {
        Target::ByKey(key) => Step::Look { key },
        Target::ById(id, form) => Step::LookById { id, form },
    }
}
