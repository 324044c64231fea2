//! Reads the event of a line. For a line that can't be read, functions give `None`, or `false` where
//! they put an event.
ghost use Rattle.std.specs.Prelude.{◌≡◌, IfOk, IfErr, Some, option_map};
ghost use Rattle.std.specs.Option.{is_some};
ghost use Rattle.disco_values.specs.declared.fault.Fault.TheVariants.{OutOfMemory};
ghost use Rattle.disco_lines.specs.Lines.{client_and_event, event_named, event_of, only_client, override_removal, registration};
ghost use Rattle.disco_lines.specs.Lines.{step_at, step_named, step_of_instance};
ghost use Rattle.disco_lines.specs.Steps.{with_found};
ghost use Rattle.disco_lines.specs.Words.{client_of_word, moment_of_word, only_moment, only_text};
ghost use Rattle.disco_world.specs.declared.event.Event.TheVariants as event;
ghost use Rattle.disco_world.specs.declared.event.Event.TheVariants.{Certify, Take};
ghost use Rattle.disco_world.specs.declared.event.Step.TheVariants.{SetStatus};

use crate::load::{load_of, look_for, target_of};
use crate::put::{put_alone, put_found, put_found_step, put_step};
use crate::words::Words;
use disco_operations::{decoded, decoded_text, entries_of_query};
use disco_values::{Bytes, Fault, Text, number_of_digits};
use disco_world::{Event, Step};
use std::alloc::Global;

/// Puts the event that a line means behind those before it, and says whether it means one. Words
/// stand with one space between them, and each may be percent-encoded.
///
/// - `register NOW APP JSON`, where the JSON is the rest of the line as it stands;
/// - `cancel NOW APP ID`;
/// - `renew NOW APP ID`;
/// - `status NOW APP ID STATUS`;
/// - `unstatus NOW APP ID`, or `unstatus NOW APP ID STATUS`;
/// - `metadata NOW APP ID`, or `metadata NOW APP ID QUERY`, where the query is the rest of the line
///   as it stands;
/// - `clean NOW`;
/// - `minute`;
/// - `expire NOW`;
/// - `begin`, `copy` and `publish`;
/// - `load FORM QUERY` and `look FORM QUERY`, where the form is `full` or `compact`, and the query
///   `apps`, `delta`, `app NAME`, `vip VIP`, `svip SVIP`, `one APP ID` or `id ID`;
/// - `take CLIENT EVENT`, where the event is the number from 1 of the line that served a document;
/// - `show CLIENT`;
/// - `certified CLIENT EVENT` and `certshow CLIENT`, as `take` and `show`, of certified clients;
/// - `restart RUN`.
///
/// Refused only as `OutOfMemory`.
#[inline(always)]
pub(crate) fn put_event_of(
    alloc: Global,
    line: &[u8],
    events: &mut Vec<Event>,
) -> Result<bool, Fault>
    ensures says { IfOk result (λ found. found ≡ is_some (event_of line.now)) }
    ensures puts { IfOk result (λ _. events.new.items ≡ with_found events.old.items (event_of line.now)) }
    ensures memory { IfErr result (λ e. e ≡ OutOfMemory) }
{
    let Some((keyword, words)) = Words::of(line).split() else {
        return Ok(false);
    };
    match decoded(alloc, keyword)? {
        Some(keyword) => put_event_named(alloc, keyword.as_str(), words, events),
        None => Ok(false),
    }
}

/// Puts what a keyword and the words behind it mean.
#[inline(always)]
fn put_event_named(
    alloc: Global,
    keyword: &str,
    words: Words,
    events: &mut Vec<Event>,
) -> Result<bool, Fault>
    ensures says { IfOk result (λ found. found ≡ is_some (event_named keyword.now words.entry)) }
    ensures puts { IfOk result (λ _. events.new.items ≡ with_found events.old.items (event_named keyword.now words.entry)) }
    ensures memory { IfErr result (λ e. e ≡ OutOfMemory) }
{
    match keyword {
        // What comes most often is looked for first.
        "renew" | "status" => put_step_of_instance(alloc, keyword, words, events),
        "take" => put_found(take_of(alloc, words)?, events),
        "certified" => put_found(certify_of(alloc, words)?, events),
        _ => put_step_named(alloc, keyword, words, events),
    }
}

/// Puts what a keyword and the words behind it mean, where it gives no client a document.
fn put_step_named(
    alloc: Global,
    keyword: &str,
    words: Words,
    events: &mut Vec<Event>,
) -> Result<bool, Fault>
    ensures says { IfOk result (λ found. found ≡ is_some (option_map event.Step (step_named keyword.now words.entry))) }
    ensures puts { IfOk result (λ _. events.new.items ≡ with_found events.old.items (option_map event.Step (step_named keyword.now words.entry))) }
    ensures memory { IfErr result (λ e. e ≡ OutOfMemory) }
{
    match keyword {
        "register" => put_found_step(register_of(alloc, words)?, events),
        "clean" => {
            let step = only_moment(alloc, words)?.map(|now| Step::Clean { now });
            put_found_step(step, events)
        }
        "minute" => put_alone(Step::Minute, &words, events),
        "expire" => {
            let step = only_moment(alloc, words)?.map(|now| Step::Expire { now });
            put_found_step(step, events)
        }
        "begin" => put_alone(Step::Begin, &words, events),
        "copy" => put_alone(Step::Copy, &words, events),
        "publish" => put_alone(Step::Publish, &words, events),
        "load" => put_found_step(target_of(alloc, words)?.map(load_of), events),
        "look" => put_found_step(target_of(alloc, words)?.map(look_for), events),
        "show" => {
            let step = only_client(alloc, words)?.map(|client| Step::Show { client });
            put_found_step(step, events)
        }
        "certshow" => {
            let step = only_client(alloc, words)?.map(|client| Step::ShowCertified { client });
            put_found_step(step, events)
        }
        "restart" => {
            let step = only_moment(alloc, words)?.map(|run| Step::Restart { run });
            put_found_step(step, events)
        }
        _ => put_step_of_instance(alloc, keyword, words, events),
    }
}

#[inline(always)]
fn moment_of_word(alloc: Global, word: &[u8]) -> Result<Option<u64>, Fault>
    ensures value { IfOk result (λ found. found ≡ moment_of_word word.now) }
    ensures memory { IfErr result (λ e. e ≡ OutOfMemory) }
{
    match decoded(alloc, word)? {
        Some(text) => Ok(number_of_digits(text.as_str())),
        None => Ok(None),
    }
}

/// What the one word that is left spells, `None` where none is, more are, or it spells no text.
fn only_text(alloc: Global, words: Words) -> Result<Option<Text>, Fault>
    ensures value { IfOk result (λ found. found ≡ only_text words.entry) }
    ensures memory { IfErr result (λ e. e ≡ OutOfMemory) }
{
    match words.only() {
        Some(word) => decoded_text(alloc, word),
        None => Ok(None),
    }
}

/// The moment that the one word which is left names.
fn only_moment(alloc: Global, words: Words) -> Result<Option<u64>, Fault>
    ensures value { IfOk result (λ found. found ≡ only_moment words.entry) }
    ensures memory { IfErr result (λ e. e ≡ OutOfMemory) }
{
    match words.only() {
        Some(word) => moment_of_word(alloc, word),
        None => Ok(None),
    }
}

fn register_of(alloc: Global, words: Words) -> Result<Option<Step>, Fault>
    ensures value { IfOk result (λ found. found ≡ registration words.entry) }
    ensures memory { IfErr result (λ e. e ≡ OutOfMemory) }
{
    let Some((now, words)) = words.split() else {
        return Ok(None);
    };
    let Some((app, words)) = words.split() else {
        return Ok(None);
    };
    if words.is_empty() {
        return Ok(None);
    }
    let json = words.rest();
    let Some(now) = moment_of_word(alloc, now)? else {
        return Ok(None);
    };
    let Some(app) = decoded_text(alloc, app)? else {
        return Ok(None);
    };
    let json = Bytes::from_vec(json.to_vec(alloc)?);
    Ok(Some(Step::Register { now, app, json }))
}

/// Puts what a keyword means behind which a moment, an app and an id stand.
#[inline(always)]
fn put_step_of_instance(
    alloc: Global,
    keyword: &str,
    words: Words,
    events: &mut Vec<Event>,
) -> Result<bool, Fault>
    ensures says { IfOk result (λ found. found ≡ is_some (option_map event.Step (step_of_instance keyword.now words.entry))) }
    ensures puts { IfOk result (λ _. events.new.items ≡ with_found events.old.items (option_map event.Step (step_of_instance keyword.now words.entry))) }
    ensures memory { IfErr result (λ e. e ≡ OutOfMemory) }
{
    let Some((now, words)) = words.split() else {
        return Ok(false);
    };
    let Some((app, words)) = words.split() else {
        return Ok(false);
    };
    let Some((id, words)) = words.split() else {
        return Ok(false);
    };
    let Some(now) = moment_of_word(alloc, now)? else {
        return Ok(false);
    };
    let Some(app) = decoded_text(alloc, app)? else {
        return Ok(false);
    };
    let Some(id) = decoded_text(alloc, id)? else {
        return Ok(false);
    };
    put_step_at(alloc, keyword, now, app, id, words, events)
}

/// Puts what a keyword means for an instance, with the words behind its id.
#[inline(always)]
fn put_step_at(
    alloc: Global,
    keyword: &str,
    now: u64,
    app: Text,
    id: Text,
    words: Words,
    events: &mut Vec<Event>,
) -> Result<bool, Fault>
    ensures says { IfOk result (λ found. found ≡ is_some (option_map event.Step (step_at keyword.now now app id words.entry))) }
    ensures puts { IfOk result (λ _. events.new.items ≡ with_found events.old.items (option_map event.Step (step_at keyword.now now app id words.entry))) }
    ensures memory { IfErr result (λ e. e ≡ OutOfMemory) }
{
    match keyword {
        "cancel" => put_alone(Step::Cancel { now, app, id }, &words, events),
        "renew" => put_alone(Step::Renew { now, app, id }, &words, events),
        "status" => put_status(alloc, now, app, id, words, events),
        "unstatus" => put_found_step(unstatus_of(alloc, now, app, id, words)?, events),
        "metadata" => {
            let entries = entries_of_query(alloc, words.rest())?;
            let step = Step::Metadata {
                now,
                app,
                id,
                entries,
            };
            put_step(step, events)
        }
        _ => Ok(false),
    }
}

/// Puts a change of status.
#[inline(always)]
fn put_status(
    alloc: Global,
    now: u64,
    app: Text,
    id: Text,
    words: Words,
    events: &mut Vec<Event>,
) -> Result<bool, Fault>
    ensures says { IfOk result (λ found. found ≡ is_some (option_map event.Step (option_map (λ s. SetStatus now app id s) (only_text words.entry)))) }
    ensures puts { IfOk result (λ _. events.new.items ≡ with_found events.old.items
        (option_map event.Step (option_map (λ s. SetStatus now app id s) (only_text words.entry)))) }
    ensures memory { IfErr result (λ e. e ≡ OutOfMemory) }
{
    let Some(status) = only_text(alloc, words)? else {
        return Ok(false);
    };
    let step = Step::SetStatus {
        now,
        app,
        id,
        status,
    };
    put_step(step, events)
}

fn unstatus_of(
    alloc: Global,
    now: u64,
    app: Text,
    id: Text,
    words: Words,
) -> Result<Option<Step>, Fault>
    ensures value { IfOk result (λ found. found ≡ override_removal now app id words.entry) }
    ensures memory { IfErr result (λ e. e ≡ OutOfMemory) }
{
    let without_status = words.is_empty();
    if without_status {
        let status = None;
        return Ok(Some(Step::DropStatus {
            now,
            app,
            id,
            status,
        }));
    }
    match only_text(alloc, words)? {
        Some(status) => Ok(Some(Step::DropStatus {
            now,
            app,
            id,
            status: Some(status),
        })),
        None => Ok(None),
    }
}

/// The number of a client.
fn client_of_word(alloc: Global, word: &[u8]) -> Result<Option<u32>, Fault>
    ensures value { IfOk result (λ found. found ≡ client_of_word word.now) }
    ensures memory { IfErr result (λ e. e ≡ OutOfMemory) }
{
    match moment_of_word(alloc, word)? {
        Some(number) if number < 4_294_967_296 => Ok(Some(number as u32)),
        _ => Ok(None),
    }
}

/// A client and the number of an event.
fn client_and_event(alloc: Global, words: Words) -> Result<Option<(u32, u64)>, Fault>
    ensures value { IfOk result (λ found. found ≡ client_and_event words.entry) }
    ensures memory { IfErr result (λ e. e ≡ OutOfMemory) }
{
    let Some((client, words)) = words.split() else {
        return Ok(None);
    };
    let Some(client) = client_of_word(alloc, client)? else {
        return Ok(None);
    };
    match only_moment(alloc, words)? {
        Some(event) => Ok(Some((client, event))),
        None => Ok(None),
    }
}

fn take_of(alloc: Global, words: Words) -> Result<Option<Event>, Fault>
    ensures value { IfOk result (λ found. found ≡ option_map (λ given. Take given.0 given.1) (client_and_event words.entry)) }
    ensures memory { IfErr result (λ e. e ≡ OutOfMemory) }
{
    match client_and_event(alloc, words)? {
        Some((client, event)) => Ok(Some(Event::Take { client, event })),
        None => Ok(None),
    }
}

fn certify_of(alloc: Global, words: Words) -> Result<Option<Event>, Fault>
    ensures value { IfOk result (λ found. found ≡ option_map (λ given. Certify given.0 given.1) (client_and_event words.entry)) }
    ensures memory { IfErr result (λ e. e ≡ OutOfMemory) }
{
    match client_and_event(alloc, words)? {
        Some((client, event)) => Ok(Some(Event::Certify { client, event })),
        None => Ok(None),
    }
}

/// A client, where no word stands behind it.
fn only_client(alloc: Global, words: Words) -> Result<Option<u32>, Fault>
    ensures value { IfOk result (λ found. found ≡ only_client words.entry) }
    ensures memory { IfErr result (λ e. e ≡ OutOfMemory) }
{
    match words.only() {
        Some(client) => client_of_word(alloc, client),
        None => Ok(None),
    }
}
