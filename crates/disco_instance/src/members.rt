//! Reads members of a JSON value. A value of another kind counts as absent.
ghost use Rattle.std.specs.Prelude.{◌≡◌, ◌≤◌, IfOk, option_map, unwrap_or};
ghost use Rattle.serde_json.specs.View.{view};
ghost use Rattle.disco_values.specs.Status.{status_named};
ghost use Rattle.disco_values.specs.Text.{in_upper_case};
ghost use Rattle.disco_values.specs.declared.status.Status.TheVariants.{Unknown};
ghost use Rattle.disco_instance.specs.Members.{as_flag, as_whole, flag_at, non_empty_at, number_at, port_at, status_at, text_at, text_or_empty};

use crate::port::Port;
use disco_values::{Status, Text, number_of_digits, status_of, upper_text};
use serde_json::Value;
use std::alloc::{AllocError, Global};

/// A whole number, given as a number or as a text of digits, up to 2^64 - 1.
pub fn whole(value: &Value) -> Option<u64>
    ensures { result ≡ as_whole (view value.now) }
{
    match value {
        Value::Number(number) => number.as_u64(),
        Value::String(text) => number_of_digits(text.as_str()),
        _ => None,
    }
}

fn flag(value: &Value) -> Option<bool>
    ensures { result ≡ as_flag (view value.now) }
{
    match value {
        Value::Bool(flag) => Some(*flag),
        Value::String(text) => match text.as_str() {
            "true" => Some(true),
            "false" => Some(false),
            _ => None,
        },
        _ => None,
    }
}

/// The text at a name.
pub fn text_member<'v>(value: &'v Value, name: &str) -> Option<&'v str>
    ensures { option_map (λ s. s.now) result ≡ text_at name.now (view value.now) }
{
    value.get(name).and_then(Value::as_str)
}

/// The text at a name, where it isn't empty.
pub fn non_empty_member<'v>(value: &'v Value, name: &str) -> Option<&'v str>
    ensures { option_map (λ s. s.now) result ≡ non_empty_at name.now (view value.now) }
{
    match text_member(value, name) {
        Some(text) if !text.is_empty() => Some(text),
        _ => None,
    }
}

/// The text at a name, empty where there is none.
pub(crate) fn text_or_empty(alloc: Global, value: &Value, name: &str) -> Result<Text, AllocError>
    ensures { IfOk result (λ t. t ≡ text_or_empty name.now (view value.now)) }
{
    Text::new(alloc, text_member(value, name).unwrap_or(""))
}

/// The truth value at a name.
pub(crate) fn flag_member(value: &Value, name: &str) -> Option<bool>
    ensures { result ≡ flag_at name.now (view value.now) }
{
    value.get(name).and_then(flag)
}

/// The whole number at a name where it is in range, else the default.
pub(crate) fn number_member(value: &Value, name: &str, low: u64, high: u64, default: u64) -> u64
    ensures value { result ≡ number_at name.now low high default (view value.now) }
    ensures in_range { low ≤ default → default ≤ high → (low ≤ result) × (result ≤ high) }
{
    match value.get(name).and_then(whole) {
        Some(number) if low <= number && number <= high => number,
        _ => default,
    }
}

/// The port at a name. Its number and its flag have each a default of their own.
pub(crate) fn port_member(value: &Value, name: &str, number: u16, enabled: bool) -> Port
    ensures { result ≡ port_at name.now number enabled (view value.now) }
{
    match value.get(name) {
        Some(inner) => Port {
            number: number_member(inner, "$", 0, 65535, number as u64) as u16,
            enabled: flag_member(inner, "@enabled").unwrap_or(enabled),
        },
        None => Port { number, enabled },
    }
}

/// The status of a name in any case, Unknown where there is none. The exact name takes no memory.
#[tactic(auto, using(crate::proofs::Statuses::named_exactly))]
fn status_in_any_case(alloc: Global, text: &str) -> Result<Status, AllocError>
    ensures { IfOk result (λ s. s ≡ unwrap_or (status_named (in_upper_case text.now)) Unknown) }
{
    if let Some(status) = status_of(text) {
        return Ok(status);
    }
    let text = upper_text(alloc, text)?;
    Ok(status_of(text.as_str()).unwrap_or(Status::Unknown))
}

/// The status at a name, in any case, where it is a text.
pub(crate) fn status_member(
    alloc: Global,
    value: &Value,
    name: &str,
    default: Status,
) -> Result<Status, AllocError>
    ensures { IfOk result (λ s. s ≡ status_at name.now default (view value.now)) }
{
    match text_member(value, name) {
        Some(text) => status_in_any_case(alloc, text),
        None => Ok(default),
    }
}
