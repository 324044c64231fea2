//! The settings of a row.
use disco_values::{MOST_INSTANCES, MOST_QUEUE, Settings, number_of_digits};
use std::io;
use std::io::ErrorKind;

/// The settings with one more number: that of `run`, `versions`, `instances` or `queue`.
fn with_number(mut chosen: Settings, name: &str, number: u64) -> Option<Settings> {
    if name == "run" {
        chosen.run = number;
    } else if name == "versions" && number > 0 {
        chosen.versions = number;
    } else if name == "instances" && number > 0 && number <= MOST_INSTANCES {
        chosen.instances = number;
    } else if name == "queue" && number > 0 && number <= MOST_QUEUE {
        chosen.queue = number;
    } else {
        return None;
    }
    Some(chosen)
}

/// The settings with one more line: `no-delta`, or a name and its number.
fn with_line(mut chosen: Settings, line: &str) -> Option<Settings> {
    if line == "no-delta" {
        chosen.delta = false;
        return Some(chosen);
    }
    let (name, digits) = line.split_once(' ')?;
    with_number(chosen, name, number_of_digits(digits)?)
}

/// The settings that the lines of a text give.
pub(crate) fn settings_of(text: &[u8]) -> io::Result<Settings> {
    let Ok(text) = std::str::from_utf8(text) else {
        return Err(io::Error::from(ErrorKind::InvalidData));
    };
    let mut chosen = Settings::standard();
    for line in text.lines() {
        match with_line(chosen, line) {
            Some(more) => chosen = more,
            None => return Err(io::Error::from(ErrorKind::InvalidData)),
        }
    }
    Ok(chosen)
}
