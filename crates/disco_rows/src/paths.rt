//! Finds the rows.
use std::rt::Files;
use std::{fs, io};

/// The endings of the files by which rows are found.
const ENDINGS: [&str; 3] = [".row", ".request", ".cut"];

/// The name of the row that is found by a file, if one is.
fn row_name(file: &str) -> Option<&str> {
    for ending in ENDINGS {
        if let Some(name) = file.strip_suffix(ending) {
            return Some(name);
        }
    }
    None
}

/// Adds `TOPIC/NAME` for each row of a topic.
fn push_paths<R: Files + AllocGlobal + Clone + Drop>(
    rt: &R,
    topic: &str,
    paths: &mut Vec<String>,
) -> io::Result<()> {
    for file in fs::read_dir(rt, topic)? {
        if let Some(name) = row_name(file?.file_name()) {
            paths.push(format!(in rt.alloc(); "{topic}/{name}")?)?;
        }
    }
    Ok(())
}

/// `TOPIC/NAME` for each row in the folders that lie where the program runs, in byte order.
pub(crate) fn paths<R: Files + AllocGlobal + Clone + Drop>(rt: &R) -> io::Result<Vec<String>> {
    let mut paths = Vec::new(rt.alloc());
    for topic in fs::read_dir(rt, ".")? {
        let topic = topic?;
        if topic.file_type()?.is_dir() {
            push_paths(rt, topic.file_name(), &mut paths)?;
        }
    }
    paths.sort()?;
    Ok(paths)
}
