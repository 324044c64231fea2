//! A row, and its parts.
use std::alloc::{AllocError, Global};
use std::io::ErrorKind;
use std::rt::Files;
use std::{fs, io};

/// The bytes of a row's file, where there is one.
fn file<R: Files + AllocGlobal>(rt: &R, path: &str, kind: &str) -> io::Result<Option<Vec<u8>>> {
    let path = format!(in rt.alloc(); "{path}.{kind}")?;
    match fs::read(rt, path.as_str()) {
        Ok(bytes) => Ok(Some(bytes)),
        Err(error) if error.kind() == ErrorKind::NotFound => Ok(None),
        Err(error) => Err(error),
    }
}

/// What a line says behind `== `, if it is a heading.
fn heading(line: &[u8]) -> Option<&[u8]> {
    line.strip_prefix(b"== ")?.strip_suffix(b"\n")
}

/// The lines under a heading, up to the next one, where the text has that heading.
fn under(alloc: Global, text: &[u8], kind: &[u8]) -> Result<Option<Vec<u8>>, AllocError> {
    let mut lines = text
        .split_inclusive(|b| *b == b'\n')
        .skip_while(|line| heading(line) != Some(kind));
    if lines.next().is_none() {
        return Ok(None);
    }
    let mut part = Vec::new(alloc);
    for line in lines.take_while(|line| heading(line).is_none()) {
        part.extend_from_slice(line)?;
    }
    Ok(Some(part))
}

/// A row, by where its files lie.
#[derive(Debug, Drop)]
pub(crate) struct Row<'a> {
    /// What the paths of its files begin with: `TOPIC/NAME`.
    pub(crate) path: &'a str,
    /// What its own file holds: parts under headings.
    text: Vec<u8>,
}

impl<'a> Row<'a> {
    /// The row of a path.
    pub(crate) fn read<R: Files + AllocGlobal>(rt: &R, path: &'a str) -> io::Result<Row<'a>> {
        let text = match file(rt, path, "row")? {
            Some(text) => text,
            None => Vec::new(rt.alloc()),
        };
        Ok(Row { path, text })
    }

    /// A part, where the row has it: under a heading, or else as a file.
    pub(crate) fn part<R: Files + AllocGlobal>(
        &self,
        rt: &R,
        kind: &str,
    ) -> io::Result<Option<Vec<u8>>> {
        match under(rt.alloc(), self.text.as_slice(), kind.as_bytes())? {
            Some(part) => Ok(Some(part)),
            None => file(rt, self.path, kind),
        }
    }

    /// A part that the row has to have.
    pub(crate) fn required<R: Files + AllocGlobal>(
        &self,
        rt: &R,
        kind: &str,
    ) -> io::Result<Vec<u8>> {
        match self.part(rt, kind)? {
            Some(part) => Ok(part),
            None => Err(io::Error::from(ErrorKind::NotFound)),
        }
    }

    /// A part, or its default where the row doesn't have it.
    pub(crate) fn part_or<R: Files + AllocGlobal>(
        &self,
        rt: &R,
        kind: &str,
        usual: &[u8],
    ) -> io::Result<Vec<u8>> {
        match self.part(rt, kind)? {
            Some(part) => Ok(part),
            None => Ok(usual.to_vec(rt.alloc())?),
        }
    }
}
