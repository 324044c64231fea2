//! Reads the row of a connection.
use crate::row::Row;
use crate::settings::settings_of;
use disco_values::Settings;
use std::io;
use std::rt::Files;

/// What a connection sends, what it has to get, and the settings of the server.
#[derive(Debug, Drop)]
pub(crate) struct Exchange {
    pub(crate) settings: Settings,
    pub(crate) request: Vec<u8>,
    /// Whether the connection ends too early: before each byte of the request in turn.
    pub(crate) is_cut: bool,
    pub(crate) reply: Vec<u8>,
    /// How many requests are answered and how the connection ends, where the row says so.
    pub(crate) served: Option<Vec<u8>>,
}

impl Exchange {
    /// How the connection has to end, where that is said.
    pub(crate) fn served_line(&self) -> Option<&[u8]> {
        match &self.served {
            Some(line) => Some(line.as_slice()),
            None => None,
        }
    }
}

/// What is sent, and whether it is cut, where the row is of a connection.
fn request<R: Files + AllocGlobal>(rt: &R, row: &Row<'_>) -> io::Result<Option<(Vec<u8>, bool)>> {
    if let Some(request) = row.part(rt, "request")? {
        return Ok(Some((request, false)));
    }
    match row.part(rt, "cut")? {
        Some(request) => Ok(Some((request, true))),
        None => Ok(None),
    }
}

/// The exchange of a row, where it is of a connection.
pub(crate) fn read_exchange<R: Files + AllocGlobal>(
    rt: &R,
    row: &Row<'_>,
) -> io::Result<Option<Exchange>> {
    let Some((request, is_cut)) = request(rt, row)? else {
        return Ok(None);
    };
    let settings = row.part_or(rt, "settings", b"")?;
    Ok(Some(Exchange {
        settings: settings_of(settings.as_slice())?,
        request,
        is_cut,
        reply: row.required(rt, "reply")?,
        served: row.part(rt, "served")?,
    }))
}
