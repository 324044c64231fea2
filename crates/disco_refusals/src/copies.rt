//! The copy of a client, member by member.
use disco_client::Copy;
use disco_instance::Record;
use disco_reconcile::{Client, Fetch};
use disco_values::Fault;
use disco_wire::read_document;
use std::alloc::{AllocError, Global};

/// All records of a copy, each with all its members.
fn shown(alloc: Global, copy: &Copy) -> Result<String, AllocError> {
    let mut text = String::new(alloc);
    for held in copy.records() {
        let record: &Record = &held.rec;
        writeln!(text, "{record:?}")?;
    }
    Ok(text)
}

/// What a document makes of a client that has no copy.
fn copy_of(alloc: Global, document: &str) -> Result<Copy, Fault> {
    let wire = read_document(alloc, document.as_bytes())?;
    let mut copy = Copy::new(alloc);
    copy.full(wire)?;
    Ok(copy)
}

fn is_copy_of(alloc: Global, copy: &Copy, document: &str) -> Result<bool, Fault> {
    let wanted = copy_of(alloc, document)?;
    Ok(shown(alloc, copy)? == shown(alloc, &wanted)?)
}

/// Whether a client has the copy that a document of all apps makes, or none where there is no
/// document.
pub(crate) fn has<F: Fetch>(
    alloc: Global,
    client: &Client<F>,
    document: Option<&str>,
) -> Result<bool, Fault> {
    match (client.copy(), document) {
        (Some(copy), Some(document)) => is_copy_of(alloc, copy, document),
        (None, None) => Ok(true),
        _ => Ok(false),
    }
}
