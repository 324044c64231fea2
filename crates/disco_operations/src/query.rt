//! Decodes the query string of a URL.
ghost use Rattle.std.specs.Prelude.{◌≡◌, IfOk, IfErr};
ghost use Rattle.disco_values.specs.declared.fault.Fault.TheVariants.{OutOfMemory};
ghost use Rattle.disco_operations.specs.Query.{entries_of_query, pairs_of, text_of, value_of};

use disco_values::{Entries, Fault, Text};
use form_urlencoded::{decode, raw_pairs};
use std::alloc::{AllocError, Global};

fn text(alloc: Global, encoded: &[u8]) -> Result<Text, AllocError>
    ensures { IfOk result (λ t. t ≡ text_of encoded.now) }
{
    let decoded = decode(alloc, encoded)?;
    Text::new(alloc, decoded.as_str())
}

fn pairs(alloc: Global, query: &[u8]) -> Result<Vec<(Text, Text)>, AllocError>
    ensures { IfOk result (λ v. v.items ≡ pairs_of query.now) }
{
    let mut pairs = Vec::new(alloc);
    for (name, value) in raw_pairs(query) {
        pairs.push((text(alloc, name)?, text(alloc, value)?))?;
    }
    Ok(pairs)
}

/// The entries of a query string, which encodes them as an HTML form does (the URL Standard's
/// `application/x-www-form-urlencoded`): of equal names the first counts, and one named `@class` is
/// dropped. Bytes that aren't UTF-8 become U+FFFD.
///
/// # Errors
///
/// `OutOfMemory` alone.
pub fn entries_of_query(alloc: Global, query: &[u8]) -> Result<Entries, Fault>
    ensures value { IfOk result (λ e. e ≡ entries_of_query query.now) }
    ensures memory { IfErr result (λ e. e ≡ OutOfMemory) }
{
    Entries::from_pairs(alloc, pairs(alloc, query)?)
}

/// The first `value` of a query string, if it has one.
///
/// # Errors
///
/// `OutOfMemory` alone.
pub fn value_of(alloc: Global, query: &[u8]) -> Result<Option<Text>, Fault>
    ensures value { IfOk result (λ found. found ≡ value_of query.now) }
    ensures memory { IfErr result (λ e. e ≡ OutOfMemory) }
{
    for (name, value) in raw_pairs(query) {
        if decode(alloc, name)?.as_str() == "value" {
            return Ok(Some(text(alloc, value)?));
        }
    }
    Ok(None)
}
