//! Places in chunks.
ghost use Rattle.std.specs.Prelude.{◌≡◌, ◌∷◌, ◌<◌, ◌≤◌, [], IfOk, OnErr, OnOk, false, length, map, set, slice_index_or};
ghost use Rattle.std.specs.List as list;
ghost use Rattle.disco_history.specs.Slots.{written};
ghost use Rattle.disco_index.specs.Chunks.{AreChunks, HasNoEmptyChunk, IsChunkOf, Placed, all_in, by_vip, keys_under};
ghost use Rattle.disco_index.specs.Names.{lowest, name};
ghost use Rattle.disco_index.specs.Places.{Alters, opened_vip, swept};

use crate::chunk::Chunk;
use crate::place::Place;
use disco_values::{Key, Text};
use std::alloc::{AllocError, Global};

/// How many places a chunk has when it is split.
const MOST: usize = 256;

/// Which chunk the place of a key under a vip is in, or would go to.
fn chunk_of(chunks: &[Chunk], vip: &[u8], key: &Key) -> usize
    requires chunks { AreChunks chunks.now }
    requires some { 0 < length chunks.now }
    ensures in_range { result < length chunks.now }
    ensures chunk { IsChunkOf chunks.now (name vip.now key.now) result }
{
    let ended = chunks.partition_point(|chunk| chunk.ends_before(vip, key));
    if ended < chunks.len() {
        ended
    } else {
        ended - 1
    }
}

/// Sets whether the instance is there, where its key has a place under the vip.
pub(crate) fn write(chunks: &mut Vec<Chunk>, vip: &[u8], key: &Key, there: bool)
    requires { AreChunks chunks.old.items }
    ensures chunks { AreChunks chunks.new.items }
    ensures places { Alters (written there) (vip.now ∷ []) key.now (by_vip chunks.old.items) (by_vip chunks.new.items) }
{
    if chunks.is_empty() {
        return;
    }
    let n = chunk_of(chunks, vip, key);
    match chunks[n].search(vip, key) {
        Ok(i) => chunks[n].write(i, there),
        Err(_) => {}
    }
}

/// Removes a chunk, and gives memory back where most is unused.
fn remove_chunk(chunks: &mut Vec<Chunk>, n: usize)
    requires { n < length chunks.old.items }
    ensures { chunks.new.items ≡ list.remove chunks.old.items n }
{
    chunks.remove(n);
    if chunks.len() < chunks.capacity() / 4 {
        chunks.shrink_to_fit();
    }
}

/// Removes a place, and the chunk with its last place.
fn take_out(chunks: &mut Vec<Chunk>, n: usize, i: usize)
    requires chunk { n < length chunks.old.items }
    requires place { (d : _) → i < length (slice_index_or chunks.old.items n d) }
    ensures places { all_in chunks.new.items ≡ all_in (set chunks.old.items n (list.remove (slice_index_or chunks.old.items n []) i)) }
    ensures none_empty { HasNoEmptyChunk chunks.old.items → HasNoEmptyChunk chunks.new.items }
{
    if chunks[n].len() == 1 {
        remove_chunk(chunks, n);
    } else {
        chunks[n].remove(i);
    }
}

/// Removes the place of a key under a vip, where it is empty.
pub(crate) fn close(chunks: &mut Vec<Chunk>, vip: &[u8], key: &Key)
    requires { AreChunks chunks.old.items }
    ensures chunks { AreChunks chunks.new.items }
    ensures places { Alters swept (vip.now ∷ []) key.now (by_vip chunks.old.items) (by_vip chunks.new.items) }
{
    if chunks.is_empty() {
        return;
    }
    let n = chunk_of(chunks, vip, key);
    match chunks[n].search(vip, key) {
        Ok(i) => {
            if !chunks[n].is_there(i) {
                take_out(chunks, n, i);
            }
        }
        Err(_) => {}
    }
}

/// Splits a chunk in two, where memory is found for that.
fn split(chunks: &mut Vec<Chunk>, n: usize) -> Result<(), AllocError>
    requires chunk { n < length chunks.old.items }
    ensures places { all_in chunks.new.items ≡ all_in chunks.old.items }
    ensures none_empty { HasNoEmptyChunk chunks.old.items → HasNoEmptyChunk chunks.new.items }
{
    let len = chunks[n].len();
    if len < MOST {
        return Ok(());
    }
    chunks.reserve(1)?;
    let behind = chunks[n].split_off(len / 2)?;
    Ok(chunks.insert(n + 1, behind)?)
}

/// Puts a place into a chunk.
fn put_in(chunks: &mut Vec<Chunk>, n: usize, i: usize, place: Place) -> Result<(), AllocError>
    requires chunk { n < length chunks.old.items }
    requires place { (d : _) → i ≤ length (slice_index_or chunks.old.items n d) }
    ensures places { OnOk result (all_in chunks.new.items ≡ all_in (set chunks.old.items n (list.insert (slice_index_or chunks.old.items n []) i place))) }
    ensures none_empty { HasNoEmptyChunk chunks.old.items → HasNoEmptyChunk chunks.new.items }
    ensures err { OnErr result (chunks.new.items ≡ chunks.old.items) }
{
    chunks[n].insert(i, place)?;
    // Where memory for a second chunk is refused, this one stays whole.
    let _ = split(chunks, n);
    Ok(())
}

/// Puts an empty place where its key has none under its vip. Where there is one, that takes its
/// owner, so that all places of a key are of its last address.
pub(crate) fn open(alloc: Global, chunks: &mut Vec<Chunk>, place: Place) -> Result<(), AllocError>
    requires chunks { AreChunks chunks.old.items }
    requires empty { place.1 ≡ false }
    ensures chunks { AreChunks chunks.new.items }
    ensures ok { OnOk result (Alters opened_vip (place.0.vip ∷ []) place.0.key (by_vip chunks.old.items) (by_vip chunks.new.items)) }
    ensures err { OnErr result (chunks.new.items ≡ chunks.old.items) }
{
    if chunks.is_empty() {
        return Ok(chunks.push(Chunk::of_one(alloc, place)?)?);
    }
    let n = chunk_of(chunks, place.vip(), place.key());
    match chunks[n].search(place.vip(), place.key()) {
        Ok(i) => {
            chunks[n].renew(i, place);
            Ok(())
        }
        Err(i) => Ok(put_in(chunks, n, i, place)?),
    }
}

/// The key that comes before all others.
fn lowest(alloc: Global) -> Key
    ensures { result ≡ lowest }
{
    Key {
        app: Text::empty(alloc),
        id: Text::empty(alloc),
    }
}

/// Which chunk the first place under a vip is in, or would go to.
fn first_of(chunks: &[Chunk], alloc: Global, vip: &[u8]) -> usize
    requires chunks { AreChunks chunks.now }
    requires some { 0 < length chunks.now }
    ensures in_range { result < length chunks.now }
    ensures chunk { IsChunkOf chunks.now (name vip.now lowest) result }
{
    chunk_of(chunks, vip, &lowest(alloc))
}

/// The keys of the places under a vip whose instances are there, in their order.
pub(crate) fn under<'a>(
    chunks: &'a [Chunk],
    alloc: Global,
    vip: &[u8],
) -> Result<Vec<&'a Key>, AllocError>
    requires { AreChunks chunks.now }
    ensures { IfOk result (λ found. map (λ k. k.now) found.items ≡ keys_under vip.now (all_in chunks.now)) }
{
    let mut found = Vec::new(alloc);
    if chunks.is_empty() {
        return Ok(found);
    }
    let n = first_of(chunks, alloc, vip);
    for chunk in &chunks[n..] {
        if chunk.starts_after(vip) {
            break;
        }
        chunk.push_under(vip, &mut found)?;
    }
    Ok(found)
}
