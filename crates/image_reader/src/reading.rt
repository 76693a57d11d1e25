//! A range of an image read entry by entry. Offsets are bytes from 0, and entries are numbered from 0.

ghost use Rattle.std.specs.Prelude.{◌≡◌, ◌⊎◌, ◌+◌, ◌-◌, ◌<◌, ◌≤◌, ◌++◌, ◌∷◌, ℕ, List, false, drop, length, min};
ghost use Rattle.std.specs.Prelude.{slice_range, take, IfErr, IfOk, OnErr, OnOk};
ghost use Rattle.caibx_codec.specs.Listing.{count_of, end_of, id_of, image_length, kind_of, size_of, start_of};
ghost use Rattle.chunk_store.specs.Asks.{Get};
ghost use Rattle.chunk_store.specs.Giving.{IsChunk};
ghost use Rattle.image_reader.specs.Covered.{want_of};
ghost use Rattle.image_reader.specs.Images.{IsRange, IsRightInRange};
ghost use Rattle.image_reader.specs.Keeping.{has_want};
ghost use Rattle.image_reader.specs.Reading.{HitsWant, IsGot, MissesWant, RangeStops, ReadsTo, reader_state};
ghost use Rattle.image_reader.specs.Refusals.{MissFails, RefusesWant, read_refused_of};
ghost use Rattle.store_chain.specs.Chains.{AsksOnce, KeepsStores};
ghost use Rattle.store_chain.specs.declared.refused.Refused.{Refused as Refusal};

use crate::cover::first_past;
use crate::kept::{KeptChunks, copy_part};
use crate::refused::ReadRefused;
use crate::want::Want;
use caibx_codec::index::Index;
use chunk_store::store::Store;
use std::alloc::Global;
use store_chain::chain::Chain;
use store_chain::refused::Refused;

// Gets a chunk from the stores.
fn fetch<S: Store>(alloc: Global, chain: &mut Chain<S>, want: &Want) -> Result<Vec<u8>, Refused>
    ensures ok { IfOk result (λ v. IsChunk chain.old.kind want.now.id.0 want.now.size v.items) }
    ensures asks { OnOk result (AsksOnce S.asked S.queried want.now.id.0 chain.old chain.new) }
    ensures had { OnOk result (IsGot S.Store chain.old.kind want.now chain.old.stores chain.new.stores) }
    ensures err { IfErr result (λ r. RefusesWant S.Store want.now r chain.old chain.new
        ⊎ ((r ≡ Refused.Memory) × (chain.new ≡ chain.old))) }
    ensures kept { KeepsStores S.Store (λ a. a ≡ Get want.now.id.0) chain.old.stores chain.new.stores }
    ensures same { chain.new.kind ≡ chain.old.kind }
{
    let Ok(mut chunk) = vec![in alloc; 0u8; want.size] else {
        return Err(Refused::Memory);
    };
    match chain.obtain(&want.id, Some(want.size), chunk.as_mut_slice()) {
        Ok(_) => Ok(chunk),
        Err(refused) => Err(refused),
    }
}

// Gets the chunk of a want that isn't kept from the stores, fills `out` with its bytes from this offset of it on, and
// keeps it. Room for it is made first, so that no more chunks are held than may be kept.
fn read_missed<S: Store>(
    chain: &mut Chain<S>,
    kept: &mut KeptChunks,
    want: &Want,
    from: usize,
    out: &mut [u8],
) -> Result<(), Refused>
    requires inside { from + length out.old ≤ want.now.size }
    requires kind { kept.old.kind ≡ chain.old.kind }
    requires missed { has_want kept.old.wants want.now ≡ false }
    ensures bytes { OnOk result ((b : List ℕ) × IsChunk chain.old.kind want.now.id.0 want.now.size b
        × (out.new ≡ slice_range b from (from + length out.old))) }
    ensures asks { OnOk result (AsksOnce S.asked S.queried want.now.id.0 chain.old chain.new) }
    ensures had { OnOk result (IsGot S.Store chain.old.kind want.now chain.old.stores chain.new.stores) }
    ensures changed { OnOk result (kept.new
        ≡ record kept.old { wants = take kept.old.keep (want.now ∷ kept.old.wants) }) }
    ensures err { IfErr result (λ r. MissFails S.Store want.now r chain.old chain.new) }
    ensures refused { OnErr result (kept.new
        ≡ record kept.old { wants = take (kept.old.keep - 1) kept.old.wants }) }
    ensures kept { KeepsStores S.Store (λ a. a ≡ Get want.now.id.0) chain.old.stores chain.new.stores }
    ensures same { chain.new.kind ≡ chain.old.kind }
{
    kept.make_room();
    let chunk = fetch(kept.allocator(), chain, want)?;
    copy_part(&chunk, from, out);
    match kept.add(*want, chunk) {
        Ok(()) => Ok(()),
        Err(_) => Err(Refused::Memory),
    }
}

// Fills the front of `out` with the bytes of entry i from this offset of the image on, and answers their number.
fn read_entry<S: Store>(
    index: &Index,
    chain: &mut Chain<S>,
    kept: &mut KeptChunks,
    i: usize,
    at: u64,
    out: &mut [u8],
) -> Result<usize, ReadRefused>
    requires listed { i < count_of index.now }
    requires from { start_of index.now i ≤ at }
    requires to { at < end_of index.now i }
    requires kind { chain.old.kind ≡ kind_of index.now }
    requires kinds { kept.old.kind ≡ kind_of index.now }
    ensures size { IfOk result (λ n. n ≡ min (end_of index.now i - at) (length out.old)) }
    ensures bytes { IfOk result (λ n. (b : List ℕ) × IsChunk (kind_of index.now) (id_of index.now i)
        (size_of index.now i) b × (out.new ≡ slice_range b (at - start_of index.now i)
        (at - start_of index.now i + n) ++ drop n out.old)) }
    ensures ok { OnOk result (HitsWant S.Store (want_of index.now i) (reader_state index.now chain.old kept.old)
        (reader_state index.now chain.new kept.new)
        ⊎ MissesWant S.Store (want_of index.now i) (reader_state index.now chain.old kept.old)
        (reader_state index.now chain.new kept.new)) }
    ensures err { IfErr result (λ e. (r : Refusal)
        × (e ≡ read_refused_of i (want_of index.now i).id r)
        × (has_want kept.old.wants (want_of index.now i) ≡ false)
        × MissFails S.Store (want_of index.now i) r chain.old chain.new
        × (kept.new ≡ record kept.old { wants = take (kept.old.keep - 1) kept.old.wants })) }
    ensures kept { KeepsStores S.Store (λ a. a ≡ Get (id_of index.now i)) chain.old.stores chain.new.stores }
    ensures same { chain.new.kind ≡ chain.old.kind }
    ensures digest { kept.new.kind ≡ kept.old.kind }
{
    let start = index.entry(i).start;
    let want = Want::of(index, i);
    let from = (at - start) as usize;
    let n = (want.size - from).min(out.len());
    let (part, _) = out.split_at_mut(n);
    if kept.copy(&want, from, part) {
        return Ok(n);
    }
    match read_missed(chain, kept, &want, from, part) {
        Ok(()) => Ok(n),
        Err(refused) => Err(ReadRefused::of(i as u64, want.id, refused)),
    }
}

/// Fills `out` with the bytes of the image from this offset on.
pub(crate) fn read_range<S: Store>(
    index: &Index,
    chain: &mut Chain<S>,
    kept: &mut KeptChunks,
    at: u64,
    out: &mut [u8],
) -> Result<(), ReadRefused>
    requires inside { at + length out.old ≤ image_length index.now }
    requires kind { chain.old.kind ≡ kind_of index.now }
    requires kinds { kept.old.kind ≡ kind_of index.now }
    ensures right { (t : List ℕ) → IsRightInRange t index.now at (length out.old) →
        OnOk result (IsRange index.now at (length out.old) t out.new) }
    ensures ok { OnOk result (ReadsTo S.Store at (length out.old) (count_of index.now)
        (reader_state index.now chain.old kept.old) (reader_state index.now chain.new kept.new)) }
    ensures err { IfErr result (RangeStops S.Store at (length out.old)
        (reader_state index.now chain.old kept.old) (reader_state index.now chain.new kept.new)) }
    ensures same { chain.new.kind ≡ chain.old.kind }
    ensures digest { kept.new.kind ≡ kept.old.kind }
{
    index.rules();
    let _length = index.length();
    let _asks = chain.asks();
    let mut done = 0;
    for i in first_past(index, at)..index.count() {
        if done == out.len() {
            break;
        }
        let (_, rest) = out.split_at_mut(done);
        match read_entry(index, chain, kept, i, at + done as u64, rest) {
            Ok(more) => done += more,
            Err(refused) => return Err(refused),
        }
    }
    Ok(())
}
