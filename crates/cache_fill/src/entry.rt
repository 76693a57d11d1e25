//! One entry of an index, whose chunk a cache is to hold. Entries are numbered from 0.

ghost use Rattle.std.specs.Prelude.{◌≡◌, ◌≢◌, ℕ, List, ◌<◌, ◌≤◌, Some, None, IfSome, IfErr, IsTrue, OnOk};
ghost use Rattle.std.specs.Prelude.{length, map};
ghost use Rattle.cache_fill.specs.Fetching.{SomeHoldsEntry};
ghost use Rattle.cache_fill.specs.Filling.{AsksEntry, EntryFails, GivesEntry, IsAside, IsGivenBy, MayFillCache};
ghost use Rattle.cache_fill.specs.Filling.{fill_fault_of};
ghost use Rattle.cache_fill.specs.FillProgress.{StopsEntry};
ghost use Rattle.cache_store.specs.Shelves.{Stocks, held_on, shelf_of};
ghost use Rattle.caibx_codec.specs.Listing.{count_of, kind_of, id_of, size_of};
ghost use Rattle.chunk_store.specs.Asks.{Get};
ghost use Rattle.dsy_base.specs.Maps.{Map};
ghost use Rattle.image_slices.specs.Ahead.{IsListedSlice};
ghost use Rattle.store_chain.specs.Chains.{KeepsStores};
ghost use Rattle.store_chain.specs.Faults.{EachQuiet};

use crate::fill::FillFault;
use cache_store::cached::{Cached, Kept};
use cache_store::shelf::CacheMiss;
use caibx_codec::index::Index;
use chunk_store::id::ChunkId;
use chunk_store::laws::id_has_32_bytes;
use chunk_store::store::Store;
use dir_store::laws::put_changes_one_chunk;
use dsy_base::folder::Folder;
use store_chain::refused::Refused;

/// Why an entry isn't filled.
pub(crate) enum Stop {
    Refused(FillFault),
    /// A further worker was to read its chunk, and hasn't.
    Unread,
}

/// The fault where the stores refuse the chunk of an entry.
pub(crate) fn fault_at(entry: u64, id: ChunkId, refused: Refused) -> FillFault
    ensures value { result ≡ fill_fault_of entry id refused }
{
    match refused {
        Refused::Missing => FillFault::Missing { entry, id },
        Refused::Damaged { store, shows } => FillFault::Damaged {
            entry,
            id,
            store,
            shows,
        },
        Refused::StoreFault { store } => FillFault::StoreFault { store },
        Refused::Memory => FillFault::Memory,
    }
}

/// Sees to entry i: gets its chunk through the cache.
pub(crate) fn fill_entry<F: Folder, S: Store>(
    index: &Index,
    i: usize,
    cached: &mut Cached<F, S>,
    chunk: &mut [u8],
) -> Result<(), FillFault>
    requires listed { i < count_of index.now }
    requires inside { size_of index.now i ≤ length chunk.old }
    requires kind { cached.old.chain.kind ≡ kind_of index.now }
    requires unnamed { (F.pairs ≡ None) × (F.stores ≡ None) }
    ensures ok { OnOk result (IfSome (held_on (shelf_of F.files F.place F.faults cached.new.shelf))
        (GivesEntry index.now i)) }
    ensures given { (m : Map (List ℕ)) → (maps : List (Map (List ℕ))) →
        held_on (shelf_of F.files F.place F.faults cached.old.shelf) ≡ Some m →
        map S.holds cached.old.chain.stores ≡ map Some maps →
        EachQuiet (map S.faults cached.old.chain.stores) (map S.faults cached.new.chain.stores) →
        OnOk result (IsGivenBy index.now m maps i) }
    ensures err { IfErr result (EntryFails S.Store index.now i
        (shelf_of F.files F.place F.faults cached.old.shelf) (shelf_of F.files F.place F.faults cached.new.shelf)
        cached.old.chain cached.new.chain) }
    ensures kept { IfErr result (λ e. Stocks (λ q b. ⊥)
        (shelf_of F.files F.place F.faults cached.old.shelf) (shelf_of F.files F.place F.faults cached.new.shelf)) }

    ensures asks { AsksEntry S.Store index.now i
        (shelf_of F.files F.place F.faults cached.old.shelf) (shelf_of F.files F.place F.faults cached.new.shelf)
        cached.old.chain cached.new.chain }
    ensures stocks { Stocks (λ q b. (q ≡ id_of index.now i)
        × MayFillCache S.members index.now cached.old.chain.stores q b)
        (shelf_of F.files F.place F.faults cached.old.shelf) (shelf_of F.files F.place F.faults cached.new.shelf) }
    ensures stores { KeepsStores S.Store (λ a. a ≡ Get (id_of index.now i))
        cached.old.chain.stores cached.new.chain.stores }
    ensures same { cached.new.chain.kind ≡ cached.old.chain.kind }
{
    put_changes_one_chunk();
    let entry = index.entry(i);
    id_has_32_bytes(&entry.id);
    match cached.obtain(&entry.id, Some(entry.size), chunk) {
        Ok(got) => match got.kept {
            Kept::Yes => Ok(()),
            Kept::Failed => Err(FillFault::CacheFault),
            Kept::Memory => Err(FillFault::Memory),
        },
        Err(refused) => Err(fault_at(i as u64, entry.id, refused)),
    }
}

// Whether the shelf doesn't give the chunk, or failed, and didn't want memory.
fn is_unfound(miss: CacheMiss) -> bool
    ensures { IsTrue result → miss ≢ CacheMiss.Memory }
{
    match miss {
        CacheMiss::Memory => false,
        CacheMiss::Absent => true,
        CacheMiss::Wrong(_) => true,
        CacheMiss::Failed => true,
    }
}

/// Sees to entry i, which a further worker was to get, with what that has read of it: adds it to the shelf where it
/// doesn't give the chunk. No store is asked.
pub(crate) fn add_ahead<F: Folder, S: Store>(
    index: &Index,
    i: usize,
    read: Option<&[u8]>,
    cached: &mut Cached<F, S>,
    chunk: &mut [u8],
) -> Result<(), Stop>
    requires listed { i < count_of index.now }
    requires inside { size_of index.now i ≤ length chunk.old }
    requires kind { cached.old.chain.kind ≡ kind_of index.now }
    requires unnamed { (F.pairs ≡ None) × (F.stores ≡ None) }
    requires read { IfSome read (λ b. IsListedSlice index.now
        (SomeHoldsEntry S.members index.now cached.old.chain.stores) i b.now) }
    ensures aside { IsAside index.now i (shelf_of F.files F.place F.faults cached.old.shelf)
        (shelf_of F.files F.place F.faults cached.new.shelf) }
    ensures stocks { Stocks (λ q b. (q ≡ id_of index.now i)
        × MayFillCache S.members index.now cached.old.chain.stores q b)
        (shelf_of F.files F.place F.faults cached.old.shelf) (shelf_of F.files F.place F.faults cached.new.shelf) }
    ensures chain { cached.new.chain ≡ cached.old.chain }

    ensures ok { OnOk result
        (IfSome (held_on (shelf_of F.files F.place F.faults cached.new.shelf)) (GivesEntry index.now i)) }
    ensures given { OnOk result ((m : Map (List ℕ)) → (maps : List (Map (List ℕ))) →
        held_on (shelf_of F.files F.place F.faults cached.old.shelf) ≡ Some m →
        map S.holds cached.old.chain.stores ≡ map Some maps → IsGivenBy index.now m maps i) }
    ensures stops { IfErr result (StopsEntry S.Store index.now i
        (shelf_of F.files F.place F.faults cached.old.shelf) (shelf_of F.files F.place F.faults cached.new.shelf)
        cached.old.chain) }
    ensures kept { IfErr result (λ e. Stocks (λ q b. ⊥) (shelf_of F.files F.place F.faults cached.old.shelf)
        (shelf_of F.files F.place F.faults cached.new.shelf)) }
{
    put_changes_one_chunk();
    let entry = index.entry(i);
    id_has_32_bytes(&entry.id);
    let Err(miss) = cached.look(&entry.id, Some(entry.size), chunk) else {
        return Ok(());
    };
    if !is_unfound(miss) {
        return Err(Stop::Refused(FillFault::Memory));
    }
    let Some(bytes) = read else {
        return Err(Stop::Unread);
    };
    match cached.keep(&entry.id, bytes) {
        Kept::Yes => Ok(()),
        Kept::Failed => Err(Stop::Refused(FillFault::CacheFault)),
        Kept::Memory => Err(Stop::Refused(FillFault::Memory)),
    }
}
