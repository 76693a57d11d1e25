//! Which chunks a cache lacks, and which worker is to get each of them. Entries are numbered from 0.

ghost use Rattle.std.specs.Prelude.{◌≡◌, ◌<◌, [], IfOk, IfSome, None, Ok, true};
ghost use Rattle.chunk_dealing.specs.Dealing.{DealsLacking, owner_of};
ghost use Rattle.cache_fill.specs.Fetching.{MarksLacking};
ghost use Rattle.cache_fill.specs.FillProgress.{shelf_at};
ghost use Rattle.cache_store.specs.Shelves.{KeepsShelf, held_on};
ghost use Rattle.caibx_codec.specs.Listing.{count_of, id_of};

use cache_store::cached::Cached;
use cache_store::shelf::CacheMiss;
use caibx_codec::index::Index;
use chunk_dealing::dealing::{Dealer, deal, marked_bytes, room_size};
use chunk_store::store::Store;
use dsy_base::folder::Folder;
use std::alloc::{AllocError, Global};
use std::collections::BTreeSet;

/// For each entry the number of the worker that is to get its chunk ahead, or 0; and the dealer, before it began.
#[derive(Drop)]
pub(crate) struct Dealt {
    pub owners: Vec<u8>,
    pub dealer: Dealer,
}

// Whether the id of entry i is new, and the cache has no file of its chunk. No digest is computed: nothing is lent for
// the bytes.
fn is_first_lack<F: Folder, S: Store>(
    index: &Index,
    i: usize,
    ids: &mut BTreeSet<[u8; 32]>,
    cached: &mut Cached<F, S>,
) -> Result<bool, AllocError>
    requires listed { i < count_of index.now }
    ensures only { result ≡ Ok true →
        IfSome (held_on (shelf_at F.Look S.Store cached.old)) (λ m. m (id_of index.now i) ≡ None) }
    ensures kept { KeepsShelf (shelf_at F.Look S.Store cached.old) (shelf_at F.Look S.Store cached.new) }
    ensures chain { cached.new.chain ≡ cached.old.chain }
{
    let id = index.id(i);
    if !ids.insert(id.0)? {
        return Ok(false);
    }
    let mut none = [0u8; 0];
    let looked = cached.look(&id, None, &mut none);
    Ok(matches!(looked, Err(CacheMiss::Absent)))
}

// For each entry whether it is the first of its id, and the cache has no file of its chunk. A look that fails tells
// nothing.
fn list_lacking<F: Folder, S: Store>(
    alloc: Global,
    index: &Index,
    cached: &mut Cached<F, S>,
) -> Result<Vec<bool>, AllocError>
    ensures only { IfOk result
        (λ v. MarksLacking index.now (held_on (shelf_at F.Look S.Store cached.old)) v.items) }
    ensures kept { KeepsShelf (shelf_at F.Look S.Store cached.old) (shelf_at F.Look S.Store cached.new) }
    ensures chain { cached.new.chain ≡ cached.old.chain }
{
    let mut ids = BTreeSet::new(alloc);
    let mut lacking = Vec::with_capacity(alloc, index.count())?;
    for i in 0..index.count() {
        let lacks = is_first_lack(index, i, &mut ids, cached)?;
        lacking.push(lacks)?;
    }
    Ok(lacking)
}

/// Nobody is dealt anything.
pub(crate) fn none_dealt(alloc: Global) -> Dealt
    ensures { result.owners.items ≡ [] }
{
    Dealt {
        owners: Vec::new(alloc),
        dealer: Dealer::new(0, 0, 0),
    }
}

// Deals the entries whose chunk the cache lacks, each at the first entry of its id, if there are any.
fn deal_lacking<F: Folder, S: Store>(
    alloc: Global,
    index: &Index,
    cached: &mut Cached<F, S>,
    chains: usize,
    largest: usize,
) -> Result<Dealt, AllocError>
    ensures only { IfOk result (λ d. DealsLacking index.now (held_on (shelf_at F.Look S.Store cached.old))
        (owner_of d.owners.items)) }
    ensures kept { KeepsShelf (shelf_at F.Look S.Store cached.old) (shelf_at F.Look S.Store cached.new) }
    ensures chain { cached.new.chain ≡ cached.old.chain }
{
    let lacking = list_lacking(alloc, index, cached)?;
    if !lacking.contains(&true) {
        return Ok(none_dealt(alloc));
    }
    let bytes = marked_bytes(index, &lacking);
    let dealer = Dealer::new(chains, bytes, room_size(largest));
    let owners = deal(alloc, index, &lacking, dealer)?;
    Ok(Dealt { owners, dealer })
}

/// Deals the entries whose chunk the cache lacks to this many further workers. Nobody is dealt anything where there is
/// no such worker, or no memory. The largest chunk has `largest` bytes.
pub(crate) fn deal_ahead<F: Folder, S: Store>(
    alloc: Global,
    index: &Index,
    cached: &mut Cached<F, S>,
    chains: usize,
    largest: usize,
) -> Dealt
    ensures only { DealsLacking index.now (held_on (shelf_at F.Look S.Store cached.old))
        (owner_of result.owners.items) }
    ensures kept { KeepsShelf (shelf_at F.Look S.Store cached.old) (shelf_at F.Look S.Store cached.new) }
    ensures chain { cached.new.chain ≡ cached.old.chain }
{
    if chains == 0 {
        return none_dealt(alloc);
    }
    match deal_lacking(alloc, index, cached, chains, largest) {
        Ok(dealt) => dealt,
        Err(_) => none_dealt(alloc),
    }
}
