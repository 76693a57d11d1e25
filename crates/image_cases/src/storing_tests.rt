//! Images stored in, and chopped into, a store that counts what is put into it.

ghost use Rattle.std.specs.Prelude.{◌≡◌, ◌<◌, [], ◌∷◌};

use crate::compare::{ok, same};
use crate::images::{mixed, sizes_of, views_of};
use crate::indexes::index_of_pieces;
use buzhash_cut::sizes::CutSizes;
use byte_forms::mem_view::MemView;
use caibx_codec::index::Index;
use caibx_codec::reading::read_index;
use chunk_store::id::{ChunkId, DigestKind};
use chunk_store::store::{GetFault, Store};
use dsy_base::fault::{Failed, raise};
use dsy_base::name::Name;
use dsy_base::view::View;
use dsy_forms::no_folders::NoFolders;
use image_chop::chop::{ChopFault, chop};
use image_store::put_chunks::MakeFault;
use image_store::store_image::store_image;
use std::alloc::Global;
use std::process::Abort;
use std::thread::Threads;
use store_forms::scripted_store::{Refuses, ScriptedStore};

fn view_of(rt: &impl Abort, alloc: Global, bytes: &[u8]) -> MemView {
    let bytes = ok(rt, Vec::from_slice(alloc, bytes));
    MemView::new(alloc, bytes, Vec::new(alloc))
}

// A list of one view.
fn one_view<V: View>(rt: &impl Abort, alloc: Global, view: V) -> Vec<V>
    ensures { result.items ≡ view ∷ [] }
{
    let mut views = Vec::new(alloc);
    if views.push(view).is_err() {
        rt.panic("no memory")
    }
    views
}

// Stores the image, cut by 48 bytes, through one view. Answers the number of bytes of its index, too.
fn stores<R: Abort + Threads + Sync>(
    rt: &R,
    alloc: Global,
    kind: DigestKind,
    image: &[u8],
    store: ScriptedStore,
) -> (ScriptedStore, Result<usize, MakeFault>) {
    let views = one_view(rt, alloc, view_of(rt, alloc, image));
    let sizes = sizes_of(rt, 48, 48, 48);
    let inner = NoFolders::of(alloc, "");
    let (_views, store, made) = store_image(rt, alloc, &sizes, kind, views, store, &inner);
    match made {
        Ok(bytes) => (store, Ok(bytes.len())),
        Err(fault) => (store, Err(fault)),
    }
}

// The store gives these bytes of at most eight under the id, or this fault.
fn gives(rt: &impl Abort, store: &mut ScriptedStore, id: &ChunkId, want: Result<&[u8], GetFault>) {
    let mut out = [0; 8];
    let got = match store.get(id, &mut out) {
        Ok(size) => Ok(&out[..size]),
        Err(fault) => Err(fault),
    };
    same(rt, got, want);
}

// How "abc" is stored where the store refuses this, and what it then gives.
fn abc_is_stored<R: Abort + Threads + Sync>(
    rt: &R,
    alloc: Global,
    refuses: Refuses,
    want: Result<usize, MakeFault>,
    given: Result<&[u8], GetFault>,
) {
    let id = ChunkId::of(DigestKind::Sha512T256, b"abc");
    let (mut store, made) = stores(
        rt,
        alloc,
        DigestKind::Sha512T256,
        b"abc",
        ScriptedStore::new(alloc, refuses),
    );
    same(rt, made, want);
    gives(rt, &mut store, &id, given);
}

// An index of one chunk has 144 bytes. The first call asks for the chunk, the second puts it.
#[test]
fn an_image_is_stored_or_its_store_is_at_fault(rt: HostRuntime) {
    let alloc = rt.alloc();
    let missing = Err(GetFault::Missing);
    let fault = Err(MakeFault::StoreFault);
    abc_is_stored(&rt, alloc, Refuses::Nothing, Ok(144), Ok(b"abc"));
    abc_is_stored(&rt, alloc, Refuses::Call(0), fault, missing);
    abc_is_stored(&rt, alloc, Refuses::Call(1), fault, missing);
}

// Stores "abc" by this digest, and by no other.
fn abc_is_stored_by<R: Abort + Threads + Sync>(
    rt: &R,
    alloc: Global,
    kind: DigestKind,
    other: DigestKind,
) {
    let store = ScriptedStore::new(alloc, Refuses::Nothing);
    let (mut store, made) = stores(rt, alloc, kind, b"abc", store);
    same(rt, made, Ok(144));
    gives(rt, &mut store, &ChunkId::of(kind, b"abc"), Ok(b"abc"));
    let missing = Err(GetFault::Missing);
    gives(rt, &mut store, &ChunkId::of(other, b"abc"), missing);
}

#[test]
fn an_image_is_stored_by_the_digest_that_is_said(rt: HostRuntime) {
    let alloc = rt.alloc();
    abc_is_stored_by(&rt, alloc, DigestKind::Sha512T256, DigestKind::Sha256);
    abc_is_stored_by(&rt, alloc, DigestKind::Sha256, DigestKind::Sha512T256);
}

// Stores an image of three chunks, of which two are alike, by this many calls and puts.
fn store_three<R: Abort + Threads + Sync>(
    rt: &R,
    alloc: Global,
    store: ScriptedStore,
    calls: u64,
    puts: u64,
) -> ScriptedStore {
    let mut image = [0; 99];
    image[96] = b'a';
    image[97] = b'b';
    image[98] = b'c';
    let calls = store.calls().saturating_add(calls);
    let puts = store.puts().saturating_add(puts);
    let (store, made) = stores(rt, alloc, DigestKind::Sha512T256, &image, store);
    same(rt, made.is_ok(), true);
    same(rt, store.calls(), calls);
    same(rt, store.puts(), puts);
    store
}

// Stores the three again, where other bytes are held in the place of "abc".
fn is_put_again<R: Abort + Threads + Sync>(
    rt: &R,
    alloc: Global,
    mut store: ScriptedStore,
    spoiled: &[u8],
) -> ScriptedStore {
    let id = ChunkId::of(DigestKind::Sha512T256, b"abc");
    ok(rt, store.set_chunk(&id, spoiled));
    let mut store = store_three(rt, alloc, store, 3, 1);
    gives(rt, &mut store, &id, Ok(b"abc"));
    store
}

// A chunk whose last byte is another one is put again, and so is one that is too short or too long.
#[test]
fn each_chunk_is_asked_for_once_and_put_where_it_is_lacked(rt: HostRuntime) {
    let alloc = rt.alloc();
    let store = store_three(
        &rt,
        alloc,
        ScriptedStore::new(alloc, Refuses::Nothing),
        4,
        2,
    );
    let store = store_three(&rt, alloc, store, 2, 0);
    let store = is_put_again(&rt, alloc, store, b"abX");
    let store = is_put_again(&rt, alloc, store, b"ab");
    is_put_again(&rt, alloc, store, b"abcd");
}

// A view whose bytes are others, or can't be read, after its first reading: it was cut and named.
#[derive(Drop)]
struct ChangingView {
    now: Vec<u8>,
    then: Option<Vec<u8>>,
    reads: u64,
    faults: u64,
    name: Name,
}

impl View for ChangingView {
    ghost use Rattle.std.specs.Prelude.{None, false, refl, vec_len};
    ghost use Rattle.std.proofs.Common.{rules};

    ghost held = { λ v. record { bytes = None; size = 3; name = v.name } };

    ghost faults = { λ v. v.faults };

    ghost tells = { false };

    ghost never_fails = { false };

    fn size(&self) -> u64 {
        3
    }

    fn read_at(&mut self, at: u64, out: &mut [u8]) -> Result<(), Failed> {
        let start = at as usize;
        let end = start.saturating_add(out.len());
        if self.now.len() < end {
            self.faults = raise(self.faults, 1);
            return Err(Failed);
        }
        out.copy_from_slice(&self.now[start..end]);
        self.reads = raise(self.reads, 1);
        if self.reads == 1
            && let Some(then) = self.then.take()
        {
            self.now = then;
        }
        Ok(())
    }

    ghost told = { λ _. refl };

    ghost sized = { λ _. tt };

    ghost sure = { Prim.search rules };
}

impl ChangingView {
    // The view as it is after its first reading.
    fn changed(mut self) -> ChangingView {
        if let Some(then) = self.then.take() {
            self.now = then;
        }
        self
    }
}

// What a view of "abc" gives once it is read again.
#[derive(Clone, Copy)]
enum Then {
    Same,
    Other,
    Fault,
}

fn changing_view(rt: &impl Abort, alloc: Global, then: Then) -> ChangingView {
    let then = match then {
        Then::Same => None,
        Then::Other => Some(ok(rt, Vec::from_slice(alloc, b"abX"))),
        Then::Fault => Some(Vec::new(alloc)),
    };
    ChangingView {
        now: ok(rt, Vec::from_slice(alloc, b"abc")),
        then,
        reads: 0,
        faults: 0,
        name: Name::empty(alloc),
    }
}

// So many views of "abc". Those but the first have changed before.
fn changing_views(
    rt: &impl Abort,
    alloc: Global,
    first: Then,
    others: Then,
    count: u64,
) -> Vec<ChangingView> {
    let mut views = one_view(rt, alloc, changing_view(rt, alloc, first));
    for _ in 1..count {
        let view = changing_view(rt, alloc, others).changed();
        same(rt, views.push(view).is_ok(), true);
    }
    views
}

// Stores "abc" with this many views: it is open whether the others cut anything. Compares how often the store was
// called and the first view read.
fn stored_twice<R: Abort + Threads + Sync>(
    rt: &R,
    alloc: Global,
    first: Then,
    others: Then,
    count: u64,
    told: (u64, u64, Result<(), MakeFault>),
) {
    let views = changing_views(rt, alloc, first, others, count);
    assert!(rt; 0 < views.len());
    let store = ScriptedStore::new(alloc, Refuses::Nothing);
    let sizes = sizes_of(rt, 48, 48, 48);
    let inner = NoFolders::of(alloc, "");
    let (views, store, stored) = store_image(
        rt,
        alloc,
        &sizes,
        DigestKind::Sha512T256,
        views,
        store,
        &inner,
    );
    let (calls, reads, want) = told;
    same(rt, store.calls(), calls);
    assert!(rt; 0 < views.len());
    same(rt, views[0].reads, reads);
    same(rt, stored.err(), want.err());
}

#[test]
fn an_image_that_changes_is_told_and_not_stored(rt: HostRuntime) {
    let alloc = rt.alloc();
    let changed = MakeFault::Changed {
        entry: 0,
        was: ChunkId::of(DigestKind::Sha512T256, b"abc"),
        got: ChunkId::of(DigestKind::Sha512T256, b"abX"),
    };
    let told = (0, 2, Err(changed));
    stored_twice(&rt, alloc, Then::Other, Then::Other, 1, told);
    stored_twice(&rt, alloc, Then::Other, Then::Other, 3, told);
    let told = (0, 1, Err(MakeFault::ImageFault));
    stored_twice(&rt, alloc, Then::Fault, Then::Fault, 1, told);
    stored_twice(&rt, alloc, Then::Fault, Then::Fault, 3, told);
}

// What others than the first read right isn't read again. What they can't read, or read wrong, is.
#[test]
fn an_image_is_stored_whatever_other_views_read(rt: HostRuntime) {
    let alloc = rt.alloc();
    stored_twice(&rt, alloc, Then::Same, Then::Fault, 3, (2, 2, Ok(())));
    stored_twice(&rt, alloc, Then::Same, Then::Other, 3, (2, 2, Ok(())));
    stored_twice(&rt, alloc, Then::Same, Then::Same, 1, (2, 2, Ok(())));
    stored_twice(&rt, alloc, Then::Same, Then::Same, 3, (2, 1, Ok(())));
}

// What storing the image with this many views gives: the index file, and the store.
fn stored_by<R: Abort + Threads + Sync>(
    rt: &R,
    alloc: Global,
    image: &[u8],
    count: usize,
) -> (Vec<u8>, ScriptedStore)
    requires { 0 < count }
{
    let sizes = sizes_of(rt, 16_384, 65_536, 262_144);
    let views = views_of(rt, alloc, image, count);
    let store = ScriptedStore::new(alloc, Refuses::Nothing);
    let inner = NoFolders::of(alloc, "");
    let (_views, store, stored) = store_image(
        rt,
        alloc,
        &sizes,
        DigestKind::Sha512T256,
        views,
        store,
        &inner,
    );
    (ok(rt, stored), store)
}

// Mixed bytes twice, and zeros: more than a reader reads at a time.
fn repeated(rt: &impl Abort, alloc: Global) -> Vec<u8> {
    let mut image = mixed(rt, alloc, 400_000);
    let again = ok(rt, Vec::from_slice(alloc, &image));
    ok(rt, image.extend_from_slice(&again));
    ok(rt, image.resize(1_400_000, 0));
    image
}

// The store gives the chunk of each entry of the index file.
fn each_is_given(rt: &impl Abort, alloc: Global, file: &[u8], store: &mut ScriptedStore) {
    let index = ok(rt, read_index(alloc, &mut view_of(rt, alloc, file)));
    let mut out = ok(rt, index.room(alloc));
    for entry in 0..index.count() {
        let id = index.id(entry);
        let size = ok(rt, store.get(&id, &mut out));
        same(rt, id.is_of(DigestKind::Sha512T256, &out[..size]), true);
    }
}

#[test]
fn the_same_is_stored_by_any_number_of_views(rt: HostRuntime) {
    let alloc = rt.alloc();
    let image = repeated(&rt, alloc);
    let (bytes, store) = stored_by(&rt, alloc, &image, 1);
    for count in [2, 3, 32] {
        assert!(rt; 0 < count);
        let (others, mut by) = stored_by(&rt, alloc, &image, count);
        same(&rt, others == bytes, true);
        same(&rt, by.calls(), store.calls());
        same(&rt, by.puts(), store.puts());
        each_is_given(&rt, alloc, &bytes, &mut by);
    }
}

// The mismatch of an entry whose slice is `got`.
fn mismatch(entry: u64, got: &[u8]) -> Result<(), ChopFault> {
    let got = ChunkId::of(DigestKind::Sha512T256, got);
    Err(ChopFault::Mismatch { entry, got })
}

// Chops the image by the index, and compares how it ended, and how many chunks were put.
fn chops<R: Abort + Threads + Sync>(
    rt: &R,
    alloc: Global,
    index: &Index,
    image: &[u8],
    store: ScriptedStore,
    want: Result<(), ChopFault>,
    puts: u64,
) -> ScriptedStore {
    let view = view_of(rt, alloc, image);
    let (_, store, chopped) = chop(rt, alloc, index, view, &mut Vec::new(alloc), store);
    same(rt, chopped, want);
    same(rt, store.puts(), puts);
    store
}

// Each chunk is asked for and put.
#[test]
fn an_image_is_chopped_up_to_the_first_refusal(rt: HostRuntime) {
    let alloc = rt.alloc();
    let index = index_of_pieces(&rt, alloc, &[b"abc", b"def"]);
    let store = ScriptedStore::new(alloc, Refuses::Nothing);
    let length = Err(ChopFault::Length { size: 5 });
    let store = chops(&rt, alloc, &index, b"abcde", store, length, 0);
    let wrong = mismatch(0, b"abX");
    let store = chops(&rt, alloc, &index, b"abXdef", store, wrong, 0);
    let wrong = mismatch(1, b"deX");
    let _ = chops(&rt, alloc, &index, b"abcdeX", store, wrong, 1);
    let store = ScriptedStore::new(alloc, Refuses::Nothing);
    let _ = chops(&rt, alloc, &index, b"abcdef", store, Ok(()), 2);
}

#[test]
fn a_store_that_fails_ends_the_chopping(rt: HostRuntime) {
    let alloc = rt.alloc();
    let index = index_of_pieces(&rt, alloc, &[b"abc", b"def"]);
    let fault = Err(ChopFault::StoreFault);
    let store = ScriptedStore::new(alloc, Refuses::Call(0));
    let _ = chops(&rt, alloc, &index, b"abcdef", store, fault, 0);
    let store = ScriptedStore::new(alloc, Refuses::Call(3));
    let _ = chops(&rt, alloc, &index, b"abcdef", store, fault, 1);
}

#[test]
fn an_id_that_is_listed_twice_is_seen_to_twice(rt: HostRuntime) {
    let alloc = rt.alloc();
    let index = index_of_pieces(&rt, alloc, &[b"abc", b"abc"]);
    let store = ScriptedStore::new(alloc, Refuses::Nothing);
    let wrong = mismatch(1, b"abX");
    let store = chops(&rt, alloc, &index, b"abcabX", store, wrong, 1);
    same(&rt, store.calls(), 2);
    let store = chops(&rt, alloc, &index, b"abcabc", store, Ok(()), 1);
    same(&rt, store.calls(), 4);
}
