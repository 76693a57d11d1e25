//! Two workers that fill a target in shards behind locks. Entries are chunks of two bytes.

ghost use Rattle.std.specs.Prelude.{◌≡◌, ◌<◌, ◌≤◌, ℕ, IsTrue, length, true, vec_len};
ghost use Rattle.caibx_codec.specs.Listing.{count_of};
ghost use Rattle.owned_shards.specs.Wholes.{IsRunOver};
ghost use Rattle.range_survey.specs.Fates.{FirstFates, SettledRight};

use caibx_codec::index::Index;
use dsy_base::fault::Failed;
use dsy_base::view::{Part, Target, View};
use extract_plan::plan::Plan;
use locked_shards::locked::{Locked, fates_of};
use owned_shards::lock::ShardLock;
use owned_shards::shards::Shards;
use owned_shards::survey::survey_shards;
use range_ledger::ledger::Ledger;
use range_ledger::run::RunName;
use range_survey::fate::Fate;
use std::alloc::Global;
use std::process::Abort;
use std::sync::Wait;
use std::thread::{Threads, join};

/// What a worker has done: how many chunks it put, found settled, failed to write, and read back.
#[derive(Clone, Copy, Debug, PartialEq, Eq)]
pub struct Done {
    pub put: usize,
    pub settled: usize,
    pub failed: usize,
    pub read: usize,
}

// Puts a chunk into its entry, and reads it back.
fn fill_one<L: Ledger>(
    rt: &impl Abort,
    index: &Index,
    ledger: &mut L,
    entry: usize,
    chunk: &[u8],
    done: Done,
) -> Done
    requires dealt { index.now ≡ L.run.listing }
    requires may { (e : ℕ) → L.run.may e ≡ true }
{
    assert!(rt; entry < index.count());
    let listed = index.entry(entry);
    let named = listed.id.is_of(index.kind(), chunk);
    assert!(rt; named && listed.size == chunk.len() && listed.size == 2);
    let mut done = done;
    match ledger.put(entry, chunk, Fate::Fetched) {
        Ok(true) => done.put = done.put.saturating_add(1),
        Ok(false) => done.settled = done.settled.saturating_add(1),
        Err(Failed) => done.failed = done.failed.saturating_add(1),
    }
    let mut out = [0u8; 2];
    if ledger.read(entry, &mut out) {
        assert!(rt; out.as_slice() == chunk);
        done.read = done.read.saturating_add(1);
    }
    done
}

// Fills each second entry, the first or the second of each two.
fn fill_half<L: Ledger>(
    rt: &impl Abort,
    index: &Index,
    ledger: L,
    half: usize,
    pieces: &[&[u8]],
) -> Done
    requires dealt { index.now ≡ L.run.listing }
    requires may { (e : ℕ) → L.run.may e ≡ true }
{
    let mut ledger = ledger;
    let mut done = Done {
        put: 0,
        settled: 0,
        failed: 0,
        read: 0,
    };
    for (entry, chunk) in pieces.iter().enumerate() {
        if entry % 2 == half {
            done = fill_one(rt, index, &mut ledger, entry, chunk, done);
        }
    }
    done
}

// Two workers fill a half each. The lists have what they know of each entry.
fn fill_halves<'i, H: Abort + Threads + Wait + Sync, P: Part + Send, R: RunName + Send + Sync>(
    rt: &H,
    index: &'i Index,
    locks: &[ShardLock<'i, P, R>],
    known: (Vec<Fate>, Vec<Fate>),
    pieces: &[&[u8]],
) -> (Done, Done)
    requires dealt { index.now ≡ R.run.listing }
    requires tells { P.tells ≡ R.run.tells }
    requires count { length locks.now ≡ R.run.shards }
    requires few { R.run.shards ≤ count_of R.run.listing }
    requires some { 0 < count_of R.run.listing → 0 < R.run.shards }
    requires may { (e : ℕ) → R.run.may e ≡ true }
    requires size { length known.0.items ≡ count_of R.run.listing }
    requires first { FirstFates known.0.items (count_of R.run.listing) }
    requires right { IsTrue R.run.tells →
        SettledRight R.run.listing R.run.base known.0.items (count_of R.run.listing) }
    requires same { known.1.items ≡ known.0.items }
{
    let first = Locked::new(rt, index, locks, known.0);
    let second = Locked::new(rt, index, locks, known.1);
    join(
        rt,
        move || fill_half(rt, index, first, 0, pieces),
        move || fill_half(rt, index, second, 1, pieces),
    )
}

/// The target after two workers have filled it by a plan, and what each has done.
pub fn filled<H: Abort + Threads + Wait + Sync, R: RunName + Send + Sync, T: Target>(
    rt: &H,
    alloc: Global,
    index: &Index,
    plan: &Plan,
    target: T,
    pieces: &[&[u8]],
) -> (T, Done, Done)
where
    T::Piece: Send,
    requires over { IsRunOver R.run index.now plan.now T.tells (T.held target) }
    requires may { (e : ℕ) → R.run.may e ≡ true }
{
    let mut buffers = [index.room(alloc).expect(rt, "memory")];
    let surveyed = survey_shards::<H, R, T>(rt, alloc, index, plan, target, &mut buffers);
    let Ok(shards) = surveyed else {
        panic!(rt; "the survey was refused");
    };
    shards.rules();
    let count = index.count();
    let first = Vec::with_capacity(alloc, count).expect(rt, "memory");
    let first = fates_of(&shards, count, first);
    let second = Vec::with_capacity(alloc, count).expect(rt, "memory");
    let second = fates_of(&shards, count, second);
    let room = Vec::with_capacity(alloc, plan.shards()).expect(rt, "memory");
    let (frame, locks) = shards.lock(room);
    let done = fill_halves(rt, index, &locks, (first, second), pieces);
    let whole = frame.unlock(rt, locks);
    (whole.into_target(), done.0, done.1)
}
