//! The check of a store's chunk files, one after another. Chunk files are items, numbered from 0 in the order of their
//! ids.

ghost use Rattle.std.specs.Prelude.{◌≡◌, ◌+◌, ◌<◌, ◌≤◌, ℕ, All, IfSome, OnOk, [], cond, length};
ghost use Rattle.dir_store.specs.Lists.{IsIdsOf};
ghost use Rattle.store_check.specs.Verdicts.{AreVerdicts};
ghost use Rattle.store_check.specs.VerifyProgress.{IsVerifying, VerifiesOn};

use crate::file::{CheckRule, check_file};
use crate::verdicts::{Verdicts, verdict_among};
use crate::verify::StoreCheck;
use chunk_store::id::ChunkId;
use chunk_store::laws::{id_has_32_bytes, path_names_one_id};
use dir_store::store::DirStore;
use dsy_base::folder::Folder;
use dsy_base::sink::Sink;
use read_ahead::consumer::Consumer;
use std::alloc::{AllocError, Global};
use std::snapshot::Snapshot;

/// How many files of a round there are for each thread.
const FILES: usize = 64;

/// How many bytes are left free for the lines of damaged files.
const SPARE: usize = 262_144;

/// The store, the sink, and how far the check has come: of the files before item `at`, `found` were damaged. `first`
/// and `before` are store and sink as they were.
#[derive(Drop)]
pub(crate) struct Verifying<'a, F: Folder, S: Sink> {
    pub store: &'a mut DirStore<F>,
    pub out: &'a mut S,
    pub ids: &'a [ChunkId],
    pub rule: CheckRule,
    pub buf: &'a mut Vec<u8>,
    pub at: usize,
    pub found: u64,
    pub first: Snapshot<DirStore<F>>,
    pub before: Snapshot<S>,
}

// 1 where the file was damaged.
fn one_if(damaged: bool) -> u64
    ensures value { result ≡ cond damaged 1 0 }
{
    if damaged { 1 } else { 0 }
}

impl<'a, F: Folder, S: Sink> Verifying<'a, F, S> {
    /// No file was looked at yet.
    pub(crate) fn new(
        store: &'a mut DirStore<F>,
        out: &'a mut S,
        ids: &'a [ChunkId],
        rule: CheckRule,
        buf: &'a mut Vec<u8>,
    ) -> Verifying<'a, F, S>
        requires listed { IfSome (F.files store.old) (λ m. IsIdsOf m ids.now) }
        requires empty { buf.old.items ≡ [] }
        ensures verifying { IsVerifying F.Look S.Sink result }
        ensures same { result.store.ghost_name ≡ store.entry.ghost_name }
        ensures first { (result.first.value ≡ store.old) × (result.store.now ≡ store.old) }
        ensures out { result.out.ghost_name ≡ out.entry.ghost_name }
        ensures before { (result.before.value ≡ out.old) × (result.out.now ≡ out.old) }
        ensures listed { result.ids.now ≡ ids.now }
        ensures repair { result.rule ≡ rule }
    {
        let first = Snapshot::of(&*store);
        let before = Snapshot::of(&*out);
        Verifying {
            store,
            out,
            ids,
            rule,
            buf,
            at: 0,
            found: 0,
            first,
            before,
        }
    }

    // Looks at the next file, unless a reader has.
    fn check_next(&mut self, ready: &[Verdicts]) -> Result<(), StoreCheck>
        requires more { self.old.at < length self.old.ids.now }
        requires verifying { IsVerifying F.Look S.Sink self.old }
        requires ready { All (AreVerdicts self.old.rule.kind (F.files self.old.first.value) self.old.ids.now)
            ready.now }
        ensures on { VerifiesOn F.Look S.Sink self.old self.new result }
        ensures next { OnOk result (self.new.at ≡ self.old.at + 1) }
    {
        path_names_one_id();
        let known = verdict_among(ready, self.at);
        let ids = self.ids;
        let id = &ids[self.at];
        id_has_32_bytes(id);
        let store = &mut *self.store;
        let buf = &mut *self.buf;
        let out = &mut *self.out;
        let damaged = check_file(store, id, known, self.rule, buf, out)?;
        self.found += one_if(damaged);
        self.at += 1;
        Ok(())
    }

    /// Ends the check, and answers how many damaged files are left.
    pub(crate) fn end(self) -> u64
        ensures left { result ≡ cond self.entry.rule.repair 0 self.entry.found }
        ensures kept { (self.exit.0.now ≡ self.entry.store.now) × (self.exit.1.0.now ≡ self.entry.out.now) }
    {
        let Verifying { rule, found, .. } = self;
        if rule.repair { 0 } else { found }
    }
}

impl<'a, F: Folder, S: Sink> Consumer<Verdicts> for Verifying<'a, F, S> {
    ghost use Rattle.std.specs.Prelude.{length};
    ghost use Rattle.store_check.specs.Verdicts.{AreVerdicts};
    ghost use Rattle.store_check.specs.VerifyProgress.{IsVerifying, VerifiesOn};

    type Fault = StoreCheck;

    ghost count = { λ s. length s.ids.now };

    ghost taken = { λ s. s.at };

    ghost can_go_on = { λ s. IsVerifying F.Look S.Sink s };

    ghost accepts = { λ s room. AreVerdicts s.rule.kind (F.files s.first.value) s.ids.now room };

    ghost goes = { λ a b r. VerifiesOn F.Look S.Sink a b r };

    fn count(&self) -> usize {
        self.ids.len()
    }

    fn at(&self) -> usize {
        self.at
    }

    fn spare(&self) -> usize {
        SPARE
    }

    fn room(&self, alloc: Global) -> Result<Verdicts, AllocError> {
        Verdicts::new(alloc)
    }

    fn round_end(&self, from: usize, readers: usize) -> usize {
        let files = readers.saturating_add(1).saturating_mul(FILES);
        from.saturating_add(files).min(self.ids.len())
    }

    fn take_next(&mut self, ready: &[Verdicts]) -> Result<(), StoreCheck> {
        self.check_next(ready)
    }
}
