//! `verify -s STORE -r -n WORKERS`: which chunk files of STORE are damaged. With `-r` they are removed.

ghost use Rattle.std.specs.Prelude.{◌≡◌, [], All, Err, IfErr, IfOk, IfSome, IsSome, Ok, OnOk, Some};
ghost use Rattle.command_steps.specs.Stores.{StoreTaken};
ghost use Rattle.command_worlds.specs.Worlds.{world};
ghost use Rattle.dsy_base.specs.Links.{DialState};
ghost use Rattle.store_commands.specs.Verify.{StoreVerified, VerifyEnds, answer_of_left, answer_of_verify};

use crate::looks::{end_looks, open_looks};
use chunk_store::id::DigestKind;
use command_outcome::outcome::Outcome;
use command_steps::taken_stores::{give_folder, take_folder};
use dir_store::store::DirStore;
use dsy_base::files::Files;
use dsy_base::folder::Folder;
use dsy_base::image_files::ImageFiles;
use dsy_base::look::Look;
use dsy_base::name::Name;
use dsy_base::sink::Sink;
use std::alloc::Global;
use std::thread::Threads;
use store_check::verify::{StoreCheck, verify_store_as};

/// How a store is verified: which digest names its chunks, whether damaged chunk files are removed, and by how many
/// workers.
#[derive(Clone, Copy, Debug, PartialEq, Eq)]
pub struct Verification {
    pub kind: DigestKind,
    pub repair: bool,
    pub workers: u32,
}

// The answer where this many damaged chunk files are left.
fn none_left(count: u64) -> Result<(), Outcome>
    ensures value { result ≡ answer_of_left count }
{
    if count == 0 {
        Ok(())
    } else {
        Err(Outcome::DamagedLeft { count })
    }
}

// The outcome of the check.
fn outcome_of(verified: Result<u64, StoreCheck>) -> Result<(), Outcome>
    ensures value { result ≡ answer_of_verify verified }
{
    match verified {
        Ok(count) => none_left(count),
        Err(StoreCheck::StoreFault) => Err(Outcome::StoreFault { store: 0 }),
        Err(StoreCheck::OutFault) => Err(Outcome::OutFault),
        Err(StoreCheck::Memory) => Err(Outcome::Memory),
    }
}

/// A store whose folder was taken, and looks at it of further workers.
#[derive(Drop)]
pub(crate) struct TakenStore<F: Folder, L: Look> {
    pub store: DirStore<F>,
    pub looks: Vec<DirStore<L>>,
}

// Takes the folder of STORE, for this many workers.
fn take_store<F: ImageFiles>(
    alloc: Global,
    files: &mut F,
    store: &Name,
    workers: u32,
) -> Result<TakenStore<F::Folder, F::Look>, Outcome>
    ensures ok { IfOk result (λ t. StoreTaken [] store.now (F.disk files.old)
        (Ok (F.Folder.files t.store)) (F.disk files.new)) }
    ensures err { IfErr result (λ o. StoreTaken [] store.now (F.disk files.old) (Err o) (F.disk files.new)) }
    ensures folder { OnOk result (IsSome ((F.disk files.new).folder_counts store.now)) }
    ensures named { IfOk result (λ t. F.Folder.place t.store ≡ store.now) }
    ensures fresh { IfOk result (λ t. F.Folder.faults t.store ≡ 0) }
    ensures places { IfOk result (λ t. All (λ l. F.Look.place l ≡ store.now) t.looks.items) }
    ensures alike { IfOk result (λ t. All (λ l. IfSome (F.Folder.files t.store) (λ m. F.Look.files l ≡ Some m))
        t.looks.items) }
{
    let looks = open_looks(alloc, files, store.as_str(), workers);
    match take_folder(alloc, files, store.as_str()) {
        Ok(store) => Ok(TakenStore { store, looks }),
        Err(refused) => {
            end_looks(files, looks);
            Err(refused)
        }
    }
}

// Verifies the store that was taken. The folder and the looks are given back, whatever the answer is.
fn verify_taken<R: Threads + Sync, F: Files, O: Sink>(
    rt: &R,
    alloc: Global,
    files: &mut F,
    out: &mut O,
    store: &Name,
    taken: TakenStore<F::Folder, F::Look>,
    how: Verification,
) -> Result<(), Outcome>
where
    F::Look: Send,
    requires folder { IsSome ((F.disk files.old).folder_counts store.now) }
    requires named { F.Folder.place taken.store ≡ store.now }
    requires fresh { F.Folder.faults taken.store ≡ 0 }
    requires places { All (λ l. F.Look.place l ≡ store.now) taken.looks.items }
    requires alike { All (λ l. IfSome (F.Folder.files taken.store) (λ m. F.Look.files l ≡ Some m)) taken.looks.items }
    ensures { (k : DialState) → StoreVerified how.kind store.now how.repair (F.Folder.files taken.store)
        (world (F.disk files.old) k (O.output out.old)) result (world (F.disk files.new) k (O.output out.new)) }
{
    let TakenStore {
        store: mut folder,
        mut looks,
    } = taken;
    let verified = verify_store_as(
        rt,
        alloc,
        &mut folder,
        how.kind,
        &mut looks,
        how.repair,
        out,
    );
    end_looks(files, looks);
    give_folder(files, store.as_str(), folder);
    outcome_of(verified)
}

/// Prints a line for each chunk file of STORE that is damaged, in the order of the ids, and removes it before with
/// `repair`.
pub fn verify<R: Threads + Sync, F: ImageFiles, O: Sink>(
    rt: &R,
    alloc: Global,
    files: &mut F,
    out: &mut O,
    store: Name,
    how: Verification,
) -> Result<(), Outcome>
where
    F::Look: Send,
    ensures ends { (k : DialState) → VerifyEnds how.kind store how.repair
        (world (F.disk files.old) k (O.output out.old)) result (world (F.disk files.new) k (O.output out.new)) }
{
    let taken = take_store(alloc, files, &store, how.workers)?;
    verify_taken(rt, alloc, files, out, &store, taken, how)?;
    Ok(())
}
