//! Checking a folder store: each chunk file is read, and its digest held against its id. Sizes are in bytes.

ghost use Rattle.std.specs.Prelude.{◌≡◌, ◌≤◌, All, IfOk, IfSome, OnErr, Some, [], length};
ghost use Rattle.std.specs.List.{AllZip};
ghost use Rattle.caibx_fields.specs.Limits.{size_limit};
ghost use Rattle.chunk_store.specs.Causes.{CountsCause};
ghost use Rattle.chunk_store.specs.declared.id.DigestKind.TheVariants as kinds;
ghost use Rattle.dir_store.specs.Lists.{IsIdsOf};
ghost use Rattle.dsy_base.specs.Counts.{CountsFaults};
ghost use Rattle.store_check.specs.Reading.{KeepsLook};
ghost use Rattle.store_check.specs.Verifying.{IsStoreChecked, StopsVerifying};
ghost use Rattle.store_check.specs.VerifyProgress.{StoreCheckEnds};

use crate::file::CheckRule;
use crate::hiring::{dismiss, hire};
use crate::reader::FileReader;
use crate::verifying::Verifying;
use caibx_fields::format::SIZE_LIMIT;
use chunk_store::id::{ChunkId, DigestKind};
use chunk_store::laws::path_names_one_id;
use dir_store::store::DirStore;
use dsy_base::fault::IoFault;
use dsy_base::folder::Folder;
use dsy_base::look::Look;
use dsy_base::sink::Sink;
use read_ahead::rounds::take_all;
use std::alloc::{AllocError, Global};
use std::thread::Threads;

/// Why a folder store wasn't checked to its end.
#[derive(Clone, Copy, Debug, PartialEq, Eq)]
pub enum StoreCheck {
    /// A call on the folder failed.
    StoreFault,
    /// A line couldn't be put.
    OutFault,
    Memory,
}

// Checks the chunk files of these ids in order, up to the first fault, while the readers read ahead.
fn check_files<R: Threads + Sync, F: Folder, L: Look + Send, S: Sink>(
    rt: &R,
    store: &mut DirStore<F>,
    readers: &mut [FileReader<L>],
    ids: &[ChunkId],
    rule: CheckRule,
    buf: &mut Vec<u8>,
    out: &mut S,
) -> Result<u64, StoreCheck>
    requires listed { IfSome (F.files store.old) (λ m. IsIdsOf m ids.now) }
    requires alike { All (λ r. IfSome (F.files store.old) (λ m. L.files r.store ≡ Some m)) readers.old }
    requires kind { All (λ r. r.kind ≡ rule.kind) readers.old }
    requires same { All (λ r. r.ids.now ≡ ids.now) readers.old }
    requires room { All (λ r. length r.buf.items ≤ size_limit) readers.old }
    requires empty { buf.old.items ≡ [] }
    ensures ends { StoreCheckEnds F.Look S.Sink rule store.old store.new out.old out.new result }
    ensures others { AllZip (λ r s. KeepsLook L.Look r.store s.store) readers.old readers.new }
{
    path_names_one_id();
    let alloc = *buf.allocator();
    let mut verifying = Verifying::new(store, out, ids, rule, buf);
    let checked = take_all(rt, alloc, &mut verifying, readers);
    let left = verifying.end();
    match checked {
        Ok(()) => Ok(left),
        Err(fault) => Err(fault),
    }
}

// A buffer. Where there are readers it has room for the longest file, so that their own buffers leave enough for it.
fn buffer(alloc: Global, readers: usize) -> Result<Vec<u8>, AllocError>
    ensures empty { IfOk result (λ v. v.items ≡ []) }
{
    if readers == 0 {
        return Ok(Vec::new(alloc));
    }
    Vec::with_capacity(alloc, SIZE_LIMIT as usize)
}

// Checks the chunk files of these ids in order, up to the first fault, while readers of the other looks read ahead.
fn check_beside<'a, R: Threads + Sync, F: Folder, L: Look + Send, S: Sink>(
    rt: &R,
    store: &mut DirStore<F>,
    others: &mut Vec<DirStore<L>>,
    ids: &'a [ChunkId],
    rule: CheckRule,
    buf: &mut Vec<u8>,
    out: &mut S,
) -> Result<u64, StoreCheck>
    requires listed { IfSome (F.files store.old) (λ m. IsIdsOf m ids.now) }
    requires empty { buf.old.items ≡ [] }
    requires alike { All (λ o. IfSome (F.files store.old) (λ m. L.files o ≡ Some m)) others.old.items }
    ensures ends { StoreCheckEnds F.Look S.Sink rule store.old store.new out.old out.new result }
    ensures others { AllZip (KeepsLook L.Look) others.old.items others.new.items }
{
    let alloc = *buf.allocator();
    let mut readers: Vec<FileReader<'a, L>> = match Vec::with_capacity(alloc, others.len()) {
        Ok(readers) => readers,
        Err(_) => Vec::new(alloc),
    };
    if readers.capacity() < others.len() {
        return check_files(rt, store, &mut readers, ids, rule, buf, out);
    }
    hire(others, rule.kind, ids, &mut readers);
    let checked = check_files(rt, store, &mut readers, ids, rule, buf, out);
    dismiss(&mut readers, others);
    checked
}

/// Reads each chunk file, in the order of the ids' bytes, and puts a line for each that is damaged: its digest of this
/// kind isn't its id, or it has more than 64 MiB. With `repair` it is removed first. Answers how many damaged files are
/// left. The folder is listed once, and a file is read once where it fits the buffer, which grows up to 64 MiB. The
/// other looks at the folder read files ahead, each in a thread of its own where there is memory for its room.
pub fn verify_store_as<R: Threads + Sync, F: Folder, L: Look + Send, S: Sink>(
    rt: &R,
    alloc: Global,
    store: &mut DirStore<F>,
    kind: DigestKind,
    others: &mut Vec<DirStore<L>>,
    repair: bool,
    out: &mut S,
) -> Result<u64, StoreCheck>
    requires alike { All (λ o. IfSome (F.files store.old) (λ m. L.files o ≡ Some m)) others.old.items }
    ensures ok { IfOk result (λ n. IsStoreChecked kind repair n (record {
      old = F.files store.old;
      new = F.files store.new;
      before = (S.output out.old).taken;
      taken = (S.output out.new).taken;
    })) }
    ensures err { OnErr result (StopsVerifying kind repair (record {
      old = F.files store.old;
      new = F.files store.new;
      before = (S.output out.old).taken;
      taken = (S.output out.new).taken;
    })) }
    ensures place { F.place store.new ≡ F.place store.old }
    ensures store_faults { CountsCause StoreCheck.StoreFault (F.faults store.old) (F.faults store.new) result }
    ensures faults { CountsFaults StoreCheck.OutFault StoreCheck.Memory (S.output out.old).faults
        (S.output out.new).faults result }

    // The other looks.
    ensures others { AllZip (KeepsLook L.Look) others.old.items others.new.items }
{
    let ids = match store.ids() {
        Ok(ids) => ids,
        Err(IoFault::Failed) => return Err(StoreCheck::StoreFault),
        Err(IoFault::Memory) => return Err(StoreCheck::Memory),
    };
    let rule = CheckRule { kind, repair };
    match buffer(alloc, others.len()) {
        Ok(mut buf) => check_beside(rt, store, others, &ids, rule, &mut buf, out),
        Err(_) => {
            let mut none: Vec<DirStore<L>> = Vec::new(alloc);
            let mut buf = Vec::new(alloc);
            check_beside(rt, store, &mut none, &ids, rule, &mut buf, out)
        }
    }
}

/// Checks each chunk file as `verify_store_as` does. Chunks are named by SHA-512/256.
pub fn verify_store<R: Threads + Sync, F: Folder, L: Look + Send, S: Sink>(
    rt: &R,
    alloc: Global,
    store: &mut DirStore<F>,
    others: &mut Vec<DirStore<L>>,
    repair: bool,
    out: &mut S,
) -> Result<u64, StoreCheck>
    requires alike { All (λ o. IfSome (F.files store.old) (λ m. L.files o ≡ Some m)) others.old.items }
    ensures ok { IfOk result (λ n. IsStoreChecked kinds.Sha512T256 repair n (record {
      old = F.files store.old;
      new = F.files store.new;
      before = (S.output out.old).taken;
      taken = (S.output out.new).taken;
    })) }
    ensures err { OnErr result (StopsVerifying kinds.Sha512T256 repair (record {
      old = F.files store.old;
      new = F.files store.new;
      before = (S.output out.old).taken;
      taken = (S.output out.new).taken;
    })) }
    ensures place { F.place store.new ≡ F.place store.old }
    ensures store_faults { CountsCause StoreCheck.StoreFault (F.faults store.old) (F.faults store.new) result }
    ensures faults { CountsFaults StoreCheck.OutFault StoreCheck.Memory (S.output out.old).faults
        (S.output out.new).faults result }

    // The other looks.
    ensures others { AllZip (KeepsLook L.Look) others.old.items others.new.items }
{
    verify_store_as(
        rt,
        alloc,
        store,
        DigestKind::Sha512T256,
        others,
        repair,
        out,
    )
}
