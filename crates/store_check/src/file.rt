//! The check of one chunk file. Sizes are in bytes.

ghost use Rattle.std.specs.Prelude.{◌≡◌, ◌≤◌, IfOk, IfSome, OnOk, OnErr, length, [], ◌∷◌};
ghost use Rattle.caibx_fields.specs.Limits.{size_limit};
ghost use Rattle.chunk_store.specs.Causes.{CountsCause};
ghost use Rattle.dsy_base.specs.Counts.{CountsFaults};
ghost use Rattle.dsy_base.specs.Texts.{Puts};
ghost use Rattle.store_check.specs.Verifying.{ChecksFile, is_damaged, left_of, line_of_damaged};

use crate::verify::StoreCheck;
use chunk_store::id::{ChunkId, DigestKind};
use chunk_store::store::GetFault;
use dir_store::store::DirStore;
use dsy_base::fault::IoFault;
use dsy_base::folder::Folder;
use dsy_base::look::Look;
use dsy_base::sink::Sink;
use std::alloc::{AllocError, Global};
use verify_tool::list::push_line;

/// Which digest names the chunks, and whether a damaged chunk file is removed.
#[derive(Clone, Copy)]
pub(crate) struct CheckRule {
    pub kind: DigestKind,
    pub repair: bool,
}

/// Whether the chunk file of this id is damaged. The buffer becomes as long as is needed.
pub(crate) fn is_damaged<F: Look>(
    store: &mut DirStore<F>,
    kind: DigestKind,
    id: &ChunkId,
    buf: &mut Vec<u8>,
) -> Result<bool, IoFault>
    requires room { length buf.old.items ≤ size_limit }
    ensures value { IfOk result (λ b. IfSome (F.files store.old) (λ m. b ≡ is_damaged kind m id.now.0)) }
    ensures room { length buf.new.items ≤ size_limit }
    ensures kept { F.files store.new ≡ F.files store.old }
    ensures place { F.place store.new ≡ F.place store.old }
    ensures faults { CountsCause IoFault.Failed (F.faults store.old) (F.faults store.new) result }
{
    match store.read_whole(id, buf) {
        Ok(n) => {
            let (chunk, _) = buf.as_slice().split_at(n);
            Ok(!id.is_of(kind, chunk))
        }
        Err(GetFault::Missing) => Ok(false),
        Err(GetFault::Longer) => Ok(true),
        Err(GetFault::Failed) => Err(IoFault::Failed),
        Err(GetFault::Memory) => Err(IoFault::Memory),
    }
}

// Whether the chunk file of this id is damaged, which may be known.
fn judge_file<F: Look>(
    store: &mut DirStore<F>,
    kind: DigestKind,
    id: &ChunkId,
    known: Option<bool>,
    buf: &mut Vec<u8>,
) -> Result<bool, IoFault>
    requires known { IfSome known (λ b. IfSome (F.files store.old) (λ m. b ≡ is_damaged kind m id.now.0)) }
    requires room { length buf.old.items ≤ size_limit }
    ensures value { IfOk result (λ b. IfSome (F.files store.old) (λ m. b ≡ is_damaged kind m id.now.0)) }
    ensures room { length buf.new.items ≤ size_limit }
    ensures kept { F.files store.new ≡ F.files store.old }
    ensures place { F.place store.new ≡ F.place store.old }
    ensures faults { CountsCause IoFault.Failed (F.faults store.old) (F.faults store.new) result }
{
    match known {
        Some(damaged) => Ok(damaged),
        None => is_damaged(store, kind, id, buf),
    }
}

// Removes the chunk file of this id with `repair`.
fn repair_file<F: Folder>(
    store: &mut DirStore<F>,
    id: &ChunkId,
    repair: bool,
) -> Result<(), IoFault>
    ensures ok { OnOk result (F.files store.new ≡ left_of repair (id.now.0 ∷ []) (F.files store.old)) }
    ensures err { OnErr result (F.files store.new ≡ F.files store.old) }
    ensures place { F.place store.new ≡ F.place store.old }
    ensures faults { CountsFaults IoFault.Failed IoFault.Memory (F.faults store.old) (F.faults store.new) result }
{
    if repair {
        store.remove(id)?;
    }
    Ok(())
}

// The line of a damaged chunk file.
fn line(alloc: Global, id: &ChunkId, repair: bool) -> Result<Vec<u8>, AllocError>
    ensures value { IfOk result (λ v. v.items ≡ line_of_damaged repair id.now.0) }
{
    let mut line = Vec::new(alloc);
    if repair {
        line.extend_from_slice(b"removed ")?;
    } else {
        line.extend_from_slice(b"damaged ")?;
    }
    push_line(&mut line, id)?;
    Ok(line)
}

// Puts the line of a damaged chunk file.
fn tell<S: Sink>(alloc: Global, id: &ChunkId, repair: bool, out: &mut S) -> Result<(), IoFault>
    ensures bytes { Puts (line_of_damaged repair id.now.0) (S.output out.old).taken (S.output out.new).taken result }
    ensures faults { CountsFaults IoFault.Failed IoFault.Memory (S.output out.old).faults (S.output out.new).faults
        result }
{
    match line(alloc, id, repair) {
        Ok(text) => out.put(&text),
        Err(_) => Err(IoFault::Memory),
    }
}

/// Checks the chunk file of this id, unless it is known whether it is damaged, and answers whether it was: then it is
/// told, and with `repair` removed before.
pub(crate) fn check_file<F: Folder, S: Sink>(
    store: &mut DirStore<F>,
    id: &ChunkId,
    known: Option<bool>,
    rule: CheckRule,
    buf: &mut Vec<u8>,
    out: &mut S,
) -> Result<bool, StoreCheck>
    requires known { IfSome known (λ b. IfSome (F.files store.old) (λ m. b ≡ is_damaged rule.kind m id.now.0)) }
    requires room { length buf.old.items ≤ size_limit }
    ensures ends { ChecksFile rule.kind rule.repair id.now.0 (record {
      old = F.files store.old;
      new = F.files store.new;
      before = (S.output out.old).taken;
      taken = (S.output out.new).taken;
    }) result }
    ensures room { length buf.new.items ≤ size_limit }
    ensures place { F.place store.new ≡ F.place store.old }
    ensures store_faults { CountsCause StoreCheck.StoreFault (F.faults store.old) (F.faults store.new) result }
    ensures faults { CountsFaults StoreCheck.OutFault StoreCheck.Memory (S.output out.old).faults
        (S.output out.new).faults result }
{
    let alloc = *buf.allocator();
    match judge_file(store, rule.kind, id, known, buf) {
        Ok(true) => {}
        Ok(false) => return Ok(false),
        Err(IoFault::Failed) => return Err(StoreCheck::StoreFault),
        Err(IoFault::Memory) => return Err(StoreCheck::Memory),
    }
    match repair_file(store, id, rule.repair) {
        Ok(()) => {}
        Err(IoFault::Failed) => return Err(StoreCheck::StoreFault),
        Err(IoFault::Memory) => return Err(StoreCheck::Memory),
    }
    match tell(alloc, id, rule.repair, out) {
        Ok(()) => Ok(true),
        Err(IoFault::Failed) => Err(StoreCheck::OutFault),
        Err(IoFault::Memory) => Err(StoreCheck::Memory),
    }
}
