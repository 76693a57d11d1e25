//! A chunk's file as it was read, and the reply to the request that asks for it. Sizes are in bytes.

ghost use Rattle.std.specs.Prelude.{◌≡◌, ◌≢◌, ℕ, ◌<◌, List, [], length, Err, IfOk, IfSome, OnErr, OnOk, Option};
ghost use Rattle.std.specs.Prelude.{Some};
ghost use Rattle.std.specs.Option.{option_map};
ghost use Rattle.chunk_server.specs.Answers.{chunk_held};
ghost use Rattle.chunk_server.specs.Reads.{ReadsFile, answer_by, asked_by};
ghost use Rattle.chunk_server.specs.Shelves.{IsAnswer, ServedFolder, ServesOrFails, answer_in, shelved};
ghost use Rattle.chunk_store.specs.Gets.{GetGives};
ghost use Rattle.chunk_store.specs.Digests.{digest_of};

use crate::shelf::Reply;
use chunk_store::id::{ChunkId, DigestKind};
use chunk_store::store::GetFault;
use dir_store::store::{DirStore, FIRST_READ};
use dsy_base::fault::{IoFault, Memory};
use dsy_base::folder::Folder;
use http_serve::service::HEAD_ROOM;
use std::alloc::Global;
use std::marker::Model;

/// The methods that ask for a chunk (RFC 9110, sections 9.3.1 and 9.3.2).
#[derive(Clone, Copy, Debug, PartialEq, Eq)]
pub enum ReadMethod {
    Get,
    Head,
}

// The body of a reply: the chunk, with room behind it for the head.
fn body_of(alloc: Global, chunk: &[u8]) -> Result<Vec<u8>, Memory>
    ensures ok { IfOk result (λ v. v.items ≡ chunk.now) }
{
    let Ok(mut body) = Vec::with_capacity(alloc, chunk.len() + HEAD_ROOM) else {
        return Err(Memory);
    };
    match body.extend_from_slice(chunk) {
        Ok(()) => Ok(body),
        Err(_) => Err(Memory),
    }
}

impl ReadMethod {
    // The reply that tells of this chunk.
    fn reply(self, alloc: Global, chunk: &[u8]) -> Result<Reply, Memory>
        ensures ok { IfOk result (λ r. answer_in r ≡ answer_by self (Some chunk.now)) }
    {
        let body = match self {
            ReadMethod::Get => body_of(alloc, chunk)?,
            ReadMethod::Head => Vec::new(alloc),
        };
        Ok(Reply {
            status: 200,
            length: chunk.len() as u64,
            body,
        })
    }
}

/// The file of a chunk, as it was read last. Contracts see it as the bytes of its buffer, and what the reading has
/// answered.
#[derive(Drop)]
pub struct ChunkFile {
    buffer: Vec<u8>,
    outcome: Result<usize, GetFault>,
}

impl Model for ChunkFile {
    ghost use Rattle.std.specs.Prelude.{◌≡◌, ◌≤◌, length, Err, IfOk};
    ghost use Rattle.caibx_fields.specs.Limits.{size_limit};
    ghost use Rattle.chunk_server.specs.FileReads.{FileRead};
    ghost use Rattle.chunk_store.specs.declared.store.GetFault.TheVariants as get;

    ghost Value = { FileRead };

    ghost view = { λ s. record { bytes = s.buffer.items; outcome = s.outcome } };

    ghost invariant = { λ s. (length s.buffer.items ≤ size_limit)
        × IfOk s.outcome (λ n. n ≤ length s.buffer.items)
        × (s.outcome ≡ Err get.Longer → length s.buffer.items ≡ size_limit) };
}

impl ChunkFile {
    /// Nothing was read yet, and nothing was found.
    pub fn new(alloc: Global) -> ChunkFile
        ensures none { result ≡ record { bytes = []; outcome = Err GetFault.Missing } }
    {
        ChunkFile {
            buffer: Vec::new(alloc),
            outcome: Err(GetFault::Missing),
        }
    }

    /// Takes room for most chunks, if there is none yet. Then most files are read by one call. Nothing is read by it.
    pub fn make_room(&mut self) -> Result<(), Memory>
        ensures room { OnOk result (0 < length self.new.bytes) }
        ensures err { OnErr result (self.new.outcome ≡ Err GetFault.Missing) }
        ensures kept { 0 < length self.old.bytes → self.new ≡ self.old }
    {
        if !self.buffer.is_empty() {
            return Ok(());
        }
        self.outcome = Err(GetFault::Missing);
        match self.buffer.resize(FIRST_READ, 0) {
            Ok(()) => Ok(()),
            Err(_) => Err(Memory),
        }
    }

    /// Reads the file of this id. No digest is computed.
    pub fn read<F: Folder>(&mut self, store: &mut DirStore<F>, id: &ChunkId)
        ensures bytes { ReadsFile id.now.0 (shelved F.files F.faults store.old) self.new
            (shelved F.files F.faults store.new) }
        ensures place { F.place store.new ≡ F.place store.old }
    {
        self.outcome = store.read_whole(id, &mut self.buffer);
    }

    // The chunk, if what was read has its digest. Bytes of another digest, or more than 64 MiB, are none.
    fn chunk(&self, kind: DigestKind, id: &ChunkId) -> Result<Option<&[u8]>, IoFault>
        ensures found { IfOk result (λ o. (held : Option (List ℕ)) → GetGives held self.now.outcome self.now.bytes
            → chunk_held kind id.now.0 held ≡ option_map (λ b. b.now) o) }
        ensures named { IfOk result (λ o. IfSome o (λ b. digest_of kind b.now ≡ id.now.0)) }
        ensures only { result ≡ Err IoFault.Failed → self.now.outcome ≡ Err GetFault.Failed }
        ensures unfailed { result ≢ Err IoFault.Failed → self.now.outcome ≢ Err GetFault.Failed }
    {
        match self.outcome {
            Ok(n) => {
                let (chunk, _) = self.buffer.as_slice().split_at(n);
                if id.is_of(kind, chunk) {
                    Ok(Some(chunk))
                } else {
                    Ok(None)
                }
            }
            Err(GetFault::Missing) => Ok(None),
            Err(GetFault::Longer) => Ok(None),
            Err(GetFault::Failed) => Err(IoFault::Failed),
            Err(GetFault::Memory) => Err(IoFault::Memory),
        }
    }

    /// The reply to the request that asks for the file of this id, which was read. Here its digest is computed.
    pub fn reply(
        &self,
        alloc: Global,
        kind: DigestKind,
        method: ReadMethod,
        id: &ChunkId,
    ) -> Result<Reply, Memory>
        ensures only { IfOk result (λ r. IsAnswer kind (asked_by method id.now) (answer_in r)) }
        ensures ok { IfOk result (λ r. (old new : ServedFolder) (body : List ℕ) → ReadsFile id.now.0 old self.now new
            → ServesOrFails kind old (asked_by method id.now) body (answer_in r) new) }
        ensures unfailed { OnErr result (self.now.outcome ≢ Err GetFault.Failed) }
    {
        match self.chunk(kind, id) {
            Ok(Some(chunk)) => method.reply(alloc, chunk),
            Ok(None) => Ok(Reply::bare(alloc, 404)),
            Err(IoFault::Failed) => Ok(Reply::bare(alloc, 500)),
            Err(IoFault::Memory) => Err(Memory),
        }
    }
}
