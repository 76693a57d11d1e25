//! What stands behind a shelf's lock: a folder of chunks that has kept what its type names.

ghost use Rattle.std.specs.Prelude.{◌≡◌, ◌≢◌, ◌≤◌, length, Err, IfOk, IfSome, OnErr, Some};
ghost use Rattle.chunk_server.specs.Shelves.{IsAnswer, answer_in};
ghost use Rattle.chunk_store.specs.Kinds.{kind_named};
ghost use Rattle.chunk_store.specs.Digests.{digest_of};
ghost use Rattle.caibx_fields.specs.Limits.{size_limit};
ghost use Rattle.http_wire.specs.declared.request.Act.TheVariants as act;
ghost use Rattle.locked_shelf.specs.Keepings.{KeepsOpening};
ghost use Rattle.locked_shelf.specs.Replies.{MayReply, ReadsKept};

use chunk_server::chunk_file::ChunkFile;
use chunk_server::shelf::Reply;
use chunk_server::state::ShelfState;
use chunk_store::id::ChunkId;
use chunk_store::laws::id_has_32_bytes;
use chunk_store::store::GetFault;
use dir_store::laws::{
    chunk_is_no_temporary, chunk_names, put_changes_one_chunk, put_leaves_a_temporary,
};
use dsy_base::fault::Memory;
use dsy_base::folder::Folder;
use std::marker::Model;

/// A folder of chunks of the kind that its type names, which began with the files that this type names. Only right
/// chunks were put into it.
#[derive(Drop)]
pub struct Kept<F: Folder> {
    state: ShelfState<F>,
}

impl<F: Folder> Model for Kept<F> {
    ghost use Rattle.std.specs.Prelude.{◌≡◌, IfSome};
    ghost use Rattle.chunk_server.specs.States.{Standing};
    ghost use Rattle.chunk_store.specs.Kinds.{kind_named};
    ghost use Rattle.locked_shelf.specs.Keepings.{KeepsOpening};

    ghost Value = { Standing F };

    ghost view = { λ s. s.state };

    ghost invariant = { λ s. (s.state.kind ≡ kind_named F.kind)
        × IfSome F.opening (λ first. KeepsOpening (kind_named F.kind) first (F.files s.state.folder)) };
}

impl<F: Folder> Kept<F> {
    pub fn new(state: ShelfState<F>) -> Kept<F>
        requires kind { state.kind ≡ kind_named F.kind }
        requires opening { IfSome F.opening (λ first. F.files state.folder ≡ Some first) }
        ensures { result ≡ state }
    {
        Kept { state }
    }

    pub fn into_inner(self) -> ShelfState<F>
        ensures same { result ≡ self }
        ensures kind { result.kind ≡ kind_named F.kind }
        ensures kept { IfSome F.opening (λ first. KeepsOpening (kind_named F.kind) first (F.files result.folder)) }
    {
        self.state
    }

    /// Reads the file of this id. No digest is computed, since others wait for the lock meanwhile.
    pub fn read(&mut self, id: &ChunkId, file: &mut ChunkFile)
        ensures bytes { IfSome F.opening (λ first.
            ReadsKept (kind_named F.kind) first F.never_fails id.now.0 file.new) }
        ensures unfailed { file.new.outcome ≢ Err GetFault.Failed
            → F.faults self.new.folder ≡ F.faults self.old.folder }
    {
        self.state.read(id, file);
    }

    /// Puts a body under its digest.
    pub fn put(&mut self, id: &ChunkId, body: &[u8]) -> Result<Reply, Memory>
        requires named { digest_of (kind_named F.kind) body.now ≡ id.now.0 }
        requires size { length body.now ≤ size_limit }
        ensures only { IfOk result (λ r. IsAnswer (kind_named F.kind) (act.Put id.now) (answer_in r)) }
        ensures may { IfOk result (λ r. MayReply (kind_named F.kind) F.opening F.never_fails (act.Put id.now) body.now
            (answer_in r)) }
        ensures unfailed { OnErr result (F.faults self.new.folder ≡ F.faults self.old.folder) }
    {
        id_has_32_bytes(id);
        chunk_names();
        chunk_is_no_temporary();
        put_leaves_a_temporary();
        put_changes_one_chunk();
        self.state.put(id, body)
    }
}
