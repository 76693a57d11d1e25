//! What commands know of a store: one type for all of them. Stores are opened in order and given back.

use chunk_store::id::ChunkId;
use chunk_store::store::{GetFault, Store, StoreWrite};
use dir_store::store::DirStore;
use dsy_base::dial::Dial;
use dsy_base::fault::IoFault;
use dsy_base::folder::Folder;
use dsy_base::look::Look;
use http_read::store::HttpStore;

/// A store that words name.
#[derive(Drop)]
pub enum AnyStore<L: Look, D: Dial> {
    /// The chunk files of a folder.
    Folder(DirStore<L>),
    /// A server of chunks.
    Http(HttpStore<D>),
}

impl<L: Look, D: Dial> Store for AnyStore<L, D> {
    ghost use Rattle.std.specs.Prelude.{false, true};
    ghost use Rattle.std.proofs.Common.{rules};
    ghost use Rattle.chunk_store.specs.Said.{answers_alone, just_one, vouched_alone};
    ghost use Rattle.command_steps.specs.AnyStores.{chunks_in, source_files, place_in, source_faults, said_in};
    ghost use Rattle.command_steps.specs.AnyStores.{asked_in, lies_any, says_any, source_sent, steady_any};
    ghost use Rattle.command_steps.specs.AnyStores.{unasked_any};
    ghost use Rattle.http_wire.specs.declared.reply.Method.TheVariants as methods;

    ghost holds = { chunks_in L.files };

    ghost members = { λ s. just_one (chunks_in L.files s) };

    ghost folder = { source_files L.files };

    ghost said = { said_in L.files D.state };

    ghost sent = { source_sent D.state };

    ghost asked = { asked_in methods.Get D.state };

    ghost queried = { asked_in methods.Head D.state };

    ghost faults = { source_faults L.faults D.state };

    ghost place = { place_in L.place };

    ghost tells = { false };

    ghost never_fails = { false };

    ghost told_never_fail = { L.never_fails };

    ghost may_lack_memory = { true };

    fn get(&mut self, id: &ChunkId, out: &mut [u8]) -> Result<usize, GetFault> {
        match self {
            AnyStore::Folder(store) => store.get(id, out),
            AnyStore::Http(store) => store.get(id, out),
        }
    }

    fn giver(&self) -> usize {
        0
    }

    fn has(&mut self, id: &ChunkId) -> Result<bool, IoFault> {
        match self {
            AnyStore::Folder(store) => store.has(id),
            AnyStore::Http(store) => store.has(id),
        }
    }

    ghost alone = { λ s. answers_alone (chunks_in L.files s) };

    ghost vouched = { λ s. vouched_alone (chunks_in L.files s) _ (says_any L.files D.state s) };

    ghost says = { says_any L.files D.state };

    ghost lies = { lies_any L.files };

    ghost unasked = { unasked_any L.files methods.Get methods.Head D.state };

    ghost told = { Prim.search rules };

    ghost sure = { Prim.search rules };

    ghost steady = { steady_any L.files L.faults D.state L.never_fails L.sure };
}

impl<F: Folder, D: Dial> StoreWrite for AnyStore<F, D> {
    fn put(&mut self, id: &ChunkId, b: &[u8]) -> Result<(), IoFault> {
        match self {
            AnyStore::Folder(store) => store.put(id, b),
            AnyStore::Http(store) => store.put(id, b),
        }
    }
}
