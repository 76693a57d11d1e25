//! Looks at a folder that become readers, and come back.

ghost use Rattle.std.specs.Prelude.{◌≡◌, ◌≤◌, ◌++◌, [], map, All, length};
ghost use Rattle.std.specs.Prelude.{vec_capacity, vec_len};

use crate::reader::FileReader;
use chunk_store::id::{ChunkId, DigestKind};
use dir_store::store::DirStore;
use dsy_base::look::Look;

/// Makes a reader of each look, which names chunks by this digest.
pub(crate) fn hire<'a, L: Look>(
    looks: &mut Vec<DirStore<L>>,
    kind: DigestKind,
    ids: &'a [ChunkId],
    readers: &mut Vec<FileReader<'a, L>>,
)
    requires none { readers.old.items ≡ [] }
    requires room { vec_len looks.old ≤ vec_capacity readers.old }
    ensures kept { looks.old.items ≡ map (λ r. r.store) readers.new.items }
    ensures kind { All (λ r. r.kind ≡ kind) readers.new.items }
    ensures listed { All (λ r. r.ids.now ≡ ids.now) readers.new.items }
    ensures empty { All (λ r. r.buf.items ≡ []) readers.new.items }
    ensures none { looks.new.items ≡ [] }
    ensures room { vec_len readers.new ≤ vec_capacity looks.new }
{
    let alloc = *readers.allocator();
    looks.reverse();
    while let Some(store) = looks.pop() {
        let Ok(()) = readers.push(FileReader::new(alloc, store, kind, ids)) else {
            unreachable!();
        };
    }
}

/// Takes the looks back, in their order.
pub(crate) fn dismiss<L: Look>(readers: &mut Vec<FileReader<L>>, looks: &mut Vec<DirStore<L>>)
    requires none { looks.old.items ≡ [] }
    requires room { vec_len readers.old ≤ vec_capacity looks.old }
    ensures kept { looks.new.items ≡ map (λ r. r.store) readers.old.items }
{
    while let Some(reader) = readers.pop() {
        let Ok(()) = looks.push(reader.store) else {
            unreachable!();
        };
    }
    looks.reverse();
}
