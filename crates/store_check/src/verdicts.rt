//! What readers find of chunk files ahead. Chunk files are items, numbered from 0 in the order of their ids.

ghost use Rattle.std.specs.Prelude.{◌≡◌, ◌<◌, ◌++◌, ◌∷◌, [], ℕ, List, Option, All, IfOk, IfSome, false};
ghost use Rattle.std.specs.Prelude.{vec_capacity, vec_len};
ghost use Rattle.chunk_store.specs.declared.id.ChunkId.{ChunkId};
ghost use Rattle.chunk_store.specs.declared.id.DigestKind.{DigestKind};
ghost use Rattle.dsy_base.specs.Maps.{Map};
ghost use Rattle.store_check.specs.Verdicts.{AreVerdicts, IsVerdict, verdict};

use std::alloc::{AllocError, Global};

/// Whether the chunk file of this item is damaged.
#[derive(Clone, Copy)]
pub struct Verdict {
    pub item: usize,
    pub damaged: bool,
}

/// How many verdicts stand in a room at most.
const VERDICTS: usize = 256;

/// The room of a reader: its verdicts, whose items fall.
#[derive(Drop)]
pub struct Verdicts {
    list: Vec<Verdict>,
}

impl Verdicts {
    /// No verdict, and room for 256.
    pub fn new(alloc: Global) -> Result<Verdicts, AllocError>
        ensures empty { IfOk result (λ v. v.list.items ≡ []) }
    {
        Ok(Verdicts {
            list: Vec::with_capacity(alloc, VERDICTS)?,
        })
    }

    /// Lets all verdicts go.
    pub fn clear(&mut self)
        ensures empty { self.new.list.items ≡ [] }
    {
        self.list.clear();
    }

    /// Whether there is no room for another verdict.
    pub fn is_full(&self) -> bool
        ensures room { result ≡ false → vec_len self.now.list < vec_capacity self.now.list }
    {
        self.list.len() >= self.list.capacity()
    }

    /// Adds a verdict, whose item is below all others.
    pub fn push(&mut self, item: usize, damaged: bool)
        requires room { vec_len self.old.list < vec_capacity self.old.list }
        ensures adds { self.new.list.items ≡ self.old.list.items ++ verdict item damaged ∷ [] }
    {
        let Ok(()) = self.list.push(Verdict { item, damaged }) else {
            unreachable!();
        };
    }

    /// The verdict on this item, where there is one.
    pub fn of(&self, item: usize) -> Option<bool>
        ensures right { IfSome result (λ b. (kind : DigestKind) (told : Option (Map (List ℕ))) (ids : List ChunkId)
            → AreVerdicts kind told ids self.now → IsVerdict kind told ids (verdict item b)) }
    {
        let place = self.list.partition_point(|verdict| item < verdict.item);
        if place == self.list.len() || self.list[place].item != item {
            return None;
        }
        Some(self.list[place].damaged)
    }
}

/// The verdict on this item, where one of the rooms has it.
pub fn verdict_among(rooms: &[Verdicts], item: usize) -> Option<bool>
    ensures right { IfSome result (λ b. (kind : DigestKind) (told : Option (Map (List ℕ))) (ids : List ChunkId)
        → All (AreVerdicts kind told ids) rooms.now → IsVerdict kind told ids (verdict item b)) }
{
    for room in rooms {
        if let Some(damaged) = room.of(item) {
            return Some(damaged);
        }
    }
    None
}
