//! Laws of connections, for the crates above. Nothing is done: each function's contract is the law.

ghost use Rattle.std.specs.Prelude.{◌≡◌, ℕ, List, map, Some};
ghost use Rattle.chunk_server.specs.Shelves.{ServedFolder};
ghost use Rattle.chunk_server.specs.Turns.{Takes, Turn, files_left, turns_of};
ghost use Rattle.chunk_store.specs.declared.id.DigestKind.{DigestKind};
ghost use Rattle.dsy_base.specs.Counts.{Quiet};
ghost use Rattle.dsy_base.specs.Maps.{Map};

/// Where the folder counts no fault, each request is answered as the files say, and the files are those that the
/// requests leave.
pub fn turns_are_exact()
    ensures value { (kind : DigestKind) (old new : ServedFolder) (m : Map (List ℕ)) (turns : List Turn)
        → Takes kind old turns new → old.files ≡ Some m → Quiet old.faults new.faults
        → (turns ≡ turns_of kind m (map (λ t. t.asked) turns))
        × (new.files ≡ Some (files_left kind m (map (λ t. t.asked) turns))) }
{}
