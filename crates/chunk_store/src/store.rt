//! Stores of chunks by their ids.

ghost use Rattle.std.specs.Prelude.{◌≡◌, ◌≢◌, ℕ, Bool, true, false, IsTrue, List, [], ◌∷◌, ◌≤◌, Option, Some, None};
ghost use Rattle.std.specs.Prelude.{IsSome, IfSome, IfOk, OnOk, OnErr, is_some, length, take};
ghost use Rattle.std.specs.Option.{option_map};
ghost use Rattle.chunk_store.specs.Asks.{Ask, Get, Has, Put, Sends, Sent, sends_nothing};
ghost use Rattle.chunk_store.specs.Folders.{KeepsOthers, chunks};
ghost use Rattle.chunk_store.specs.Gets.{GetGives};
ghost use Rattle.chunk_store.specs.Said.{Said, KeepsOf, SaysAmong, SaysMap, AskedOnce};
ghost use Rattle.dsy_base.specs.Counts.{CountsFaults};
ghost use Rattle.dsy_base.specs.Maps.{Map, at_name};

use crate::id::ChunkId;
use dsy_base::fault::IoFault;

/// Why a store gives no chunk.
#[derive(Clone, Copy, Debug, PartialEq, Eq)]
pub enum GetFault {
    /// It holds nothing under the id.
    Missing,
    /// It holds more bytes than were lent.
    Longer,
    Failed,
    Memory,
}

/// Which of several stores has shown something: its number among them, and the number of the one in its group that
/// answered, or 0 where it is no group.
#[derive(Clone, Copy, Debug, PartialEq, Eq)]
pub struct Giver {
    pub number: u32,
    pub member: usize,
}

/// A store of chunks by their ids. It may hold any bytes under an id: who asks names what it got.
pub trait Store: Drop {
    /// What it holds under each id, where this store tells it. No call changes whether it does.
    ghost holds: { Self → Option (Map (List ℕ)) };

    /// What each store holds that answers in its name, where all of them tell it: its own map alone, where this store
    /// tells what it holds, or the maps of all stores of a group. No call changes it.
    ghost members: { Self → Option (List (Map (List ℕ))) };

    /// The files of the folder that its chunks lie in, where it has one and tells them.
    ghost folder: { Self → Option (Map (List ℕ)) } = { λ _. None };

    /// The same for each store of a group, in their order. One that is no group has none. No call changes them.
    ghost folders: { Self → List (Option (Map (List ℕ))) } = { λ _. [] };

    /// What it has denied, shown and taken.
    ghost said: { Self → Said };

    /// The number in its group of the store that answered most recently, or 0 where it is no group.
    ghost giver: { Self → ℕ } = { λ _. 0 };

    /// How it spells what it is asked, and what it has sent, where it asks a server; and the same for each store of a
    /// group, by its number.
    ghost sent: { Self → Sent } = { λ _. sends_nothing };

    /// How often it was asked for the chunk of each id, as far as it knows.
    ghost asked: { Self → List ℕ → ℕ };

    /// How often it was asked whether it has something under each id, as far as it knows.
    ghost queried: { Self → List ℕ → ℕ };

    /// How often a call on it has failed.
    ghost faults: { Self → ℕ };

    /// The name that its folder was taken under, if it has one. No call changes it.
    ghost place: { Self → List ℕ };

    /// Whether each store of the type tells what it holds.
    ghost tells: { Bool };

    /// Whether the type never fails.
    ghost never_fails: { Bool };

    /// Whether those stores of the type that tell what they hold never fail.
    ghost told_never_fail: { Bool };

    /// Whether `get` and `has` may answer that there was no memory.
    ghost may_lack_memory: { Bool };

    /// Fills the front of `out` with the bytes held under the id, and answers their number.
    fn get(&mut self, id: &ChunkId, out: &mut [u8]) -> Result<usize, GetFault>
        ensures bytes { IfSome (holds self.old) (λ m. GetGives (m id.now.0) result out.new) }

        // No answer but with what it has said.
        ensures ok { IfOk result (λ n. (n ≤ length out.new) × (said self.new).shown id.now.0 (take n out.new)) }
        ensures absent { result ≡ Err GetFault.Missing → (said self.new).denied id.now.0 }
        ensures longer { result ≡ Err GetFault.Longer → (said self.new).longer id.now.0 (length out.new) }
        ensures shown_by { IfOk result (λ n. (said self.new).shown_by (giver self.new) id.now.0 (take n out.new)) }
        ensures longer_by { result ≡ Err GetFault.Longer
            → (said self.new).longer_by (giver self.new) id.now.0 (length out.new) }
        ensures only { result ≡ Err GetFault.Memory → IsTrue may_lack_memory }

        ensures kept { holds self.new ≡ holds self.old }
        ensures members { members self.new ≡ members self.old }
        ensures files { folder self.new ≡ folder self.old }
        ensures folders { folders self.new ≡ folders self.old }
        ensures place { place self.new ≡ place self.old }
        ensures said { (q : List ℕ) → KeepsOf (said self.old) (said self.new) q }
        ensures sends { Sends (λ a. a ≡ Get id.now.0) (sent self.old) (sent self.new) }
        ensures asks { AskedOnce (asked self.old) (asked self.new) id.now.0 }
        ensures queries { queried self.new ≡ queried self.old }
        ensures faults { CountsFaults GetFault.Failed GetFault.Memory (faults self.old) (faults self.new) result };

    /// The number in its group of the store that answered most recently, or 0 where it is no group.
    fn giver(&self) -> usize
        ensures value { result ≡ giver self.now };

    /// Whether something is held under the id.
    fn has(&mut self, id: &ChunkId) -> Result<bool, IoFault>
        ensures found { IfOk result (λ b. IfSome (holds self.old) (λ m. b ≡ is_some (m id.now.0))) }
        ensures absent { result ≡ Ok false → (said self.new).denied id.now.0 }
        ensures only { result ≡ Err IoFault.Memory → IsTrue may_lack_memory }

        ensures kept { holds self.new ≡ holds self.old }
        ensures members { members self.new ≡ members self.old }
        ensures files { folder self.new ≡ folder self.old }
        ensures folders { folders self.new ≡ folders self.old }
        ensures place { place self.new ≡ place self.old }
        ensures said { (q : List ℕ) → KeepsOf (said self.old) (said self.new) q }
        ensures sends { Sends (λ a. a ≡ Has id.now.0) (sent self.old) (sent self.new) }
        ensures asks { asked self.new ≡ asked self.old }
        ensures queries { AskedOnce (queried self.old) (queried self.new) id.now.0 }
        ensures faults { CountsFaults IoFault.Failed IoFault.Memory (faults self.old) (faults self.new) result };

    /// A store that tells what it holds is the only one that answers in its name.
    ghost alone: { (s : Self) → IfSome (holds s) (λ m. members s ≡ Some (m ∷ [])) };

    /// What it has said holds for one of the told maps of those that answer in its name.
    ghost vouched: { (s : Self) → IfSome (members s) (SaysAmong (said s)) };

    /// A told map denies what it doesn't hold, and has shown and taken what it holds.
    ghost says: { (s : Self) → IfSome (holds s) (SaysMap (said s)) };

    /// What lies in a told folder under the paths of chunks is what it holds.
    ghost lies: { (s : Self) → IfSome (folder s) (λ m. holds s ≡ Some (chunks m)) };

    /// A store that tells is asked for nothing that counts.
    ghost unasked: { (s : Self) → IfSome (holds s) (λ _. (q : List ℕ) → (asked s q ≡ 0) × (queried s q ≡ 0)) };

    /// Each store of a type that tells, tells.
    ghost told: { (s : Self) → IsTrue tells → IsSome (holds s) };

    /// A type that never fails counts no fault.
    ghost sure: { (s : Self) → IsTrue never_fails → faults s ≡ 0 };

    /// A store that tells counts no fault, where those of its type that tell never fail.
    ghost steady: { (s : Self) → IsTrue told_never_fail → IsSome (holds s) → faults s ≡ 0 };
}

/// A store that takes chunks.
pub trait StoreWrite: Store {
    /// Puts `b` under the id, in the place of what was there.
    fn put(&mut self, id: &ChunkId, b: &[u8]) -> Result<(), IoFault>
        ensures ok { OnOk result (Self.holds self.new
            ≡ option_map (λ m. at_name m id.now.0 (Some b.now)) (Self.holds self.old)) }
        ensures taken { OnOk result ((Self.said self.new).taken id.now.0 b.now) }
        ensures err { OnErr result (Self.holds self.new ≡ Self.holds self.old) }
        // Of its folder's files at most the chunk's own and its temporary one change.
        ensures files { KeepsOthers id.now.0 (Self.folder self.old) (Self.folder self.new) }
        ensures place { Self.place self.new ≡ Self.place self.old }
        ensures said { (q : List ℕ) → q ≢ id.now.0 → KeepsOf (Self.said self.old) (Self.said self.new) q }
        ensures sends { Sends (λ a. a ≡ Put id.now.0 b.now) (Self.sent self.old) (Self.sent self.new) }
        ensures asks { Self.asked self.new ≡ Self.asked self.old }
        ensures queries { Self.queried self.new ≡ Self.queried self.old }
        ensures faults { CountsFaults IoFault.Failed IoFault.Memory
            (Self.faults self.old) (Self.faults self.new) result };
}
