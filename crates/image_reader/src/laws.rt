//! Laws of what a reader keeps, for the crates above. Nothing is done: each function's contract is the law.

ghost use Rattle.std.specs.Prelude.{◌≡◌, ◌+◌, ◌++◌, ℕ, List, length};
ghost use Rattle.image_reader.specs.Keeping.{Stepped, missed, step};
ghost use Rattle.image_reader.specs.declared.want.Want.{Want as Wanted};

/// One list of wants after another leaves what both leave as one list, and their misses add up. So over several reads
/// that were answered Ok the stores were asked as often as all their wants in order are missed.
pub fn steps_add_up()
    ensures kept { (keep : ℕ) (kept : List Wanted) (a b : List Wanted) →
        (step keep kept (a ++ b)).kept ≡ (step keep (step keep kept a).kept b).kept }
    ensures asks { (keep : ℕ) (kept : List Wanted) (a b : List Wanted) →
        (step keep kept (a ++ b)).misses ≡ (step keep kept a).misses + (step keep (step keep kept a).kept b).misses }
    ensures missed { (keep : ℕ) (kept : List Wanted) (a b : List Wanted) →
        missed keep kept (a ++ b) ≡ missed keep kept a ++ missed keep (step keep kept a).kept b }
    ensures size { (keep : ℕ) (kept : List Wanted) (a : List Wanted) →
        (step keep kept a).misses ≡ length (missed keep kept a) }
{}
