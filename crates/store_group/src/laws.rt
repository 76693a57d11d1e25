//! Laws of groups, for the crates above. Nothing is done: each function's contract is the law.

ghost use Rattle.std.specs.Prelude.{ℕ, List, ◌≤◌, ◌+◌, ◌*◌};
ghost use Rattle.std.specs.List.{AllByRecursion};
ghost use Rattle.store_group.specs.Groups.{most, questions_of};

/// Where a group was asked at most n times, each of its stores was called at most `retries + 1` times as often.
pub fn questions_bound_calls<S>()
    ensures { (calls : S → ℕ) (retries n : ℕ) (stores : List S) →
        most (λ s. questions_of retries (calls s)) stores ≤ n →
        AllByRecursion (λ s. calls s ≤ n * (retries + 1)) stores }
{}
