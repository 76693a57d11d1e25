//! Laws of what is fetched, for the crates above. Nothing is done: each function's contract is the law.

ghost use Rattle.std.specs.Prelude.{◌≡◌, ℕ, List, Result};
ghost use Rattle.dsy_base.specs.Links.{Traffic};
ghost use Rattle.http_fetch.specs.Fetching.{RepliesToGet};
ghost use Rattle.http_fetch.specs.declared.fetch.Unfetched.{Unfetched};

use http_read::laws::head_says_one_thing;

/// The reply to a GET whose body may have this many bytes says one thing: a connection that ended permits one answer.
pub fn reply_says_one_thing()
    ensures same { (most : ℕ) (t : Traffic) (r s : Result (List ℕ) Unfetched) → RepliesToGet most t r
        → RepliesToGet most t s → r ≡ s }
{
    head_says_one_thing();
}
