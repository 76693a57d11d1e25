//! Laws of connections to servers of indexes, for the crates above. Nothing is done: each contract is the law.

ghost use Rattle.std.specs.Prelude.{◌≡◌, ℕ, ◌++◌, Bool, List, Result, Some, true};
ghost use Rattle.caibx_codec.specs.Listing.{Listing};
ghost use Rattle.dsy_base.specs.Counts.{Quiet};
ghost use Rattle.dsy_base.specs.Links.{Traffic};
ghost use Rattle.dsy_base.specs.Maps.{Map};
ghost use Rattle.http_serve.specs.Turns.{Served};
ghost use Rattle.index_server.specs.Answers.{IndexFolder};
ghost use Rattle.index_server.specs.Fetching.{RepliesOfIndex};
ghost use Rattle.index_server.specs.Talks.{IndexTalk, index_protocol};
ghost use Rattle.index_server.specs.declared.fetch_index.FetchFault.{FetchFault};

use caibx_codec::laws::one_index;
use http_fetch::laws::reply_says_one_thing;

/// Where the folder counts no fault, a connection that is served to its end is sent exactly the replies that the files
/// give, and the files are those that its requests leave.
pub fn talks_are_exact()
    ensures value { (writable : Bool) (t u : Traffic) (old new : IndexFolder) (m : Map (List ℕ))
        → Served (index_protocol writable) t old u new → old.files ≡ Some m → Quiet old.faults new.faults
        → (sent : List ℕ) × (left : Map (List ℕ)) × IndexTalk writable t.coming m sent left
        × (u.sent ≡ t.sent ++ sent) × (new.files ≡ Some left) }
{}

/// The reply to a GET says one thing of an index too: a connection that ended licenses one answer.
pub fn fetch_says_one_thing()
    ensures same { (t : Traffic) (r s : Result Listing FetchFault) → RepliesOfIndex t r → RepliesOfIndex t s → r ≡ s }
{
    one_index();
    reply_says_one_thing();
}
