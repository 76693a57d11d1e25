//! Laws of connections to a cache before stores, for the crates above. Nothing is done: each function's contract is the
//! law.

ghost use Rattle.std.specs.Prelude.{ℕ, List};
ghost use Rattle.chunk_proxy.specs.States.{ProxyFiles};
ghost use Rattle.chunk_proxy.specs.Talks.{TalksExactly, proxy_protocol};
ghost use Rattle.chunk_store.specs.declared.id.DigestKind.{DigestKind};
ghost use Rattle.dsy_base.specs.Counts.{Quiet};
ghost use Rattle.dsy_base.specs.Links.{Traffic};
ghost use Rattle.dsy_base.specs.Maps.{Map};
ghost use Rattle.http_serve.specs.Steps.{ServedState};
ghost use Rattle.http_serve.specs.Turns.{Served};

/// Where no fault is counted, a connection that is served to its end is sent exactly the replies that the cache and the
/// stores give, and what is left is what its requests leave.
pub fn talks_are_exact()
    ensures value { (kind : DigestKind) (maps : List (Map (List ℕ))) (t u : Traffic) (old new : ServedState ProxyFiles)
        → Served (proxy_protocol kind maps) t old u new → Quiet old.faults new.faults
        → TalksExactly kind maps t old u new }
{}
