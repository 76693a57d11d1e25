//! Shelves: what answers requests for chunks.

ghost use Rattle.std.specs.Prelude.{◌≡◌, ℕ, Bool, List, ◌≤◌, length, IfOk, IfSome, OnErr, false};
ghost use Rattle.caibx_fields.specs.Limits.{size_limit};
ghost use Rattle.chunk_server.specs.Answers.{Answer};
ghost use Rattle.chunk_server.specs.Shelves.{IsAnswer, StepLacksMemory, ServedFolder, ServesOrFails};
ghost use Rattle.chunk_server.specs.Shelves.{answer_in};
ghost use Rattle.chunk_store.specs.declared.id.DigestKind.{DigestKind};
ghost use Rattle.http_wire.specs.Request.{is_refusal};
ghost use Rattle.http_wire.specs.declared.request.Act.{Act};

use chunk_store::id::DigestKind;
use dsy_base::fault::Memory;
pub use http_serve::service::Reply;
use http_wire::request::Act;

/// What answers the requests on a connection.
pub trait Shelf: Drop {
    /// The files of its folder, where it tells them, and how often a call on it has failed.
    ghost state: { Self → ServedFolder };

    /// The name that its folder was taken under.
    ghost place: { Self → List ℕ };

    /// Which digest names its chunks.
    ghost digest: { Self → DigestKind };

    /// Whether chunks may be put.
    ghost takes: { Self → Bool };

    /// The replies that it may give to an act with a body, beside what holds of every shelf.
    ghost may: { Act → List ℕ → Answer → Type 0 };

    /// Answers a request.
    fn answer(&mut self, act: &Act, body: &[u8]) -> Result<Reply, Memory>
        requires taken { is_refusal act.now ≡ false }
        requires size { length body.now ≤ size_limit }
        ensures only { IfOk result (λ r. IsAnswer (digest self.old) act.now (answer_in r)) }
        ensures may { IfOk result (λ r. may act.now body.now (answer_in r)) }
        ensures ok { IfOk result (λ r. IfSome (state self.old).files (λ _.
            ServesOrFails (digest self.old) (state self.old) act.now body.now (answer_in r) (state self.new))) }
        ensures err { OnErr result (IfSome (state self.old).files (λ _.
            StepLacksMemory (digest self.old) (state self.old) act.now body.now (state self.new))) }
        ensures unfailed { OnErr result ((state self.new).faults ≡ (state self.old).faults) }
        ensures kind { digest self.new ≡ digest self.old }
        ensures kept { takes self.new ≡ takes self.old }
        ensures place { place self.new ≡ place self.old }
        ensures faults { (state self.old).faults ≤ (state self.new).faults };

    /// Which digest names its chunks.
    fn kind(&self) -> DigestKind
        ensures { result ≡ digest self.now };

    /// Whether chunks may be put.
    fn writable(&self) -> bool
        ensures { result ≡ takes self.now };
}
