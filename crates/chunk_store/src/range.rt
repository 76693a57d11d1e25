//! Reading the range of a chunk and naming it. Offsets are bytes from 0.

ghost use Rattle.std.specs.Prelude.{◌≡◌, ◌+◌, ◌≤◌, length, slice_range, IfOk, IfSome, OnOk};
ghost use Rattle.chunk_store.specs.Digests.{digest_of};
ghost use Rattle.dsy_base.specs.Counts.{CountsRefusals};

use crate::id::{ChunkId, DigestKind};
use dsy_base::fault::Failed;
use dsy_base::view::View;

/// Fills `out` with the bytes from offset `at` on, and answers their id.
pub fn name_range<V: View>(
    view: &mut V,
    kind: DigestKind,
    at: u64,
    out: &mut [u8],
) -> Result<ChunkId, Failed>
    requires inside { at + length out.old ≤ (V.held view.old).size }
    ensures value { IfOk result (λ id. id.0 ≡ digest_of kind out.new) }
    ensures bytes { OnOk result (IfSome (V.held view.old).bytes
        (λ t. out.new ≡ slice_range t at (at + length out.old))) }
    ensures kept { V.held view.new ≡ V.held view.old }
    ensures faults { CountsRefusals (V.faults view.old) (V.faults view.new) result }
{
    view.read_at(at, out)?;
    Ok(ChunkId::of(kind, out))
}
