//! A reader of the body of a message (RFC 9112, sections 6.3, 7.1 and 8). Everything is counted in bytes.

ghost use Rattle.std.specs.Prelude.{◌≡◌, ℕ, ◌≤◌, List, [], ◌++◌, length, Err, IsOk, IfOk, IfErr, false};
ghost use Rattle.http_frames.specs.Body.{is_whole};
ghost use Rattle.http_frames.specs.Standing.{FeedAnswers, BodyEnds, StandsFor};

use crate::body::BodyKind;
use crate::fault::WireFault;
use crate::progress::Progress;
use std::marker::Model;

/// A reader of a body that comes in pieces. It fills in a slice that its caller lends it at each
/// piece. Contracts see it as what it has read, or as the fault that it has met.
#[derive(Debug, Drop)]
pub struct BodyReader {
    progress: Progress,
    fault: Option<WireFault>,
}

impl Model for BodyReader {
    ghost use Rattle.std.specs.Prelude.{Result};
    ghost use Rattle.http_frames.specs.declared.fault.WireFault.{WireFault};
    ghost use Rattle.http_frames.specs.Seen.{ReaderKept, standing};

    ghost Value = { Result ReaderKept WireFault };

    ghost view = { λ i. standing i.fault i.progress };
}

impl BodyReader {
    /// A reader that was fed nothing.
    pub fn new(kind: BodyKind) -> BodyReader
        ensures none { (out : List ℕ) → IfOk result (λ h. StandsFor kind [] h out) }
        ensures fresh { IsOk result }
        ensures size { IfOk result (λ h. h.filled ≡ 0) }
    {
        BodyReader {
            progress: Progress::new(kind),
            fault: None,
        }
    }

    /// Takes the next bytes, and fills in those of the body. Each piece is lent the same slice, unchanged. Bytes after
    /// a body that is whole are left alone. `BadChunk` and `BodyTooLong` come with the first byte that shows them;
    /// after a fault the reader answers it again.
    pub fn feed(&mut self, piece: &[u8], out: &mut [u8]) -> Result<(), WireFault>
        requires inside { IfOk self.old (λ h. h.filled ≤ length out.old) }
        ensures inside { IfOk self.new (λ h. h.filled ≤ length out.new) }
        // What is answered, and what reader and slice stand for afterwards, for each list of bytes
        // that they stood for.
        ensures first { IfOk self.old (λ h. (k : BodyKind) (b : List ℕ) → StandsFor k b h out.old
            → FeedAnswers k (b ++ piece.now) result self.new out.new) }
        ensures refused { IfErr self.old (λ f. (result ≡ Err f) × (self.new ≡ Err f) × (out.new ≡ out.old)) }
    {
        if let Some(fault) = self.fault {
            return Err(fault);
        }
        match self.progress.feed(piece, out) {
            Ok(()) => Ok(()),
            Err(fault) => {
                self.fault = Some(fault);
                Err(fault)
            }
        }
    }

    /// Whether a body by length or by chunks is whole. One that isn't there is whole from the start.
    pub fn done(&self) -> bool
        ensures value { IfOk self.now (λ h. result ≡ is_whole h.next) }
        ensures refused { IfErr self.now (λ f. result ≡ false) }
    {
        self.fault.is_none() && self.progress.is_whole()
    }

    /// How many bytes of the slice were filled in.
    pub fn filled(&self) -> usize
        ensures value { IfOk self.now (λ h. result ≡ h.filled) }
    {
        self.progress.filled()
    }

    /// The number of bytes of the body, where the connection's bytes end here. `CutShort`: a body by length or by
    /// chunks isn't whole.
    pub fn finish(&mut self) -> Result<usize, WireFault>
        ensures first { IfOk self.old (λ h. (k : BodyKind) (b out : List ℕ) → StandsFor k b h out
            → BodyEnds k b out result) }
        ensures ok { IfOk result (λ n. self.new ≡ self.old) }
        ensures size { IfOk result (λ n. IfOk self.old (λ h. n ≡ h.filled)) }
        ensures err { IfErr result (λ f. self.new ≡ Err f) }
        ensures refused { IfErr self.old (λ f. result ≡ Err f) }
    {
        if let Some(fault) = self.fault {
            return Err(fault);
        }
        if self.progress.may_end() {
            return Ok(self.progress.filled());
        }
        self.fault = Some(WireFault::CutShort);
        Err(WireFault::CutShort)
    }
}
