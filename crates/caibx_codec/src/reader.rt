//! Reading an index file in pieces.

ghost use Rattle.std.specs.Prelude.{◌≡◌, ◌≢◌, ◌≤◌, ℕ, ◌++◌, [], length, Option, Some, None, IfSome, IfNone, OnOk};
ghost use Rattle.std.specs.Prelude.{OnErr};
ghost use Rattle.std.specs.Option.{option_map};
ghost use Rattle.caibx_fields.specs.Limits.{file_limit};
ghost use Rattle.caibx_codec.specs.Answers.{ReadEnds, FindsIndex, Judges};

use crate::index::Index;
use crate::partial::Partial;
use crate::reading::ReadFault;
use caibx_fields::fault::IndexFault;
use std::alloc::Global;
use std::marker::Model;

/// A reader of an index file that comes in pieces. Contracts see it as the bytes that it was fed,
/// or as none once it has refused.
#[derive(Debug, Drop)]
pub struct IndexReader {
    partial: Option<Partial>,
}

impl Model for IndexReader {
    ghost use Rattle.std.specs.Prelude.{ℕ, List, Option, IfSome};

    ghost Value = { Option (List ℕ) };

    ghost use Rattle.std.specs.Option.{option_map};
    ghost use Rattle.caibx_codec.specs.Standing.{bytes_of, IsReached};

    ghost view = { λ i. option_map bytes_of i.partial };

    ghost invariant = { λ i. IfSome i.partial IsReached };
}

impl IndexReader {
    /// A reader that was fed nothing.
    pub fn new(alloc: Global) -> IndexReader
        ensures { result ≡ Some [] }
    {
        IndexReader {
            partial: Some(Partial::new(alloc)),
        }
    }

    /// Takes the next bytes of the file. Each field is judged as soon as its bytes are there. After
    /// a refusal the reader answers `Over`.
    pub fn feed(&mut self, piece: &[u8]) -> Result<(), ReadFault>
        ensures absent { IfNone self.old (result ≡ Err ReadFault.Over) }
        ensures first { IfSome self.old (λ t. Judges (t ++ piece.now) result) }
        // That the bytes end too early is for `finish` to say.
        ensures only { (n : ℕ) → result ≢ Err (ReadFault.Bad (IndexFault.Truncated n)) }
        ensures ok { OnOk result (self.new ≡ option_map (λ t. t ++ piece.now) self.old) }
        ensures err { OnErr result (self.new ≡ None) }
        ensures size { IfSome self.new (λ t. length t ≤ file_limit) }
    {
        let Some(mut partial) = self.partial.take() else {
            return Err(ReadFault::Over);
        };
        partial.feed(piece)?;
        self.partial = Some(partial);
        Ok(())
    }

    /// The index whose file was fed, where it ends.
    pub fn finish(self) -> Result<Index, ReadFault>
        ensures absent { IfNone self (result ≡ Err ReadFault.Over) }
        ensures first { IfSome self (λ t. ReadEnds t result) }
        ensures exactly { IfSome self (λ t. FindsIndex t result) }
    {
        match self.partial {
            Some(partial) => partial.finish(),
            None => Err(ReadFault::Over),
        }
    }
}
