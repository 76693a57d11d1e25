//! A front of an index file, read without a fault: the words and items that stand whole in it,
//! and the bytes of the field that comes next.

ghost use Rattle.std.specs.Prelude.{◌≡◌, ◌≢◌, ◌<◌, ◌≤◌, ◌++◌, ℕ, [], length, IfOk, OnOk};
ghost use Rattle.caibx_fields.specs.Fields.{need};
ghost use Rattle.caibx_codec.specs.Answers.{ReadEnds, FindsIndex, ReadGoes, ReadsSome, Judges};
ghost use Rattle.caibx_codec.specs.Reading.{judge, push_to_index, reads_index, index_start};
ghost use Rattle.caibx_codec.specs.Standing.{bytes_of, IsReached, IsReachedBy};

use crate::index::{Entry, Index};
use crate::reading::ReadFault;
use caibx_fields::fault::IndexFault;
use caibx_fields::field::{Field, Fields, judge_end, judge_word, place, width};
use caibx_fields::word::number;
use chunk_store::id::ChunkId;
use std::alloc::Global;
use std::marker::Model;

/// What was read of an index file.
#[derive(Debug, Drop)]
pub struct Partial {
    fields: Fields,
    entries: Vec<Entry>,
    part: [u8; 32],
    filled: usize,
}

impl Model for Partial {
    ghost use Rattle.caibx_codec.specs.Reading.{Read};

    ghost Value = { Read };

    ghost use Rattle.caibx_codec.specs.Seen.{read_of, HasRoomForField};

    ghost view = { λ p. read_of p };

    ghost invariant = { λ p. HasRoomForField p };
}

impl Partial {
    /// Nothing was read yet.
    #[tactic(auto, unfolding(crate::specs::Reading::index_start), using(crate::proofs::Answered::start_for))]
    pub fn new(alloc: Global) -> Partial
        ensures value { result ≡ index_start }
        ensures ok { IsReachedBy result [] }
    {
        Partial {
            fields: Fields::new(),
            entries: Vec::new(alloc),
            part: [0; 32],
            filled: 0,
        }
    }

    // Judges an id, which comes next.
    #[tactic(auto, using(crate::proofs::Fields::judging))]
    fn judge_id(&mut self, bytes: &[u8]) -> Result<(), ReadFault>
        requires next { self.old.fields.next ≡ Field.Id }
        requires size { length bytes.now ≡ 32 }
        ensures { ReadGoes (judge self.old bytes.now) result self.new }
    {
        self.filled = 0;
        let mut id = [0; 32];
        id.copy_from_slice(bytes);
        self.entries.push(Entry {
            end: self.fields.end,
            id: ChunkId(id),
        })?;
        self.fields.next = Field::End;
        Ok(())
    }

    // Judges all bytes of the next field.
    #[tactic(auto, using(crate::proofs::Fields::judging))]
    fn judge(&mut self, bytes: &[u8]) -> Result<(), ReadFault>
        requires { length bytes.now ≡ need self.old.fields.next }
        ensures { ReadGoes (judge self.old bytes.now) result self.new }
    {
        match self.fields.next {
            Field::Id => self.judge_id(bytes)?,
            Field::Nothing => return Err(ReadFault::Bad(IndexFault::Trailing)),
            _ => {
                match judge_word(self.fields, self.entries.len(), number(bytes)) {
                    Ok(fields) => self.fields = fields,
                    Err(fault) => return Err(ReadFault::Bad(fault)),
                }
                self.filled = 0;
            }
        }
        Ok(())
    }

    // Takes one byte more.
    #[tactic(auto, using(crate::proofs::Fields::need_most), unfolding(crate::specs::Reading::push_to_index))]
    fn push(&mut self, byte: u8) -> Result<(), ReadFault>
        ensures { ReadGoes (push_to_index self.old byte) result self.new }
    {
        let filled = self.filled;
        self.part[filled] = byte;
        if filled + 1 < width(self.fields.next) {
            self.filled = filled + 1;
            return Ok(());
        }
        let part = self.part;
        self.judge(&part[..filled + 1])
    }

    // Takes an item, whose end comes next and has 8 bytes, and its id 32; or the first word of the tail. Answers how
    // many bytes.
    fn take_item(&mut self, piece: &[u8]) -> Result<usize, ReadFault>
        requires next { self.old.fields.next ≡ Field.End }
        requires empty { self.old.part ≡ [] }
        requires size { 40 ≤ length piece.now }
        ensures inside { IfOk result (λ n. (0 < n) × (n ≤ length piece.now)) }
        ensures value { ReadsSome self.old piece.now result self.new }
    {
        match judge_end(self.fields, self.entries.len(), number(&piece[..8])) {
            Ok(fields) => self.fields = fields,
            Err(fault) => return Err(ReadFault::Bad(fault)),
        }
        let Field::Id = self.fields.next else {
            return Ok(8);
        };
        self.judge_id(&piece[8..40])?;
        Ok(40)
    }

    // Takes all bytes of the next item or field where the piece begins with them, else one byte. Answers how many.
    fn take_some(&mut self, piece: &[u8]) -> Result<usize, ReadFault>
        requires { 0 < length piece.now }
        ensures inside { IfOk result (λ n. (0 < n) × (n ≤ length piece.now)) }
        ensures value { ReadsSome self.old piece.now result self.new }
    {
        let width = width(self.fields.next);
        if self.filled != 0 || piece.len() < width {
            self.push(piece[0])?;
            return Ok(1);
        }
        if let Field::End = self.fields.next
            && 40 <= piece.len()
        {
            return self.take_item(piece);
        }
        self.judge(&piece[..width])?;
        Ok(width)
    }

    // Takes more bytes.
    fn take(&mut self, piece: &[u8]) -> Result<(), ReadFault>
        ensures { ReadGoes (reads_index self.old piece.now) result self.new }
    {
        let mut at = 0usize;
        while at < piece.len() {
            at += self.take_some(&piece[at..])?;
        }
        Ok(())
    }

    /// Takes more bytes. After a refusal nothing is known of what was read.
    pub fn feed(&mut self, piece: &[u8]) -> Result<(), ReadFault>
        requires { IsReached self.old }
        ensures first { Judges (bytes_of self.old ++ piece.now) result }
        ensures only { (n : ℕ) → result ≢ Err (ReadFault.Bad (IndexFault.Truncated n)) }
        ensures ok { OnOk result (IsReachedBy self.new (bytes_of self.old ++ piece.now)) }
    {
        self.take(piece)
    }

    // The number of bytes that were read.
    fn len(&self) -> u64
        requires { IsReached self.now }
        ensures { result ≡ length (bytes_of self.now) }
    {
        let part = &self.part[..self.filled];
        place(self.fields.next, self.entries.len()) + part.len() as u64
    }

    /// The index, where the bytes end.
    pub fn finish(self) -> Result<Index, ReadFault>
        requires { IsReached self }
        ensures first { ReadEnds (bytes_of self) result }
        ensures exactly { FindsIndex (bytes_of self) result }
    {
        let at = self.len();
        let Field::Nothing = self.fields.next else {
            return Err(ReadFault::Bad(IndexFault::Truncated { at }));
        };
        Ok(Index::of_fields(self.fields, self.entries))
    }
}
