//! Whether bytes are an index file. Of its items only their number is kept.

ghost use Rattle.std.specs.Prelude.{◌≡◌, ◌+◌, ◌<◌, ◌≤◌, ◌^◌, List, ℕ, [], length, IfOk};
ghost use Rattle.caibx_fields.specs.Fields.{need};
ghost use Rattle.caibx_codec.specs.Checking.{EndsFront, IsChecked, IsJudgedTo, PassesField};

use caibx_fields::fault::IndexFault;
use caibx_fields::field::{Field, Fields, judge_end, judge_word, width};
use caibx_fields::word::number;

/// What was judged of the bytes: the words, and how many items there are.
#[derive(Clone, Copy, Debug)]
struct Front {
    fields: Fields,
    count: usize,
}

impl Front {
    // Nothing was judged yet.
    fn new() -> Front
        ensures none { result.count ≡ 0 }
        ensures ok { (bytes : List ℕ) → IsJudgedTo bytes bytes result }
    {
        Front {
            fields: Fields::new(),
            count: 0,
        }
    }

    // Judges all bytes of the next field.
    fn judge(self, field: &[u8]) -> Result<Front, IndexFault>
        requires size { length field.now ≡ need self.fields.next }
        requires room { self.count + length field.now < 2 ^ 64 }
        ensures value { PassesField self field.now result }
        ensures count { IfOk result (λ next. next.count ≤ self.count + 1) }
    {
        let count = self.count;
        let judged = match self.fields.next {
            Field::Id => {
                return Ok(Front {
                    fields: Fields {
                        next: Field::End,
                        ..self.fields
                    },
                    count: count + 1,
                });
            }
            Field::Nothing => return Err(IndexFault::Trailing),
            Field::End => judge_end(self.fields, count, number(field)),
            _ => judge_word(self.fields, count, number(field)),
        };
        match judged {
            Ok(fields) => Ok(Front { fields, count }),
            Err(fault) => Err(fault),
        }
    }

    // What is answered where the bytes end, which are so many.
    fn finish(self, size: usize) -> Result<(), IndexFault>
        ensures value { EndsFront self size result }
    {
        match self.fields.next {
            Field::Nothing => Ok(()),
            _ => Err(IndexFault::Truncated { at: size as u64 }),
        }
    }
}

/// Whether the bytes are the file of an index. The fault is the first one. It needs no memory.
pub fn check_index(bytes: &[u8]) -> Result<(), IndexFault>
    ensures exactly { IsChecked bytes.now result }
{
    let mut front = Front::new();
    let mut rest = bytes;
    while width(front.fields.next) <= rest.len() {
        let (field, left) = rest.split_at(width(front.fields.next));
        match front.judge(field) {
            Ok(next) => front = next,
            Err(fault) => return Err(fault),
        }
        rest = left;
    }
    front.finish(bytes.len())
}
