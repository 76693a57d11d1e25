//! What the stores behind a cache are asked with, and the reply where they give no chunk. Sizes are in bytes.

ghost use Rattle.std.specs.Prelude.{◌≡◌, ◌≤◌, length, IfOk, OnOk};
ghost use Rattle.caibx_fields.specs.Limits.{size_limit};
ghost use Rattle.chunk_proxy.specs.Obtaining.{AnswersRefusal};
ghost use Rattle.http_serve.specs.Answers.{answer_in};

use caibx_fields::format::SIZE_LIMIT;
use dsy_base::fault::Memory;
use http_serve::service::Reply;
use std::alloc::Global;
use store_chain::refused::Refused;

/// Makes the buffer long enough for every chunk.
pub fn take_room(buffer: &mut Vec<u8>) -> Result<(), Memory>
    requires room { length buffer.old.items ≤ size_limit }
    ensures ok { OnOk result (length buffer.new.items ≡ size_limit) }
    ensures room { length buffer.new.items ≤ size_limit }
{
    match buffer.resize(SIZE_LIMIT as usize, 0) {
        Ok(()) => Ok(()),
        Err(_) => Err(Memory),
    }
}

/// The reply where the stores refuse: 404 where none holds the chunk, 500 where one has failed.
pub fn tell_refused(alloc: Global, refused: &Refused) -> Result<Reply, Memory>
    ensures ok { IfOk result (λ r. AnswersRefusal refused.now (answer_in r)) }
{
    match refused {
        Refused::Missing => Ok(Reply::bare(alloc, 404)),
        Refused::Damaged { .. } => Ok(Reply::bare(alloc, 404)),
        Refused::StoreFault { .. } => Ok(Reply::bare(alloc, 500)),
        Refused::Memory => Err(Memory),
    }
}
