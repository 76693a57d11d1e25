//! The lock of one shard, which a worker takes for one read or one write, and in this module alone. It holds one lock
//! at a time. Shards and entries count from 0.

ghost use Rattle.std.specs.Prelude.{◌≡◌, IsTrue, OnErr, length, true, false};
ghost use Rattle.caibx_codec.specs.Listing.{id_of, kind_of, size_of};
ghost use Rattle.caibx_codec.specs.Right.{IsRightAt};
ghost use Rattle.chunk_store.specs.Digests.{digest_of};
ghost use Rattle.range_ledger.specs.Extents.{IsIn};
ghost use Rattle.range_ledger.specs.Runs.{MayFill, extent_of};
ghost use Rattle.range_survey.specs.Fates.{is_settled};
ghost use Rattle.range_survey.specs.declared.fate.Fate.TheVariants as fate;

use dsy_base::fault::Failed;
use dsy_base::view::{Part, View};
use one_lock::hand::{Hand, HandLock};
use range_ledger::run::RunName;
use range_ledger::shard::Shard;
use range_survey::fate::Fate;
use std::sync::Wait;

/// A shard behind a lock of its own.
#[derive(Drop)]
pub struct ShardLock<'i, P: Part, R: RunName> {
    shard: HandLock<Shard<'i, P, R>>,
}

impl<'i, P: Part, R: RunName> ShardLock<'i, P, R> {
    pub(crate) fn new(shard: Shard<'i, P, R>) -> ShardLock<'i, P, R> {
        ShardLock {
            shard: HandLock::new(shard),
        }
    }

    pub(crate) fn into_inner(self) -> Shard<'i, P, R> {
        self.shard.into_inner()
    }

    /// Reads the range of an entry that a worker knows as settled, with this fate, from this shard, which has this
    /// number. Whether it could be read.
    pub fn read<W: Wait>(
        &self,
        rt: &W,
        hand: &mut Hand,
        number: usize,
        entry: usize,
        known: Fate,
        out: &mut [u8],
    ) -> bool
        requires free { hand.old.is_free ≡ true }
        requires inside { IsIn (extent_of R.run number) entry }
        requires size { length out.old ≡ size_of R.run.listing entry }
        requires tells { P.tells ≡ R.run.tells }
        requires kept { IsTrue R.run.tells → known ≡ fate.Kept → IsRightAt R.run.base R.run.listing entry }
        ensures named { result ≡ true → IsTrue R.run.tells →
            digest_of (kind_of R.run.listing) out.new ≡ id_of R.run.listing entry }
        ensures only { result ≡ false → IsTrue R.run.tells → IsTrue P.never_fails → ⊥ }
        ensures free { hand.new.is_free ≡ true }
    {
        let mut guard = self.shard.take(rt, hand);
        let shard = &mut *guard;
        shard.rules();
        if number == shard.number() {
            if shard.settled(entry) {
                let read = shard.read_settled(entry, out).is_ok();
                shard.rules();
                hand.let_go(guard);
                return read;
            }
            if let Fate::Kept = known {
                hand.let_go(guard);
                return false;
            }
        }
        // No lock holds another's shard, and what a worker has put stays settled, which no proof can see.
        for _ in rt.forever() {}
        unreachable!()
    }

    /// Puts its chunk into an entry of this shard, which has this number. The entry then has this fate.
    pub fn put<W: Wait>(
        &self,
        rt: &W,
        hand: &mut Hand,
        number: usize,
        entry: usize,
        chunk: &[u8],
        fate: Fate,
    ) -> Result<(), Failed>
        requires free { hand.old.is_free ≡ true }
        requires inside { IsIn (extent_of R.run number) entry }
        requires may { MayFill R.run entry chunk.now }
        requires fate { is_settled fate ≡ true }
        ensures only { OnErr result (IsTrue P.never_fails → ⊥) }
        ensures free { hand.new.is_free ≡ true }
    {
        let mut guard = self.shard.take(rt, hand);
        let shard = &mut *guard;
        if shard.number() == number {
            let put = shard.put(entry, chunk, fate);
            shard.rules();
            hand.let_go(guard);
            return match put {
                Ok(_) => Ok(()),
                Err(Failed) => Err(Failed),
            };
        }
        // No lock holds another's shard, which no proof can see.
        for _ in rt.forever() {}
        unreachable!()
    }
}
