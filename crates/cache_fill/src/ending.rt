//! How filling ended beside further workers.

ghost use Rattle.std.specs.Prelude.{◌≡◌, None, IfSome, IfNone};
ghost use Rattle.cache_fill.specs.FillProgress.{EndedSo, TellsLost};

use crate::entry::Stop;
use crate::fill::{FillEnded, FillFault};
use crate::want_reader::WantReader;
use chunk_store::store::Store;

// A refusal that a further worker had, and its number.
#[derive(Clone, Copy)]
struct Told {
    worker: usize,
    fault: FillFault,
}

// How one of the readers lost this entry, if one has.
fn told_of<S: Store>(readers: &[WantReader<'_, S>], entry: usize) -> Option<Told>
    ensures { IfSome result (λ t. TellsLost entry readers.now t.worker t.fault) }
{
    for reader in readers {
        if let Some(lost) = reader.lost {
            if lost.entry == entry {
                return Some(Told {
                    worker: reader.number,
                    fault: lost.fault,
                });
            }
        }
    }
    None
}

/// How filling ended that stopped so at this entry. What a further worker was to read and hasn't, it was refused, or it
/// had no memory.
pub(crate) fn ended<S: Store>(
    stopped: Result<(), Stop>,
    entry: usize,
    readers: &[WantReader<'_, S>],
) -> FillEnded
    ensures { EndedSo entry readers.now stopped result.worker result.result }
{
    match stopped {
        Ok(()) => FillEnded {
            result: Ok(()),
            worker: 0,
        },
        Err(Stop::Refused(fault)) => FillEnded {
            result: Err(fault),
            worker: 0,
        },
        Err(Stop::Unread) => match told_of(readers, entry) {
            Some(told) => FillEnded {
                result: Err(told.fault),
                worker: told.worker,
            },
            None => FillEnded {
                result: Err(FillFault::Memory),
                worker: 0,
            },
        },
    }
}
