//! Chains of groups of stores for the workers of a command, each with looks and dialers of its own.

ghost use Rattle.std.specs.Prelude.{◌≡◌, [], List, ◌-◌, ◌≤◌, All, IfErr, IfOk, OnOk, length, vec_len};
ghost use Rattle.command_groups.specs.Chains.{CanGiveChain, IsChainGiven, IsChainOpened, chain_groups};
ghost use Rattle.command_groups.specs.Groups.{AreGroups, stores_of};
ghost use Rattle.command_steps.specs.Sources.{AllThere, FirstUnreached, storage};
ghost use Rattle.command_steps.specs.Turns.{GivenInTurn};
ghost use Rattle.command_steps.specs.Uses.{Uses, folders_among};
ghost use Rattle.command_worlds.specs.Worlds.{Reads};
ghost use Rattle.command_words.specs.declared.command.Location.{Location};

use crate::groups::{close_groups, drop_groups, open_groups};
use chunk_store::id::DigestKind;
use command_outcome::outcome::Outcome;
use command_steps::any_store::AnyStore;
use command_words::command::Locations;
use dsy_base::dial::Dial;
use dsy_base::files::Files;
use std::alloc::Global;
use store_chain::chain::Chain;
use store_group::group::Group;

/// Opens the groups of one chain, whose chunks are named by this digest.
pub fn open_chain<F: Files, D: Dial>(
    alloc: Global,
    files: &mut F,
    dial: &D,
    kind: DigestKind,
    groups: &[Locations],
    retries: u32,
) -> Result<Chain<Group<AnyStore<F::Look, D>>>, Outcome>
    requires groups { AreGroups groups.now retries }
    ensures there { OnOk result (AllThere (F.disk files.old) (stores_of groups.now)) }
    ensures ok { IfOk result
        (IsChainOpened F.Look.Look D.state (F.disk files.old) (F.disk files.new) groups.now retries) }
    ensures kind { IfOk result (λ c. c.kind ≡ kind) }
    ensures err { IfErr result (FirstUnreached (F.disk files.old) (F.disk files.new) (stores_of groups.now)) }
    ensures kept { Reads (F.disk files.old) (F.disk files.new) }
    ensures used { Uses [] (folders_among (stores_of groups.now)) (F.disk files.old) (F.disk files.new) }
{
    match open_groups(alloc, files, dial, groups, retries) {
        Ok(opened) => Ok(Chain::with_kind(kind, opened)),
        Err(outcome) => Err(outcome),
    }
}

/// Opens the groups once more for each worker but the first. Where they can't be, for whatever reason, the command goes
/// on with the chains that were opened before. No server is asked yet.
pub fn open_chains<F: Files, D: Dial>(
    alloc: Global,
    files: &mut F,
    dial: &D,
    kind: DigestKind,
    groups: &[Locations],
    retries: u32,
    workers: usize,
) -> Vec<Chain<Group<AnyStore<F::Look, D>>>>
    requires groups { AreGroups groups.now retries }
    ensures opened { All (IsChainOpened F.Look.Look D.state (F.disk files.old) (F.disk files.new) groups.now retries)
        result.items }
    ensures kinds { All (λ c. c.kind ≡ kind) result.items }
    ensures few { vec_len result ≤ workers - 1 }
    ensures kept { Reads (F.disk files.old) (F.disk files.new) }
    ensures used { Uses [] (folders_among (stores_of groups.now)) (F.disk files.old) (F.disk files.new) }
{
    let Ok(mut chains) = Vec::with_capacity(alloc, workers) else {
        return Vec::new(alloc);
    };
    for _opened in 1..workers {
        let Ok(chain) = open_chain(alloc, files, dial, kind, groups, retries) else {
            return chains;
        };
        chains.push(chain).unwrap();
    }
    chains
}

// Gives one back, and joins what its servers' stores have dialed.
fn close_chain<F: Files, D: Dial>(
    files: &mut F,
    dial: &mut D,
    chain: Chain<Group<AnyStore<F::Look, D>>>,
)
    requires given { CanGiveChain F.Look.Look (F.disk files.old) chain }
    ensures given { IsChainGiven F.Look.Look D.state chain
        (storage (F.disk files.old) (D.state dial.old)) (storage (F.disk files.new) (D.state dial.new)) }
{
    close_groups(files, dial, chain.into_stores())
}

/// Gives all of them back, the last first, and joins what their servers' stores have dialed.
pub fn close_chains<F: Files, D: Dial>(
    files: &mut F,
    dial: &mut D,
    mut chains: Vec<Chain<Group<AnyStore<F::Look, D>>>>,
)
    requires given { All (CanGiveChain F.Look.Look (F.disk files.old)) chains.items }
    ensures given { GivenInTurn (IsChainGiven F.Look.Look D.state) chains.items
        (storage (F.disk files.old) (D.state dial.old)) (storage (F.disk files.new) (D.state dial.new)) }
{
    match chains.pop() {
        Some(chain) => {
            close_chain(files, dial, chain);
            close_chains(files, dial, chains)
        }
        None => (),
    }
}

/// Lets one go that was never asked.
pub fn drop_chain<F: Files, D: Dial>(files: &mut F, chain: Chain<Group<AnyStore<F::Look, D>>>)
    requires given { CanGiveChain F.Look.Look (F.disk files.old) chain }
    ensures kept { Reads (F.disk files.old) (F.disk files.new) }
    ensures used { Uses [] (folders_among (stores_of (chain_groups F.Look.Look chain)))
        (F.disk files.old) (F.disk files.new) }
{
    drop_groups(files, chain.into_stores())
}

/// Lets all of them go that were never asked.
pub fn drop_chains<F: Files, D: Dial>(
    files: &mut F,
    mut chains: Vec<Chain<Group<AnyStore<F::Look, D>>>>,
)
    requires given { All (CanGiveChain F.Look.Look (F.disk files.old)) chains.items }
    ensures kept { Reads (F.disk files.old) (F.disk files.new) }
    ensures used { (groups : List (List Location)) → All (λ c. chain_groups F.Look.Look c ≡ groups) chains.items →
        Uses [] (folders_among (stores_of groups)) (F.disk files.old) (F.disk files.new) }
{
    match chains.pop() {
        Some(chain) => {
            drop_chain(files, chain);
            drop_chains(files, chains)
        }
        None => (),
    }
}
