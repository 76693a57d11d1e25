//! `info -s STORE.. -e RETRIES INDEX`: the figures of an index, and how many of its ids the stores hold where some are
//! given. The stores may stand in groups.

ghost use Rattle.std.specs.Prelude.{◌≡◌, ◌≤◌, length, Some};
ghost use Rattle.caibx_codec.specs.Asks.{IsListedHas};
ghost use Rattle.command_groups.specs.Asking.{GroupsAsked};
ghost use Rattle.command_groups.specs.Groups.{AreGroups, stores_of};
ghost use Rattle.command_steps.specs.Sources.{ConsultsStores, storage};
ghost use Rattle.command_words.specs.Locations.{NamesIndex};
ghost use Rattle.command_worlds.specs.Printing.{Printed};
ghost use Rattle.command_worlds.specs.Worlds.{world};
ghost use Rattle.store_commands.specs.Info.{CountedInStores, InfoEnds, asks_once};
ghost use Rattle.verify_tool.specs.Texts.{text_of_info};

use caibx_codec::index::Index;
use command_groups::groups::{close_groups, open_groups};
use command_groups::numbers::first_store;
use command_indexes::load::load_index;
use command_outcome::outcome::Outcome;
use command_words::command::{Groups, Locations};
use command_worlds::printing::printed;
use dsy_base::dial::Dial;
use dsy_base::files::Files;
use dsy_base::name::Name;
use dsy_base::sink::Sink;
use std::alloc::Global;
use store_chain::chain::Chain;
use store_chain::refused::HasFault;
use verify_tool::count::count_in_store;
use verify_tool::info::info;

// How many different listed ids the stores hold, where some are given.
fn count<F: Files, D: Dial>(
    alloc: Global,
    files: &mut F,
    dial: &mut D,
    index: &Index,
    groups: &[Locations],
    retries: u32,
) -> Result<Option<u64>, Outcome>
    requires groups { 1 ≤ length groups.now → AreGroups groups.now retries }
    ensures counted { CountedInStores F.Look.never_fails retries (storage (F.disk files.old) (D.state dial.old))
        (storage (F.disk files.new) (D.state dial.new)) groups.now index.now result }
    ensures kept { ConsultsStores (stores_of groups.now) (storage (F.disk files.old) (D.state dial.old))
        (storage (F.disk files.new) (D.state dial.new)) }
    ensures asks { GroupsAsked retries (λ id. 0) (asks_once index.now) (IsListedHas index.now) groups.now
        (D.state dial.old).ended (D.state dial.new).ended }
{
    if groups.is_empty() {
        return Ok(None);
    }
    let opened = open_groups(alloc, files, dial, groups, retries)?;
    let mut chain = Chain::with_kind(index.kind(), opened);
    let counted = count_in_store(alloc, index, &mut chain);
    close_groups(files, dial, chain.into_stores());
    match counted {
        Ok(n) => Ok(Some(n)),
        Err(fault) => match fault {
            HasFault::StoreFault { store: group } => {
                let store = first_store(groups, group as usize) as u32;
                Err(Outcome::StoreFault { store })
            }
            HasFault::Memory => Err(Outcome::Memory),
        },
    }
}

// Prints the figures.
#[tactic(auto, using(command_steps::proofs::Texts::text_put))]
fn print<O: Sink>(
    alloc: Global,
    index: &Index,
    held: Option<u64>,
    out: &mut O,
) -> Result<(), Outcome>
    ensures printed { Printed (text_of_info index.now held) (O.output out.old) result (O.output out.new) }
{
    printed(info(alloc, index, held, out))
}

/// Prints the figures of INDEX, with the number of its ids in the stores where some are given. A call on a store that
/// fails is made up to `retries` times more.
pub fn print_info<F: Files, D: Dial, O: Sink>(
    alloc: Global,
    files: &mut F,
    dial: &mut D,
    out: &mut O,
    stores: Groups,
    retries: u32,
    index: Name,
) -> Result<(), Outcome>
    requires groups { 1 ≤ length stores → AreGroups stores retries }
    requires named { NamesIndex index }
    ensures ends { InfoEnds F.Look.never_fails stores retries index
        (world (F.disk files.old) (D.state dial.old) (O.output out.old)) result
        (world (F.disk files.new) (D.state dial.new) (O.output out.new)) }
{
    let listed = load_index(alloc, files, dial, index)?;
    let held = count(alloc, files, dial, &listed, stores.as_slice(), retries)?;
    print(alloc, &listed, held, out)?;
    Ok(())
}
