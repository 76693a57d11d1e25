//! `list-chunks INDEX`: the id of each chunk that INDEX lists.

ghost use Rattle.command_words.specs.Locations.{NamesIndex};
ghost use Rattle.command_worlds.specs.Worlds.{world};
ghost use Rattle.print_commands.specs.ListChunks.{ListChunksEnds};

use command_indexes::load::load_index;
use command_outcome::outcome::Outcome;
use command_worlds::printing::printed;
use dsy_base::dial::Dial;
use dsy_base::files::Files;
use dsy_base::name::Name;
use dsy_base::sink::Sink;
use std::alloc::Global;
use verify_tool::list::list_chunks;

/// Prints the id of each chunk that INDEX lists.
#[tactic(auto, using(command_steps::proofs::Texts::text_put))]
pub fn print_chunks<F: Files, D: Dial, O: Sink>(
    alloc: Global,
    files: &mut F,
    dial: &mut D,
    out: &mut O,
    index: Name,
) -> Result<(), Outcome>
    requires { NamesIndex index }
    ensures ends { ListChunksEnds index
        (world (F.disk files.old) (D.state dial.old) (O.output out.old)) result
        (world (F.disk files.new) (D.state dial.new) (O.output out.new)) }
{
    let listed = load_index(alloc, files, dial, index)?;
    printed(list_chunks(alloc, &listed, out))?;
    Ok(())
}
