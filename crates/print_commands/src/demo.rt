//! `demo [-n N] NUMBER SIZE`: an image that NUMBER makes is cut, stored and extracted by N workers, all in memory.

ghost use Rattle.std.specs.Prelude.{◌≤◌, ◌^◌};
ghost use Rattle.command_worlds.specs.Printing.{Printed};
ghost use Rattle.command_worlds.specs.Worlds.{world};
ghost use Rattle.print_commands.specs.Demo.{DemoEnds, Rehearsed};
ghost use Rattle.dsy_base.specs.Disk.{Disk};
ghost use Rattle.dsy_base.specs.Links.{DialState};
ghost use Rattle.image_demo.specs.Figures.{text_of_figures};

use chunk_store::id::DigestKind;
use command_outcome::outcome::Outcome;
use command_worlds::printing::printed;
use dsy_base::sink::Sink;
use image_demo::demo::demo_figures;
use image_demo::fault::DemoFault;
use image_demo::figures::Figures;
use std::alloc::Global;
use std::sync::Wait;
use std::thread::Threads;

// Makes, stores and extracts the image, with this many workers.
fn rehearse<R: Threads + Wait + Sync>(
    rt: &R,
    alloc: Global,
    number: u64,
    size: u64,
    workers: usize,
    kind: DigestKind,
) -> Result<Figures, Outcome>
    requires { size ≤ 2 ^ 29 }
    ensures { Rehearsed kind number size result }
{
    match demo_figures(rt, alloc, number, size, workers, kind) {
        Ok(figures) => Ok(figures),
        Err(DemoFault::Mismatch { entry, id }) => Err(Outcome::Mismatch { entry, got: id }),
        Err(DemoFault::Memory) => Err(Outcome::Memory),
    }
}

// Prints the figures.
#[tactic(auto, using(command_steps::proofs::Texts::text_put))]
fn print<O: Sink>(alloc: Global, figures: &Figures, out: &mut O) -> Result<(), Outcome>
    ensures printed { Printed (text_of_figures figures.now) (O.output out.old) result (O.output out.new) }
{
    printed(figures.put(alloc, out))
}

/// Prints what it takes to make the image of NUMBER and SIZE from a seed and a store in memory, its chunks named by
/// this digest. It is the same whatever the number of workers is: 1 to 32, and what is beyond that counts as the nearer
/// of the two.
pub fn demo<R: Threads + Wait + Sync, O: Sink>(
    rt: &R,
    alloc: Global,
    out: &mut O,
    number: u64,
    size: u64,
    workers: usize,
    kind: DigestKind,
) -> Result<(), Outcome>
    requires { size ≤ 2 ^ 29 }
    ensures ends { (d : Disk) (k : DialState) → DemoEnds kind number size (world d k (O.output out.old)) result
        (world d k (O.output out.new)) }
{
    let figures = rehearse(rt, alloc, number, size, workers, kind)?;
    print(alloc, &figures, out)?;
    Ok(())
}
