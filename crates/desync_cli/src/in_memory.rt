//! The top call over files, folders and sinks in memory, which tell all that they hold.

ghost use Rattle.std.specs.Prelude.{◌≡◌, IfSome, Some, false, map, string_bytes, true};
ghost use Rattle.command_worlds.specs.Steps.{answer_of};
ghost use Rattle.command_worlds.specs.Worlds.{world};
ghost use Rattle.desync_cli.specs.Commands.{Achieves, DesyncEnds, command_of, sure_types};
ghost use Rattle.desync_cli.specs.RoundTrip.{InTurn, RoundTrip};
ghost use Rattle.proxy_command.specs.ProxyServing.{look_types};
ghost use Rattle.server_commands.specs.Serving.{heard};
ghost use Rattle.dsy_base.specs.Disk.{Output};
ghost use Rattle.dsy_forms.specs.MemFiles.{disk_of, files_of};
ghost use Rattle.dsy_forms.specs.MemSinks.{output_of};

use crate::run::desync;
use buzhash_cut::laws::cutting;
use caibx_codec::laws::one_index;
use command_outcome::outcome::{Ended, Outcome};
use dsy_base::dial::Dial;
use dsy_base::listen::Listen;
use dsy_forms::mem_files::MemFiles;
use dsy_forms::mem_sink::MemSink;
use std::alloc::Global;
use std::sync::Wait;
use std::thread::Threads;

/// Files and folders in memory, the servers and the clients of a command, and where it prints and tells.
#[derive(Drop)]
pub struct MemWorld<D, L> {
    pub files: MemFiles,
    pub dial: D,
    pub listen: L,
    pub out: MemSink,
    pub err: MemSink,
}

/// Does what the words say. Here each clause of `desync` speaks of what stands under the names, with nothing left open.
pub fn desync_in_memory<R: Threads + Wait + Sync, D: Dial + Send, L: Listen>(
    rt: &R,
    alloc: Global,
    words: &[String],
    memory: &mut MemWorld<D, L>,
) -> Ended
where
    D::Link: Send,
    L::Link: Send,
    ensures done { result.outcome ≡ Outcome.Done → IfSome (command_of (map string_bytes words.now))
        (λ c. Achieves (sure_types false (look_types false true))
        (heard false (L.state memory.old.listen) (L.state memory.new.listen)) c
        (world (disk_of memory.old.files) (D.state memory.old.dial) (output_of memory.old.out))
        (world (disk_of memory.new.files) (D.state memory.new.dial) (output_of memory.new.out))) }
    ensures ends { DesyncEnds (sure_types false (look_types false true))
        (heard false (L.state memory.old.listen) (L.state memory.new.listen))
        (map string_bytes words.now)
        (world (disk_of memory.old.files) (D.state memory.old.dial) (output_of memory.old.out))
        (answer_of result.outcome)
        (world (disk_of memory.new.files) (D.state memory.new.dial) (output_of memory.new.out)) }
{
    desync(
        rt,
        alloc,
        words,
        &mut memory.files,
        &mut memory.dial,
        &mut memory.listen,
        &mut memory.out,
        &mut memory.err,
    )
}

/// Does what the first words say and then what the second say. Where these are a `make` and an `extract` of its
/// index, and both are done, the image has come back.
pub fn make_then_extract<R: Threads + Wait + Sync, D: Dial + Send, L: Listen>(
    rt: &R,
    alloc: Global,
    make: &[String],
    extract: &[String],
    memory: &mut MemWorld<D, L>,
) -> (Ended, Ended)
where
    D::Link: Send,
    L::Link: Send,
    ensures ends { InTurn (L.state memory.old.listen) (L.state memory.new.listen)
        (map string_bytes make.now) (map string_bytes extract.now)
        (world (disk_of memory.old.files) (D.state memory.old.dial) (output_of memory.old.out))
        result.0.outcome result.1.outcome
        (world (disk_of memory.new.files) (D.state memory.new.dial) (output_of memory.new.out)) }
    ensures done { result.0.outcome ≡ Outcome.Done → result.1.outcome ≡ Outcome.Done →
        RoundTrip (command_of (map string_bytes make.now)) (command_of (map string_bytes extract.now))
        (files_of memory.old.files) (files_of memory.new.files) }
{
    one_index();
    cutting();
    let made = desync_in_memory(rt, alloc, make, memory);
    let extracted = desync_in_memory(rt, alloc, extract, memory);
    (made, extracted)
}
