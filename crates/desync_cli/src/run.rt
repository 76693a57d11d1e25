//! The top call: words in, an outcome out.

ghost use Rattle.std.specs.Prelude.{◌≡◌, ◌≢◌, ◌⊎◌, All, None, Some, IfSome, false, map, string_bytes, true};
ghost use Rattle.command_outcome.specs.ErrorLines.{error_line_of};
ghost use Rattle.command_outcome.specs.Statuses.{status_of};
ghost use Rattle.command_indexes.specs.Blames.{Blames, Keeps};
ghost use Rattle.command_words.specs.Limits.{Fits};
ghost use Rattle.command_words.specs.declared.command.Command.{Command};
ghost use Rattle.desync_cli.specs.AtHand.{EndsAtHand};
ghost use Rattle.desync_cli.specs.Unfailed.{IndexTaken, NothingFailed, RepliesTaken};
ghost use Rattle.desync_cli.specs.Commands.{Achieves, DesyncEnds, CommandEnds, TellsRefusal, command_of, listens};
ghost use Rattle.desync_cli.specs.Commands.{GroupsTell, parts, sure_types};
ghost use Rattle.desync_cli.specs.Commands.{LeavesBehind, usage_refusal, spares};
ghost use Rattle.desync_cli.specs.Contents.{Contents};
ghost use Rattle.desync_cli.specs.Exact.{IsExact, IsFaultless};
ghost use Rattle.desync_cli.specs.Lines.{TakesLine};
ghost use Rattle.proxy_command.specs.ProxyServing.{look_types};
ghost use Rattle.server_commands.specs.Serving.{heard};
ghost use Rattle.dsy_base.specs.Counts.{Quiet};
ghost use Rattle.command_worlds.specs.Steps.{answer_of, outcome_of};
ghost use Rattle.command_worlds.specs.Worlds.{DiskQuiet, NoFault, world};

use crate::telling::{longest, take_line, tell, tell_no_room};
use crate::words::read_command;
use cache_command::cache::{CacheWords, fill_cache};
use cat_command::cat::{CatWords, cat};
use command_help::help::Topic;
use command_outcome::outcome::{Ended, Outcome};
use command_words::command::Command;
use dsy_base::dial::Dial;
use dsy_base::files::Files;
use dsy_base::image_files::ImageFiles;
use dsy_base::listen::Listen;
use dsy_base::sink::Sink;
use dsy_base::view::Target;
use extract_command::extract::{Extraction, extract};
use image_commands::chop::{ChopWords, chop_into_store};
use image_commands::make::{Making, make};
use print_commands::demo::demo;
use print_commands::help::help;
use print_commands::list_chunks::print_chunks;
use proxy_command::proxy::{ProxyWords, proxy_server};
use server_commands::address::Address;
use server_commands::chunks::{ChunkService, chunk_server};
use server_commands::indexes::index_server;
use std::alloc::Global;
use std::sync::Wait;
use std::thread::Threads;
use store_commands::info::print_info;
use store_commands::prune::prune_folder;
use store_commands::verify::{Verification, verify};
use store_commands::verify_index::check_image;

// Does the command.
#[rattlefmt::skip]
fn perform<R: Threads + Wait + Sync, F: ImageFiles, D: Dial + Send, L: Listen, O: Sink>(
    rt: &R,
    alloc: Global,
    command: Command,
    files: &mut F,
    dial: &mut D,
    listen: &mut L,
    out: &mut O,
) -> Result<(), Outcome>
where
    F::View: Send,
    F::Look: Send,
    F::Inner: Sync,
    F::Folder: Send + Sync,
    <F::Target as Target>::Piece: Send,
    D::Link: Send,
    L::Link: Send,
    requires { Fits command }
    ensures unheard { listens command ≡ false → listen.new ≡ listen.old }
    ensures ends { CommandEnds (sure_types F.Target.never_fails (look_types F.Look.never_fails F.Look.may_lack_memory))
        (heard F.Folder.never_fails (L.state listen.old) (L.state listen.new)) command
        (world (F.disk files.old) (D.state dial.old) (O.output out.old)) result
        (world (F.disk files.new) (D.state dial.new) (O.output out.new)) }
{
    match command {
        Command::Make { store, sizes, workers, digest, index, image } =>
            make(rt, alloc, files, dial, Making { store, sizes, workers, digest, index, image }),
        Command::VerifyIndex { workers, index, image } => check_image(rt, alloc, files, dial, index, image, workers),
        Command::ListChunks { index } => print_chunks(alloc, files, dial, out, index),
        Command::Extract { stores, retries, seeds, cache, in_place, workers, index, target } => {
            let workers = workers as usize;
            let words = Extraction { stores, retries, cache, seeds, in_place, workers, index, target };
            extract(rt, alloc, files, dial, words)
        }
        Command::Cat { stores, retries, offset, length, index } =>
            cat(alloc, files, dial, out, CatWords { stores, retries, offset, length, index }),
        Command::Info { stores, retries, index } => print_info(alloc, files, dial, out, stores, retries, index),
        Command::Help => help(out, Topic::All),
        Command::Version => help(out, Topic::Version),
        Command::HelpOn(kind) => help(out, Topic::Command(kind)),
        Command::Chop { store, workers, index, image } =>
            chop_into_store(rt, alloc, files, dial, ChopWords { store, workers, index, image }),
        Command::Cache { stores, retries, cache, workers, indexes } =>
            fill_cache(rt, alloc, files, dial, CacheWords { stores, retries, cache, workers, indexes }),
        Command::Verify { store, repair, workers, digest } =>
            verify(rt, alloc, files, out, store, Verification { kind: digest, repair, workers }),
        Command::Prune { store, indexes } => prune_folder(alloc, files, dial, store, indexes),
        Command::Demo { number, size, workers, digest } =>
            demo(rt, alloc, out, number, size, workers as usize, digest),
        Command::ChunkServer { store, host, port, writable, workers, digest } => {
            let address = Address { host, port };
            let service = ChunkService { address, kind: digest, writable, workers };
            chunk_server(rt, alloc, files, listen, store, service)
        }
        Command::Proxy { stores, retries, cache, host, port, workers, digest } => {
            let address = Address { host, port };
            let words = ProxyWords { stores, retries, cache, address, kind: digest, workers };
            proxy_server(rt, alloc, files, dial, listen, words)
        }
        Command::IndexServer { store, host, port, writable } =>
            index_server(alloc, files, listen, store, Address { host, port }, writable),
    }
}

// Does what the words say.
fn run<R: Threads + Wait + Sync, F: ImageFiles, D: Dial + Send, L: Listen, O: Sink>(
    rt: &R,
    alloc: Global,
    words: &[String],
    files: &mut F,
    dial: &mut D,
    listen: &mut L,
    out: &mut O,
) -> Result<(), Outcome>
where
    F::View: Send,
    F::Look: Send,
    F::Inner: Sync,
    F::Folder: Send + Sync,
    <F::Target as Target>::Piece: Send,
    D::Link: Send,
    L::Link: Send,
    ensures refused { command_of (map string_bytes words.now) ≡ None → (files.new ≡ files.old)
        × (dial.new ≡ dial.old) × (listen.new ≡ listen.old) × (out.new ≡ out.old) }
    ensures unheard { IfSome (command_of (map string_bytes words.now))
        (λ c. listens c ≡ false → listen.new ≡ listen.old) }
    ensures ends { DesyncEnds (sure_types F.Target.never_fails (look_types F.Look.never_fails F.Look.may_lack_memory))
        (heard F.Folder.never_fails (L.state listen.old) (L.state listen.new))
        (map string_bytes words.now)
        (world (F.disk files.old) (D.state dial.old) (O.output out.old)) result
        (world (F.disk files.new) (D.state dial.new) (O.output out.new)) }
{
    let command = read_command(alloc, words)?;
    perform(rt, alloc, command, files, dial, listen, out)
}

// The outcome of a command.
fn outcome_of(answer: Result<(), Outcome>) -> Outcome
    ensures { result ≡ outcome_of answer }
{
    match answer {
        Ok(()) => Outcome::Done,
        Err(outcome) => outcome,
    }
}

/// Does what the words say, with servers that `dial` connects to and clients that connect to `listen`, prints to `out`,
/// and tells `err` how it ended.
pub fn desync<R: Threads + Wait + Sync, F: ImageFiles, D: Dial + Send, L: Listen, O: Sink, E: Sink>(
    rt: &R,
    alloc: Global,
    words: &[String],
    files: &mut F,
    dial: &mut D,
    listen: &mut L,
    out: &mut O,
    err: &mut E,
) -> Ended
where
    F::View: Send,
    F::Look: Send,
    F::Inner: Sync,
    F::Folder: Send + Sync,
    <F::Target as Target>::Piece: Send,
    D::Link: Send,
    L::Link: Send,
    ensures status { result.status ≡ status_of result.outcome }

    // The whole line is told, or a front of it by a sink that failed. Where no room for a line was obtained at the
    // start the outcome is Memory, and nothing was done.
    ensures line { TakesLine (error_line_of result.outcome) (E.output err.old) (E.output err.new)
        ⊎ ((result.outcome ≡ Outcome.Memory) × ((E.output err.new).taken ≡ (E.output err.old).taken)
        × (files.new ≡ files.old) × (dial.new ≡ dial.old) × (listen.new ≡ listen.old) × (out.new ≡ out.old)) }

    // Words that are no command change nothing, and only they are refused as such.
    ensures usage { TellsRefusal (usage_refusal (map string_bytes words.now)) result.outcome }
    ensures refused { command_of (map string_bytes words.now) ≡ None → (files.new ≡ files.old)
        × (dial.new ≡ dial.old) × (listen.new ≡ listen.old) × (out.new ≡ out.old) }

    // What the command that is done has achieved.
    ensures done { result.outcome ≡ Outcome.Done → IfSome (command_of (map string_bytes words.now))
        (λ c. Achieves (sure_types F.Target.never_fails (look_types F.Look.never_fails F.Look.may_lack_memory))
        (heard F.Folder.never_fails (L.state listen.old) (L.state listen.new)) c
        (world (F.disk files.old) (D.state dial.old) (O.output out.old))
        (world (F.disk files.new) (D.state dial.new) (O.output out.new))) }

    // Each outcome comes only from a step whose refusal it is, where the steps before it have passed.
    ensures ends { DesyncEnds (sure_types F.Target.never_fails (look_types F.Look.never_fails F.Look.may_lack_memory))
        (heard F.Folder.never_fails (L.state listen.old) (L.state listen.new))
        (map string_bytes words.now)
        (world (F.disk files.old) (D.state dial.old) (O.output out.old))
        (answer_of result.outcome)
        (world (F.disk files.new) (D.state dial.new) (O.output out.new)) }
    ensures kept { IfSome (command_of (map string_bytes words.now)) (λ c. Keeps (spares c)
        (world (F.disk files.old) (D.state dial.old) (O.output out.old))
        (world (F.disk files.new) (D.state dial.new) (O.output out.new))) }

    // A command that doesn't listen leaves the listener as it was.
    ensures unheard { IfSome (command_of (map string_bytes words.now))
        (λ c. listens c ≡ false → listen.new ≡ listen.old) }

    // What a refusal leaves of what the command would have written.
    ensures left { result.outcome ≢ Outcome.Done → IfSome (command_of (map string_bytes words.now)) (λ c. LeavesBehind c
        (world (F.disk files.old) (D.state dial.old) (O.output out.old))
        (world (F.disk files.new) (D.state dial.new) (O.output out.new))) }

    // An extraction, a range or a cache whose indexes and chunks are all at hand needs no server: where no call on
    // files and folders fails it is done, or there was no memory, or the output failed, whatever servers send. A group
    // of folders has a chunk at hand if each of them gives it.
    ensures at_hand { DiskQuiet (F.disk files.old) (F.disk files.new) → IfSome (command_of (map string_bytes words.now))
        (λ c. EndsAtHand c (F.disk files.old) result.outcome) }

    // Where nothing fails, and each group is one store or folders never fail by their type, the outcome and what stands
    // afterwards are exactly those of the command, unless there was no memory.
    ensures exactly { IfSome (command_of (map string_bytes words.now)) (λ c. GroupsTell F.Look.never_fails c →
        (x : Contents) →
        IsFaultless (parts (heard F.Folder.never_fails (L.state listen.old) (L.state listen.new)) c)
        (world (F.disk files.old) (D.state dial.old) (O.output out.old))
        (world (F.disk files.new) (D.state dial.new) (O.output out.new)) x
        → IsExact (heard F.Folder.never_fails (L.state listen.old) (L.state listen.new)) c x result.outcome
        (world (F.disk files.new) (D.state dial.new) (O.output out.new))) }

    // A fault is named only where its count rose.
    ensures cause { IfSome (command_of (map string_bytes words.now)) (λ c. Blames
        (parts (heard F.Folder.never_fails (L.state listen.old) (L.state listen.new)) c) result.outcome
        (world (F.disk files.old) (D.state dial.old) (O.output out.old))
        (world (F.disk files.new) (D.state dial.new) (O.output out.new))) }

    // Where no count of faults rises, and each reply of a server was taken, no call has failed.
    ensures quiet { NoFault
        (world (F.disk files.old) (D.state dial.old) (O.output out.old))
        (world (F.disk files.new) (D.state dial.new) (O.output out.new))
        → Quiet (L.state listen.old).faults (L.state listen.new).faults
        → IfSome (command_of (map string_bytes words.now)) (λ c. All (RepliesTaken
        (world (F.disk files.old) (D.state dial.old) (O.output out.old))
        (world (F.disk files.new) (D.state dial.new) (O.output out.new)))
        (parts (heard F.Folder.never_fails (L.state listen.old) (L.state listen.new)) c).stores
        × All (IndexTaken
        (world (F.disk files.old) (D.state dial.old) (O.output out.old))
        (world (F.disk files.new) (D.state dial.new) (O.output out.new)))
        (parts (heard F.Folder.never_fails (L.state listen.old) (L.state listen.new)) c).indexes)
        → NothingFailed result.outcome }
{
    let Ok(mut line) = take_line(alloc, longest(words), err) else {
        tell_no_room(err);
        return Ended {
            status: 1,
            outcome: Outcome::Memory,
        };
    };
    let answer = run(rt, alloc, words, files, dial, listen, out);
    tell(&mut line, &answer, err);
    let outcome = outcome_of(answer);
    let status = outcome.status();
    Ended { status, outcome }
}
