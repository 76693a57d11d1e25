//! Printing how the program is called.

ghost use Rattle.std.specs.Prelude.{◌≡◌, ◌++◌, ◌≤◌, OnOk};
ghost use Rattle.std.specs.Option.{option_map};
ghost use Rattle.dsy_base.specs.Disk.{PutsFront};
ghost use Rattle.command_help.specs.Help.{help_text};
ghost use Rattle.dsy_base.specs.Counts.{CountsFaults};

use crate::texts::{
    CACHE, CAT, CHOP, CHUNK_SERVER, DEMO, EXTRACT, HELP, INDEX_SERVER, INFO, LIST_CHUNKS, MAKE,
    PRUNE, VERIFY, VERIFY_INDEX, VERSION,
};
use command_words::option_table::CommandKind;
use dsy_base::fault::IoFault;
use dsy_base::sink::Sink;

/// What a text tells of: all commands, the version, or one command.
#[derive(Clone, Copy, Debug, Drop)]
pub enum Topic {
    All,
    Version,
    Command(CommandKind),
}

// The text on a command.
fn command_text(kind: CommandKind) -> &'static str
    ensures { result.now ≡ help_text (Topic.Command kind) }
{
    match kind {
        CommandKind::Make => MAKE,
        CommandKind::Extract => EXTRACT,
        CommandKind::Cat => CAT,
        CommandKind::VerifyIndex => VERIFY_INDEX,
        CommandKind::Chop => CHOP,
        CommandKind::Cache => CACHE,
        CommandKind::ListChunks => LIST_CHUNKS,
        CommandKind::Info => INFO,
        CommandKind::Verify => VERIFY,
        CommandKind::Prune => PRUNE,
        CommandKind::ChunkServer => CHUNK_SERVER,
        CommandKind::IndexServer => INDEX_SERVER,
        CommandKind::Demo => DEMO,
    }
}

// The text on a topic.
fn text_on(topic: Topic) -> &'static str
    ensures { result.now ≡ help_text topic }
{
    match topic {
        Topic::All => HELP,
        Topic::Version => VERSION,
        Topic::Command(kind) => command_text(kind),
    }
}

/// Prints the text on a topic.
pub fn put_help<O: Sink>(topic: Topic, out: &mut O) -> Result<(), IoFault>
    ensures ok { OnOk result ((O.output out.new).taken
        ≡ option_map (λ t. t ++ help_text topic) (O.output out.old).taken) }
    // A front of the text was put.
    ensures err { result ≡ Err IoFault.Failed →
        PutsFront (help_text topic) (O.output out.old).taken (O.output out.new).taken }
    ensures kept { result ≡ Err IoFault.Memory → (O.output out.new).taken ≡ (O.output out.old).taken }
    ensures faults { CountsFaults IoFault.Failed IoFault.Memory
        (O.output out.old).faults (O.output out.new).faults result }
{
    let text = text_on(topic);
    out.put(text.as_bytes())
}
