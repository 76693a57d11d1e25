//! How the program is called.

ghost use Rattle.command_help.specs.Help.{help_text};
ghost use Rattle.command_worlds.specs.Printing.{Printed};

use command_help::help::{Topic, put_help};
use command_outcome::outcome::Outcome;
use command_worlds::printing::printed;
use dsy_base::sink::Sink;

/// Prints the text on a topic.
#[tactic(auto, using(command_steps::proofs::Texts::help_put))]
pub fn help<O: Sink>(out: &mut O, topic: Topic) -> Result<(), Outcome>
    ensures ends { Printed (help_text topic) (O.output out.old) result (O.output out.new) }
{
    printed(put_help(topic, out))
}
