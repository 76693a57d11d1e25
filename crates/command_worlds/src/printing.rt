//! Printing a text.

ghost use Rattle.std.specs.Prelude.{◌≡◌};
ghost use Rattle.command_worlds.specs.Printing.{answer_of_put};

use command_outcome::outcome::Outcome;
use dsy_base::fault::IoFault;

/// The answer after printing.
pub fn printed(put: Result<(), IoFault>) -> Result<(), Outcome>
    ensures { result ≡ answer_of_put put }
{
    match put {
        Ok(()) => Ok(()),
        Err(IoFault::Failed) => Err(Outcome::OutFault),
        Err(IoFault::Memory) => Err(Outcome::Memory),
    }
}
