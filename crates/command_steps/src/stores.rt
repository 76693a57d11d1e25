//! What words name as stores, and why their folders weren't reached.

ghost use Rattle.std.specs.Prelude.{◌≡◌};
ghost use Rattle.command_steps.specs.Stores.{RefusesOpening, folder_name};

use command_outcome::outcome::Outcome;
use command_words::command::Location;
use dsy_base::fault::OpenFault;
use dsy_base::name::Name;
use std::alloc::Global;

// The name of a store's folder.
pub(crate) fn name_of(store: &Location) -> &str
    ensures { result.now ≡ folder_name store.now }
{
    match store {
        Location::Folder(name) => name.as_str(),
        Location::Http { .. } => "",
    }
}

// The outcome where a folder isn't reached.
pub(crate) fn not_reached(alloc: Global, name: &str, fault: OpenFault) -> Outcome
    ensures { RefusesOpening name.now fault result }
{
    let Ok(name) = Name::of(alloc, name) else {
        return Outcome::Memory;
    };
    match fault {
        OpenFault::Absent => Outcome::NoFolder { name },
        OpenFault::Failed => Outcome::FileFault { name },
        OpenFault::Memory => Outcome::Memory,
    }
}
