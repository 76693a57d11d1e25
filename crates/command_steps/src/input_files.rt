//! Reading an index, and opening an image.

ghost use Rattle.std.specs.Prelude.{◌≡◌, [], ◌∷◌, IfOk, IfErr, IsSome, OnOk};
ghost use Rattle.command_steps.specs.InputFiles.{Holds, Listed, NotOpened, NotRead};
ghost use Rattle.command_steps.specs.Uses.{Uses};
ghost use Rattle.command_worlds.specs.Worlds.{Reads};

use caibx_codec::index::Index;
use caibx_codec::reading::{ViewFault, read_index};
use command_outcome::outcome::Outcome;
use dsy_base::fault::OpenFault;
use dsy_base::files::Files;
use dsy_base::name::Name;
use std::alloc::Global;

/// Reads the index file of this name.
pub fn load_index_file<F: Files>(alloc: Global, files: &mut F, name: Name) -> Result<Index, Outcome>
    ensures ok { IfOk result (Listed (F.disk files.old) name) }
    ensures err { IfErr result (NotRead (F.disk files.old) (F.disk files.new) name) }
    ensures kept { Reads (F.disk files.old) (F.disk files.new) }
    ensures used { Uses (name ∷ []) [] (F.disk files.old) (F.disk files.new) }
{
    let mut view = match files.view(name.as_str()) {
        Ok(view) => view,
        Err(OpenFault::Absent) => return Err(Outcome::NoFile { name }),
        Err(OpenFault::Failed) => return Err(Outcome::FileFault { name }),
        Err(OpenFault::Memory) => return Err(Outcome::Memory),
    };
    let read = read_index(alloc, &mut view);
    files.end_view(view);
    match read {
        Ok(index) => Ok(index),
        Err(ViewFault::Bad(fault)) => Err(Outcome::BadIndex { name, fault }),
        Err(ViewFault::Failed) => Err(Outcome::FileFault { name }),
        Err(ViewFault::Memory) => Err(Outcome::Memory),
    }
}

/// What a command ends with whose image isn't opened.
pub fn unopened(fault: OpenFault, name: Name) -> Outcome
    ensures absent { fault ≡ OpenFault.Absent → result ≡ Outcome.NoFile (name) }
    ensures failed { fault ≡ OpenFault.Failed → result ≡ Outcome.ImageFault }
    ensures lacking { fault ≡ OpenFault.Memory → result ≡ Outcome.Memory }
{
    match fault {
        OpenFault::Absent => Outcome::NoFile { name },
        OpenFault::Failed => Outcome::ImageFault,
        OpenFault::Memory => Outcome::Memory,
    }
}

/// Opens the image of this name.
pub fn open_image<F: Files>(files: &mut F, name: Name) -> Result<F::View, Outcome>
    ensures ok { IfOk result (λ v. Holds (F.disk files.old) name (F.View.held v).bytes) }
    ensures fresh { IfOk result (λ v. (F.View.faults v ≡ 0) × ((F.View.held v).name ≡ name)) }
    ensures known { OnOk result (IsSome ((F.disk files.new).file_counts name)) }
    ensures err { IfErr result (NotOpened (F.disk files.old) (F.disk files.new) name) }
    ensures kept { Reads (F.disk files.old) (F.disk files.new) }
    ensures used { Uses (name ∷ []) [] (F.disk files.old) (F.disk files.new) }
{
    match files.view(name.as_str()) {
        Ok(view) => Ok(view),
        Err(fault) => Err(unopened(fault, name)),
    }
}
