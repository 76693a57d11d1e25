//! Why an assembly can't be prepared.

ghost use Rattle.std.specs.Prelude.{◌≡◌};
ghost use Rattle.image_assembly.specs.Readied.{unprepared};

use assembler::fault::ExtractFault;
use dsy_base::fault::IoFault;

/// Why an assembly couldn't be prepared: the target failed, or there was no memory.
#[derive(Clone, Copy, Debug, PartialEq, Eq)]
pub enum PrepareFault {
    TargetFault,
    Memory,
}

impl PrepareFault {
    /// The answer of an assembly that couldn't be prepared.
    pub(crate) fn fault(self) -> ExtractFault
        ensures { result ≡ unprepared self }
    {
        match self {
            PrepareFault::TargetFault => ExtractFault::TargetFault,
            PrepareFault::Memory => ExtractFault::Memory,
        }
    }
}

/// Why a target that wasn't made into shards can't be assembled.
pub(crate) fn refusal(fault: IoFault) -> PrepareFault
    ensures cause { result ≡ PrepareFault.TargetFault → fault ≡ IoFault.Failed }
{
    match fault {
        IoFault::Failed => PrepareFault::TargetFault,
        IoFault::Memory => PrepareFault::Memory,
    }
}
