//! What a call on the outside world answers when it fails. Want of memory is an answer of its own.

ghost use Rattle.std.specs.Prelude.{◌≡◌, ◌≤◌};
ghost use Rattle.dsy_base.specs.Counts.{raised};

/// The call failed, and counted a fault.
#[derive(Clone, Copy, Debug, PartialEq, Eq)]
pub struct Failed;

/// There was no memory.
#[derive(Clone, Copy, Debug, PartialEq, Eq)]
pub struct Memory;

/// A fault, or no memory.
#[derive(Clone, Copy, Debug, PartialEq, Eq)]
pub enum IoFault {
    Failed,
    Memory,
}

/// No such name, a fault, or no memory.
#[derive(Clone, Copy, Debug, PartialEq, Eq)]
pub enum OpenFault {
    Absent,
    Failed,
    Memory,
}

/// No such file, a file that is longer than the buffer, a fault, or no memory.
#[derive(Clone, Copy, Debug, PartialEq, Eq)]
pub enum FileFault {
    Absent,
    Longer,
    Failed,
    Memory,
}

/// Why a target isn't split: a fault, or no memory.
#[derive(Clone, Copy, Debug, PartialEq, Eq)]
pub enum SplitFault {
    Failed,
    Memory,
}

/// A count of faults after `more` of them. It stays at its greatest value.
pub fn raise(count: u64, more: u64) -> u64
    ensures value { result ≡ raised count more }
    ensures faults { count ≤ result }
{
    count.saturating_add(more)
}

impl From<IoFault> for OpenFault {
    ghost use Rattle.dsy_base.specs.Faults.{opened};

    ghost from_gives = { λ e r. r ≡ opened e };

    fn from(e: IoFault) -> OpenFault {
        match e {
            IoFault::Failed => OpenFault::Failed,
            IoFault::Memory => OpenFault::Memory,
        }
    }
}
