//! The file of an index, read as it comes.

ghost use Rattle.std.specs.Prelude.{ℕ, [], List};
ghost use Rattle.caibx_codec.specs.Answers.{FindsIndex};
ghost use Rattle.index_server.specs.Finding.{HasReadIndex, ReadsAsIndex};

use caibx_codec::index::Index;
use caibx_codec::laws::fault_stays;
use caibx_codec::reader::IndexReader;
use caibx_codec::reading::ReadFault;
use http_fetch::taker::Taker;
use std::alloc::Global;

/// Reads the file of an index as it comes. Behind a fault it reads nothing.
#[derive(Drop)]
pub(crate) struct FileTaker {
    reader: IndexReader,
    fault: Option<ReadFault>,
}

impl FileTaker {
    /// One that has taken nothing.
    pub(crate) fn new(alloc: Global) -> FileTaker
        ensures none { HasReadIndex result.fault result.reader [] }
    {
        FileTaker {
            reader: IndexReader::new(alloc),
            fault: None,
        }
    }

    /// The index whose file was taken.
    pub(crate) fn finish(self) -> Result<Index, ReadFault>
        ensures exactly { (b : List ℕ) → HasReadIndex self.fault self.reader b → FindsIndex b result }
        ensures first { (b : List ℕ) → HasReadIndex self.fault self.reader b → ReadsAsIndex b result }
    {
        fault_stays();
        match self.fault {
            Some(fault) => Err(fault),
            None => self.reader.finish(),
        }
    }
}

impl Taker for FileTaker {
    ghost use Rattle.index_server.specs.Finding.{HasReadIndex};

    ghost has_taken = { λ s b. HasReadIndex s.fault s.reader b };

    fn take(&mut self, piece: &[u8]) {
        fault_stays();
        if self.fault.is_some() {
            return;
        }
        if let Err(fault) = self.reader.feed(piece) {
            self.fault = Some(fault);
        }
    }
}
