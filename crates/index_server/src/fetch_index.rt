//! An index fetched from a server. Sizes are in bytes.

ghost use Rattle.std.specs.Prelude.{◌≡◌, ◌≢◌, ℕ, List, Err};
ghost use Rattle.index_server.specs.Fetching.{Fetched, ReadsFetched, fetch_fault};
ghost use Rattle.index_server.specs.Finding.{HasReadIndex};

use crate::file_taker::FileTaker;
use caibx_codec::index::Index;
use caibx_codec::reading::ReadFault;
use caibx_fields::fault::IndexFault;
use caibx_fields::format::FILE_LIMIT;
use dsy_base::dial::Dial;
use http_fetch::fetch::{Unfetched, fetch};
use http_frames::fault::WireFault;
use std::alloc::Global;

/// Why no index was fetched.
#[derive(Clone, Copy, Debug, PartialEq, Eq)]
pub enum FetchFault {
    /// The status is 404.
    Absent,
    /// The body of a 200 isn't the file of a valid index.
    Bad(IndexFault),
    /// The status is neither 200 nor 404.
    Status(u16),
    /// The reply isn't a whole one of HTTP. `BodyTooLong`: its body has more bytes than the longest index file.
    Wire(WireFault),
    /// The dialer or the connection failed.
    Failed,
    Memory,
}

// Why no index was fetched where its file wasn't.
fn fetch_fault(unfetched: Unfetched) -> FetchFault
    ensures { result ≡ fetch_fault unfetched }
{
    match unfetched {
        Unfetched::Absent => FetchFault::Absent,
        Unfetched::Status(status) => FetchFault::Status(status),
        Unfetched::Wire(fault) => FetchFault::Wire(fault),
        Unfetched::Failed => FetchFault::Failed,
        Unfetched::Memory => FetchFault::Memory,
    }
}

// The index whose file was fetched.
fn read_fetched(file: FileTaker) -> Result<Index, FetchFault>
    ensures value { (b : List ℕ) → HasReadIndex file.fault file.reader b → ReadsFetched b result }
    ensures only { result ≢ Err FetchFault.Failed }
{
    match file.finish() {
        Ok(index) => Ok(index),
        Err(ReadFault::Bad(fault)) => Err(FetchFault::Bad(fault)),
        Err(ReadFault::Over | ReadFault::Memory) => Err(FetchFault::Memory),
    }
}

/// Fetches the index whose file is the body of a 200 to one GET of this path. Host and path are written as they stand:
/// the path begins with `/`, and neither has a space or the end of a line in it.
pub fn fetch_index<D: Dial>(
    alloc: Global,
    dial: &mut D,
    host: &str,
    port: u16,
    path: &str,
) -> Result<Index, FetchFault>
    ensures ends { Fetched host.now port path.now (D.state dial.old) result (D.state dial.new) }
{
    let mut file = FileTaker::new(alloc);
    match fetch(
        alloc,
        dial,
        host,
        port,
        path,
        FILE_LIMIT as usize,
        &mut file,
    ) {
        Ok(()) => read_fetched(file),
        Err(unfetched) => Err(fetch_fault(unfetched)),
    }
}
