//! What comes back from an assembly.

use assembler::fault::ExtractFault;
use cache_store::shelf::CacheShelf;
use chunk_sources::kit::Kit;
use chunk_store::store::Store;
use dsy_base::folder::Folder;
use dsy_base::view::{Target, View};
use range_survey::report::Report;

/// What an assembly hands back: what was handed over, the kits in their order, and the answer.
#[derive(Drop)]
pub struct Assembled<T: Target, S: Store, V: View, F: Folder> {
    pub target: T,
    pub kits: Vec<Kit<S, V>>,
    pub cache: Option<CacheShelf<F>>,
    pub answer: Result<Report, ExtractFault>,
}
