//! `make -s STORE INDEX IMAGE`: INDEX becomes the index of IMAGE, and STORE holds each of its chunks.

ghost use Rattle.std.specs.Prelude.{◌≡◌, ℕ, ◌<◌, List, Option, map, vec_len, All};
ghost use Rattle.std.specs.Prelude.{Ok, Err, IfErr, IfOk, IfSome, IsSome};
ghost use Rattle.buzhash_cut.specs.Image.{AreOfOneImage};
ghost use Rattle.image_views.specs.Views.{AreOf};
ghost use Rattle.command_worlds.specs.Worlds.{world};
ghost use Rattle.image_commands.specs.Make.{IndexWritten, MakeEnds, SizesJudged, StoredInto, answer_of_storing};
ghost use Rattle.dsy_base.specs.Disk.{Output};

use buzhash_cut::sizes::CutSizes;
use chunk_store::id::DigestKind;
use command_outcome::outcome::Outcome;
use command_steps::taken_stores::{give_source, take_source};
use command_words::command::Location;
use dsy_base::dial::Dial;
use dsy_base::fault::IoFault;
use dsy_base::files::Files;
use dsy_base::image_files::ImageFiles;
use dsy_base::inner_folders::InnerFolders;
use dsy_base::name::Name;
use dsy_base::view::View;
use image_store::put_chunks::MakeFault;
use image_store::store_image::store_image;
use image_views::views::{end_views, open_views};
use std::alloc::Global;
use std::thread::Threads;

// The sizes, unless they are refused.
fn judge(sizes: [u64; 3]) -> Result<CutSizes, Outcome>
    ensures { SizesJudged sizes result }
{
    match CutSizes::new(sizes[0], sizes[1], sizes[2]) {
        Ok(sizes) => Ok(sizes),
        Err(fault) => Err(Outcome::Sizes(fault)),
    }
}

/// The words of a `make`: the sizes are the least, the average and the greatest chunk size in bytes, not yet judged.
#[derive(Drop)]
pub struct Making {
    pub store: Location,
    pub sizes: [u64; 3],
    pub workers: u32,
    pub digest: DigestKind,
    pub index: Name,
    pub image: Name,
}

// How an image is indexed: the sizes by which it is cut, and the digest that names its chunks.
#[derive(Clone, Copy)]
struct Indexing {
    sizes: CutSizes,
    digest: DigestKind,
}

// The subfolders of a store's folder, which contracts see under the place of the store.
#[derive(Drop)]
struct Subfolders<I> {
    inner: I,
}

impl<I: InnerFolders> InnerFolders for Subfolders<I> {
    ghost use Rattle.command_steps.specs.AnyStores.{code_of};
    ghost use Rattle.command_words.specs.declared.command.Location.TheVariants as locations;

    ghost place = { λ s. code_of (locations.Folder (I.place s.inner)) };

    fn make_for(&self, path: &str) {
        self.inner.make_for(path);
    }
}

// The subfolders of the store's folder, where it is one.
fn inner_of<F: ImageFiles>(files: &F, store: &Location) -> Option<Subfolders<F::Inner>>
    ensures place { IfSome result (λ s. store.now ≡ Location.Folder (F.Inner.place s.inner)) }
{
    let Location::Folder(name) = store else {
        return None;
    };
    let inner = files.inner(name.as_str())?;
    Some(Subfolders { inner })
}

// The answer of storing an image.
fn answer_of(stored: Result<Vec<u8>, MakeFault>) -> Result<Vec<u8>, Outcome>
    ensures { result ≡ answer_of_storing stored }
{
    match stored {
        Ok(bytes) => Ok(bytes),
        Err(MakeFault::ImageFault) => Err(Outcome::ImageFault),
        Err(MakeFault::TooManyItems) => Err(Outcome::TooManyItems),
        Err(MakeFault::Changed { entry, was, got }) => Err(Outcome::Changed { entry, was, got }),
        Err(MakeFault::StoreFault) => Err(Outcome::StoreFault { store: 0 }),
        Err(MakeFault::Memory) => Err(Outcome::Memory),
    }
}

// Takes the store, stores the image in it, and gives the bytes of its index file. Views and store are given back,
// whatever the answer is.
fn store_into<R: Threads + Sync, F: ImageFiles, D: Dial>(
    rt: &R,
    alloc: Global,
    files: &mut F,
    dial: &mut D,
    by: &Indexing,
    store: &Location,
    views: Vec<F::View>,
) -> Result<Vec<u8>, Outcome>
where
    F::View: Send,
    F::Inner: Sync,
    requires some { 0 < vec_len views }
    requires alike { AreOfOneImage (map F.View.held views.items) }
    requires known { All (λ v. IsSome ((F.disk files.old).file_counts (F.View.held v).name)) views.items }
    requires fresh { All (λ v. F.View.faults v ≡ 0) views.items }
    ensures ok { IfOk result (λ b. (q : List ℕ) (told : Option (List ℕ)) →
        AreOf q told (map F.View.held views.items) → (p : Output) →
        StoredInto store.now by.now.digest by.now.sizes q told
        (world (F.disk files.old) (D.state dial.old) p) (Ok b.items)
        (world (F.disk files.new) (D.state dial.new) p)) }
    ensures err { IfErr result (λ o. (q : List ℕ) (told : Option (List ℕ)) →
        AreOf q told (map F.View.held views.items) → (p : Output) →
        StoredInto store.now by.now.digest by.now.sizes q told
        (world (F.disk files.old) (D.state dial.old) p) (Err o)
        (world (F.disk files.new) (D.state dial.new) p)) }
{
    let taken = match take_source(alloc, files, dial, store) {
        Ok(taken) => taken,
        Err(outcome) => {
            end_views(files, views);
            return Err(outcome);
        }
    };
    let (views, taken, stored) = store_image(
        rt,
        alloc,
        &by.sizes,
        by.digest,
        views,
        taken,
        &inner_of(files, store),
    );
    end_views(files, views);
    give_source(files, dial, store, taken);
    answer_of(stored)
}

// Writes the index file of this name.
fn write_index<F: Files>(files: &mut F, name: Name, bytes: &[u8]) -> Result<(), Outcome>
    ensures { IndexWritten name bytes.now (F.disk files.old) result (F.disk files.new) }
{
    match files.replace(name.as_str(), bytes) {
        Ok(()) => Ok(()),
        Err(IoFault::Failed) => Err(Outcome::FileFault { name }),
        Err(IoFault::Memory) => Err(Outcome::Memory),
    }
}

/// Makes INDEX the index of IMAGE, cut by the sizes with this many workers and its chunks named by the digest, and puts
/// its chunks into STORE. What STORE holds already is left where it is right.
pub fn make<R: Threads + Sync, F: ImageFiles, D: Dial>(
    rt: &R,
    alloc: Global,
    files: &mut F,
    dial: &mut D,
    words: Making,
) -> Result<(), Outcome>
where
    F::View: Send,
    F::Inner: Sync,
    ensures ends { (p : Output) → MakeEnds words.store words.digest words.sizes words.index words.image
        (world (F.disk files.old) (D.state dial.old) p) result
        (world (F.disk files.new) (D.state dial.new) p) }
{
    let Making {
        store,
        sizes,
        workers,
        digest,
        index,
        image,
    } = words;
    let sizes = judge(sizes)?;
    let by = Indexing { sizes, digest };
    let views = open_views(alloc, files, image, workers)?;
    let bytes = store_into(rt, alloc, files, dial, &by, &store, views)?;
    write_index(files, index, &bytes)
}
