//! `chop -s STORE -n N INDEX IMAGE`: STORE holds each chunk that INDEX lists, which are IMAGE's.

ghost use Rattle.std.specs.Prelude.{◌≡◌};
ghost use Rattle.command_words.specs.Locations.{NamesIndex};
ghost use Rattle.command_worlds.specs.Worlds.{world};
ghost use Rattle.image_commands.specs.Chop.{ChopEnds, answer_of_chop};
ghost use Rattle.dsy_base.specs.Disk.{Output};

use command_indexes::load::load_index;
use command_outcome::outcome::Outcome;
use command_steps::taken_stores::{give_source, take_source};
use command_words::command::Location;
use dsy_base::dial::Dial;
use dsy_base::files::Files;
use dsy_base::image_files::ImageFiles;
use dsy_base::name::Name;
use dsy_base::view::View;
use image_chop::chop::{ChopFault, chop};
use image_views::views::{OpenImage, end_image, open_for};
use std::alloc::Global;
use std::thread::Threads;

// The answer of a chop.
fn answer_of(chopped: Result<(), ChopFault>) -> Result<(), Outcome>
    ensures { result ≡ answer_of_chop chopped }
{
    match chopped {
        Ok(()) => Ok(()),
        Err(ChopFault::Length { size }) => Err(Outcome::Length { size }),
        Err(ChopFault::Mismatch { entry, got }) => Err(Outcome::Mismatch { entry, got }),
        Err(ChopFault::ImageFault) => Err(Outcome::ImageFault),
        Err(ChopFault::StoreFault) => Err(Outcome::StoreFault { store: 0 }),
        Err(ChopFault::Memory) => Err(Outcome::Memory),
    }
}

/// The words of a `chop`.
#[derive(Drop)]
pub struct ChopWords {
    pub store: Location,
    pub workers: u32,
    pub index: Name,
    pub image: Name,
}

/// Puts the chunks of IMAGE that INDEX lists into STORE, in order, up to the first that isn't IMAGE's, with this many
/// workers. What STORE holds already is left where it is right.
pub fn chop_into_store<R: Threads + Sync, F: ImageFiles, D: Dial>(
    rt: &R,
    alloc: Global,
    files: &mut F,
    dial: &mut D,
    words: ChopWords,
) -> Result<(), Outcome>
where
    F::View: Send,
    requires { NamesIndex words.index }
    ensures ends { (p : Output) → ChopEnds words.store words.index words.image
        (world (F.disk files.old) (D.state dial.old) p) result
        (world (F.disk files.new) (D.state dial.new) p) }
{
    let ChopWords {
        store,
        workers,
        index,
        image,
    } = words;
    let listed = load_index(alloc, files, dial, index)?;
    let opened = open_for(alloc, files, image, workers)?;
    let taken = match take_source(alloc, files, dial, &store) {
        Ok(taken) => taken,
        Err(outcome) => {
            end_image(files, opened);
            return Err(outcome);
        }
    };
    let OpenImage { first, mut others } = opened;
    let (first, taken, chopped) = chop(rt, alloc, &listed, first, &mut others, taken);
    end_image(files, OpenImage { first, others });
    give_source(files, dial, &store, taken);
    answer_of(chopped)
}
