//! `verify-index -n N INDEX IMAGE`: whether IMAGE is the image that INDEX lists.

ghost use Rattle.std.specs.Prelude.{◌≡◌, All, IfSome, IsSome, length, map};
ghost use Rattle.store_commands.specs.VerifyIndex.{Checked, VerifyIndexEnds, answer_of_check};
ghost use Rattle.command_words.specs.Locations.{NamesIndex};
ghost use Rattle.command_worlds.specs.Worlds.{Reads, world};
ghost use Rattle.dsy_base.specs.Disk.{Output};
ghost use Rattle.image_slices.specs.Consumers.{IsAlike};

use caibx_codec::index::Index;
use command_indexes::load::load_index;
use command_outcome::outcome::Outcome;
use dsy_base::dial::Dial;
use dsy_base::files::Files;
use dsy_base::image_files::ImageFiles;
use dsy_base::name::Name;
use dsy_base::view::View;
use image_check::check::{CheckFault, verify_index};
use image_views::views::{OpenImage, end_image, open_for};
use std::alloc::Global;
use std::thread::Threads;

// The outcome of the check.
fn answer_of(checked: Result<(), CheckFault>) -> Result<(), Outcome>
    ensures { result ≡ answer_of_check checked }
{
    match checked {
        Ok(()) => Ok(()),
        Err(CheckFault::Length { size }) => Err(Outcome::Length { size }),
        Err(CheckFault::Mismatch { entry, got }) => Err(Outcome::Mismatch { entry, got }),
        Err(CheckFault::ImageFault) => Err(Outcome::ImageFault),
        Err(CheckFault::Memory) => Err(Outcome::Memory),
    }
}

// Holds the image against the index, and gives it back.
fn check_opened<R: Threads + Sync, F: Files>(
    rt: &R,
    alloc: Global,
    files: &mut F,
    index: &Index,
    image: OpenImage<F::View>,
) -> Result<(), Outcome>
where
    F::View: Send,
    requires known { IsSome ((F.disk files.old).file_counts (F.View.held image.first).name) }
    requires fresh { F.View.faults image.first ≡ 0 }
    requires sized { IfSome (F.View.held image.first).bytes (λ t. length t ≡ (F.View.held image.first).size) }
    requires named { All (λ h. h.name ≡ (F.View.held image.first).name) (map F.View.held image.others.items) }
    requires alike { All (IsAlike (F.View.held image.first)) (map F.View.held image.others.items) }
    ensures checked { Checked (F.disk files.old) (F.disk files.new) (F.View.held image.first).name index.now
        (F.View.held image.first).bytes result }
    ensures kept { Reads (F.disk files.old) (F.disk files.new) }
{
    let OpenImage { first, mut others } = image;
    let (first, checked) = verify_index(rt, alloc, index, first, &mut others);
    end_image(files, OpenImage { first, others });
    answer_of(checked)
}

/// Tells whether IMAGE is the image that INDEX lists, with this many workers: its length, then each chunk in order.
pub fn check_image<R: Threads + Sync, F: ImageFiles, D: Dial>(
    rt: &R,
    alloc: Global,
    files: &mut F,
    dial: &mut D,
    index: Name,
    image: Name,
    workers: u32,
) -> Result<(), Outcome>
where
    F::View: Send,
    requires { NamesIndex index }
    ensures ends { (p : Output) → VerifyIndexEnds index image
        (world (F.disk files.old) (D.state dial.old) p) result
        (world (F.disk files.new) (D.state dial.new) p) }
{
    let listed = load_index(alloc, files, dial, index)?;
    let opened = open_for(alloc, files, image, workers)?;
    check_opened(rt, alloc, files, &listed, opened)?;
    Ok(())
}
