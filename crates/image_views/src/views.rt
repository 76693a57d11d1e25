//! The views of an image that workers read: as many as there are workers.

ghost use Rattle.std.specs.Prelude.{◌≡◌, ℕ, ◌-◌, ◌<◌, ◌≤◌, List, [], ◌∷◌, map, max, vec_len, All, Option, IfOk, IfErr};
ghost use Rattle.std.specs.Prelude.{IfSome, IsSome, OnOk, is_some, length};
ghost use Rattle.std.specs.Map.{count_at};
ghost use Rattle.buzhash_cut.specs.Image.{AreOfOneImage};
ghost use Rattle.command_steps.specs.InputFiles.{Holds, NotOpened};
ghost use Rattle.command_steps.specs.Uses.{Uses};
ghost use Rattle.command_worlds.specs.Worlds.{Reads};
ghost use Rattle.image_views.specs.Views.{AreOf, GrowsBy, IfFirst, IsViewOf, names_of};
ghost use Rattle.dsy_base.specs.Bytes.{Held};
ghost use Rattle.dsy_base.specs.Counts.{raised};

use command_outcome::outcome::Outcome;
use command_steps::input_files::unopened;
use dsy_base::files::Files;
use dsy_base::image_files::ImageFiles;
use dsy_base::name::Name;
use dsy_base::view::View;
use std::alloc::Global;

// Opens one view more. One that can't be opened, or that is of another size, is left out.
fn add_view<F: Files>(files: &mut F, image: &str, size: u64, views: &mut Vec<F::View>)
    ensures kept { Reads (F.disk files.old) (F.disk files.new) }
    ensures used { Uses (image.now ∷ []) [] (F.disk files.old) (F.disk files.new) }
    ensures changed { GrowsBy (λ v. (F.View.faults v ≡ 0)
        × IsViewOf (F.disk files.old) image.now size (F.View.held v)
        × IsSome ((F.disk files.new).file_counts image.now)) views.old.items views.new.items }
{
    let Ok(view) = files.view(image) else {
        return;
    };
    if view.size() != size {
        files.end_view(view);
        return;
    }
    if let Err(refused) = views.push(view) {
        files.end_view(refused.value);
    }
}

/// Opens the image as often as `count` says, and once at least. A view that can't be opened after the first one, or
/// whose size isn't the first one's, is left out.
pub fn open_views<F: ImageFiles>(
    alloc: Global,
    files: &mut F,
    image: Name,
    count: u32,
) -> Result<Vec<F::View>, Outcome>
    ensures some { IfOk result (λ vs. 0 < vec_len vs) }
    ensures few { IfOk result (λ vs. vec_len vs ≤ max 1 count) }
    ensures bytes { IfOk result (λ vs. (told : Option (List ℕ)) × Holds (F.disk files.old) image told
        × AreOf image told (map F.View.held vs.items)) }
    ensures alike { IfOk result (λ vs. AreOfOneImage (map F.View.held vs.items)) }
    ensures fresh { IfOk result (λ vs. All (λ v. F.View.faults v ≡ 0) vs.items) }
    ensures known { IfOk result (λ vs.
        All (λ v. IsSome ((F.disk files.new).file_counts (F.View.held v).name)) vs.items) }
    ensures err { IfErr result (NotOpened (F.disk files.old) (F.disk files.new) image) }
    ensures kept { Reads (F.disk files.old) (F.disk files.new) }
    ensures used { Uses (image ∷ []) [] (F.disk files.old) (F.disk files.new) }
{
    let first = match files.view(image.as_str()) {
        Ok(view) => view,
        Err(fault) => return Err(unopened(fault, image)),
    };
    let size = first.size();
    let mut views = Vec::new(alloc);
    if let Err(refused) = views.push(first) {
        files.end_view(refused.value);
        return Err(Outcome::Memory);
    }
    for _opened in 1..count {
        add_view(files, image.as_str(), size, &mut views);
    }
    Ok(views)
}

/// Opens an image again whose size this is, so often that `workers` have a view each beside the first one. A view that
/// can't be opened, or that is of another size, is left out.
pub fn further_views<F: ImageFiles>(
    alloc: Global,
    files: &mut F,
    image: &str,
    size: u64,
    workers: u32,
) -> Vec<F::View>
    ensures few { vec_len result ≤ workers - 1 }
    ensures named { All (λ h. h.name ≡ image.now) (map F.View.held result.items) }
    ensures alike { (h : Held) → is_some h.bytes ≡ F.View.tells → h.size ≡ size
        → Holds (F.disk files.old) image.now h.bytes
        → All (λ k. (k.size ≡ h.size) × (k.bytes ≡ h.bytes)) (map F.View.held result.items) }
    ensures known { All (λ v. IsSome ((F.disk files.new).file_counts (F.View.held v).name)) result.items }
    ensures kept { Reads (F.disk files.old) (F.disk files.new) }
    ensures used { Uses (image.now ∷ []) [] (F.disk files.old) (F.disk files.new) }
{
    let mut views = Vec::new(alloc);
    for _opened in 1..workers {
        add_view(files, image, size, &mut views);
    }
    views
}

/// Gives all views back.
pub fn end_views<F: Files>(files: &mut F, views: Vec<F::View>)
    requires known { All (λ v. IsSome ((F.disk files.old).file_counts (F.View.held v).name)) views.items }
    ensures kept { Reads (F.disk files.old) (F.disk files.new) }
    ensures used { Uses (names_of (map F.View.held views.items)) [] (F.disk files.old) (F.disk files.new) }
    ensures added { IfFirst (λ v.
        raised (count_at (F.disk files.old).file_counts (F.View.held v).name) (F.View.faults v)
        ≤ count_at (F.disk files.new).file_counts (F.View.held v).name) views.items }
{
    let mut views = views;
    while let Some(view) = views.pop() {
        files.end_view(view);
    }
}

/// An image that is open: a view of it, and those of further workers.
#[derive(Drop)]
pub struct OpenImage<V> {
    pub first: V,
    pub others: Vec<V>,
}

/// Opens the image for this many workers. A view that can't be opened after the first one, or whose size isn't the
/// first one's, is left out.
pub fn open_for<F: ImageFiles>(
    alloc: Global,
    files: &mut F,
    image: Name,
    workers: u32,
) -> Result<OpenImage<F::View>, Outcome>
    ensures ok { IfOk result (λ i. Holds (F.disk files.old) image (F.View.held i.first).bytes) }
    ensures fresh { IfOk result (λ i. (F.View.faults i.first ≡ 0) × ((F.View.held i.first).name ≡ image)) }
    ensures sized { IfOk result (λ i. IfSome (F.View.held i.first).bytes
        (λ t. length t ≡ (F.View.held i.first).size)) }
    ensures few { IfOk result (λ i. vec_len i.others ≤ workers - 1) }
    ensures named { IfOk result (λ i. All (λ h. h.name ≡ image) (map F.View.held i.others.items)) }
    ensures alike { IfOk result (λ i. All (λ h. (h.size ≡ (F.View.held i.first).size)
        × (h.bytes ≡ (F.View.held i.first).bytes)) (map F.View.held i.others.items)) }
    ensures known { OnOk result (IsSome ((F.disk files.new).file_counts image)) }
    ensures err { IfErr result (NotOpened (F.disk files.old) (F.disk files.new) image) }
    ensures kept { Reads (F.disk files.old) (F.disk files.new) }
    ensures used { Uses (image ∷ []) [] (F.disk files.old) (F.disk files.new) }
{
    let first = match files.view(image.as_str()) {
        Ok(view) => view,
        Err(fault) => return Err(unopened(fault, image)),
    };
    let size = first.size();
    let others = further_views(alloc, files, image.as_str(), size, workers);
    Ok(OpenImage { first, others })
}

/// Gives all its views back.
pub fn end_image<F: Files>(files: &mut F, image: OpenImage<F::View>)
    requires known { IsSome ((F.disk files.old).file_counts (F.View.held image.first).name) }
    requires named { All (λ h. h.name ≡ (F.View.held image.first).name) (map F.View.held image.others.items) }
    ensures kept { Reads (F.disk files.old) (F.disk files.new) }
    ensures used { Uses ((F.View.held image.first).name ∷ []) [] (F.disk files.old) (F.disk files.new) }
    ensures added { raised (count_at (F.disk files.old).file_counts (F.View.held image.first).name)
        (F.View.faults image.first)
        ≤ count_at (F.disk files.new).file_counts (F.View.held image.first).name }
{
    end_views(files, image.others);
    files.end_view(image.first);
}
