//! Further looks at the folder of a store, for the workers beside the first one.

ghost use Rattle.std.specs.Prelude.{◌≡◌, ℕ, ◌-◌, ◌≤◌, List, [], ◌∷◌, All, IsSome, vec_len};
ghost use Rattle.command_steps.specs.Stores.{IsStoreAt};
ghost use Rattle.command_steps.specs.Uses.{Uses};
ghost use Rattle.command_worlds.specs.Worlds.{Reads};
ghost use Rattle.image_views.specs.Views.{GrowsBy};

use dir_store::store::DirStore;
use dsy_base::files::Files;
use dsy_base::look::Look;
use std::alloc::Global;

// Opens one look more, or leaves it out.
fn add_look<F: Files>(files: &mut F, store: &str, looks: &mut Vec<DirStore<F::Look>>)
    ensures kept { Reads (F.disk files.old) (F.disk files.new) }
    ensures used { Uses [] (store.now ∷ []) (F.disk files.old) (F.disk files.new) }
    ensures changed { GrowsBy (λ l.
        IsStoreAt F.Look.files F.Look.place F.Look.faults (F.disk files.old).folders store.now l
        × IsSome ((F.disk files.new).folder_counts store.now)) looks.old.items looks.new.items }
{
    let Ok(look) = files.look(store) else {
        return;
    };
    if let Err(refused) = looks.push(DirStore::new(look)) {
        files.end_look(refused.value.into_inner());
    }
}

/// Opens a look for each worker but the first. One that can't be opened is left out.
pub(crate) fn open_looks<F: Files>(
    alloc: Global,
    files: &mut F,
    store: &str,
    workers: u32,
) -> Vec<DirStore<F::Look>>
    ensures few { vec_len result ≤ workers - 1 }
    ensures found { All (IsStoreAt F.Look.files F.Look.place F.Look.faults (F.disk files.old).folders store.now)
        result.items }
    ensures known { All (λ l. IsSome ((F.disk files.new).folder_counts (F.Look.place l))) result.items }
    ensures kept { Reads (F.disk files.old) (F.disk files.new) }
    ensures used { Uses [] (store.now ∷ []) (F.disk files.old) (F.disk files.new) }
{
    let mut looks = Vec::new(alloc);
    for _opened in 1..workers {
        add_look(files, store, &mut looks);
    }
    looks
}

/// Gives all of them back, the last first.
pub(crate) fn end_looks<F: Files>(files: &mut F, mut looks: Vec<DirStore<F::Look>>)
    requires known { All (λ l. IsSome ((F.disk files.old).folder_counts (F.Look.place l))) looks.items }
    ensures kept { Reads (F.disk files.old) (F.disk files.new) }
    ensures used { (q : List ℕ) → All (λ l. F.Look.place l ≡ q) looks.items
        → Uses [] (q ∷ []) (F.disk files.old) (F.disk files.new) }
{
    match looks.pop() {
        Some(look) => {
            files.end_look(look.into_inner());
            end_looks(files, looks)
        }
        None => (),
    }
}
