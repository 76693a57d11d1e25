//! Laws of the figures, for the crates above. Nothing is done: the function's contract is the law.

ghost use Rattle.std.specs.Prelude.{◌≡◌, ℕ};
ghost use Rattle.chunk_store.specs.declared.id.DigestKind.{DigestKind};
ghost use Rattle.image_demo.specs.Figures.{AreFigures};
ghost use Rattle.image_demo.specs.declared.figures.Figures.{Figures};

use buzhash_cut::laws::index_is_one;

/// A number, a size and a digest have one list of figures.
pub fn figures_are_one()
    ensures value { (kind : DigestKind) (number size : ℕ) (f g : Figures) →
        AreFigures kind number size f → AreFigures kind number size g → f ≡ g }
{
    index_is_one();
}
