//! Laws of cutting, for the crates above. Nothing is done: each function's contract is the law.

ghost use Rattle.std.specs.Prelude.{◌≡◌, ◌<◌, ◌⊎◌, ℕ, List};
ghost use Rattle.buzhash_cut.specs.Image.{HasTooManyCuts, IsIndexOfImage};
ghost use Rattle.caibx_codec.specs.Right.{IsRight};
ghost use Rattle.buzhash_cut.specs.Right.{HasTwins};
ghost use Rattle.caibx_fields.specs.Limits.{item_limit};
ghost use Rattle.chunk_ends.specs.Sizes.{Sizes};
ghost use Rattle.chunk_store.specs.declared.id.DigestKind.{DigestKind};
ghost use Rattle.caibx_codec.specs.Listing.{Listing, count_of};

/// The image is what its index lists.
pub fn image_is_right()
    ensures value { (kind : DigestKind) (s : Sizes) (image : List ℕ) (l : Listing) →
        IsIndexOfImage kind s image l → IsRight image l }
{}

/// What the index of an image lists is the image, or a chunk shows two unequal pieces of bytes that have one name.
pub fn cutting()
    ensures value { (kind : DigestKind) (s : Sizes) (image t : List ℕ) (l : Listing) →
        IsIndexOfImage kind s image l → IsRight t l → (t ≡ image) ⊎ HasTwins t image l }
{}

/// An image has one index.
pub fn index_is_one()
    ensures value { (kind : DigestKind) (s : Sizes) (image : List ℕ) (l m : Listing) →
        IsIndexOfImage kind s image l → IsIndexOfImage kind s image m → l ≡ m }
{}

/// The index of an image with too many cuts lists more chunks than an index may, so no index file spells it.
pub fn many_cuts()
    ensures value { (kind : DigestKind) (s : Sizes) (image : List ℕ) (l : Listing) →
        HasTooManyCuts s image → IsIndexOfImage kind s image l → item_limit < count_of l }
{}
