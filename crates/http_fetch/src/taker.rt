//! What takes the bytes of a body as they come.

ghost use Rattle.std.specs.Prelude.{◌++◌};

/// Takes bytes that come in pieces, in their order.
pub trait Taker {
    ghost use Rattle.std.specs.Prelude.{ℕ, List};

    /// It has taken these bytes, and no others.
    ghost has_taken: { Self → List ℕ → Type 0 };

    /// Takes the next bytes.
    fn take(&mut self, piece: &[u8])
        ensures taken { (b : List ℕ) → has_taken self.old b → has_taken self.new (b ++ piece.now) };
}
