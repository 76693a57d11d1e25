//! What reads items ahead, in a thread of its own. Items are numbered from 0.

ghost use Rattle.std.specs.Prelude.{◌≡◌, ℕ, ◌<◌};

/// Reads items ahead into rooms of type `A`.
pub trait Reader<A>: Drop {
    /// How many items there are.
    ghost count: { Self → ℕ };

    /// It can read.
    ghost can_read: { Self → Type 0 };

    /// What stands in the room is what this reader reads.
    ghost is_right: { Self → A → Type 0 };

    /// The reader went from the first state to the second.
    ghost went: { Self → Self → Type 0 };

    /// Empties a room.
    fn begin(&self, room: &mut A)
        ensures right { is_right self.now room.new };

    /// Reads item i into the room, behind what stands there. Answers whether there is more to be read.
    fn read_item(&mut self, i: usize, room: &mut A) -> bool
        requires listed { i < count self.old }
        requires able { can_read self.old }
        requires right { is_right self.old room.old }
        ensures right { is_right self.new room.new }
        ensures able { can_read self.new }
        ensures count { count self.new ≡ count self.old }
        ensures same { (a : A) → is_right self.new a → is_right self.old a }
        ensures on { (first : Self) → went first self.old → went first self.new };
}
