//! What the type of a proxy names of its stores.

ghost use Rattle.std.specs.Prelude.{ℕ, List, Option, None};
ghost use Rattle.dsy_base.specs.Maps.{Map};

use std::marker::Brand;

/// What the type of a proxy names of its chains of stores, which are alike. Each call of a program picks it.
pub trait ProxyName {
    /// What each of the stores holds, where all of them tell it.
    ghost maps: { Option (List (Map (List ℕ))) };

    /// The names that the stores' folders were taken under, if they are named.
    ghost places: { Option (List (List ℕ)) };
}

impl ProxyName for Brand {
    ghost maps = { None };

    ghost places = { None };
}
