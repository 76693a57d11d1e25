//! Connections from clients.

ghost use Rattle.std.specs.Prelude.{◌≡◌, ◌∷◌, ◌++◌, [], Bool, IsTrue, is_some, IfSome, IfOk, OnErr};
ghost use Rattle.std.specs.Option.{option_map};
ghost use Rattle.dsy_base.specs.Counts.{CountsFaults};
ghost use Rattle.dsy_base.specs.Links.{Accepts, IsFreshLink, ListenState};

use crate::fault::IoFault;
use crate::link::Link;

/// What clients connect to.
pub trait Listen: Drop {
    type Link: Link;

    /// The connections that are to come and those that have ended, where the type tells them, and how often a call has
    /// failed.
    ghost state: { Self → ListenState };

    /// Whether the type tells contracts its connections.
    ghost tells: { Bool };

    /// Listens at an address.
    fn bind(&mut self, host: &str, port: u16) -> Result<(), IoFault>
        ensures coming { (state self.new).coming ≡ (state self.old).coming }
        ensures ended { (state self.new).ended ≡ (state self.old).ended }
        ensures faults { CountsFaults IoFault.Failed IoFault.Memory (state self.old).faults (state self.new).faults
            result };

    /// The next connection, and None where no more will come.
    fn accept(&mut self) -> Result<Option<Self::Link>, IoFault>
        ensures found { IfOk result (λ next. Accepts (option_map (λ l. (Self.Link.state l).traffic) next)
            (state self.old).coming (state self.new).coming) }
        ensures fresh { IfOk result (λ next. IfSome next (λ l. IsFreshLink (Self.Link.state l))) }
        ensures err { OnErr result ((state self.new).coming ≡ (state self.old).coming) }
        ensures ended { (state self.new).ended ≡ (state self.old).ended }
        ensures faults { CountsFaults IoFault.Failed IoFault.Memory (state self.old).faults (state self.new).faults
            result };

    /// Ends a connection.
    fn end(&mut self, link: Self::Link)
        ensures coming { (state self.new).coming ≡ (state self.old).coming }
        ensures ended { (state self.new).ended
            ≡ option_map (λ done. done ++ Self.Link.state link ∷ []) (state self.old).ended }
        ensures faults { (state self.new).faults ≡ (state self.old).faults };

    /// Connections are told exactly where the type tells.
    ghost told: { (l : Self) → (is_some (state l).coming ≡ tells) × (is_some (state l).ended ≡ tells) };

    /// Connections tell where the listener tells.
    ghost alike: { IsTrue tells → IsTrue Self.Link.tells };
}
