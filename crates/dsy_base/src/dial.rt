//! Connections to servers, by host and port.

ghost use Rattle.std.specs.Prelude.{◌≡◌, Bool, IsTrue, [], is_some, IfOk};
ghost use Rattle.std.specs.Option.{option_map};
ghost use Rattle.dsy_base.specs.Counts.{CountsFaults, raised};
ghost use Rattle.dsy_base.specs.Links.{DialState, IsFreshLink, with_all, with_ended};

use crate::fault::{IoFault, Memory};
use crate::link::Link;

/// What connects to servers. A connection begins with no fault, and its faults are added when it is hung up.
pub trait Dial: Drop {
    type Link: Link;

    /// The connections that have ended, in their order, where the type tells them, and how often a call has failed.
    ghost state: { Self → DialState };

    /// Whether the type tells contracts the connections that have ended.
    ghost tells: { Bool };

    /// A second dialer, on which nothing has ended or failed.
    fn fork(&self) -> Result<Self, Memory>
        ensures ended { IfOk result (λ d. (state d).ended ≡ option_map (λ _. []) (state self.now).ended) }
        ensures faults { IfOk result (λ d. (state d).faults ≡ 0) };

    /// Connects to a server.
    fn dial(&mut self, host: &str, port: u16) -> Result<Self::Link, IoFault>
        ensures fresh { IfOk result (λ l. IsFreshLink (Self.Link.state l)) }
        ensures kept { (state self.new).ended ≡ (state self.old).ended }
        ensures faults { CountsFaults IoFault.Failed IoFault.Memory (state self.old).faults (state self.new).faults
            result };

    /// Ends a connection.
    fn hang_up(&mut self, link: Self::Link)
        ensures ended { (state self.new).ended ≡ with_ended (state self.old).ended (Self.Link.state link).traffic }
        ensures faults { (state self.new).faults ≡ raised (state self.old).faults (Self.Link.state link).faults };

    /// Adds what has ended and failed on another dialer.
    fn join(&mut self, other: Self)
        ensures ended { (state self.new).ended ≡ with_all (state self.old).ended (state other).ended }
        ensures faults { (state self.new).faults ≡ raised (state self.old).faults (state other).faults };

    /// What has ended is told exactly where the type tells.
    ghost told: { (d : Self) → is_some (state d).ended ≡ tells };

    /// Connections tell where the dialer tells.
    ghost alike: { IsTrue tells → IsTrue Self.Link.tells };
}
