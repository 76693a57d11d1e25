//! A listener over connections in memory, with stated calls that fail. Links are counted from 0.

ghost use Rattle.std.specs.Prelude.{◌≡◌, [], Some, map, slice_get, IfSome};
ghost use Rattle.std.specs.List.{All};
ghost use Rattle.std.specs.Option.{option_map};
ghost use Rattle.dsy_base.specs.Links.{IsFreshLink};
ghost use Rattle.link_forms.specs.MemLinks.{link_of, listen_state, traffic_of};

use crate::mem_link::MemLink;
use crate::open_link::{Ended, OpenLink};
use byte_forms::calls::{Calls, Fails};
use dsy_base::fault::{IoFault, raise};
use dsy_base::listen::Listen;
use std::alloc::Global;

/// A listener over connections in memory, which come in their order. A call that fails changes no connection. Binds
/// and accepts are counted together.
#[derive(Debug, Drop)]
pub struct MemListen {
    alloc: Global,
    links: Vec<MemLink>,
    next: usize,
    ended: Ended,
    calls: Calls,
    faults: u64,
}

impl MemListen {
    pub fn new(alloc: Global, links: Vec<MemLink>, fails: Fails) -> MemListen
        requires fresh { All (λ l. IsFreshLink (link_of l)) links.items }
        ensures coming { (listen_state result).coming ≡ Some (map traffic_of links.items) }
        ensures ended { (listen_state result).ended ≡ Some [] }
        ensures said { result.calls.fails ≡ fails }
        ensures faults { (listen_state result).faults ≡ 0 }
    {
        MemListen {
            alloc,
            links,
            next: 0,
            ended: Ended::Nothing,
            calls: Calls::new(fails),
            faults: 0,
        }
    }

    /// The link that ended after `k` others.
    pub fn ended(&self, k: usize) -> Option<&MemLink>
        ensures { IfSome (listen_state self.now).ended
            (λ ended. option_map (λ l. link_of l.now) result ≡ slice_get ended k) }
    {
        self.ended.get(k)
    }
}

impl Listen for MemListen {
    ghost use Rattle.std.specs.Prelude.{true, refl};

    type Link = OpenLink;

    ghost state = { listen_state };

    ghost tells = { true };

    fn bind(&mut self, host: &str, port: u16) -> Result<(), IoFault> {
        if self.calls.next_fails() {
            self.faults = raise(self.faults, 1);
            return Err(IoFault::Failed);
        }
        Ok(())
    }

    fn accept(&mut self) -> Result<Option<OpenLink>, IoFault> {
        if self.calls.next_fails() {
            self.faults = raise(self.faults, 1);
            return Err(IoFault::Failed);
        }
        let Some(link) = self.links.get(self.next) else {
            return Ok(None);
        };
        match OpenLink::of(self.alloc, link) {
            Ok(link) => {
                self.next += 1;
                Ok(Some(link))
            }
            Err(_) => Err(IoFault::Memory),
        }
    }

    fn end(&mut self, link: OpenLink) {
        self.ended.add(link);
    }

    ghost told = { λ _. (refl, refl) };

    ghost alike = { λ h. h };
}
