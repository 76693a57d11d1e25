//! A dialer over connections in memory, with stated calls that fail. Dials and links are counted from 0.

ghost use Rattle.std.specs.Prelude.{◌≡◌, [], Some, map, slice_get, IfOk, IfSome};
ghost use Rattle.std.specs.List.{All};
ghost use Rattle.std.specs.Option.{option_map};
ghost use Rattle.dsy_base.specs.Links.{IsFreshLink};
ghost use Rattle.link_forms.specs.MemLinks.{dial_of, fresh_traffic, link_of, traffic_of};

use crate::mem_link::MemLink;
use crate::open_link::{Ended, OpenLink};
use byte_forms::calls::{Calls, Fails};
use dsy_base::dial::Dial;
use dsy_base::fault::{IoFault, Memory, raise};
use std::alloc::{AllocError, Global};

/// A dialer over connections in memory. A dial gives a copy of the link of its own number, and past the last it fails:
/// the link of a dial that fails is given by no other. A fork gives copies of the same links.
#[derive(Debug, Drop)]
pub struct MemDial {
    alloc: Global,
    links: Vec<MemLink>,
    ended: Ended,
    calls: Calls,
    faults: u64,
}

impl MemDial {
    pub fn new(alloc: Global, links: Vec<MemLink>, fails: Fails) -> MemDial
        requires fresh { All (λ l. IsFreshLink (link_of l)) links.items }
        ensures kept { result.links ≡ links }
        ensures ended { (dial_of result).ended ≡ Some [] }
        ensures said { result.calls.fails ≡ fails }
        ensures faults { (dial_of result).faults ≡ 0 }
    {
        MemDial {
            alloc,
            links,
            ended: Ended::Nothing,
            calls: Calls::new(fails),
            faults: 0,
        }
    }

    /// The link that ended after `k` others.
    pub fn ended(&self, k: usize) -> Option<&MemLink>
        ensures { IfSome (dial_of self.now).ended
            (λ ended. option_map (λ l. traffic_of l.now) result ≡ slice_get ended k) }
    {
        self.ended.get(k)
    }

    // The same dialer at first.
    fn again(&self) -> Result<MemDial, AllocError>
        ensures ended { IfOk result (λ d. (dial_of d).ended ≡ Some []) }
        ensures faults { IfOk result (λ d. (dial_of d).faults ≡ 0) }
    {
        Ok(MemDial {
            alloc: self.alloc,
            links: copies(self.alloc, &self.links)?,
            ended: Ended::Nothing,
            calls: self.calls.again(self.alloc)?,
            faults: 0,
        })
    }
}

// Copies of the connections, before anything came or went.
fn copies(alloc: Global, links: &[MemLink]) -> Result<Vec<MemLink>, AllocError>
    ensures { IfOk result (λ made. map traffic_of made.items ≡ map fresh_traffic links.now) }
{
    let mut made = Vec::new(alloc);
    for link in links {
        made.push(link.again(alloc)?)?;
    }
    Ok(made)
}

impl Dial for MemDial {
    ghost use Rattle.std.specs.Prelude.{true, refl};

    type Link = OpenLink;

    ghost state = { dial_of };

    ghost tells = { true };

    fn fork(&self) -> Result<MemDial, Memory> {
        match self.again() {
            Ok(d) => Ok(d),
            Err(_) => Err(Memory),
        }
    }

    fn dial(&mut self, host: &str, port: u16) -> Result<OpenLink, IoFault> {
        let call = self.calls.so_far() as usize;
        let fails = self.calls.next_fails();
        match self.links.get(call) {
            Some(link) if !fails => match OpenLink::of(self.alloc, link) {
                Ok(link) => Ok(link),
                Err(_) => Err(IoFault::Memory),
            },
            _ => {
                self.faults = raise(self.faults, 1);
                Err(IoFault::Failed)
            }
        }
    }

    fn hang_up(&mut self, link: OpenLink) {
        self.faults = raise(self.faults, link.faults());
        self.ended.add(link);
    }

    fn join(&mut self, other: MemDial) {
        let MemDial { ended, faults, .. } = other;
        self.faults = raise(self.faults, faults);
        self.ended.append(ended);
    }

    ghost told = { λ _. refl };

    ghost alike = { λ h. h };
}
