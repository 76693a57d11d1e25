//! Connections in memory that are open, and those that have ended, counted from 0.

ghost use Rattle.std.specs.Prelude.{◌≡◌, [], ◌∷◌, ◌++◌, slice_get, IfOk};
ghost use Rattle.std.specs.Option.{option_map};
ghost use Rattle.link_forms.specs.MemLinks.{fresh_traffic, link_of, states_of, traffic_of, traffics_of};

use crate::mem_link::MemLink;
use dsy_base::fault::{Failed, IoFault};
use dsy_base::link::Link;
use std::alloc::{AllocError, Global};

/// An open connection in memory. It holds the room that it will take once it has ended.
#[derive(Debug, Drop)]
pub struct OpenLink {
    link: MemLink,
    room: Box<Ended>,
}

/// Connections that have ended, in their order.
#[derive(Debug, Drop)]
pub(crate) enum Ended {
    Nothing,
    Link(MemLink, Box<Ended>),
}

impl OpenLink {
    /// Opens a copy of the connection, before anything came or went.
    pub(crate) fn of(alloc: Global, link: &MemLink) -> Result<OpenLink, AllocError>
        ensures same { IfOk result (λ l. traffic_of l.link ≡ fresh_traffic link.now) }
        ensures faults { IfOk result (λ l. l.link.faults ≡ 0) }
    {
        Ok(OpenLink {
            link: link.again(alloc)?,
            room: Box::new(alloc, Ended::Nothing)?,
        })
    }

    /// How often a call on it has failed.
    pub(crate) fn faults(&self) -> u64
        ensures { result ≡ self.now.link.faults }
    {
        self.link.faults()
    }
}

impl Ended {
    pub fn add(&mut self, link: OpenLink)
        ensures traffics { traffics_of self.new ≡ traffics_of self.old ++ traffic_of link.link ∷ [] }
        ensures states { states_of self.new ≡ states_of self.old ++ link_of link.link ∷ [] }
    {
        let OpenLink { link, mut room } = link;
        *room = Ended::Nothing;
        self.append(Ended::Link(link, room));
    }

    pub fn append(&mut self, more: Ended)
        ensures traffics { traffics_of self.new ≡ traffics_of self.old ++ traffics_of more }
        ensures states { states_of self.new ≡ states_of self.old ++ states_of more }
    {
        match self {
            Ended::Nothing => *self = more,
            Ended::Link(_, rest) => rest.append(more),
        }
    }

    pub fn get(&self, k: usize) -> Option<&MemLink>
        ensures traffic { option_map (λ l. traffic_of l.now) result ≡ slice_get (traffics_of self.now) k }
        ensures state { option_map (λ l. link_of l.now) result ≡ slice_get (states_of self.now) k }
    {
        match self {
            Ended::Nothing => None,
            Ended::Link(link, rest) => {
                if k == 0 {
                    return Some(link);
                }
                rest.get(k - 1)
            }
        }
    }
}

impl Link for OpenLink {
    ghost use Rattle.std.specs.Prelude.{true, refl};
    ghost use Rattle.link_forms.specs.MemLinks.{link_of};

    ghost state = { λ l. link_of l.link };

    ghost tells = { true };

    fn read(&mut self, out: &mut [u8]) -> Result<usize, Failed> {
        self.link.read(out)
    }

    fn write(&mut self, b: &[u8]) -> Result<(), IoFault> {
        self.link.write(b)
    }

    fn finish(&mut self) {}

    ghost told = { λ _. refl };
}
