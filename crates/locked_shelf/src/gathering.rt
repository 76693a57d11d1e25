//! Connections that have ended and weren't given back yet, in a list that threads share.

use crate::ended::{EndedLink, Mode};
use crate::shared_shelf::SharedShelf;
use dsy_base::fault::raise;
use dsy_base::link::Link;
use std::alloc::Global;
use std::mem;
use std::sync::{Condvar, Mutex, Wait};

/// Connections that have ended, and how many more there are for which the list had no room.
#[derive(Drop)]
pub(crate) struct Gathered<K: Link, D: SharedShelf, M: Mode> {
    pub links: Vec<EndedLink<K, D, M>>,
    pub lost: u64,
}

/// Where threads leave connections that have ended.
#[derive(Drop)]
pub(crate) struct Gathering<K: Link, D: SharedShelf, M: Mode> {
    gathered: Mutex<Gathered<K, D, M>>,
    more: Condvar,
}

impl<K: Link, D: SharedShelf, M: Mode> Gathered<K, D, M> {
    fn new(alloc: Global) -> Gathered<K, D, M> {
        Gathered {
            links: Vec::new(alloc),
            lost: 0,
        }
    }

    // A connection that finds no room is dropped, and counted.
    fn add(&mut self, ended: EndedLink<K, D, M>) {
        if self.links.push(ended).is_err() {
            self.lost = raise(self.lost, 1);
        }
    }

    fn is_empty(&self) -> bool {
        self.links.is_empty() && self.lost == 0
    }
}

impl<K: Link, D: SharedShelf, M: Mode> Gathering<K, D, M> {
    pub fn new(alloc: Global) -> Gathering<K, D, M> {
        Gathering {
            gathered: Mutex::new(Gathered::new(alloc)),
            more: Condvar::new(),
        }
    }

    /// Leaves a connection here.
    pub fn add<R: Wait>(&self, rt: &R, ended: EndedLink<K, D, M>) {
        self.gathered.lock(rt).add(ended);
        self.more.notify_one();
    }

    /// Takes all that are here.
    pub fn take<R: Wait>(&self, rt: &R, alloc: Global) -> Gathered<K, D, M> {
        mem::replace(&mut *self.gathered.lock(rt), Gathered::new(alloc))
    }

    /// Takes all that are here, once there is one.
    pub fn await_some<R: Wait>(&self, rt: &R, alloc: Global) -> Gathered<K, D, M> {
        let mut some = self
            .more
            .wait_while(rt, self.gathered.lock(rt), |all| all.is_empty());
        mem::replace(&mut *some, Gathered::new(alloc))
    }
}
