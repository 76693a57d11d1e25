//! What a case has made.

ghost use Rattle.std.specs.Prelude.{All, IfOk};
ghost use Rattle.dsy_base.specs.Links.{IsFreshLink};
ghost use Rattle.link_forms.specs.MemLinks.{link_of};

use crate::listening::Noting;
use chunk_store::id::DigestKind;
use desync_cli::in_memory::MemWorld;
use dsy_forms::mem_files::MemFiles;
use dsy_forms::mem_sink::MemSink;
use link_forms::mem_dial::MemDial;
use link_forms::mem_link::MemLink;
use link_forms::mem_listen::MemListen;
use std::alloc::{AllocError, Global};

/// Files and connections in memory.
#[derive(Drop)]
pub struct World {
    pub alloc: Global,
    /// The files, and the dialer, the listener and the sinks of the last run.
    pub memory: MemWorld<MemDial, Noting>,
    /// By which digest chunks are named, and which one an index says.
    pub kind: DigestKind,
    pub flags: DigestKind,
    /// What comes on each connection to a server.
    pub servers: Vec<Vec<u8>>,
    /// What each client sends.
    pub clients: Vec<Vec<u8>>,
    /// The numbers of the calls of the listener that fail.
    pub listener_fails: Vec<u64>,
}

impl World {
    /// A world in which nothing is.
    pub fn new(alloc: Global) -> World {
        World {
            alloc,
            memory: MemWorld {
                files: MemFiles::new(alloc, Vec::new(alloc)),
                dial: MemDial::new(alloc, Vec::new(alloc), Vec::new(alloc)),
                listen: Noting {
                    alloc,
                    inner: MemListen::new(alloc, Vec::new(alloc), Vec::new(alloc)),
                    places: Vec::new(alloc),
                },
                out: MemSink::new(alloc, Vec::new(alloc)),
                err: MemSink::new(alloc, Vec::new(alloc)),
            },
            kind: DigestKind::Sha512T256,
            flags: DigestKind::Sha512T256,
            servers: Vec::new(alloc),
            clients: Vec::new(alloc),
            listener_fails: Vec::new(alloc),
        }
    }

    /// Makes the dialer, with all connections that are stated, the listener and the sinks anew.
    pub fn connect(&mut self) -> Result<(), AllocError> {
        let alloc = self.alloc;
        self.memory.dial = MemDial::new(alloc, links_of(alloc, &self.servers)?, Vec::new(alloc));
        let fails = Vec::from_slice(alloc, &self.listener_fails)?;
        self.memory.listen = Noting {
            alloc,
            inner: MemListen::new(alloc, links_of(alloc, &self.clients)?, fails),
            places: Vec::new(alloc),
        };
        self.memory.out = MemSink::new(alloc, Vec::new(alloc));
        self.memory.err = MemSink::new(alloc, Vec::new(alloc));
        Ok(())
    }
}

// Bytes that come in one piece.
fn piece_of(alloc: Global, bytes: &[u8]) -> Result<Vec<Vec<u8>>, AllocError> {
    let mut pieces = Vec::new(alloc);
    pieces.push(Vec::from_slice(alloc, bytes)?)?;
    Ok(pieces)
}

// Connections on which these come.
fn links_of(alloc: Global, coming: &[Vec<u8>]) -> Result<Vec<MemLink>, AllocError>
    ensures { IfOk result (λ links. All (λ l. IsFreshLink (link_of l)) links.items) }
{
    let mut links = Vec::new(alloc);
    for bytes in coming {
        links.push(MemLink::new(alloc, piece_of(alloc, bytes)?, Vec::new(alloc)))?;
    }
    Ok(links)
}
