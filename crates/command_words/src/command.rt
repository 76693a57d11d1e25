//! What the words of a command line say.

ghost use Rattle.std.specs.Prelude.{◌≡◌};

use crate::option_table::CommandKind;
use chunk_store::id::DigestKind;
use dsy_base::name::Name;
use std::marker::Model;

/// Where chunks are: a folder, or an HTTP server with a path before each chunk's own.
#[derive(Debug, Drop)]
pub enum Location {
    Folder(Name),
    Http { host: Name, port: u16, prefix: Name },
}

/// Locations in order, which contracts see as a list.
#[derive(Debug, Drop)]
pub struct Locations {
    list: Vec<Location>,
}

impl Model for Locations {
    ghost use Rattle.std.specs.Prelude.{List};
    ghost use Rattle.command_words.specs.declared.command.Location.{Location};

    ghost Value = { List Location };

    ghost view = { λ l. l.list.items };
}

impl Locations {
    pub fn of(list: Vec<Location>) -> Locations
        ensures { result ≡ list.items }
    {
        Locations { list }
    }

    pub fn into_vec(self) -> Vec<Location>
        ensures { result.items ≡ self }
    {
        let Locations { list } = self;
        list
    }

    pub fn as_slice(&self) -> &[Location]
        ensures { result.now ≡ self.now }
    {
        self.list.as_slice()
    }
}

/// Groups of locations, which contracts see as a list of lists. The stores of a group are meant to hold
/// the same chunks.
#[derive(Debug, Drop)]
pub struct Groups {
    list: Vec<Locations>,
}

impl Model for Groups {
    ghost use Rattle.std.specs.Prelude.{List};
    ghost use Rattle.command_words.specs.declared.command.Location.{Location};

    ghost Value = { List (List Location) };

    ghost view = { λ g. g.list.items };
}

impl Groups {
    pub fn of(list: Vec<Locations>) -> Groups
        ensures { result ≡ list.items }
    {
        Groups { list }
    }

    pub fn into_vec(self) -> Vec<Locations>
        ensures { result.items ≡ self }
    {
        let Groups { list } = self;
        list
    }

    pub fn as_slice(&self) -> &[Locations]
        ensures { result.now ≡ self.now }
    {
        self.list.as_slice()
    }
}

/// Names in order, which contracts see as a list.
#[derive(Debug, Drop)]
pub struct Names {
    list: Vec<Name>,
}

impl Model for Names {
    ghost use Rattle.std.specs.Prelude.{List, ℕ};

    ghost Value = { List (List ℕ) };

    ghost view = { λ n. n.list.items };
}

impl Names {
    pub fn of(list: Vec<Name>) -> Names
        ensures { result ≡ list.items }
    {
        Names { list }
    }

    pub fn into_vec(self) -> Vec<Name>
        ensures { result.items ≡ self }
    {
        let Names { list } = self;
        list
    }

    pub fn as_slice(&self) -> &[Name]
        ensures { result.now ≡ self.now }
    {
        self.list.as_slice()
    }
}

/// What the words say. `sizes` are the least, the average and the greatest chunk size in bytes, not
/// yet judged. `offset` and `length` are bytes of the image; where no length is given all that
/// follows is meant. `retries` is how often a call on a store that failed is made again.
#[derive(Debug, Drop)]
pub enum Command {
    Make {
        store: Location,
        sizes: [u64; 3],
        workers: u32,
        digest: DigestKind,
        index: Name,
        image: Name,
    },
    Extract {
        stores: Groups,
        retries: u32,
        seeds: Names,
        cache: Option<Name>,
        in_place: bool,
        workers: u32,
        index: Name,
        target: Name,
    },
    Cat {
        stores: Groups,
        retries: u32,
        offset: u64,
        length: Option<u64>,
        index: Name,
    },
    VerifyIndex {
        workers: u32,
        index: Name,
        image: Name,
    },
    Chop {
        store: Location,
        workers: u32,
        index: Name,
        image: Name,
    },
    Cache {
        stores: Groups,
        retries: u32,
        cache: Name,
        workers: u32,
        indexes: Names,
    },
    ListChunks {
        index: Name,
    },
    Info {
        stores: Groups,
        retries: u32,
        index: Name,
    },
    Verify {
        store: Name,
        repair: bool,
        workers: u32,
        digest: DigestKind,
    },
    Prune {
        store: Name,
        indexes: Names,
    },
    ChunkServer {
        store: Name,
        host: Name,
        port: u16,
        writable: bool,
        workers: u32,
        digest: DigestKind,
    },
    /// A `chunk-server` with a cache before its stores.
    Proxy {
        stores: Groups,
        retries: u32,
        cache: Name,
        host: Name,
        port: u16,
        workers: u32,
        digest: DigestKind,
    },
    IndexServer {
        store: Name,
        host: Name,
        port: u16,
        writable: bool,
    },
    Demo {
        number: u64,
        size: u64,
        workers: u32,
        digest: DigestKind,
    },
    Help,
    Version,
    HelpOn(CommandKind),
}
