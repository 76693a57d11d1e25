//! The values of checked words, by their roles.

ghost use Rattle.std.specs.Prelude.{◌≡◌, map, IfOk};
ghost use Rattle.command_line.specs.CommandLine as line;
ghost use Rattle.command_line.specs.CommandLine.{Says};
ghost use Rattle.command_words.specs.Locations.{location_of};
ghost use Rattle.command_words.specs.Roles.{operand, value};

use crate::checked_words::CheckedWords;
use crate::judge::GREATEST_DEMO;
use crate::values;
use chunk_store::id::DigestKind;
use command_words::command::{Command, Groups, Location, Locations};
use command_words::location::{parts, read_location};
use command_words::option_table::{CommandKind, OptionKind};
use command_words::roles::{Role, is_given};
use dsy_base::name::Name;
use std::alloc::{AllocError, Global};

/// The number of workers where none is given.
pub const USUAL_WORKERS: u32 = 10;

/// The chunk sizes in bytes where none are given.
pub const USUAL_SIZES: [u64; 3] = [16384, 65536, 262144];

/// The kind of digest where none is named: that of casync and desync.
pub const USUAL_DIGEST: DigestKind = DigestKind::Sha512T256;

// The location of a checked word. What refuses it now is want of memory.
fn checked_location(alloc: Global, word: &str) -> Result<Location, AllocError>
    ensures { IfOk result (λ l. l ≡ line.read_location (location_of word.now)) }
{
    read_location(alloc, word).map_err(|_| AllocError)
}

// The locations that these words name, in order.
fn group_among(alloc: Global, parts: &[&str]) -> Result<Locations, AllocError>
    ensures { IfOk result (λ l.
        l ≡ map (λ w. line.read_location (location_of w)) (map (λ p. p.now) parts.now)) }
{
    let mut locations = Vec::new(alloc);
    for part in parts {
        locations.push(checked_location(alloc, part)?)?;
    }
    Ok(Locations::of(locations))
}

// The locations of a checked word, in order.
fn checked_group(alloc: Global, word: &str) -> Result<Locations, AllocError>
    ensures { IfOk result (λ l. l ≡ line.group_of word.now) }
{
    let parts = parts(alloc, word)?;
    group_among(alloc, parts.as_slice())
}

impl<'a> CheckedWords<'a> {
    /// The value of an option, or the empty word.
    pub fn value(&self, option: OptionKind) -> &'a str
        ensures { result.now ≡ value option self.now }
    {
        self.word_as(Role::Value(option), 0)
    }

    // The value of an option as a name.
    fn named(&self, alloc: Global, option: OptionKind) -> Result<Name, AllocError>
        ensures { IfOk result (λ n. n ≡ value option self.now) }
    {
        Name::of(alloc, self.value(option))
    }

    // An operand as a name.
    fn operand(&self, alloc: Global, place: usize) -> Result<Name, AllocError>
        ensures { IfOk result (λ n. n ≡ operand place self.now) }
    {
        Name::of(alloc, self.word_as(Role::Operand, place))
    }

    // An operand as a number.
    fn number(&self, most: u64, place: usize) -> u64
        ensures { result ≡ line.number most (operand place self.now) }
    {
        let word = self.word_as(Role::Operand, place);
        values::number(0, most, word.as_bytes()).unwrap_or(0)
    }

    // The one location.
    fn store(&self, alloc: Global) -> Result<Location, AllocError>
        ensures { IfOk result (λ l. l ≡ line.store self.now) }
    {
        checked_location(alloc, self.value(OptionKind::Store))
    }

    // The groups of locations, in order.
    fn stores(&self, alloc: Global) -> Result<Groups, AllocError>
        ensures { IfOk result (λ g. g ≡ line.stores self.now) }
    {
        let role = Role::Value(OptionKind::Store);
        let mut groups = Vec::new(alloc);
        for i in 0..self.count_of(role) {
            groups.push(checked_group(alloc, self.word_as(role, i))?)?;
        }
        Ok(Groups::of(groups))
    }

    // How often a call that failed is made again.
    fn retries(&self) -> u32
        ensures { result ≡ line.retries self.now }
    {
        let word = self.value(OptionKind::Retries);
        values::retries(word.as_bytes()).unwrap_or(0)
    }

    // The cache, where one is given.
    fn cache(&self, alloc: Global) -> Result<Option<Name>, AllocError>
        ensures { IfOk result (λ c. c ≡ line.cache self.now) }
    {
        if is_given(OptionKind::Cache, self.roles()) {
            Ok(Some(self.named(alloc, OptionKind::Cache)?))
        } else {
            Ok(None)
        }
    }

    fn workers(&self) -> u32
        ensures { result ≡ line.workers self.now }
    {
        let word = self.value(OptionKind::Concurrency);
        values::workers(word.as_bytes()).unwrap_or(USUAL_WORKERS)
    }

    fn sizes(&self) -> [u64; 3]
        ensures { result ≡ line.sizes self.now }
    {
        let word = self.value(OptionKind::ChunkSize);
        values::sizes(word.as_bytes()).unwrap_or(USUAL_SIZES)
    }

    fn digest(&self) -> DigestKind
        ensures { result ≡ line.digest self.now }
    {
        values::digest(self.value(OptionKind::Digest)).unwrap_or(USUAL_DIGEST)
    }

    // The host and the port to listen at.
    fn address(&self) -> (&'a str, u16)
        ensures host { result.0.now ≡ (line.address self.now).0 }
        ensures port { result.1 ≡ (line.address self.now).1 }
    {
        values::listen(self.value(OptionKind::Listen)).unwrap_or(("", 0))
    }

    // The offset in the image, in bytes.
    fn offset(&self) -> u64
        ensures { result ≡ line.offset self.now }
    {
        values::byte_count(self.value(OptionKind::Offset)).unwrap_or(0)
    }

    // The greatest number of bytes, where one is given.
    fn size(&self) -> Option<u64>
        ensures { result ≡ line.size self.now }
    {
        values::byte_count(self.value(OptionKind::Length))
    }

    fn make(&self, alloc: Global) -> Result<Command, AllocError>
        ensures { Says CommandKind.Make self.now result }
    {
        Ok(Command::Make {
            store: self.store(alloc)?,
            sizes: self.sizes(),
            workers: self.workers(),
            digest: self.digest(),
            index: self.operand(alloc, 0)?,
            image: self.operand(alloc, 1)?,
        })
    }

    fn extract(&self, alloc: Global) -> Result<Command, AllocError>
        ensures { Says CommandKind.Extract self.now result }
    {
        Ok(Command::Extract {
            stores: self.stores(alloc)?,
            retries: self.retries(),
            seeds: self.names_as(alloc, Role::Value(OptionKind::Seed))?,
            cache: self.cache(alloc)?,
            in_place: is_given(OptionKind::InPlace, self.roles()),
            workers: self.workers(),
            index: self.operand(alloc, 0)?,
            target: self.operand(alloc, 1)?,
        })
    }

    fn cat(&self, alloc: Global) -> Result<Command, AllocError>
        ensures { Says CommandKind.Cat self.now result }
    {
        Ok(Command::Cat {
            stores: self.stores(alloc)?,
            retries: self.retries(),
            offset: self.offset(),
            length: self.size(),
            index: self.operand(alloc, 0)?,
        })
    }

    fn chop(&self, alloc: Global) -> Result<Command, AllocError>
        ensures { Says CommandKind.Chop self.now result }
    {
        Ok(Command::Chop {
            store: self.store(alloc)?,
            workers: self.workers(),
            index: self.operand(alloc, 0)?,
            image: self.operand(alloc, 1)?,
        })
    }

    fn fill(&self, alloc: Global) -> Result<Command, AllocError>
        ensures { Says CommandKind.Cache self.now result }
    {
        Ok(Command::Cache {
            stores: self.stores(alloc)?,
            retries: self.retries(),
            cache: self.named(alloc, OptionKind::Cache)?,
            workers: self.workers(),
            indexes: self.names_as(alloc, Role::Operand)?,
        })
    }

    // A server with a cache before its stores.
    fn proxy(&self, alloc: Global) -> Result<Command, AllocError>
        ensures { IfOk result (λ c. c ≡ line.proxy self.now) }
    {
        let (host, port) = self.address();
        Ok(Command::Proxy {
            stores: self.stores(alloc)?,
            retries: self.retries(),
            cache: self.named(alloc, OptionKind::Cache)?,
            host: Name::of(alloc, host)?,
            port,
            workers: self.workers(),
            digest: self.digest(),
        })
    }

    fn chunk_server(&self, alloc: Global) -> Result<Command, AllocError>
        ensures { Says CommandKind.ChunkServer self.now result }
    {
        if is_given(OptionKind::Cache, self.roles()) {
            return self.proxy(alloc);
        }
        let (host, port) = self.address();
        Ok(Command::ChunkServer {
            store: self.named(alloc, OptionKind::Store)?,
            host: Name::of(alloc, host)?,
            port,
            writable: is_given(OptionKind::Writable, self.roles()),
            workers: self.workers(),
            digest: self.digest(),
        })
    }

    fn index_server(&self, alloc: Global) -> Result<Command, AllocError>
        ensures { Says CommandKind.IndexServer self.now result }
    {
        let (host, port) = self.address();
        Ok(Command::IndexServer {
            store: self.named(alloc, OptionKind::Store)?,
            host: Name::of(alloc, host)?,
            port,
            writable: is_given(OptionKind::Writable, self.roles()),
        })
    }

    fn demo(&self) -> Command
        ensures { result ≡ line.command_by_roles CommandKind.Demo self.now }
    {
        Command::Demo {
            number: self.number(u64::MAX, 0),
            size: self.number(GREATEST_DEMO, 1),
            workers: self.workers(),
            digest: self.digest(),
        }
    }

    /// The command that they say.
    pub fn command_of(&self, alloc: Global, kind: CommandKind) -> Result<Command, AllocError>
        ensures { Says kind self.now result }
    {
        match kind {
            CommandKind::Make => self.make(alloc),
            CommandKind::Extract => self.extract(alloc),
            CommandKind::Cat => self.cat(alloc),
            CommandKind::VerifyIndex => Ok(Command::VerifyIndex {
                workers: self.workers(),
                index: self.operand(alloc, 0)?,
                image: self.operand(alloc, 1)?,
            }),
            CommandKind::Chop => self.chop(alloc),
            CommandKind::Cache => self.fill(alloc),
            CommandKind::ListChunks => Ok(Command::ListChunks {
                index: self.operand(alloc, 0)?,
            }),
            CommandKind::Info => Ok(Command::Info {
                stores: self.stores(alloc)?,
                retries: self.retries(),
                index: self.operand(alloc, 0)?,
            }),
            CommandKind::Verify => Ok(Command::Verify {
                store: self.named(alloc, OptionKind::Store)?,
                repair: is_given(OptionKind::Repair, self.roles()),
                workers: self.workers(),
                digest: self.digest(),
            }),
            CommandKind::Prune => Ok(Command::Prune {
                store: self.named(alloc, OptionKind::Store)?,
                indexes: self.names_as(alloc, Role::Operand)?,
            }),
            CommandKind::ChunkServer => self.chunk_server(alloc),
            CommandKind::IndexServer => self.index_server(alloc),
            CommandKind::Demo => Ok(self.demo()),
        }
    }
}
