//! The files of indexes. Sizes are in bytes.

ghost use Rattle.std.specs.Prelude.{◌≡◌, ◌≢◌, ◌<◌, ◌≤◌, length, true, Err, IfOk, IfSome, OnOk, Some};
ghost use Rattle.caibx_fields.specs.Limits.{file_limit};
ghost use Rattle.chunk_store.specs.Causes.{CountsCause};
ghost use Rattle.dsy_base.specs.Maps.{ReadGives};
ghost use Rattle.index_server.specs.Answers.{IsSpelled, index_held, is_index, index_folder};
ghost use Rattle.index_server.specs.Finding.{FindsFile};

use caibx_codec::check::check_index;
use caibx_fields::format::FILE_LIMIT;
use dsy_base::fault::{FileFault, IoFault};
use dsy_base::look::Look;
use std::alloc::{AllocError, Global};
use std::marker::Model;
use std::mem::replace;

/// How many bytes of a file there is room for at first, and how many more each time: 256 KiB, an index of 6,500 chunks.
const STEP: usize = 262_144;

// Gives the buffer at least the length of a step, and at most that of the longest file.
fn fit(buffer: &mut Vec<u8>) -> Result<(), AllocError>
    ensures room { OnOk result (length buffer.new.items ≤ file_limit) }
{
    buffer.resize(buffer.len().max(STEP).min(FILE_LIMIT as usize), 0)
}

// Makes the buffer longer by a step, or up to the longest file. What stands in it is to be read anew. A folder of the
// operating system tells by the file's size that it has more bytes, and reads nothing, so a file is read once.
fn grow(buffer: &mut Vec<u8>) -> Result<(), AllocError>
    requires room { length buffer.old.items < file_limit }
    ensures ok { OnOk result (length buffer.old.items < length buffer.new.items) }
    ensures room { length buffer.new.items ≤ file_limit }
{
    buffer.resize((buffer.len() + STEP).min(FILE_LIMIT as usize), 0)
}

// Reads the file of this name to the front of the buffer, which becomes as long as is needed. `Longer`: it has more
// bytes than the longest index file.
fn read_whole<F: Look>(folder: &mut F, name: &str, buffer: &mut Vec<u8>) -> Result<usize, FileFault>
    requires room { length buffer.old.items ≤ file_limit }
    ensures room { length buffer.new.items ≤ file_limit }
    ensures bytes { IfSome (F.files folder.old) (λ m. ReadGives (m name.now) result buffer.new.items) }
    ensures ok { IfOk result (λ n. n ≤ length buffer.new.items) }
    ensures longer { result ≡ Err FileFault.Longer → length buffer.new.items ≡ file_limit }
    ensures unfailed { result ≢ Err FileFault.Failed → F.faults folder.new ≡ F.faults folder.old }
    ensures kept { F.files folder.new ≡ F.files folder.old }
    ensures place { F.place folder.new ≡ F.place folder.old }
    ensures faults { CountsCause FileFault.Failed (F.faults folder.old) (F.faults folder.new) result }
{
    'rooms: while buffer.len() < FILE_LIMIT as usize {
        match folder.read(name, buffer.as_mut_slice()) {
            Err(FileFault::Longer) => {}
            answer => return answer,
        }
        match grow(buffer) {
            Ok(()) => {}
            Err(_) => return Err(FileFault::Memory),
        }
    }
    folder.read(name, buffer.as_mut_slice())
}

/// Whether the bytes are the file of a valid index.
pub(crate) fn is_index(bytes: &[u8]) -> bool
    ensures value { result ≡ is_index bytes.now }
    ensures exactly { IsSpelled result bytes.now }
{
    check_index(bytes).is_ok()
}

/// The file of a valid index, which contracts see as its bytes.
#[derive(Drop)]
pub(crate) struct IndexFile {
    bytes: Vec<u8>,
}

impl Model for IndexFile {
    ghost use Rattle.std.specs.Prelude.{ℕ, List, true};
    ghost use Rattle.index_server.specs.Answers.{IsSpelled};

    ghost Value = { List ℕ };

    ghost view = { λ f. f.bytes.items };

    ghost invariant = { λ f. IsSpelled true f.bytes.items };
}

impl IndexFile {
    // These bytes, if they are the file of a valid index.
    fn of(alloc: Global, bytes: &mut Vec<u8>) -> Option<IndexFile>
        requires size { length bytes.old.items ≤ file_limit }
        ensures value { result ≡ index_held (Some bytes.old.items) }
    {
        if is_index(bytes.as_slice()) {
            Some(IndexFile {
                bytes: replace(bytes, Vec::new(alloc)),
            })
        } else {
            None
        }
    }

    /// The file of this name, if it is one of a valid index. It is read into this room, which such a
    /// file takes away.
    pub(crate) fn read<F: Look>(
        alloc: Global,
        folder: &mut F,
        name: &str,
        room: &mut Vec<u8>,
    ) -> Result<Option<IndexFile>, IoFault>
        ensures found { FindsFile name.now (index_folder F.files F.faults folder.old) result
            (index_folder F.files F.faults folder.new) }
        ensures place { F.place folder.new ≡ F.place folder.old }
    {
        if fit(room).is_err() {
            return Err(IoFault::Memory);
        }
        match read_whole(folder, name, room) {
            Ok(n) => {
                room.truncate(n);
                Ok(IndexFile::of(alloc, room))
            }
            Err(FileFault::Absent | FileFault::Longer) => Ok(None),
            Err(FileFault::Failed) => Err(IoFault::Failed),
            Err(FileFault::Memory) => Err(IoFault::Memory),
        }
    }

    /// It is the file of a valid index.
    pub(crate) fn spelled(&self)
        ensures value { IsSpelled true self.now }
    {
        let _ = &self.bytes;
    }

    pub(crate) fn len(&self) -> usize
        ensures { result ≡ length self.now }
    {
        self.bytes.len()
    }

    pub(crate) fn into_bytes(self) -> Vec<u8>
        ensures { result.items ≡ self }
    {
        self.bytes
    }
}
