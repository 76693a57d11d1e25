//! A folder of indexes that answers requests. Sizes are in bytes.

ghost use Rattle.std.specs.Prelude.{◌≡◌, ◌≤◌, ℕ, List, length, false, true, Err, IfOk, OnErr, Some};
ghost use Rattle.caibx_fields.specs.Limits.{file_limit};
ghost use Rattle.http_serve.specs.Answers.{answer_in};
ghost use Rattle.http_wire.specs.IndexRequest.{is_refused};
ghost use Rattle.index_server.specs.Answers.{KeepsButTemporaries, IsIndexAnswer, IsSpelled, IndexFolder};
ghost use Rattle.index_server.specs.Answers.{AnswersIndexOrFails, is_index, index_folder};
ghost use Rattle.index_server.specs.Finding.{FindsFile, index_answer_by, index_asked_by};

use crate::index_file::{IndexFile, is_index};
use dir_store::laws::put_leaves_a_temporary;
use dsy_base::fault::{IoFault, Memory};
use dsy_base::folder::Folder;
use http_serve::service::Reply;
use http_wire::index_request::IndexAct;
use std::alloc::Global;
use std::marker::Model;

// The methods that ask for an index (RFC 9110, sections 9.3.1 and 9.3.2).
#[derive(Clone, Copy, Debug, PartialEq, Eq)]
pub(crate) enum ReadMethod {
    Get,
    Head,
}

impl ReadMethod {
    // The reply that tells of this file.
    fn tell(self, alloc: Global, file: IndexFile) -> Reply
        ensures value { answer_in result ≡ index_answer_by self (Some file) }
        ensures only { (name body : List ℕ) → IsIndexAnswer (index_asked_by self name) body (answer_in result) }
    {
        file.spelled();
        let length = file.len() as u64;
        let body = match self {
            ReadMethod::Get => file.into_bytes(),
            ReadMethod::Head => Vec::new(alloc),
        };
        Reply {
            status: 200,
            length,
            body,
        }
    }

    // The reply to the request for the file that was looked for.
    fn reply(
        self,
        alloc: Global,
        found: Result<Option<IndexFile>, IoFault>,
    ) -> Result<Reply, Memory>
        ensures only { IfOk result (λ r. (name body : List ℕ)
            → IsIndexAnswer (index_asked_by self name) body (answer_in r)) }
        ensures ok { IfOk result (λ r. (old new : IndexFolder) (name body : List ℕ) → FindsFile name old found new
            → AnswersIndexOrFails old (index_asked_by self name) body (answer_in r) new) }
        ensures unfailed { OnErr result (found ≡ Err IoFault.Memory) }
    {
        match found {
            Ok(Some(file)) => Ok(self.tell(alloc, file)),
            Ok(None) => Ok(Reply::bare(alloc, 404)),
            Err(IoFault::Failed) => Ok(Reply::bare(alloc, 500)),
            Err(IoFault::Memory) => Err(Memory),
        }
    }
}

/// A folder of indexes, which answers requests one by one. Contracts see it as the folder, and whether indexes may be
/// put. It keeps the room of the longest file that it has read.
#[derive(Drop)]
pub struct IndexState<F: Folder> {
    alloc: Global,
    folder: F,
    writable: bool,
    room: Vec<u8>,
}

impl<F: Folder> Model for IndexState<F> {
    ghost use Rattle.index_server.specs.States.{IndexStanding};

    ghost Value = { IndexStanding F };

    ghost view = { λ s. record { folder = s.folder; writable = s.writable } };
}

impl<F: Folder> IndexState<F> {
    /// The indexes of this folder. Where nothing may be put, a PUT is refused before its body is read.
    pub fn new(alloc: Global, folder: F, writable: bool) -> IndexState<F>
        ensures value { result ≡ record { folder = folder; writable = writable } }
    {
        IndexState {
            alloc,
            folder,
            writable,
            room: Vec::new(alloc),
        }
    }

    pub fn into_inner(self) -> F
        ensures { result ≡ self.folder }
    {
        self.folder
    }

    /// Whether indexes may be put.
    pub fn writable(&self) -> bool
        ensures { result ≡ self.now.writable }
    {
        self.writable
    }

    /// Takes the room of a reply's body back, if it is the greatest.
    pub(crate) fn take_back(&mut self, room: Vec<u8>)
        ensures untouched { self.new ≡ self.old }
    {
        if room.capacity() > self.room.capacity() {
            self.room = room;
        }
    }

    // Looks for the index of this name, and tells of it by this method.
    fn find(&mut self, method: ReadMethod, name: &str) -> Result<Reply, Memory>
        ensures only { IfOk result (λ r. (body : List ℕ)
            → IsIndexAnswer (index_asked_by method name.now) body (answer_in r)) }
        ensures ok { IfOk result (λ r. (body : List ℕ)
            → AnswersIndexOrFails (index_folder F.files F.faults self.old.folder) (index_asked_by method name.now) body
            (answer_in r) (index_folder F.files F.faults self.new.folder)) }
        ensures unfailed { OnErr result (F.faults self.new.folder ≡ F.faults self.old.folder) }
        ensures files { F.files self.new.folder ≡ F.files self.old.folder }
        ensures place { F.place self.new.folder ≡ F.place self.old.folder }
        ensures faults { F.faults self.old.folder ≤ F.faults self.new.folder }
        ensures kept { self.new.writable ≡ self.old.writable }
    {
        let found = IndexFile::read(self.alloc, &mut self.folder, name, &mut self.room);
        method.reply(self.alloc, found)
    }

    // Puts the body, which is the file of a valid index, under the name.
    fn write(&mut self, name: &str, body: &[u8]) -> Result<Reply, Memory>
        requires fits { is_index body.now ≡ true }
        requires spelled { IsSpelled true body.now }
        ensures only { IfOk result (λ r. IsIndexAnswer (IndexAct.Put name.now) body.now (answer_in r)) }
        ensures ok { IfOk result (λ r. AnswersIndexOrFails (index_folder F.files F.faults self.old.folder)
            (IndexAct.Put name.now) body.now (answer_in r) (index_folder F.files F.faults self.new.folder)) }
        ensures err { OnErr result (KeepsButTemporaries (F.files self.old.folder) (F.files self.new.folder)) }
        ensures unfailed { OnErr result (F.faults self.new.folder ≡ F.faults self.old.folder) }
        ensures place { F.place self.new.folder ≡ F.place self.old.folder }
        ensures faults { F.faults self.old.folder ≤ F.faults self.new.folder }
        ensures kept { self.new.writable ≡ self.old.writable }
    {
        put_leaves_a_temporary();
        match self.folder.put(name, body) {
            Ok(()) => Ok(Reply::bare(self.alloc, 200)),
            Err(IoFault::Failed) => Ok(Reply::bare(self.alloc, 500)),
            Err(IoFault::Memory) => Err(Memory),
        }
    }

    // Puts the body under the name, if it is the file of a valid index.
    fn put(&mut self, name: &str, body: &[u8]) -> Result<Reply, Memory>
        ensures only { IfOk result (λ r. IsIndexAnswer (IndexAct.Put name.now) body.now (answer_in r)) }
        ensures ok { IfOk result (λ r. AnswersIndexOrFails (index_folder F.files F.faults self.old.folder)
            (IndexAct.Put name.now) body.now (answer_in r) (index_folder F.files F.faults self.new.folder)) }
        ensures err { OnErr result (KeepsButTemporaries (F.files self.old.folder) (F.files self.new.folder)) }
        ensures unfailed { OnErr result (F.faults self.new.folder ≡ F.faults self.old.folder) }
        ensures place { F.place self.new.folder ≡ F.place self.old.folder }
        ensures faults { F.faults self.old.folder ≤ F.faults self.new.folder }
        ensures kept { self.new.writable ≡ self.old.writable }
    {
        if is_index(body) {
            self.write(name, body)
        } else {
            Ok(Reply::bare(self.alloc, 400))
        }
    }

    /// Answers a request. GET: 200 with the file where the folder has one of that name and it is that of a valid index,
    /// else 404. HEAD: the same without the file. PUT: 400 where the body isn't the file of a valid index, else 200
    /// once it is put. A target that is no index's path: 404. 500: a call on the folder has failed.
    pub fn apply(&mut self, act: &IndexAct, body: &[u8]) -> Result<Reply, Memory>
        requires taken { is_refused act.now ≡ false }
        requires size { length body.now ≤ file_limit }
        ensures only { IfOk result (λ r. IsIndexAnswer act.now body.now (answer_in r)) }
        ensures ok { IfOk result (λ r. AnswersIndexOrFails (index_folder F.files F.faults self.old.folder)
            act.now body.now (answer_in r) (index_folder F.files F.faults self.new.folder)) }
        ensures err { OnErr result (KeepsButTemporaries (F.files self.old.folder) (F.files self.new.folder)) }
        ensures unfailed { OnErr result (F.faults self.new.folder ≡ F.faults self.old.folder) }
        ensures place { F.place self.new.folder ≡ F.place self.old.folder }
        ensures faults { F.faults self.old.folder ≤ F.faults self.new.folder }
        ensures kept { self.new.writable ≡ self.old.writable }
    {
        match act {
            IndexAct::Get(name) => self.find(ReadMethod::Get, name.as_str()),
            IndexAct::Head(name) => self.find(ReadMethod::Head, name.as_str()),
            IndexAct::Put(name) => self.put(name.as_str(), body),
            IndexAct::Lost => Ok(Reply::bare(self.alloc, 404)),
            IndexAct::Refuse(_) => unreachable!(),
        }
    }
}
