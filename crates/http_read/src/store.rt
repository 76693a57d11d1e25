//! A server of chunks as a store. Each call makes one connection, sends one ask on it and reads one reply.

ghost use Rattle.std.specs.Prelude.{◌≡◌, ◌≤◌, length, string_bytes, take, false, true, Err, IfOk, IfSome, None, Ok};
ghost use Rattle.std.specs.Prelude.{OnOk};
ghost use Rattle.std.specs.Prelude.{Some};
ghost use Rattle.dsy_base.specs.Counts.{raised, CountsFaults};
ghost use Rattle.dsy_base.specs.Links.{with_ended, IsFreshLink};
ghost use Rattle.http_read.specs.Asks.{asks_get, asks_head, asks_put, target};
ghost use Rattle.http_read.specs.Reads.{IfBad, OnBad};
ghost use Rattle.http_read.specs.Refusals.{IsUnacceptable};
ghost use Rattle.http_read.specs.Calls.{Closes, Notes, NotesRefusal, GetsChunk, call_fault};
ghost use Rattle.http_read.specs.Remotes.{AddsOne, Calls, HasCause, KeepsCount, faults_of, log_of};
ghost use Rattle.http_read.specs.Replies.{IsDenial, IsHolding, IsLonger, IsShowing, IsTaking};
ghost use Rattle.http_wire.specs.Ask.{ask};

use crate::exchange::{Got, get_on, has_on, put_on};
use crate::fault::{BadReply, Unanswered};
use chunk_store::id::ChunkId;
use chunk_store::laws::id_has_32_bytes;
use chunk_store::store::{GetFault, Store, StoreWrite};
use dsy_base::dial::Dial;
use dsy_base::fault::{IoFault, raise};
use dsy_base::name::Name;
use http_wire::ask::ask_text;
use http_wire::reply::Method;
use std::alloc::{AllocError, Global};
use std::marker::Model;

/// A server of chunks. Contracts see it as its dialer, the server, the number of replies that weren't taken, and why
/// the last of these wasn't.
#[derive(Drop)]
pub struct HttpStore<D: Dial> {
    alloc: Global,
    dial: D,
    host: Name,
    port: u16,
    prefix: Name,
    refused: u64,
    last: Option<BadReply>,
}

impl<D: Dial> Model for HttpStore<D> {
    ghost use Rattle.http_read.specs.Remotes.{HasCause, Remote};

    ghost Value = { Remote D };

    ghost view = { λ s. record {
      dial = s.dial;
      server = record { host = s.host; port = s.port; prefix = s.prefix };
      refused = s.refused;
      last = s.last;
    } };

    ghost invariant = { λ s. HasCause (record { host = s.host; port = s.port; prefix = s.prefix }) s.refused
        (D.state s.dial).ended };
}

impl<D: Dial> HttpStore<D> {
    /// The chunks of the server at this host and port. What stands before `/` and the path of a chunk is the prefix: it
    /// is empty or begins with `/`, and doesn't end with one.
    pub fn new(alloc: Global, dial: D, host: Name, port: u16, prefix: Name) -> HttpStore<D>
        ensures { result ≡ record {
          dial = dial;
          server = record { host = host; port = port; prefix = prefix };
          refused = 0;
          last = None;
        } }
    {
        HttpStore {
            alloc,
            dial,
            host,
            port,
            prefix,
            refused: 0,
            last: None,
        }
    }

    pub fn into_dial(self) -> D
        ensures value { result ≡ self.dial }
        ensures cause { HasCause self.server self.refused (D.state self.dial).ended }
    {
        self.dial
    }

    /// Why the last reply that wasn't taken wasn't.
    pub fn last_bad(&self) -> Option<BadReply>
        ensures value { result ≡ self.now.last }
        ensures cause { HasCause self.now.server self.now.refused (D.state self.now.dial).ended }
    {
        self.last
    }

    // The head of an ask for this id.
    fn ask(&self, method: Method, id: &ChunkId, length: Option<u64>) -> Result<String, AllocError>
        ensures { IfOk result (λ t. string_bytes t
            ≡ ask method self.now.server.host self.now.server.port (target self.now.server id.now.0) length) }
    {
        let prefix = self.prefix.as_str();
        let path = id.path();
        let path = path.as_str();
        let target = format!(in self.alloc; "{prefix}/{path}")?;
        ask_text(
            self.alloc,
            method,
            self.host.as_str(),
            self.port,
            target.as_str(),
            length,
        )
    }

    // Connects to the server.
    fn dial(&mut self) -> Result<D::Link, IoFault>
        ensures fresh { IfOk result (λ l. IsFreshLink (D.Link.state l)) }
        ensures ended { (D.state self.new.dial).ended ≡ (D.state self.old.dial).ended }
        ensures kept { KeepsCount (log_of D.state self.old) (log_of D.state self.new) }
        ensures server { self.new.server ≡ self.old.server }
        ensures faults { CountsFaults IoFault.Failed IoFault.Memory
            (D.state self.old.dial).faults (D.state self.new.dial).faults result }
    {
        self.dial.dial(self.host.as_str(), self.port)
    }

    // Counts a reply that wasn't taken, and keeps why it wasn't. Answers what the call does.
    fn refuse(&mut self, refused: Unanswered) -> IoFault
        requires cause { OnBad refused (λ _. HasCause self.old.server (raised self.old.refused 1)
            (D.state self.old.dial).ended) }
        ensures value { result ≡ call_fault refused }
        ensures notes { NotesRefusal refused (log_of D.state self.old) (log_of D.state self.new) }
        ensures kept { self.new.dial ≡ self.old.dial }
        ensures server { self.new.server ≡ self.old.server }
    {
        match refused {
            Unanswered::Bad(reason) => {
                self.refused = raise(self.refused, 1);
                self.last = Some(reason);
                IoFault::Failed
            }
            Unanswered::Failed => IoFault::Failed,
            Unanswered::Memory => IoFault::Memory,
        }
    }

    // Hangs up. Where the reply wasn't taken, this is counted, and the reason kept.
    fn close<A: Drop>(&mut self, link: D::Link, answer: Result<A, Unanswered>) -> Result<A, IoFault>
        requires bad { IfBad answer (λ _. IfSome (D.Link.state link).traffic (IsUnacceptable self.old.server)) }
        ensures value { Closes answer result }
        ensures ended { (D.state self.new.dial).ended
            ≡ with_ended (D.state self.old.dial).ended (D.Link.state link).traffic }
        ensures faults { (D.state self.new.dial).faults
            ≡ raised (D.state self.old.dial).faults (D.Link.state link).faults }
        ensures notes { Notes answer (log_of D.state self.old) (log_of D.state self.new) }
        ensures server { self.new.server ≡ self.old.server }
    {
        self.dial.hang_up(link);
        match answer {
            Ok(answer) => Ok(answer),
            Err(refused) => Err(self.refuse(refused)),
        }
    }

    // Asks for a chunk.
    fn chunk(&mut self, id: &ChunkId, out: &mut [u8]) -> Result<Got, IoFault>
        ensures ok { IfOk result (λ got. GetsChunk got self.old.server id.now.0 out.new
            (D.state self.old.dial).ended (D.state self.new.dial).ended) }
        ensures calls { Calls Method.Get (asks_get self.old.server id.now.0) (length out.new) IoFault.Failed
            (log_of D.state self.old) (log_of D.state self.new) result }
        ensures server { self.new.server ≡ self.old.server }
        ensures faults { CountsFaults IoFault.Failed IoFault.Memory
            (faults_of (log_of D.state self.old)) (faults_of (log_of D.state self.new)) result }
    {
        let Ok(ask) = self.ask(Method::Get, id, None) else {
            return Err(IoFault::Memory);
        };
        let mut link = self.dial()?;
        let answer = get_on(&mut link, ask.as_str(), out);
        self.close(link, answer)
    }

    /// Fills the front of `out` with the chunk of this id, and answers its size. `Missing`: the status is 404.
    /// `Longer`: the body of a 200 is longer than `out`. `Failed`: the dialer or the connection failed, or the reply
    /// wasn't taken.
    pub fn fetch(&mut self, id: &ChunkId, out: &mut [u8]) -> Result<usize, GetFault>
        ensures ok { IfOk result (λ n. (n ≤ length out.new)
            × AddsOne (IsShowing self.old.server id.now.0 (take n out.new))
            (D.state self.old.dial).ended (D.state self.new.dial).ended) }
        ensures absent { result ≡ Err GetFault.Missing → AddsOne (IsDenial self.old.server id.now.0)
            (D.state self.old.dial).ended (D.state self.new.dial).ended }
        ensures longer { result ≡ Err GetFault.Longer → AddsOne (IsLonger self.old.server id.now.0 (length out.new))
            (D.state self.old.dial).ended (D.state self.new.dial).ended }
        ensures calls { Calls Method.Get (asks_get self.old.server id.now.0) (length out.new) GetFault.Failed
            (log_of D.state self.old) (log_of D.state self.new) result }
        ensures server { self.new.server ≡ self.old.server }
        ensures faults { CountsFaults GetFault.Failed GetFault.Memory
            (faults_of (log_of D.state self.old)) (faults_of (log_of D.state self.new)) result }
    {
        match self.chunk(id, out) {
            Ok(Got::Chunk(n)) => Ok(n),
            Ok(Got::Missing) => Err(GetFault::Missing),
            Ok(Got::Longer) => Err(GetFault::Longer),
            Err(IoFault::Failed) => Err(GetFault::Failed),
            Err(IoFault::Memory) => Err(GetFault::Memory),
        }
    }

    /// Asks whether there is a chunk of this id: a status 200 says so, and 404 that there is none.
    pub fn find(&mut self, id: &ChunkId) -> Result<bool, IoFault>
        ensures found { result ≡ Ok true → AddsOne (IsHolding self.old.server id.now.0)
            (D.state self.old.dial).ended (D.state self.new.dial).ended }
        ensures absent { result ≡ Ok false → AddsOne (IsDenial self.old.server id.now.0)
            (D.state self.old.dial).ended (D.state self.new.dial).ended }
        ensures calls { Calls Method.Head (asks_head self.old.server id.now.0) 0 IoFault.Failed
            (log_of D.state self.old) (log_of D.state self.new) result }
        ensures server { self.new.server ≡ self.old.server }
        ensures faults { CountsFaults IoFault.Failed IoFault.Memory
            (faults_of (log_of D.state self.old)) (faults_of (log_of D.state self.new)) result }
    {
        let Ok(ask) = self.ask(Method::Head, id, None) else {
            return Err(IoFault::Memory);
        };
        let mut link = self.dial()?;
        let answer = has_on(&mut link, ask.as_str());
        self.close(link, answer)
    }

    /// Sends a chunk under this id. It is taken where the status is 200 to 299.
    pub fn send(&mut self, id: &ChunkId, b: &[u8]) -> Result<(), IoFault>
        ensures ok { OnOk result (AddsOne (IsTaking self.old.server id.now.0 b.now)
            (D.state self.old.dial).ended (D.state self.new.dial).ended) }
        ensures calls { Calls Method.Put (asks_put self.old.server id.now.0 b.now) 0 IoFault.Failed
            (log_of D.state self.old) (log_of D.state self.new) result }
        ensures server { self.new.server ≡ self.old.server }
        ensures faults { CountsFaults IoFault.Failed IoFault.Memory
            (faults_of (log_of D.state self.old)) (faults_of (log_of D.state self.new)) result }
    {
        let Ok(ask) = self.ask(Method::Put, id, Some(b.len() as u64)) else {
            return Err(IoFault::Memory);
        };
        let mut link = self.dial()?;
        let answer = put_on(&mut link, ask.as_str(), b);
        self.close(link, answer)
    }
}

impl<D: Dial> Store for HttpStore<D> {
    ghost use Rattle.http_read.specs.Asks.{sent_on, server_place, times_asked};
    ghost use Rattle.std.specs.Prelude.{None, false, true};
    ghost use Rattle.std.proofs.Common.{rules};
    ghost use Rattle.http_read.specs.Remotes.{faults_of, log_of, said_on};
    ghost use Rattle.http_wire.specs.declared.reply.Method.TheVariants as methods;

    ghost holds = { λ _. None };

    ghost members = { λ _. None };

    ghost said = { λ s. said_on s.server (D.state s.dial).ended };

    ghost sent = { λ s. sent_on s.server (D.state s.dial).ended };

    ghost asked = { λ s. times_asked s.server methods.Get (D.state s.dial).ended };

    ghost queried = { λ s. times_asked s.server methods.Head (D.state s.dial).ended };

    ghost faults = { λ s. faults_of (log_of D.state s) };

    ghost place = { λ s. server_place s.server };

    ghost tells = { false };

    ghost never_fails = { false };

    ghost told_never_fail = { false };

    ghost may_lack_memory = { true };

    fn get(&mut self, id: &ChunkId, out: &mut [u8]) -> Result<usize, GetFault> {
        id_has_32_bytes(id);
        self.fetch(id, out)
    }

    fn giver(&self) -> usize {
        0
    }

    fn has(&mut self, id: &ChunkId) -> Result<bool, IoFault> {
        id_has_32_bytes(id);
        self.find(id)
    }

    ghost alone = { λ _. tt };

    ghost vouched = { λ _. tt };

    ghost says = { λ _. tt };

    ghost lies = { λ _. tt };

    ghost unasked = { λ _. tt };

    ghost told = { Prim.search rules };

    ghost sure = { Prim.search rules };

    ghost steady = { Prim.search rules };
}

impl<D: Dial> StoreWrite for HttpStore<D> {
    fn put(&mut self, id: &ChunkId, b: &[u8]) -> Result<(), IoFault> {
        id_has_32_bytes(id);
        self.send(id, b)
    }
}
