//! Services: how the requests on a connection are read and answered.

ghost use Rattle.std.specs.Prelude.{◌≡◌, ℕ, ◌≤◌, length, IfOk, IfSome, OnErr};
ghost use Rattle.http_serve.specs.Answers.{answer_in, bare};
ghost use Rattle.http_serve.specs.Protocols.{Protocol};
ghost use Rattle.http_serve.specs.Steps.{ServedState, StepLacks, Steps};
ghost use Rattle.http_serve.specs.Turns.{asked_with, turn_of};

use dsy_base::fault::Memory;
use std::alloc::Global;

/// The room that the body of a reply should have behind it, so that its head can be put in front of it in place. A head
/// has fewer bytes.
pub const HEAD_ROOM: usize = 128;

/// A reply: its status, the length that it tells, and the body that is sent. Only a 200 to GET has one.
#[derive(Debug, Drop)]
pub struct Reply {
    pub status: u16,
    pub length: u64,
    pub body: Vec<u8>,
}

impl Reply {
    /// A reply without a body.
    pub fn bare(alloc: Global, status: u16) -> Reply
        ensures { answer_in result ≡ bare status }
    {
        Reply {
            status,
            length: 0,
            body: Vec::new(alloc),
        }
    }
}

/// How the requests on a connection are read and answered, by a type that stands for it. It has no values.
pub trait Service {
    /// What answers.
    type Desk: Drop;

    /// What the head of a request asks for.
    type Request: Drop;

    /// What requests are answered from.
    ghost Files: { Type 0 };

    /// What stays as it is while requests are answered.
    ghost Setting: { Type 0 };

    /// What the desk answers from, where it tells that, and how often a call on it has failed.
    ghost state: { Self.Desk → ServedState Files };

    ghost setting: { Self.Desk → Setting };

    /// How requests are read and answered.
    ghost protocol: { Setting → Protocol Self.Request Files };

    /// The greatest number of bytes that a body may have.
    ghost limit: { ℕ };

    /// What any number of answers leaves, also where nothing is told of what the desk answers from.
    ghost leaves: { Self.Desk → Self.Desk → Type 0 };

    /// Reads a head, which is all of these bytes.
    fn read(desk: &Self::Desk, alloc: Global, head: &[u8]) -> Result<Self::Request, Memory>
        ensures ok { IfOk result (λ r. (protocol (setting desk.now)).reading.says head.now r) }
        ensures size { IfOk result (λ r. (protocol (setting desk.now)).reading.size r ≤ limit) };

    /// The request that stands for a head that has no end.
    fn endless(desk: &Self::Desk) -> Self::Request
        ensures value { result ≡ (protocol (setting desk.now)).reading.endless };

    /// How many bytes follow the head.
    fn size(desk: &Self::Desk, request: &Self::Request) -> usize
        ensures value { result ≡ (protocol (setting desk.now)).reading.size request.now };

    /// Whether the connection is closed behind the reply.
    fn closes(desk: &Self::Desk, request: &Self::Request) -> bool
        ensures value { result ≡ (protocol (setting desk.now)).reading.closes request.now };

    /// Answers a request.
    fn answer(
        desk: &mut Self::Desk,
        alloc: Global,
        request: &Self::Request,
        body: &[u8],
    ) -> Result<Reply, Memory>
        requires size { length body.now ≤ limit }
        ensures may { IfOk result (λ r. (protocol (setting desk.old)).fair
            (turn_of (asked_with request.now body.now) (answer_in r))) }
        ensures ok { IfOk result (λ r. IfSome (state desk.old).files (λ _. Steps (protocol (setting desk.old)).answering
            (state desk.old) request.now body.now (answer_in r) (state desk.new))) }
        ensures err { OnErr result (IfSome (state desk.old).files (λ _.
            StepLacks (protocol (setting desk.old)).answering (state desk.old) request.now body.now (state desk.new))) }
        ensures unfailed { OnErr result ((state desk.new).faults ≡ (state desk.old).faults) }
        ensures kept { setting desk.new ≡ setting desk.old }
        ensures changed { leaves desk.old desk.new }
        ensures faults { (state desk.old).faults ≤ (state desk.new).faults };

    /// Takes the room of a reply's body back, once the reply was sent or wasn't.
    fn take_back(desk: &mut Self::Desk, room: Vec<u8>)
        ensures untouched { desk.new ≡ desk.old };

    /// What is as it was differs in nothing that counts.
    ghost same: { (s : Setting) (m : Files) → (protocol s).answering.alike m m };

    /// No answer leaves all as it was.
    ghost leaves_none: { (s : Self.Desk) → leaves s s };

    /// Answers leave what some of them leave, and then the others.
    ghost leaves_more: { (s t u : Self.Desk) → leaves s t → leaves t u → leaves s u };
}
