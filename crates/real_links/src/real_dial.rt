//! Connections over TCP, by the names that the system looks up. They don't tell contracts what comes and goes.

ghost use Rattle.std.specs.Prelude.{◌≡◌, IfOk};

use crate::real_link::RealLink;
use dsy_base::dial::Dial;
use dsy_base::fault::{IoFault, Memory, raise};
use std::io;
use std::io::ErrorKind;
use std::net::{Net, TcpStream, ToSocketAddrs};
use std::time::{Clock, Duration};

// How many seconds an address may take to answer.
const SECONDS_TO_CONNECT: u64 = 10;

/// What connects over TCP.
#[derive(Drop)]
pub struct RealDial<'a, R: Net + Clock> {
    rt: &'a R,
    faults: u64,
}

impl<'a, R: Net + Clock> RealDial<'a, R> {
    pub fn new(rt: &'a R) -> RealDial<'a, R>
        ensures faults { result.faults ≡ 0 }
    {
        RealDial { rt, faults: 0 }
    }

    /// How often a call has failed.
    pub fn faults(&self) -> u64
        ensures { result ≡ self.now.faults }
    {
        self.faults
    }
}

/// A host as the system looks it up: an address of version 6 has no brackets.
pub(crate) fn unbracketed(host: &str) -> &str {
    match host.strip_prefix('[') {
        Some(rest) => rest.strip_suffix(']').unwrap_or(host),
        None => host,
    }
}

// Connects to the first address of the host that answers.
fn connect<'a, R: Net + Clock>(
    rt: &'a R,
    host: &str,
    port: u16,
) -> io::Result<RealLink<'a, R, R::Stream>>
    ensures faults { IfOk result (λ l. l.faults ≡ 0) }
{
    let timeout = Duration::from_secs(SECONDS_TO_CONNECT);
    let mut last = io::Error::from(ErrorKind::NotFound);
    for address in (unbracketed(host), port).to_socket_addrs(rt)? {
        match TcpStream::connect_timeout(rt, &address, timeout) {
            Ok(stream) => return RealLink::new(rt, stream),
            Err(error) => last = error,
        }
    }
    Err(last)
}

impl<'a, R: Net + Clock> Dial for RealDial<'a, R> {
    ghost use Rattle.std.specs.Prelude.{None, false, refl};

    type Link = RealLink<'a, R, R::Stream>;

    ghost state = { λ d. record { ended = None; faults = d.faults } };

    ghost tells = { false };

    fn fork(&self) -> Result<Self, Memory> {
        Ok(RealDial::new(self.rt))
    }

    fn dial(&mut self, host: &str, port: u16) -> Result<RealLink<'a, R, R::Stream>, IoFault> {
        match connect(self.rt, host, port) {
            Ok(link) => Ok(link),
            Err(_) => {
                self.faults = raise(self.faults, 1);
                Err(IoFault::Failed)
            }
        }
    }

    fn hang_up(&mut self, link: RealLink<'a, R, R::Stream>) {
        link.shut();
        self.faults = raise(self.faults, link.faults());
    }

    fn join(&mut self, other: Self) {
        self.faults = raise(self.faults, other.faults);
    }

    ghost told = { λ _. refl };

    ghost alike = { λ t. t };
}
