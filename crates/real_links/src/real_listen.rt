//! What clients connect to over TCP. It doesn't tell contracts what connects.

ghost use Rattle.std.specs.Prelude.{◌≡◌, IfOk, IsNone};

use crate::real_dial::unbracketed;
use crate::real_link::RealLink;
use dsy_base::fault::{IoFault, raise};
use dsy_base::link::Link;
use dsy_base::listen::Listen;
use std::io::ErrorKind;
use std::net::{Net, OpenListener, TcpListener, ToSocketAddrs};
use std::time::{Clock, Duration};
use std::{io, thread};

// Errors of accept(2) on Linux: no memory, no file for the system or for the program, no buffer.
const ENOMEM: i32 = 12;

const ENFILE: i32 = 23;

const EMFILE: i32 = 24;

const ENOBUFS: i32 = 105;

// How many milliseconds pass until a connection is asked for again that there was no file or memory for.
const MILLISECONDS_TO_PAUSE: u64 = 100;

/// What clients connect to over TCP: nothing, until it listens at an address.
#[derive(Drop)]
pub struct RealListen<'a, R: Net> {
    rt: &'a R,
    listener: Option<R::Listener>,
    faults: u64,
}

impl<'a, R: Net> RealListen<'a, R> {
    pub fn new(rt: &'a R) -> RealListen<'a, R>
        ensures faults { result.faults ≡ 0 }
    {
        RealListen {
            rt,
            listener: None,
            faults: 0,
        }
    }

    /// How often a call has failed.
    pub fn faults(&self) -> u64
        ensures { result ≡ self.now.faults }
    {
        self.faults
    }

    /// The port that it listens at, where the system tells it.
    pub fn port(&self) -> Option<u16>
        ensures absent { IsNone self.now.listener → IsNone result }
    {
        let address = self.listener.as_ref()?.local_addr().ok()?;
        Some(address.port())
    }
}

// Listens at the first address of the host that is free.
fn listen_at<R: Net>(rt: &R, host: &str, port: u16) -> io::Result<R::Listener> {
    let mut last = io::Error::from(ErrorKind::NotFound);
    for address in (unbracketed(host), port).to_socket_addrs(rt)? {
        match TcpListener::bind(rt, address) {
            Ok(listener) => return Ok(listener),
            Err(error) => last = error,
        }
    }
    Err(last)
}

// Listens at the address, and where no host is given at all addresses of the machine: at those of version 6, which
// most systems take with those of version 4, else at those of version 4.
fn listen<R: Net>(rt: &R, host: &str, port: u16) -> io::Result<R::Listener> {
    if !host.is_empty() {
        return listen_at(rt, host, port);
    }
    match listen_at(rt, "::", port) {
        Ok(listener) => Ok(listener),
        Err(_) => listen_at(rt, "0.0.0.0", port),
    }
}

// Whether it is the connection that has failed, so that the next one can be taken: the peer gave it up before it was
// taken, or a signal came between.
fn is_passing(error: &io::Error) -> bool {
    matches!(
        error.kind(),
        ErrorKind::Interrupted | ErrorKind::ConnectionAborted | ErrorKind::ConnectionReset
    )
}

// Whether the system had no file or no memory for the connection, which waits in the listener's queue meanwhile: there
// is some again once others have ended.
fn is_want(error: &io::Error) -> bool {
    matches!(
        error.raw_os_error(),
        Some(ENOMEM | ENFILE | EMFILE | ENOBUFS)
    )
}

// The next connection that can be obtained.
fn accept_next<'a, R: Net + Clock>(
    rt: &'a R,
    listener: &R::Listener,
) -> io::Result<RealLink<'a, R, R::Stream>>
    ensures faults { IfOk result (λ l. l.faults ≡ 0) }
{
    for _ in 0..u64::MAX {
        match listener.accept() {
            Ok((stream, _)) => {
                if let Ok(link) = RealLink::new(rt, stream) {
                    return Ok(link);
                }
            }
            Err(error) if is_passing(&error) => {}
            Err(error) if is_want(&error) => {
                thread::sleep(rt, Duration::from_millis(MILLISECONDS_TO_PAUSE));
            }
            Err(error) => return Err(error),
        }
    }
    Err(io::Error::from(ErrorKind::Interrupted))
}

impl<'a, R: Net + Clock> Listen for RealListen<'a, R> {
    ghost use Rattle.std.specs.Prelude.{None, false, refl};

    type Link = RealLink<'a, R, R::Stream>;

    ghost state = { λ l. record { coming = None; ended = None; faults = l.faults } };

    ghost tells = { false };

    fn bind(&mut self, host: &str, port: u16) -> Result<(), IoFault> {
        match listen(self.rt, host, port) {
            Ok(listener) => {
                self.listener = Some(listener);
                Ok(())
            }
            Err(_) => {
                self.faults = raise(self.faults, 1);
                Err(IoFault::Failed)
            }
        }
    }

    fn accept(&mut self) -> Result<Option<RealLink<'a, R, R::Stream>>, IoFault> {
        let accepted = match &self.listener {
            Some(listener) => accept_next(self.rt, listener),
            None => Err(io::Error::from(ErrorKind::NotConnected)),
        };
        match accepted {
            Ok(link) => Ok(Some(link)),
            Err(_) => {
                self.faults = raise(self.faults, 1);
                Err(IoFault::Failed)
            }
        }
    }

    fn end(&mut self, mut link: RealLink<'a, R, R::Stream>) {
        link.finish();
    }

    ghost told = { λ _. (refl, refl) };

    ghost alike = { λ t. t };
}
