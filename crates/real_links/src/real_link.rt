//! A connection over TCP. It doesn't tell contracts what comes and goes.

ghost use Rattle.std.specs.Prelude.{◌≡◌, IfOk};

use crate::paced_stream::PacedStream;
use dsy_base::fault::{Failed, IoFault, raise};
use dsy_base::link::Link;
use std::io;
use std::io::{ErrorKind, Read, Write};
use std::net::OpenStream;
use std::time::Clock;

/// A connection over TCP. Once it is finished it has no stream.
#[derive(Drop)]
pub struct RealLink<'a, C: Clock, S: Read + Write + OpenStream + Drop> {
    stream: Option<PacedStream<'a, C, S>>,
    faults: u64,
}

// Writes all of it.
fn send_all<C: Clock, S: Read + Write + OpenStream + Drop>(
    stream: &mut PacedStream<C, S>,
    b: &[u8],
) -> io::Result<()> {
    let mut rest = b;
    for _ in 0..u64::MAX {
        if rest.is_empty() {
            return Ok(());
        }
        match stream.send(rest)? {
            0 => return Err(io::Error::from(ErrorKind::WriteZero)),
            n => rest = &rest[n..],
        }
    }
    Err(io::Error::from(ErrorKind::Interrupted))
}

impl<'a, C: Clock, S: Read + Write + OpenStream + Drop> RealLink<'a, C, S> {
    /// The connection of this stream. Each call waits for at most 60 seconds, and the calls for a message together for
    /// 60 seconds and one more for each KiB of it.
    pub fn new(clock: &'a C, stream: S) -> io::Result<RealLink<'a, C, S>>
        ensures faults { IfOk result (λ l. l.faults ≡ 0) }
    {
        Ok(RealLink {
            stream: Some(PacedStream::new(clock, stream)?),
            faults: 0,
        })
    }

    /// How often a call has failed.
    pub fn faults(&self) -> u64
        ensures { result ≡ self.now.faults }
    {
        self.faults
    }

    /// Says that nothing more is sent. A fault of that is passed over, since all that was to be sent has gone.
    pub fn shut(&self) {
        if let Some(stream) = &self.stream {
            let _ = stream.shut();
        }
    }
}

impl<C: Clock, S: Read + Write + OpenStream + Drop> Link for RealLink<'_, C, S> {
    ghost use Rattle.std.specs.Prelude.{None, false, refl};

    ghost state = { λ l. record { traffic = None; faults = l.faults } };

    ghost tells = { false };

    fn read(&mut self, out: &mut [u8]) -> Result<usize, Failed> {
        let read = match &mut self.stream {
            Some(stream) => stream.receive(out),
            None => Err(io::Error::from(ErrorKind::NotConnected)),
        };
        match read {
            Ok(n) => Ok(n),
            Err(_) => {
                self.faults = raise(self.faults, 1);
                Err(Failed)
            }
        }
    }

    fn write(&mut self, b: &[u8]) -> Result<(), IoFault> {
        let written = match &mut self.stream {
            Some(stream) => send_all(stream, b),
            None => Err(io::Error::from(ErrorKind::NotConnected)),
        };
        match written {
            Ok(()) => Ok(()),
            Err(_) => {
                self.faults = raise(self.faults, 1);
                Err(IoFault::Failed)
            }
        }
    }

    // Where a call on it has failed nothing is waited for.
    fn finish(&mut self) {
        if let Some(stream) = self.stream.take() {
            if self.faults == 0 {
                stream.linger();
            }
        }
    }

    ghost told = { λ _. refl };
}
