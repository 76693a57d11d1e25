//! A stream whose calls wait for no longer than the message that they are about may still take.

ghost use Rattle.std.specs.Prelude.{◌≡◌, ◌<◌, IfOk, OnOk};
ghost use Rattle.std.specs.Io.{ReadsAtMost, WritesAtMost};
ghost use Rattle.real_links.specs.Paces.{time_left, longest_wait, HasMoved};

use crate::pace::{LONGEST, Pace, Turn, elapsed};
use std::io;
use std::io::{ErrorKind, Read, Write};
use std::net::{OpenStream, Shutdown};
use std::time::{Clock, Duration, Instant};

// How many milliseconds a read waits once the peer was told of the end, after how many no further one begins, and how
// many reads there are at most.
const LINGER: u64 = 1_000;

const DRAIN: u64 = 30_000;

const READS_TO_DRAIN: u64 = 1_024;

/// A stream, and how long the messages may still take that come and go by it.
#[derive(Drop)]
pub(crate) struct PacedStream<'a, C: Clock, S: Read + Write + OpenStream + Drop> {
    clock: &'a C,
    stream: S,
    // How long a read and a write of the stream wait, in milliseconds.
    read_wait: u64,
    write_wait: u64,
    // What came since it was last written to, and what went since it was last read.
    coming: Pace,
    going: Pace,
}

// Reads once, where no signal comes between.
fn read_once<S: Read>(stream: &mut S, out: &mut [u8]) -> io::Result<usize>
    ensures { ReadsAtMost result out.new }
{
    for _ in 0..u64::MAX {
        match stream.read(out) {
            Err(error) if error.kind() == ErrorKind::Interrupted => {}
            ended => return ended,
        }
    }
    Err(io::Error::from(ErrorKind::Interrupted))
}

// Writes once, where no signal comes between.
fn write_once<S: Write>(stream: &mut S, b: &[u8]) -> io::Result<usize>
    ensures { WritesAtMost result b.now }
{
    for _ in 0..u64::MAX {
        match stream.write(b) {
            Err(error) if error.kind() == ErrorKind::Interrupted => {}
            ended => return ended,
        }
    }
    Err(io::Error::from(ErrorKind::Interrupted))
}

impl<'a, C: Clock, S: Read + Write + OpenStream + Drop> PacedStream<'a, C, S> {
    /// The stream of a new connection, which sends at once what it is given.
    pub(crate) fn new(clock: &'a C, stream: S) -> io::Result<PacedStream<'a, C, S>> {
        stream.set_read_timeout(Some(Duration::from_millis(LONGEST)))?;
        stream.set_write_timeout(Some(Duration::from_millis(LONGEST)))?;
        stream.set_nodelay(true)?;
        Ok(PacedStream {
            clock,
            stream,
            read_wait: LONGEST,
            write_wait: LONGEST,
            coming: Pace::new(),
            going: Pace::new(),
        })
    }

    // Has a read granted by the pace of what comes, and lets the stream wait for so long.
    fn begin_read(&mut self) -> io::Result<Turn>
        ensures only { OnOk result (0 < time_left self.old.coming) }
        ensures waits { OnOk result (self.new.read_wait ≡ longest_wait self.old.coming) }
        ensures kept { self.new.coming ≡ self.old.coming }
        ensures others { self.new.going ≡ self.old.going }
    {
        let Some(turn) = self.coming.grant(self.clock) else {
            return Err(io::Error::from(ErrorKind::TimedOut));
        };
        if turn.wait() != self.read_wait {
            let wait = Some(Duration::from_millis(turn.wait()));
            self.stream.set_read_timeout(wait)?;
            self.read_wait = turn.wait();
        }
        Ok(turn)
    }

    // The same for a write.
    fn begin_write(&mut self) -> io::Result<Turn>
        ensures only { OnOk result (0 < time_left self.old.going) }
        ensures waits { OnOk result (self.new.write_wait ≡ longest_wait self.old.going) }
        ensures kept { self.new.going ≡ self.old.going }
        ensures others { self.new.coming ≡ self.old.coming }
    {
        let Some(turn) = self.going.grant(self.clock) else {
            return Err(io::Error::from(ErrorKind::TimedOut));
        };
        if turn.wait() != self.write_wait {
            let wait = Some(Duration::from_millis(turn.wait()));
            self.stream.set_write_timeout(wait)?;
            self.write_wait = turn.wait();
        }
        Ok(turn)
    }

    /// Reads once what comes. What goes from now on is another message.
    pub(crate) fn receive(&mut self, out: &mut [u8]) -> io::Result<usize>
        ensures bytes { ReadsAtMost result out.new }
        ensures only { OnOk result (0 < time_left self.old.coming) }
        ensures waits { OnOk result (self.new.read_wait ≡ longest_wait self.old.coming) }
        ensures changed { IfOk result (λ n. HasMoved n self.old.coming self.new.coming) }
        ensures fresh { self.new.going.bytes ≡ 0 }
    {
        self.going = Pace::new();
        let turn = self.begin_read()?;
        let n = read_once(&mut self.stream, out)?;
        self.coming.settle(self.clock, turn, n);
        Ok(n)
    }

    /// Writes once, a front of `b`. What comes from now on is another message.
    pub(crate) fn send(&mut self, b: &[u8]) -> io::Result<usize>
        ensures bytes { WritesAtMost result b.now }
        ensures only { OnOk result (0 < time_left self.old.going) }
        ensures waits { OnOk result (self.new.write_wait ≡ longest_wait self.old.going) }
        ensures changed { IfOk result (λ n. HasMoved n self.old.going self.new.going) }
        ensures fresh { self.new.coming.bytes ≡ 0 }
    {
        self.coming = Pace::new();
        let turn = self.begin_write()?;
        let n = write_once(&mut self.stream, b)?;
        self.going.settle(self.clock, turn, n);
        Ok(n)
    }

    /// Says that nothing more is sent.
    pub(crate) fn shut(&self) -> io::Result<()> {
        self.stream.shutdown(Shutdown::Write)
    }

    /// Says that nothing more is sent, and takes what the peer still sends, for a short time: the end of a connection
    /// that is closed before that was taken may reach the peer before the last reply does (RFC 9112, section 9.6).
    pub(crate) fn linger(mut self) {
        if self.shut().is_err() {
            return;
        }
        let wait = Some(Duration::from_millis(LINGER));
        if self.stream.set_read_timeout(wait).is_err() {
            return;
        }
        self.drain();
    }

    // Takes what the peer still sends.
    fn drain(&mut self) {
        let begun = Instant::now(self.clock).ok();
        let mut buffer = [0u8; 16_384];
        for _ in 0..READS_TO_DRAIN {
            if elapsed(self.clock, begun) >= DRAIN {
                return;
            }
            match read_once(&mut self.stream, &mut buffer) {
                Ok(0) => return,
                Ok(_) => {}
                Err(_) => return,
            }
        }
    }
}
