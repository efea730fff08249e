//! What no proof covers of sinks: that writers are reached, and what a failed put leaves. And that threads share a gate.

use eq_io::{Gate, MemSink, Memory, NoGate, OutSink, Sink, SinkErr};
use std::alloc::Global;
use std::io;
use std::io::{ErrorKind, Write};
use std::test::Fail;

// A writer that takes at most three bytes at a time and `room` in all, and is interrupted before the first.
#[derive(Drop)]
struct Narrow {
    taken: Vec<u8>,
    room: usize,
    interrupted: bool,
    broken: bool,
}

impl Write for Narrow {
    fn write(&mut self, buf: &[u8]) -> io::Result<usize> {
        if !self.interrupted {
            self.interrupted = true;
            return Err(io::Error::from(ErrorKind::Interrupted));
        }
        if self.broken {
            return Err(io::Error::from(ErrorKind::BrokenPipe));
        }
        let n = buf.len().min(3).min(self.room);
        self.taken.extend_from_slice(&buf[..n])?;
        self.room -= n;
        Ok(n)
    }

    fn flush(&mut self) -> io::Result<()> {
        Ok(())
    }
}

/// Puts pieces until the room is full, and one piece behind them.
fn fills(alloc: Global, narrow: &mut Narrow) -> bool {
    let mut out = OutSink::new(narrow);
    out.put(alloc, b"abcdefgh") == Ok(())
        && out.put(alloc, b"") == Ok(())
        && out.put(alloc, b"ijkl") == Err(SinkErr::Failed)
        && out.put(alloc, b"") == Ok(())
}

/// Whether a put at a broken writer fails.
fn breaks(alloc: Global, narrow: &mut Narrow) -> bool {
    narrow.room = 10;
    narrow.broken = true;
    let mut out = OutSink::new(narrow);
    out.put(alloc, b"m") == Err(SinkErr::Failed)
}

#[test]
fn a_sink_over_a_writer_puts_all_or_fails(rt: HostRuntime) {
    let mut narrow = Narrow {
        taken: Vec::new(rt.alloc()),
        room: 10,
        interrupted: false,
        broken: false,
    };
    let puts = fills(rt.alloc(), &mut narrow) && breaks(rt.alloc(), &mut narrow);
    assert!(rt; puts && narrow.taken.as_slice() == b"abcdefghij".as_slice());
}

/// Whether a put that fails leaves half of its line.
fn leaves_half(alloc: Global) -> Result<bool, Memory> {
    let mut out = MemSink::new(alloc, &[1])?;
    let put = out.put(alloc, b"y: PROVED 1 by s\n");
    Ok(put == Err(SinkErr::Failed) && out.written() == b"y: PROVE".as_slice())
}

#[test]
fn a_failed_put_leaves_half_a_line(rt: HostRuntime) -> Result<(), Fail> {
    assert!(rt; leaves_half(rt.alloc())?);
    Ok(())
}

fn shared<G: Gate + Sync>(gate: &G) {
    gate.pass(1);
}

#[test]
fn workers_share_a_gate() {
    shared(&NoGate);
}
