//! A sink over a writer of the system, as standard output.
ghost use Rattle.std.specs.Prelude.{◌≡◌, ◌≤◌, ℕ, length, take, None, OnOk, IsErrOf};
ghost use Rattle.std.specs.Io.KnownBytes.{Appends};
ghost use Rattle.eq_io.specs.Faults.{one_more};

use crate::{Sink, SinkErr};
use std::alloc::Global;
use std::io::{ErrorKind, Write};
use std::marker::Model;

/// Puts what it is given into a writer. As a sink it tells nothing of its bytes; what it does to a writer that tells
/// its own is said by the clauses of its `put`. An error of the writer is a fault, and so is a write that takes nothing
/// of a piece that isn't empty.
#[derive(Drop)]
pub struct OutSink<W> {
    out: W,
    faults: u64,
}

impl<W> Model for OutSink<W> {
    ghost use Rattle.eq_io.specs.Counted.{Counted, counted_code};

    ghost Value = { Counted W };

    ghost coded = { counted_code W.code };

    ghost view = { λ s. record { inner = s.out; faults = s.faults } };
}

// Writes the piece from its front on, until a write fails or takes nothing, and says how many bytes were taken.
fn write_front<W: Write>(out: &mut W, piece: &[u8]) -> usize
    ensures written { Appends (W.contents out.old) (W.contents out.new) (take result piece.now) }
    ensures within { result ≤ length piece.now }
{
    let mut taken = 0;
    for _ in 0..u64::MAX {
        if taken >= piece.len() {
            break;
        }
        match out.write(&piece[taken..]) {
            Ok(0) => break,
            Ok(n) => taken += n,
            Err(e) if e.kind() == ErrorKind::Interrupted => {}
            Err(_) => break,
        }
    }
    taken
}

impl<W: Write> OutSink<W> {
    pub fn new(w: W) -> OutSink<W>
        ensures { result ≡ record { inner = w; faults = 0 } }
    {
        OutSink { out: w, faults: 0 }
    }
}

impl<W: Write> Sink for OutSink<W> {
    ghost written = { λ _. None };

    ghost faults = { λ s. s.faults };

    fn put(&mut self, _alloc: Global, piece: &[u8]) -> Result<(), SinkErr>
        ensures ok { OnOk result
            (Appends (W.contents self.old.inner) (W.contents self.new.inner) piece.now) }
        ensures failed { IsErrOf result SinkErr.Failed → (n : ℕ)
            × Appends (W.contents self.old.inner) (W.contents self.new.inner) (take n piece.now) }
        ensures fault { IsErrOf result SinkErr.Failed → self.new.faults ≡ one_more self.old.faults }
        ensures no_fault { OnOk result (self.new.faults ≡ self.old.faults) }
        ensures later { self.old.faults ≤ self.new.faults }
        ensures only { IsErrOf result SinkErr.Memory → ⊥ }
    {
        if write_front(&mut self.out, piece) < piece.len() {
            self.faults = self.faults.saturating_add(1);
            return Err(SinkErr::Failed);
        }
        Ok(())
    }
}
