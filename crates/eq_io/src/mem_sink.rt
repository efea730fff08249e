//! A sink in memory, whose puts fail where a test says so.
ghost use Rattle.std.specs.Prelude.{◌≡◌, ◌/◌, ◌≤◌, Some, ◌++◌, take, length, true, false, IfOk, OnOk, IsErrOf};
ghost use Rattle.eq_io.specs.Faults.{one_more};
ghost use Rattle.eq_io.specs.Fakes.{no_output, next_call, next_fails};

use crate::call_plan::CallPlan;
use crate::{Sink, SinkErr};
use eq_base::Memory;
use std::alloc::Global;
use std::marker::Model;

/// Keeps what is put into it. Puts are counted from 1.
#[derive(Drop)]
pub struct MemSink {
    written: Vec<u8>,
    puts: CallPlan,
    faults: u64,
}

impl Model for MemSink {
    ghost use Rattle.eq_io.specs.Fakes.{OutputInMemory, output_code};

    ghost Value = { OutputInMemory };

    ghost coded = { output_code };

    ghost view = { λ s. record { written = s.written.items; puts = s.puts; faults = s.faults } };
}

impl MemSink {
    /// An empty sink whose puts with these numbers fail.
    pub fn new(alloc: Global, failing: &[u64]) -> Result<MemSink, Memory>
        ensures { IfOk result (λ sink. sink ≡ no_output failing.now) }
    {
        let puts = CallPlan::new(alloc, failing)?;
        Ok(MemSink {
            written: Vec::new(alloc),
            puts,
            faults: 0,
        })
    }

    /// What was put so far, front pieces of failed puts included.
    pub fn written(&self) -> &[u8]
        ensures { result.now ≡ self.now.written }
    {
        self.written.as_slice()
    }
}

impl Sink for MemSink {
    ghost written = { λ s. Some s.written };

    ghost faults = { λ s. s.faults };

    /// A put that fails adds the first half of the piece, rounded down.
    fn put(&mut self, _alloc: Global, piece: &[u8]) -> Result<(), SinkErr>
        ensures ok { OnOk result (self.new ≡ record self.old {
          written = self.old.written ++ piece.now;
          puts = next_call self.old.puts;
        }) }
        ensures failed { IsErrOf result SinkErr.Failed → self.new ≡ record self.old {
          written = self.old.written ++ take (length piece.now / 2) piece.now;
          puts = next_call self.old.puts;
          faults = one_more self.old.faults;
        } }
        ensures memory { IsErrOf result SinkErr.Memory
            → self.new ≡ record self.old { puts = next_call self.old.puts } }
        ensures no_fault { OnOk result (next_fails self.old.puts ≡ false) }
        ensures fault { IsErrOf result SinkErr.Failed → next_fails self.old.puts ≡ true }
        ensures later { self.old.faults ≤ self.new.faults }
    {
        if self.puts.next() {
            self.written.extend_from_slice(&piece[..piece.len() / 2])?;
            self.faults = self.faults.saturating_add(1);
            return Err(SinkErr::Failed);
        }
        self.written.extend_from_slice(piece)?;
        Ok(())
    }
}
