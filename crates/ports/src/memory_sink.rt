ghost use Rattle.std.specs.Prelude.{◌≡◌, length, is_err, IfOk, Some, ◌≤◌};
ghost use Rattle.std.specs.Io.KnownBytes.{WriteAppends};
ghost use Rattle.ports.specs.Calls.{fails_next};
ghost use Rattle.ports.specs.Causes.{HasCause, HasStall};
ghost use Rattle.ports.specs.MemSink.{empty_sink, taken, after_write};

use crate::calls::Calls;
use crate::{Failed, Sink};
use src_text::{Mem, Seq};
use std::alloc::Global;
use std::marker::Model;

/// A sink in memory, which makes its room when it is made. No write takes memory, and a full sink takes nothing of a piece.
#[derive(Debug, Drop)]
pub struct MemSink {
    bytes: Vec<u8>,
    room: usize,
    calls: Calls,
    stalling: Seq<u64>,
    stalls: u64,
}

impl Model for MemSink {
    ghost use Rattle.std.specs.Prelude.{◌≤◌, vec_capacity, vec_len};
    ghost use Rattle.ports.specs.MemSink.{SinkState};

    ghost Value = { SinkState };

    ghost view = { λ s. record {
      held = s.bytes.items;
      room = s.room;
      calls = s.calls;
      stalling = s.stalling;
      stalls = s.stalls;
    } };

    ghost invariant = { λ s. (vec_len s.bytes ≤ s.room) × (s.room ≤ vec_capacity s.bytes) };
}

impl MemSink {
    /// An empty sink with room for that many bytes. The writes that `failing` numbers, from 1, fail, and those that `stalling`
    /// numbers take nothing.
    pub fn new(alloc: Global, room: u64, failing: Seq<u64>, stalling: Seq<u64>) -> Mem<MemSink>
        ensures { IfOk result (λ sink. sink ≡ empty_sink room failing stalling) }
    {
        let room = room as usize;
        let bytes = Vec::with_capacity(alloc, room)?;
        Ok(MemSink {
            bytes,
            room,
            calls: Calls::new(failing),
            stalling,
            stalls: 0,
        })
    }

    /// The bytes that it holds.
    pub fn bytes(&self) -> &[u8]
        ensures { result.now ≡ self.now.held }
    {
        &self.bytes
    }
}

impl Sink for MemSink {
    ghost held = { λ s. Some s.held };

    ghost faults = { λ s. s.calls.faults };

    ghost stalls = { λ s. s.stalls };

    fn write(&mut self, piece: &[u8]) -> Result<usize, Failed>
        ensures fails { is_err result ≡ fails_next self.old.calls }
        ensures takes { IfOk result (λ n. n ≡ taken self.old piece.now) }
        ensures after { self.new ≡ after_write self.old piece.now }
        ensures bound { IfOk result (λ n. n ≤ length piece.now) }
        ensures bytes { WriteAppends (Some self.old.held) (Some self.new.held) result piece.now }
        ensures cause { HasCause self.old.calls.faults self.new.calls.faults result }
        ensures stall { HasStall self.old.stalls self.new.stalls result piece.now }
    {
        self.calls.begin()?;
        let free = self.room - self.bytes.len();
        let count = if self.stalling.as_slice().contains(&self.calls.number) {
            0
        } else {
            free.min(piece.len())
        };
        if count == 0 && !piece.is_empty() {
            self.stalls = self.stalls.saturating_add(1);
        }
        self.bytes.extend_from_slice(&piece[..count]).unwrap();
        Ok(count)
    }
}
