ghost use Rattle.std.specs.Prelude.{◌≡◌, ℕ, ◌<◌, ◌≤◌, ◌↔◌, [], ◌∷◌, ◌++◌, List, length, take, Some, IfOk, OnOk, OnErr, IsErr, IsTrue};
ghost use Rattle.st_outside.specs.Count.{HasRisen, next_count};
ghost use Rattle.st_outside.specs.Sink.{Appends};
ghost use Rattle.st_outside.specs.MemorySink.{will_fail, accepted_len};

use crate::count::{contains_call, one_more};
use crate::sink::{Failed, Sink};
use std::alloc::{AllocError, Global};
use std::marker::Model;

/// A sink in memory with room for a fixed number of bytes. Its bytes are known, and the calls with chosen numbers fail or are short.
#[derive(Debug, Drop)]
pub struct MemorySink {
    bytes: Vec<u8>,
    room: usize,
    calls: u64,
    failing: Vec<u32>,
    short: Vec<u32>,
    faults: u64,
}

impl Model for MemorySink {
    ghost use Rattle.std.specs.Prelude.{◌≤◌, vec_len, vec_capacity};
    ghost use Rattle.st_outside.specs.MemorySink.{SinkInMemory};

    ghost Value = { SinkInMemory };

    ghost view = { λ m. record { bytes = m.bytes.items; room = m.room; calls = m.calls; failing = m.failing.items; short = m.short.items; faults = m.faults } };

    ghost invariant = { λ m. (vec_len m.bytes ≤ m.room) × (m.room ≤ vec_capacity m.bytes) };
}

impl MemorySink {
    /// An empty sink with room for this many bytes, which are allocated at once.
    pub fn new(alloc: Global, room: u32) -> Result<Self, AllocError>
        ensures { IfOk result (λ sink. sink ≡ record { bytes = []; room = room; calls = 0; failing = []; short = []; faults = 0 }) }
    {
        let room = room as usize;
        Ok(MemorySink {
            bytes: Vec::with_capacity(alloc, room)?,
            room,
            calls: 0,
            failing: Vec::new(alloc),
            short: Vec::new(alloc),
            faults: 0,
        })
    }

    /// Makes the call with this number fail. Calls are counted from 1.
    pub fn fail_at(&mut self, call: u32) -> Result<(), AllocError>
        ensures ok { OnOk result (self.new ≡ record self.old { failing = self.old.failing ++ call ∷ [] }) }
        ensures err { OnErr result (self.new ≡ self.old) }
    {
        self.failing.push(call)?;
        Ok(())
    }

    /// Makes the call with this number write a single byte. Calls are counted from 1.
    pub fn short_at(&mut self, call: u32) -> Result<(), AllocError>
        ensures ok { OnOk result (self.new ≡ record self.old { short = self.old.short ++ call ∷ [] }) }
        ensures err { OnErr result (self.new ≡ self.old) }
    {
        self.short.push(call)?;
        Ok(())
    }

    /// The bytes written so far.
    pub fn bytes(&self) -> &[u8]
        ensures { result.now ≡ self.now.bytes }
    {
        self.bytes.as_slice()
    }

    /// The number of faults so far, saturating at 2^64 - 1.
    pub fn faults(&self) -> u64
        ensures { result ≡ self.now.faults }
    {
        self.faults
    }
}

impl Sink for MemorySink {
    ghost written = { λ m. Some m.bytes };

    ghost faults = { λ m. m.faults };

    fn write_piece(&mut self, piece: &[u8]) -> Result<usize, Failed>
        requires { 0 < length piece.now }
        ensures some { IfOk result (λ n. 0 < n) }
        ensures within { IfOk result (λ n. n ≤ length piece.now) }
        ensures taken { IfOk result (λ n. Appends (Some self.old.bytes) (Some self.new.bytes) (take n piece.now)) }
        ensures quiet { OnOk result (self.new.faults ≡ self.old.faults) }
        ensures failed { OnErr result (HasRisen self.old.faults self.new.faults) }
        ensures unwritten { OnErr result (Some self.new.bytes ≡ Some self.old.bytes) }

        // Exactly when a call fails, how many bytes it writes, and the state after it.
        ensures fails { IsErr result ↔ IsTrue (will_fail self.old) }
        ensures count { IfOk result (λ n. n ≡ accepted_len self.old (length piece.now)) }
        ensures ok { OnOk result (self.new ≡ record self.old { bytes = self.new.bytes; calls = next_count self.old.calls }) }
        ensures err { OnErr result (self.new ≡ record self.old { calls = next_count self.old.calls; faults = next_count self.old.faults }) }
    {
        self.calls = one_more(self.calls);
        let left = self.room - self.bytes.len();
        if left == 0 || contains_call(&self.failing, self.calls) {
            self.faults = one_more(self.faults);
            return Err(Failed);
        }
        let short = contains_call(&self.short, self.calls);
        let taken = if short { 1 } else { piece.len().min(left) };

        // `new` allocated the room, so this can't fail.
        let _ = self.bytes.extend_from_slice(&piece[..taken]);
        Ok(taken)
    }
}
