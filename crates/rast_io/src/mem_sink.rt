// A sink in memory, which tells what it took and fails at the calls that are listed.
ghost use Rattle.std.specs.Prelude.{◌≡◌, ◌<◌, ◌≤◌, ◌+◌, ◌⊎◌, ◌↔◌, ◌^◌, ◌-◌, ◌++◌, ◌∷◌, [], Contains, length, min, IfOk, OnOk, OnErr, IsErr, Some, vec_len, vec_capacity};
ghost use Rattle.std.specs.Io.KnownBytes.{WriteAppends};
ghost use Rattle.rast_io.specs.Causes.{HasCause};

use crate::calls::Calls;
use crate::{Failed, Sink};
use std::alloc::{AllocError, Global};

/// A sink in memory. It begins without room; where no room is left, a piece that isn't empty is a fault.
#[derive(Drop)]
pub struct MemSink {
    calls: Calls,
    bytes: Vec<u8>,
    room: usize,
    most: usize,
    ghost some: { 0 < most },
    ghost fits: { vec_len bytes + room ≤ vec_capacity bytes },
}

impl MemSink {
    ghost use Rattle.rast_io.specs.SinkInMemory.{sink_bytes, sink_room, sink_calls, sink_listed, sink_most, sink_faults};

    /// An empty sink without room, of which one write takes at most `most` bytes.
    pub fn new(alloc: Global, most: usize) -> Self
        requires { 0 < most }
        ensures bytes { sink_bytes result ≡ [] }
        ensures room { sink_room result ≡ 0 }
        ensures most { sink_most result ≡ most }
        ensures calls { sink_calls result ≡ 0 }
        ensures listed { sink_listed result ≡ [] }
        ensures faults { sink_faults result ≡ 0 }
    {
        MemSink {
            calls: Calls::new(alloc),
            bytes: Vec::new(alloc),
            room: 0,
            most,
        }
    }

    /// Adds room for `n` bytes. After an error the sink is as it was.
    pub fn reserve(&mut self, n: usize) -> Result<(), AllocError>
        ensures room { OnOk result (sink_room self.new ≡ sink_room self.old + n) }
        ensures err { OnErr result (sink_room self.new ≡ sink_room self.old) }
        ensures bytes { sink_bytes self.new ≡ sink_bytes self.old }
        ensures most { sink_most self.new ≡ sink_most self.old }
        ensures calls { sink_calls self.new ≡ sink_calls self.old }
        ensures listed { sink_listed self.new ≡ sink_listed self.old }
        ensures faults { sink_faults self.new ≡ sink_faults self.old }
    {
        let Some(room) = self.room.checked_add(n) else {
            return Err(AllocError);
        };
        self.bytes.reserve(room)?;
        self.room = room;
        Ok(())
    }

    /// Lets the call of `write` with the number `call`, counted from 1, fail. After an error the sink is as it was.
    pub fn fail_at(&mut self, call: u32) -> Result<(), AllocError>
        ensures listed { OnOk result (sink_listed self.new ≡ sink_listed self.old ++ call ∷ []) }
        ensures err { OnErr result (sink_listed self.new ≡ sink_listed self.old) }
        ensures room { sink_room self.new ≡ sink_room self.old }
        ensures bytes { sink_bytes self.new ≡ sink_bytes self.old }
        ensures most { sink_most self.new ≡ sink_most self.old }
        ensures calls { sink_calls self.new ≡ sink_calls self.old }
        ensures faults { sink_faults self.new ≡ sink_faults self.old }
    {
        self.calls.list(call)
    }

    /// All bytes that were taken.
    pub fn bytes(&self) -> &[u8]
        ensures { result.now ≡ sink_bytes self.now }
    {
        &self.bytes
    }
}

impl Sink for MemSink {
    ghost use Rattle.rast_io.specs.SinkInMemory.{sink_bytes, sink_room, sink_calls, sink_listed, sink_most, sink_faults};

    ghost told = { λ s. Some s.bytes.items };

    ghost faults = { λ s. s.calls.faults };

    fn write(&mut self, piece: &[u8]) -> Result<usize, Failed>
        ensures bound { IfOk result (λ n. n ≤ length piece.now) }
        ensures some { IfOk result (λ n. 0 < length piece.now → 0 < n) }
        ensures bytes { WriteAppends (Some (sink_bytes self.old)) (Some (sink_bytes self.new)) result piece.now }
        ensures cause { HasCause (sink_faults self.old) (sink_faults self.new) result }

        // A call fails exactly where it is listed, or where no room is left for a piece that isn't empty.
        ensures fails { IsErr result ↔ (Contains (sink_listed self.old) (sink_calls self.new) ⊎ ((0 < length piece.now) × (sink_room self.old ≡ 0))) }
        ensures takes { IfOk result (λ n. n ≡ min (min (sink_most self.old) (length piece.now)) (sink_room self.old)) }

        ensures room { IfOk result (λ n. sink_room self.new + n ≡ sink_room self.old) }
        ensures room_kept { OnErr result (sink_room self.new ≡ sink_room self.old) }
        ensures calls { sink_calls self.new ≡ min (sink_calls self.old + 1) (2 ^ 64 - 1) }
        ensures listed { sink_listed self.new ≡ sink_listed self.old }
        ensures most { sink_most self.new ≡ sink_most self.old }
    {
        let listed = self.calls.begin();
        let count = self.most.min(piece.len()).min(self.room);
        if listed || (self.room == 0 && !piece.is_empty()) {
            self.calls.fail();
            return Err(Failed);
        }
        self.bytes.extend_from_slice(&piece[..count]).unwrap();
        self.room -= count;
        Ok(count)
    }
}
