// Ports over memory, which fail where they are told to.
ghost use Rattle.std.specs.Prelude.{◌≡◌, ◌+◌, ◌++◌, ◌-◌, ◌<◌, ◌≤◌, ◌↔◌, ◌⊎◌, [], Some, false};
ghost use Rattle.std.specs.Prelude.{min, length, take, drop, IfOk, OnOk, OnErr, IsErr, IsTrue};
ghost use Rattle.std.specs.Io.KnownBytes.{ReadConsumes, WriteAppends};
ghost use Rattle.fault_ports.specs.Causes.{HasCause, one_more, with_fault, without_fault};
ghost use Rattle.fault_ports.specs.Memory.{empty_sink, failed_sink, failed_source, fresh_source, is_chosen};

use crate::faults::{Failed, Faults};
use crate::ports::{Sink, Source};
use net_types::{List, OutOfMemory, Text};
use std::alloc::Global;
use std::marker::Model;

/// A source over bytes in memory. It tells what is left, gives at most `most` bytes a call and fails the calls whose
/// numbers, from 1, it was given. Calls are counted in 64 bits; the last number stays.
#[derive(Drop)]
pub struct MemSource {
    bytes: Text,
    at: usize,
    fails: List<u64>,
    most: usize,
    calls: u64,
    faults: Faults,
}

impl Model for MemSource {
    ghost use Rattle.std.specs.Prelude.{◌≤◌, length, drop};
    ghost use Rattle.fault_ports.specs.Memory.{SourceState};

    ghost Value = { SourceState };

    ghost view = { λ s. record {
      left = drop s.at s.bytes;
      fails = s.fails;
      most = s.most;
      calls = s.calls;
      faults = s.faults;
    } };

    ghost invariant = { λ s. s.at ≤ length s.bytes × 1 ≤ s.most };
}

impl MemSource {
    /// A source that has these bytes left. It takes no memory.
    pub fn new(bytes: Text, fails: List<u64>, most: usize) -> MemSource
        requires { 1 ≤ most }
        ensures { result ≡ fresh_source bytes fails most }
    {
        MemSource {
            bytes,
            at: 0,
            fails,
            most,
            calls: 0,
            faults: Faults::none(),
        }
    }

    /// Lends what is left.
    pub fn left(&self) -> &[u8]
        ensures { result.now ≡ self.now.left }
    {
        &self.bytes.as_slice()[self.at..]
    }
}

impl Source for MemSource {
    ghost left = { λ s. Some s.left };

    ghost faults = { λ s. s.faults };

    fn take(&mut self, buf: &mut [u8]) -> Result<usize, Failed>
        ensures within { IfOk result (λ count. count ≤ length buf.new) }
        ensures bytes { ReadConsumes (Some self.old.left) (Some self.new.left) result buf.new }
        ensures cause { HasCause self.old.faults self.new.faults result }
        ensures answered { OnOk result (self.new.faults.failed ≡ false) }

        // The calls that fail are the chosen ones.
        ensures fails { IsErr result ↔ IsTrue (is_chosen self.new.calls self.old.fails) }
        ensures failed { OnErr result (self.new ≡ failed_source self.old) }
        ensures failed_buffer { OnErr result (buf.new ≡ buf.old) }

        // Every other call gives as many bytes as it may.
        ensures count { IfOk result (λ count. count ≡ min self.old.most (min (length buf.new) (length self.old.left))) }
        ensures taken { IfOk result (λ count. self.new ≡ record self.old {
          left = drop count self.old.left;
          calls = one_more self.old.calls;
          faults = without_fault self.old.faults;
        }) }
        ensures buffer { IfOk result (λ count. buf.new ≡ take count self.old.left ++ drop count buf.old) }
    {
        self.calls = self.calls.saturating_add(1);
        if self.fails.as_slice().contains(&self.calls) {
            return Err(self.faults.fail());
        }
        let rest = &self.bytes.as_slice()[self.at..];
        let count = self.most.min(buf.len().min(rest.len()));
        buf[..count].copy_from_slice(&rest[..count]);
        self.at += count;
        self.faults.pass();
        Ok(count)
    }
}

/// A sink into memory that is reserved beforehand. It tells what it holds, accepts at most `most` bytes a call and
/// fails the calls whose numbers, from 1, it was given, and a piece for which no room is left. Calls are counted in
/// 64 bits; the last number stays.
#[derive(Drop)]
pub struct MemSink {
    bytes: Vec<u8>,
    room: usize,
    fails: List<u64>,
    most: usize,
    calls: u64,
    faults: Faults,
}

impl Model for MemSink {
    ghost use Rattle.std.specs.Prelude.{◌+◌, ◌-◌, ◌≤◌, vec_len, vec_capacity};
    ghost use Rattle.fault_ports.specs.Memory.{SinkState};

    ghost Value = { SinkState };

    ghost view = { λ s. record {
      held = s.bytes.items;
      room = s.room;
      fails = s.fails;
      most = s.most;
      calls = s.calls;
      faults = s.faults;
    } };

    ghost invariant = { λ s. vec_len s.bytes + s.room ≤ vec_capacity s.bytes × 1 ≤ s.most };
}

impl MemSink {
    /// An empty sink with room for this many bytes.
    pub fn new(
        alloc: Global,
        room: usize,
        fails: List<u64>,
        most: usize,
    ) -> Result<MemSink, OutOfMemory>
        requires { 1 ≤ most }
        ensures { IfOk result (λ sink. sink ≡ empty_sink room fails most) }
    {
        let bytes = Vec::with_capacity(alloc, room)?;
        Ok(MemSink {
            bytes,
            room,
            fails,
            most,
            calls: 0,
            faults: Faults::none(),
        })
    }

    /// Lends what the sink holds.
    pub fn held(&self) -> &[u8]
        ensures { result.now ≡ self.now.held }
    {
        self.bytes.as_slice()
    }
}

impl Sink for MemSink {
    ghost held = { λ s. Some s.held };

    ghost faults = { λ s. s.faults };

    fn put(&mut self, piece: &[u8]) -> Result<usize, Failed>
        ensures within { IfOk result (λ count. count ≤ length piece.now) }
        ensures moves { IfOk result (λ count. 0 < length piece.now → 0 < count) }
        ensures bytes { WriteAppends (Some self.old.held) (Some self.new.held) result piece.now }
        ensures cause { HasCause self.old.faults self.new.faults result }
        ensures answered { OnOk result (self.new.faults.failed ≡ false) }

        // The calls that fail are the chosen ones and those without room.
        ensures fails { IsErr result
            ↔ (IsTrue (is_chosen self.new.calls self.old.fails) ⊎ ((self.old.room ≡ 0) × (0 < length piece.now))) }
        ensures failed { OnErr result (self.new ≡ failed_sink self.old) }

        // Every other call accepts as many bytes as it may.
        ensures count { IfOk result (λ count. count ≡ min self.old.most (min (length piece.now) self.old.room)) }
        ensures put { IfOk result (λ count. self.new ≡ record self.old {
          held = self.old.held ++ take count piece.now;
          room = self.old.room - count;
          calls = one_more self.old.calls;
          faults = without_fault self.old.faults;
        }) }
    {
        self.calls = self.calls.saturating_add(1);
        if is_failing(self.calls, self.fails.as_slice(), self.room, piece) {
            return Err(self.faults.fail());
        }
        let count = self.most.min(piece.len().min(self.room));
        match self.bytes.extend_from_slice(&piece[..count]) {
            Ok(()) => {}
            Err(_) => unreachable!(),
        }
        self.room -= count;
        self.faults.pass();
        Ok(count)
    }
}

// Whether a put of this number fails with this room.
fn is_failing(call: u64, fails: &[u64], room: usize, piece: &[u8]) -> bool
    ensures { IsTrue result ↔ (IsTrue (is_chosen call fails.now) ⊎ ((room ≡ 0) × (0 < length piece.now))) }
{
    if room == 0 && !piece.is_empty() {
        return true;
    }
    fails.contains(&call)
}
