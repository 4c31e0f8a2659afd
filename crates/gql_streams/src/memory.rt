//! A source and a sink in memory, with the numbers of the calls that fail.

ghost use Rattle.std.specs.Prelude.{◌≡◌, ◌≤◌, ◌<◌, ◌+◌, ◌-◌, ◌++◌, not, false, if◌then◌else◌, ℕ, Some, Ok, min, max, is_err, IfOk, OnOk, OnErr, drop, take, length, [], vec_len, vec_capacity};

use crate::outside::{Failed, Sink, Source};
use gql_text_lexer::OutOfMemory;
use std::alloc::Global;

/// Gives its bytes, at most `cap` a call. The calls are numbered from 1, and those in `failing` fail.
#[derive(Drop)]
pub struct MemorySource {
    bytes: Vec<u8>,
    at: usize,
    cap: usize,
    failing: Vec<u64>,
    calls: u64,
    faults: u64,
    ghost within: { at ≤ length bytes.items },
    ghost some_cap: { 1 ≤ cap },
}

impl MemorySource {
    ghost use Rattle.gql_streams.specs.Memory.{source_state, new_source};

    /// A `cap` of 0 counts as 1.
    pub fn new(bytes: Vec<u8>, cap: usize, failing: Vec<u64>) -> MemorySource
        ensures { source_state result ≡ new_source bytes.items cap failing.items }
    {
        MemorySource {
            bytes,
            at: 0,
            cap: cap.max(1),
            failing,
            calls: 0,
            faults: 0,
        }
    }
}

impl Source for MemorySource {
    ghost use Rattle.std.specs.Io.{ReadsAtMost};
    ghost use Rattle.std.specs.Io.KnownBytes.{ReadConsumes};
    ghost use Rattle.gql_streams.specs.Causes.{HasCause};
    ghost use Rattle.gql_streams.specs.Memory.{source_state, input_of, source_fails, read_count};
    ghost use Rattle.gql_streams.specs.Memory.{after_read, after_failed_read};

    ghost state = { λ s. record { left = Some (drop s.at s.bytes.items); faults = s.faults } };

    fn read(&mut self, buf: &mut [u8]) -> Result<usize, Failed>
        ensures bound { ReadsAtMost result buf.new }
        ensures bytes { ReadConsumes
            (input_of self.old).left (input_of self.new).left result buf.new }
        ensures cause { HasCause (input_of self.old).faults (input_of self.new).faults result }
        ensures fails { is_err result ≡ source_fails (source_state self.old) }
        ensures count { IfOk result (λ count.
            count ≡ read_count (source_state self.old) (length buf.old)) }
        ensures given { IfOk result (λ count.
            source_state self.new ≡ after_read (source_state self.old) count) }
        ensures failed { OnErr result
            (source_state self.new ≡ after_failed_read (source_state self.old)) }
    {
        self.calls = self.calls.saturating_add(1);
        if self.failing.contains(&self.calls) {
            self.faults = self.faults.saturating_add(1);
            return Err(Failed);
        }
        let count = self.cap.min(buf.len()).min(self.bytes.len() - self.at);
        let end = self.at + count;
        buf[..count].copy_from_slice(&self.bytes[self.at..end]);
        self.at = end;
        Ok(count)
    }
}

/// Keeps what is written, up to its room, at most `cap` bytes a call. The calls, `flush` among them, are numbered from
/// 1, and those in `failing` fail, as does a write of a piece that is not empty where the room is used up.
#[derive(Drop)]
pub struct MemorySink {
    bytes: Vec<u8>,
    room: usize,
    cap: usize,
    failing: Vec<u64>,
    calls: u64,
    faults: u64,
    flushed: usize,
    ghost within: { vec_len bytes ≤ room },
    ghost has_room: { room ≤ vec_capacity bytes },
    ghost some_cap: { 1 ≤ cap },
}

impl MemorySink {
    ghost use Rattle.gql_streams.specs.Causes.{Rose};
    ghost use Rattle.gql_streams.specs.Memory.{sink_state, sink_fails, new_sink, next};

    /// Takes `room` bytes of memory at once. A `cap` of 0 counts as 1.
    pub fn new(
        alloc: Global,
        room: usize,
        cap: usize,
        failing: Vec<u64>,
    ) -> Result<MemorySink, OutOfMemory>
        ensures { IfOk result (λ s. sink_state s ≡ new_sink room cap failing.items) }
    {
        Ok(MemorySink {
            bytes: Vec::with_capacity(alloc, room)?,
            room,
            cap: cap.max(1),
            failing,
            calls: 0,
            faults: 0,
            flushed: 0,
        })
    }

    /// The bytes that were written.
    pub fn written(&self) -> &[u8]
        ensures { result.now ≡ (sink_state self.now).written }
    {
        &self.bytes
    }

    // Counts a call, and says whether it goes well.
    fn begins(&mut self) -> bool
        ensures goes { result ≡ not (sink_fails (sink_state self.old)) }
        ensures state { sink_state self.new ≡ record (sink_state self.old) {
          calls = next (sink_state self.old).calls;
          faults = (if result then (sink_state self.old).faults else next (sink_state self.old).faults);
        } }
        ensures later { (sink_state self.old).faults ≤ (sink_state self.new).faults }
        ensures failed { result ≡ false →
            Rose (sink_state self.old).faults (sink_state self.new).faults }
    {
        self.calls = self.calls.saturating_add(1);
        if self.failing.contains(&self.calls) {
            self.faults = self.faults.saturating_add(1);
            return false;
        }
        true
    }
}

impl Sink for MemorySink {
    ghost use Rattle.std.specs.Io.{WritesAtMost};
    ghost use Rattle.std.specs.Io.KnownBytes.{WriteAppends};
    ghost use Rattle.gql_streams.specs.Causes.{HasCause};
    ghost use Rattle.gql_streams.specs.Memory.{sink_state, output_of, sink_fails, write_fails, write_count};
    ghost use Rattle.gql_streams.specs.Memory.{after_write, after_flush, after_failed_call};
    ghost use Rattle.gql_streams.specs.Writing.{GetsNothing, IsFlushed};

    ghost state = { λ s. record { written = Some s.bytes.items; flushed = s.flushed; faults = s.faults } };

    fn write(&mut self, piece: &[u8]) -> Result<usize, Failed>
        ensures bound { WritesAtMost result piece.now }
        ensures progress { 0 < length piece.now → IfOk result (λ count. 0 < count) }
        ensures bytes { WriteAppends
            (output_of self.old).written (output_of self.new).written result piece.now }
        ensures cause { HasCause (output_of self.old).faults (output_of self.new).faults result }
        ensures fails { is_err result ≡ write_fails (sink_state self.old) (length piece.now) }
        ensures count { IfOk result (λ count.
            count ≡ write_count (sink_state self.old) (length piece.now)) }
        ensures taken { IfOk result (λ count.
            sink_state self.new ≡ after_write (sink_state self.old) piece.now count) }
        ensures failed { OnErr result
            (sink_state self.new ≡ after_failed_call (sink_state self.old)) }
    {
        if !self.begins() {
            return Err(Failed);
        }
        let count = self.cap.min(piece.len()).min(self.room - self.bytes.len());
        if count == 0 && !piece.is_empty() {
            self.faults = self.faults.saturating_add(1);
            return Err(Failed);
        }
        self.bytes.extend_from_slice(&piece[..count]).unwrap();
        Ok(count)
    }

    fn flush(&mut self) -> Result<(), Failed>
        ensures bytes { GetsNothing (output_of self.old) (output_of self.new) }
        ensures flushed { OnOk result (IsFlushed (output_of self.new)) }
        ensures cause { HasCause (output_of self.old).faults (output_of self.new).faults result }
        ensures fails { is_err result ≡ sink_fails (sink_state self.old) }
        ensures done { OnOk result (sink_state self.new ≡ after_flush (sink_state self.old)) }
        ensures failed { OnErr result
            (sink_state self.new ≡ after_failed_call (sink_state self.old)) }
    {
        if !self.begins() {
            return Err(Failed);
        }
        self.flushed = self.bytes.len();
        Ok(())
    }
}
