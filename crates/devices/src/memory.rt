//! A source and a sink in memory, which fail at the calls that are chosen beforehand.
ghost use Rattle.std.specs.Prelude.{◌≡◌, ℕ, ◌+◌, ◌-◌, ◌<◌, ◌≤◌, ◌↔◌, min, List, [], Option, Some, length, take, IfOk, OnErr, IsErr, is_some, vec_len};
ghost use Rattle.std.specs.Io.{ReadsAtMost, WritesAtMost};
ghost use Rattle.std.specs.Io.KnownBytes.{ReadConsumes, WriteAppends};
ghost use Rattle.devices.specs.Counters.{one_more};
ghost use Rattle.devices.specs.EmptyCalls.{CountsEmpty, CountsEachEmpty};
ghost use Rattle.devices.specs.Faults.{HasCause};
ghost use Rattle.devices.specs.Memory.{MemoryFeed, MemoryStore, ReadFails, WriteFails};

use crate::device::{Failed, Sink, Source};
use std::marker::Model;

/// A source of octets in memory.
#[derive(Debug, Drop)]
pub struct MemorySource<'a> {
    bytes: &'a [u8],
    piece: usize,
    failing: &'a [u64],
    calls: u64,
    empty_reads: u64,
    faults: u64,
}

impl<'a> Model for MemorySource<'a> {
    ghost Value = { MemoryFeed };

    ghost view = { λ s. record {
      left = s.bytes.now;
      piece = s.piece;
      failing = s.failing.now;
      calls = s.calls;
      empty_reads = s.empty_reads;
      faults = s.faults;
    } };

    ghost invariant = { λ s. 1 ≤ s.piece };
}

impl<'a> MemorySource<'a> {
    /// A source of `bytes`, at most `piece` of them per read. The reads whose numbers are in
    /// `failing` fail; the first read has the number 1, and numbers end at `u64::MAX`.
    pub fn new(bytes: &'a [u8], piece: usize, failing: &'a [u64]) -> MemorySource<'a>
        requires { 1 ≤ piece }
        ensures { result ≡ record {
          left = bytes.now;
          piece = piece;
          failing = failing.now;
          calls = 0;
          empty_reads = 0;
          faults = 0;
        } }
    {
        MemorySource {
            bytes,
            piece,
            failing,
            calls: 0,
            empty_reads: 0,
            faults: 0,
        }
    }
}

impl Source for MemorySource<'_> {
    ghost left = { λ s. Some s.left };

    ghost faults = { λ s. s.faults };

    ghost calls = { λ s. s.calls };

    ghost empty_reads = { λ s. s.empty_reads };

    fn read(&mut self, buf: &mut [u8]) -> Result<usize, Failed>
        ensures bound { ReadsAtMost result buf.new }
        ensures bytes { ReadConsumes (Some self.old.left) (Some self.new.left) result buf.new }
        ensures keeps_telling { is_some (Some self.new.left) ≡ is_some (Some self.old.left) }
        ensures counted { self.new.calls ≤ self.old.calls + 1 }
        ensures empty { CountsEmpty self.old.empty_reads self.new.empty_reads result }
        ensures cause { HasCause self.old.faults self.new.faults result }

        ensures exactly { IsErr result ↔ ReadFails self.old }
        ensures gives { IfOk result (λ count.
            count ≡ min (min (length buf.new) self.old.piece) (length self.old.left)) }
        ensures counts { OnErr result (self.new.faults ≡ one_more self.old.faults) }
        ensures each_empty { CountsEachEmpty self.old.empty_reads self.new.empty_reads result }
        ensures calls { self.new.calls ≡ one_more self.old.calls }
        ensures piece { self.new.piece ≡ self.old.piece }
        ensures failing { self.new.failing ≡ self.old.failing }
    {
        self.calls = self.calls.saturating_add(1);
        if self.failing.contains(&self.calls) {
            self.empty_reads = self.empty_reads.saturating_add(1);
            self.faults = self.faults.saturating_add(1);
            return Err(Failed);
        }
        let count = buf.len().min(self.piece).min(self.bytes.len());
        let (front, rest) = self.bytes.split_at(count);
        buf[..count].copy_from_slice(front);
        self.bytes = rest;
        if count == 0 {
            self.empty_reads = self.empty_reads.saturating_add(1);
        }
        Ok(count)
    }
}

/// A sink of octets in memory, with a fixed number of places.
#[derive(Debug, Drop)]
pub struct MemorySink<'a> {
    room: Vec<u8>,
    used: usize,
    piece: usize,
    failing: &'a [u64],
    calls: u64,
    empty_writes: u64,
    faults: u64,
}

impl<'a> Model for MemorySink<'a> {
    ghost Value = { MemoryStore };

    ghost view = { λ s. record {
      held = take s.used s.room.items;
      places = vec_len s.room - s.used;
      piece = s.piece;
      failing = s.failing.now;
      calls = s.calls;
      empty_writes = s.empty_writes;
      faults = s.faults;
    } };

    ghost invariant = { λ s. (1 ≤ s.piece) × (s.used ≤ vec_len s.room) };
}

impl<'a> MemorySink<'a> {
    /// An empty sink with places for as many octets as `room` is long, which takes at most `piece`
    /// of them per write. The writes whose numbers are in `failing` fail; the first write has the
    /// number 1, and numbers end at `u64::MAX`.
    pub fn new(room: Vec<u8>, piece: usize, failing: &'a [u64]) -> MemorySink<'a>
        requires { 1 ≤ piece }
        ensures { result ≡ record {
          held = [];
          places = vec_len room;
          piece = piece;
          failing = failing.now;
          calls = 0;
          empty_writes = 0;
          faults = 0;
        } }
    {
        MemorySink {
            room,
            used: 0,
            piece,
            failing,
            calls: 0,
            empty_writes: 0,
            faults: 0,
        }
    }

    /// The octets that it holds.
    pub fn held(&self) -> &[u8]
        ensures { result.now ≡ self.now.held }
    {
        &self.room[..self.used]
    }
}

impl Sink for MemorySink<'_> {
    ghost held = { λ s. Some s.held };

    ghost faults = { λ s. s.faults };

    ghost empty_writes = { λ s. s.empty_writes };

    fn write(&mut self, bytes: &[u8]) -> Result<usize, Failed>
        ensures bound { WritesAtMost result bytes.now }
        ensures progress { IfOk result (λ count. 0 < length bytes.now → 0 < count) }
        ensures bytes { WriteAppends (Some self.old.held) (Some self.new.held) result bytes.now }
        ensures keeps_telling { is_some (Some self.new.held) ≡ is_some (Some self.old.held) }
        ensures empty { CountsEmpty self.old.empty_writes self.new.empty_writes result }
        ensures cause { HasCause self.old.faults self.new.faults result }

        ensures exactly { IsErr result ↔ WriteFails self.old bytes.now }
        ensures takes { IfOk result (λ count.
            count ≡ min (min (length bytes.now) self.old.piece) self.old.places) }
        ensures places { length self.new.held + self.new.places
            ≡ length self.old.held + self.old.places }
        ensures counts { OnErr result (self.new.faults ≡ one_more self.old.faults) }
        ensures each_empty { CountsEachEmpty self.old.empty_writes self.new.empty_writes result }
        ensures calls { self.new.calls ≡ one_more self.old.calls }
        ensures piece { self.new.piece ≡ self.old.piece }
        ensures failing { self.new.failing ≡ self.old.failing }
    {
        self.calls = self.calls.saturating_add(1);
        let places = self.room.len() - self.used;
        if self.failing.contains(&self.calls) || (places == 0 && !bytes.is_empty()) {
            self.empty_writes = self.empty_writes.saturating_add(1);
            self.faults = self.faults.saturating_add(1);
            return Err(Failed);
        }
        let count = bytes.len().min(self.piece).min(places);
        self.room[self.used..self.used + count].copy_from_slice(&bytes[..count]);
        self.used += count;
        if count == 0 {
            self.empty_writes = self.empty_writes.saturating_add(1);
        }
        Ok(count)
    }
}
