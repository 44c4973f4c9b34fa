ghost use Rattle.std.specs.Prelude.{◌≡◌, ◌⊎◌, ◌+◌, ◌-◌, ◌<◌, ◌≤◌, ◌↔◌, ◌++◌, Some, min, max, take, length, ℕ, IsErr, IsOkAnd, IfOk, OnOk, OnErr};
ghost use Rattle.src_io.specs.Counted.{NextFails, NoneFails, after_call, after_failure};
ghost use Rattle.src_io.specs.Faults.{Rose};
ghost use Rattle.src_io.specs.Memory.{new_text, written_on};

use crate::calls::Calls;
use crate::{Failed, Sink};
use std::alloc::Global;
use std::marker::Model;
use tl_text::NoMemory;

/// Text that is kept in memory. A write takes at most `chunk` bytes and no more than there is room for, and calls
/// fail by their numbers.
#[derive(Debug, Drop)]
pub struct MemSink {
    text: Vec<u8>,
    room: usize,
    chunk: usize,
    calls: Calls,
}

impl Model for MemSink {
    ghost use Rattle.std.specs.Prelude.{◌≤◌, ◌+◌, vec_len, vec_capacity};
    ghost use Rattle.src_io.specs.Memory.{KeptText};

    ghost Value = { KeptText };

    ghost view = { λ s. record { text = s.text.items; room = s.room; chunk = s.chunk; calls = s.calls } };

    ghost invariant = { λ s. (1 ≤ s.chunk) × (vec_len s.text + s.room ≤ vec_capacity s.text) };
}

impl MemSink {
    /// No text, and no room yet. The calls of `write` with the numbers in `fails` fail, counted from 1. It takes no
    /// memory.
    pub fn new(alloc: Global, chunk: usize, fails: Vec<u64>) -> MemSink
        requires { 1 ≤ chunk }
        ensures { result ≡ new_text chunk fails.items }
    {
        MemSink {
            text: Vec::new(alloc),
            room: 0,
            chunk,
            calls: Calls::new(fails),
        }
    }

    /// Makes the room left at least `n`. NoMemory where none is left, and all is then as before.
    pub fn reserve(&mut self, n: usize) -> Result<(), NoMemory>
        ensures ok { OnOk result (self.new ≡ record self.old { room = max self.old.room n }) }
        ensures err { OnErr result (self.new ≡ self.old) }
    {
        if self.room < n {
            self.text.reserve(n)?;
            self.room = n;
        }
        Ok(())
    }

    /// What was written.
    pub fn bytes(&self) -> &[u8]
        ensures { result.now ≡ self.now.text }
    {
        self.text.as_slice()
    }
}

impl Sink for MemSink {
    ghost written = { λ s. Some s.text };

    ghost faults = { λ s. s.calls.failed };

    ghost accepts = { λ s n. NoneFails s.calls × (n ≤ s.room) };

    fn write(&mut self, piece: &[u8]) -> Result<usize, Failed>
        ensures named { IsErr result ↔ (NextFails self.old.calls ⊎ ((self.old.room ≡ 0) × (0 < length piece.now))) }
        ensures written { IfOk result (λ n. (n ≡ min (min (length piece.now) self.old.chunk) self.old.room)
            × (0 < length piece.now → 0 < n) × (self.new ≡ written_on (take n piece.now) n self.old)) }
        ensures accepted { (n : ℕ) → length piece.now ≤ n → NoneFails self.old.calls × (n ≤ self.old.room)
            → IsOkAnd result (λ taken. NoneFails self.new.calls × (n - taken ≤ self.new.room)) }
        ensures failed { OnErr result (Rose self.old.calls.failed self.new.calls.failed
            × (self.new ≡ record self.old { calls = after_failure (after_call self.old.calls) })) }
    {
        self.calls.begin()?;
        let count = piece.len().min(self.chunk).min(self.room);
        if count == 0 && !piece.is_empty() {
            return Err(self.calls.fail());
        }
        self.text.extend_from_slice(&piece[..count]).unwrap();
        self.room -= count;
        Ok(count)
    }
}
