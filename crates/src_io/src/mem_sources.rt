ghost use Rattle.std.specs.Prelude.{◌≡◌, ◌+◌, ◌<◌, ◌≤◌, ◌↔◌, Some, None, min, take, length, IsErr, IsTrue, IsSome, is_some, IfOk, IfSome, IfNone, OnOk, OnErr};
ghost use Rattle.src_io.specs.Counted.{NextFails, after_call, after_failure};
ghost use Rattle.src_io.specs.Faults.{Rose};
ghost use Rattle.src_io.specs.Holding.{Reads, left};
ghost use Rattle.src_io.specs.Memory.{first_named, name_at, bytes_at, new_sources, holding_of, opened_at, read_on};

use crate::calls::Calls;
use crate::{Failed, OpenEnd, Sources};
use std::marker::Model;
use tl_text::{List, Name};

/// Sources that are held in memory. A read gives at most `piece` bytes, and calls fail by their numbers.
#[derive(Debug, Drop)]
pub struct MemSources {
    held: List<(Name, List<u8>)>,
    piece: usize,
    calls: Calls,
    current: Option<usize>,
    place: usize,
}

impl Model for MemSources {
    ghost use Rattle.std.specs.Prelude.{◌≤◌};
    ghost use Rattle.src_io.specs.Memory.{HeldSources, opened_name, IsWithin};

    ghost Value = { HeldSources };

    ghost view = { λ s. record { pairs = s.held; opened = opened_name s.held s.current; place = s.place; piece = s.piece; calls = s.calls } };

    ghost invariant = { λ s. (1 ≤ s.piece) × IsWithin s.held s.current s.place };
}

impl MemSources {
    /// Sources of which none is open. Of two pairs with one name the first counts; the calls with the numbers in
    /// `fails` fail, counted from 1 over opening and reading together. It takes no memory.
    pub fn new(held: List<(Name, List<u8>)>, piece: usize, fails: Vec<u64>) -> MemSources
        requires { 1 ≤ piece }
        ensures { result ≡ new_sources held piece fails.items }
    {
        MemSources {
            held,
            piece,
            calls: Calls::new(fails),
            current: None,
            place: 0,
        }
    }
}

impl Sources for MemSources {
    ghost told = { λ m. Some (holding_of m) };

    ghost is_open = { λ m. is_some m.opened };

    ghost faults = { λ m. m.calls.failed };

    fn open_named(&mut self, name: &str) -> Result<(), OpenEnd>
        ensures opened { OnOk result (IsSome (first_named self.old.pairs name.now)
            × (self.new ≡ opened_at name.now self.old)) }
        ensures missing { result ≡ Err OpenEnd.Missing → (first_named self.old.pairs name.now ≡ None)
            × (self.new ≡ record self.old { calls = after_call self.old.calls }) }
        ensures failed { result ≡ Err OpenEnd.Failed → NextFails self.old.calls
            × Rose self.old.calls.failed self.new.calls.failed
            × (self.new ≡ record self.old { calls = after_failure (after_call self.old.calls) }) }
        ensures named { NextFails self.old.calls → result ≡ Err OpenEnd.Failed }
    {
        self.calls.begin()?;
        let at = first_index(self.held.items(), name.as_bytes()).ok_or(OpenEnd::Missing)?;
        self.current = Some(at);
        self.place = 0;
        Ok(())
    }

    fn read(&mut self, into: &mut [u8]) -> Result<usize, Failed>
        requires { IsTrue (is_some self.old.opened) }
        ensures named { IsErr result ↔ NextFails self.old.calls }
        ensures read { IfOk result (λ n. (n ≡ min (min (length (left (holding_of self.old))) (length into.old)) self.old.piece)
            × Reads n into.new (Some (holding_of self.old)) (Some (holding_of self.new)) × (self.new ≡ read_on n self.old)) }
        ensures failed { OnErr result (Rose self.old.calls.failed self.new.calls.failed
            × (self.new ≡ record self.old { calls = after_failure (after_call self.old.calls) })) }
    {
        self.calls.begin()?;
        let at = self.current.unwrap();
        let left = &self.held.items()[at].1.items()[self.place..];
        let count = copy_front(left, into, self.piece);
        self.place += count;
        Ok(count)
    }
}

/// The index of the first pair with a name.
fn first_index(held: &[(Name, List<u8>)], name: &[u8]) -> Option<usize>
    ensures found { IfSome result (λ at. (at < length held.now) × (name_at held.now at ≡ name.now)
        × (first_named held.now name.now ≡ Some (bytes_at held.now at))) }
    ensures missing { IfNone result (first_named held.now name.now ≡ None) }
{
    for (i, pair) in held.iter().enumerate() {
        if pair.0.bytes() == name {
            return Some(i);
        }
    }
    None
}

/// Copies as many bytes as both have and `most` allows, and answers how many.
fn copy_front(from: &[u8], into: &mut [u8], most: usize) -> usize
    ensures count { result ≡ min (min (length from.now) (length into.old)) most }
    ensures copied { take result into.new ≡ take result from.now }
{
    let count = from.len().min(into.len()).min(most);
    into[..count].copy_from_slice(&from[..count]);
    count
}
