ghost use Rattle.std.specs.Prelude.{◌≡◌, ◌+◌, ◌<◌, ◌≤◌, ◌↔◌, length, take, drop, min, Option, Some, IsErr, IfOk, OnOk, OnErr, Contains, vec_items};
ghost use Rattle.sx_outside.specs.Faults.{Rose};
ghost use Rattle.sx_outside.specs.Memory.{after_gift, after_failed_gift};
ghost use Rattle.sx_outside.specs.Transfer.{Takes, Stays};

use crate::listed::is_listed;
use crate::pieces::move_front;
use crate::{Failed, Source};
use std::marker::Model;

/// A source that gives bytes of memory in pieces, and fails where it is told to.
#[derive(Drop)]
pub struct MemSource {
    bytes: Vec<u8>,
    at: usize,
    most: usize,
    failing: Vec<u64>,
    calls: u64,
    faults: u64,
}

impl Model for MemSource {
    ghost use Rattle.std.specs.Prelude.{◌<◌, ◌≤◌, drop, vec_len};
    ghost use Rattle.sx_outside.specs.Memory.{Supply};

    ghost Value = { Supply };

    ghost view = { λ s. record {
      left = drop s.at s.bytes.items;
      most = s.most;
      failing = s.failing.items;
      calls = s.calls;
      faults = s.faults;
    } };

    ghost invariant = { λ s. (s.at ≤ vec_len s.bytes) × (0 < s.most) };
}

impl MemSource {
    /// Makes a source of these bytes that gives at most `most` of them a call. Its calls with the
    /// numbers in `failing`, counted from 1, fail, and no other.
    pub fn new(bytes: Vec<u8>, most: usize, failing: Vec<u64>) -> MemSource
        requires { 0 < most }
        ensures { result ≡ record {
          left = bytes.items;
          most = most;
          failing = failing.items;
          calls = 0;
          faults = 0;
        } }
    {
        MemSource {
            bytes,
            at: 0,
            most,
            failing,
            calls: 0,
            faults: 0,
        }
    }
}

impl Source for MemSource {
    ghost left = { λ source. Some source.left };

    ghost faults = { λ source. source.faults };

    fn next(&mut self, room: &mut [u8]) -> Result<usize, Failed>
        requires { 0 < length room.old }
        ensures within { IfOk result (λ n. n ≤ length room.old) }
        ensures taken { IfOk result (λ n. Takes (Some self.old.left) (take n room.new) (Some self.new.left)) }
        ensures nothing_taken { OnErr result (Stays (Some self.old.left) (Some self.new.left)) }
        ensures cause { OnErr result (Rose self.old.faults self.new.faults) }
        ensures no_fault { OnOk result (self.new.faults ≡ self.old.faults) }
        ensures never_falls { self.old.faults ≤ self.new.faults }

        ensures fails { IsErr result ↔ Contains self.old.failing (self.old.calls + 1) }
        ensures amount { IfOk result (λ n. n ≡ min self.old.most (min (length room.old) (length self.old.left))) }
        ensures gives { IfOk result (λ n. self.new ≡ after_gift self.old n) }
        ensures beyond { IfOk result (λ n. drop n room.new ≡ drop n room.old) }
        ensures failed { OnErr result (self.new ≡ after_failed_gift self.old) }
    {
        let listed = is_listed(&self.failing, self.calls);
        self.calls = self.calls.saturating_add(1);
        if listed {
            self.faults = self.faults.saturating_add(1);
            return Err(Failed);
        }
        let count = move_front(&self.bytes[self.at..], self.most, room);
        self.at += count;
        Ok(count)
    }
}
