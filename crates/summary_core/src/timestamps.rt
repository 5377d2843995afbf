//! The timestamps of queued packets.
ghost use Rattle.std.specs.Prelude.{◌≡◌, Some};
ghost use Rattle.summary_core.specs.Timestamps.{in_slot};

use std::alloc::{AllocError, Global};
use std::collections::VecDeque;

/// Stands in the slot of a packet that isn't queued.
const ABSENT: u64 = u64::MAX;

/// The timestamps of queued packets, in nanoseconds. There is one slot of 8 bytes for each number
/// from that of the first queued packet to that of the last packet that arrived, so that a
/// timestamp is found without a search.
#[derive(Drop)]
pub(crate) struct Timestamps {
    /// The number of the first slot's packet.
    first: u64,
    slots: VecDeque<u64>,
}

/// Returns the timestamp in a slot, if there is one.
fn told(slot: u64) -> Option<u64>
    ensures { result ≡ in_slot (Some slot) }
{
    if slot == ABSENT { None } else { Some(slot) }
}

impl Timestamps {
    ghost use Rattle.std.specs.Prelude.{◌≡◌, ◌≤◌, ◌==◌, ℕ, if◌then◌else◌, None, Some, length, IsTrue, IfOk, OnOk};
    ghost use Rattle.summary_core.specs.Timestamps.{stamp_in};

    /// Returns no timestamp.
    pub(crate) fn new(alloc: Global) -> Timestamps
        ensures { (n : ℕ) → stamp_in result n ≡ None }
    {
        Timestamps {
            first: 0,
            slots: VecDeque::new(alloc),
        }
    }

    /// Appends empty slots until there are this many.
    fn fill(&mut self, count: u64) -> Result<(), AllocError>
        ensures kept { OnOk result ((n : ℕ) → stamp_in self.new n ≡ stamp_in self.old n) }
        ensures first { self.new.first ≡ self.old.first }
        ensures count { OnOk result (length self.old.slots.items ≤ count →
            length self.new.slots.items ≡ count) }
    {
        for _ in self.slots.len() as u64..count {
            self.slots.push_back(ABSENT)?;
        }
        Ok(())
    }

    /// Begins with the slot of this number, if no slot is there.
    fn restart(&mut self, number: u64)
        ensures { (n : ℕ) → stamp_in self.new n ≡ stamp_in self.old n }
    {
        if self.slots.is_empty() {
            self.first = number;
        }
    }

    /// Stores the timestamp of a packet, and returns whether it could. Numbers must ascend, and the
    /// timestamp must be less than 2^64 - 1. The error is out of memory.
    pub(crate) fn put(&mut self, number: u64, moment: u64) -> Result<bool, AllocError>
        ensures { IfOk result (λ put. IsTrue put → (n : ℕ) → stamp_in self.new n ≡
            (if n == number then Some moment else stamp_in self.old n)) }
    {
        self.restart(number);
        if number < self.first || moment == ABSENT {
            return Ok(false);
        }
        let place = number - self.first;
        if place < self.slots.len() as u64 {
            return Ok(false);
        }
        self.fill(place)?;
        self.slots.push_back(moment)?;
        Ok(true)
    }

    /// Removes the first slots as long as they are empty.
    fn trim(&mut self)
        ensures { (n : ℕ) → stamp_in self.new n ≡ stamp_in self.old n }
    {
        while let Some(first) = self.slots.front() {
            if *first != ABSENT || self.first == u64::MAX {
                return;
            }
            self.slots.pop_front();
            self.first += 1;
        }
    }

    /// Removes and returns the timestamp of a packet, if there is one.
    pub(crate) fn take(&mut self, number: u64) -> Option<u64>
        ensures found { result ≡ stamp_in self.old number }
        ensures others { (n : ℕ) → stamp_in self.new n ≡
            (if n == number then None else stamp_in self.old n) }
    {
        if number < self.first {
            return None;
        }
        let Some(slot) = self.slots.get_mut((number - self.first) as usize) else {
            return None;
        };
        let found = *slot;
        *slot = ABSENT;
        self.trim();
        told(found)
    }
}
