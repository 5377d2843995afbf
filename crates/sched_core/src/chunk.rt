//! Slots for packets whose numbers are near each other.
ghost use Rattle.std.specs.Prelude.{◌≡◌, ◌==◌, ◌&&◌, ◌↔◌, ◌%◌, ◌<◌, ◌/◌, ℕ, None, Some, if◌then◌else◌, true, IsTrue, IfOk, OnOk, OnErr};
ghost use Rattle.std.specs.Vec.{vec_len, vec_capacity};
ghost use Rattle.sched_core.specs.Slots.{packet_in, is_filled, filled_among, are_ordered, FitsBehind};

use packet_defs::{BLANK, Packet};
use std::alloc::{AllocError, Global};

/// How many numbers share a chunk. A number's position (`place`) in its chunk is its remainder by
/// this width.
pub(crate) const WIDTH: u64 = 64;

/// The number of values of the low part of a lateness.
const LOW: u64 = 1 << 32;

/// The first lateness that is too large for a slot: three days, in nanoseconds.
const TOO_LATE: u64 = LOW << 16;

/// The first address that is too long for a slot.
const LONG_ADDRESS: u128 = 1 << 32;

/// A slot for a packet. `mark` is the position of its number, plus the width if the slot was
/// emptied. The chunk determines the rest of the number. The packet's timestamp is the chunk's plus
/// its lateness, of which `late_low` has the low 32 bits and `late_high` the others. No byte is
/// unused, so that a slot takes 24 bytes.
#[derive(Clone, Copy)]
pub struct Slot {
    mark: u8,
    class: u8,
    version: u8,
    proto: u8,
    sport: u16,
    dport: u16,
    source: u32,
    target: u32,
    late_low: u32,
    late_high: u16,
    len: u16,
}

const _: () = prove!(size_of::<Slot>() == 24);

impl Slot {
    /// Returns whether a packet is in the slot.
    #[inline(always)]
    fn is_filled(&self) -> bool
        ensures { result ≡ is_filled self.now }
    {
        u64::from(self.mark) < WIDTH
    }

    /// Writes the packet of a slot through `packet`, given its number and the chunk's timestamp.
    #[inline(always)]
    fn put_packet(&self, number: u64, base: u64, packet: &mut Packet)
        ensures { packet.new ≡ packet_in base number self.now }
    {
        let late = u64::from(self.late_high) * LOW + u64::from(self.late_low);
        packet.number = number;
        packet.class = u32::from(self.class);
        packet.len = u32::from(self.len);
        packet.moment = base.wrapping_add(late);
        packet.flow.version = self.version;
        packet.flow.source = u128::from(self.source);
        packet.flow.target = u128::from(self.target);
        packet.flow.proto = self.proto;
        packet.flow.sport = self.sport;
        packet.flow.dport = self.dport;
    }
}

/// Slots for the numbers with the same quotient by the width, in number order, and how many slots
/// are filled. `base` is the timestamp of the packet that got the first slot.
#[derive(Drop)]
pub struct Chunk {
    slots: Vec<Slot>,
    pub(crate) filled: u64,
    base: u64,
    ghost ordered: { are_ordered 0 slots.items ≡ true },
    ghost counted: { filled ≡ filled_among slots.items },
}

impl Chunk {
    ghost use Rattle.sched_core.specs.Chunks.{packet_of};

    pub(crate) fn new(alloc: Global) -> Chunk
        ensures empty { (n : ℕ) → packet_of result n ≡ None }
    {
        Chunk {
            slots: Vec::new(alloc),
            filled: 0,
            base: 0,
        }
    }

    /// Reserves room for more slots. If the chunk has none, reserves room for all its numbers.
    #[inline(never)]
    fn grow(&mut self) -> Result<(), AllocError>
        ensures room { OnOk result (vec_len self.new.slots < vec_capacity self.new.slots) }
        ensures slots { self.new.slots.items ≡ self.old.slots.items }
        ensures filled { self.new.filled ≡ self.old.filled }
        ensures base { self.new.base ≡ self.old.base }
    {
        if self.slots.is_empty() {
            return self.slots.reserve_exact(WIDTH as usize);
        }
        self.slots.reserve(1)
    }

    /// Adds a packet if it fits a slot and its position is after those of all others, and returns
    /// whether it was added. A packet fits if its timestamp isn't before the chunk's and is less
    /// than 2^48 nanoseconds after it, its class has at most 8 bits, its length at most 16 and each
    /// address at most 32.
    #[inline(always)]
    pub(crate) fn push(&mut self, packet: &Packet) -> Result<bool, AllocError>
        ensures ok { IfOk result (λ added. (n : ℕ) → n / 64 ≡ packet.now.number / 64 →
            packet_of self.new n ≡ (if added && (n == packet.now.number) then Some packet.now else packet_of self.old n)) }
        ensures added { IfOk result (λ added. IsTrue added ↔
            FitsBehind self.old.base self.old.slots.items packet.now) }
        ensures err { OnErr result ((n : ℕ) → packet_of self.new n ≡ packet_of self.old n) }
    {
        let place = (packet.number % WIDTH) as u8;
        let base = match self.slots.last() {
            Some(last) => {
                if place <= last.mark % WIDTH as u8 {
                    return Ok(false);
                }
                self.base
            }
            None => packet.moment,
        };
        // Before the base the difference wraps, so it is too late as well.
        let late = packet.moment.wrapping_sub(base);
        if late >= TOO_LATE
            || packet.class > u32::from(u8::MAX)
            || packet.len > u32::from(u16::MAX)
            || packet.flow.source >= LONG_ADDRESS
            || packet.flow.target >= LONG_ADDRESS
        {
            return Ok(false);
        }
        if self.slots.len() == self.slots.capacity() {
            self.grow()?;
        }
        self.base = base;
        self.slots.push_reserved(Slot {
            mark: place,
            class: packet.class as u8,
            version: packet.flow.version,
            proto: packet.flow.proto,
            sport: packet.flow.sport,
            dport: packet.flow.dport,
            source: packet.flow.source as u32,
            target: packet.flow.target as u32,
            late_low: (late % LOW) as u32,
            late_high: (late / LOW) as u16,
            len: packet.len as u16,
        });
        self.filled += 1;
        Ok(true)
    }

    /// Returns the packet with a number.
    pub(crate) fn packet(&self, number: u64) -> Option<Packet>
        ensures { result ≡ packet_of self.now number }
    {
        let place = (number % WIDTH) as u8;
        for slot in &self.slots {
            if slot.mark == place {
                let mut packet = BLANK;
                slot.put_packet(number, self.base, &mut packet);
                return Some(packet);
            }
        }
        None
    }

    /// Returns the position of the first packet, or 0 if there is none.
    pub(crate) fn first(&self) -> u8 {
        for slot in &self.slots {
            if slot.is_filled() {
                return slot.mark;
            }
        }
        0
    }

    /// Empties the slot of a number, if it is filled, and returns whether it was. The packet is
    /// written through `packet`. A slot's index is at most its position.
    #[inline(always)]
    pub(crate) fn take(&mut self, number: u64, packet: &mut Packet) -> bool
        ensures value { packet_of self.old number ≡ (if result then Some packet.new else None) }
        ensures rest { (n : ℕ) → packet_of self.new n ≡ (if n % 64 == number % 64 then None else
            packet_of self.old n) }
    {
        let place = (number % WIDTH) as u8;
        let mut i = self.slots.len().min(place as usize + 1);
        while i > 0 {
            i -= 1;
            let slot = &self.slots[i];
            if slot.mark == place {
                // Reading the whole slot before the first write allows wide copies.
                let found = *slot;
                found.put_packet(number, self.base, packet);
                self.slots[i].mark = place + WIDTH as u8;
                self.filled -= 1;
                return true;
            }
        }
        false
    }

    /// Frees the empty slots if they are more than a quarter of all slots.
    pub(crate) fn shrink(&mut self, alloc: Global) -> Result<(), AllocError>
        ensures packets { (n : ℕ) → packet_of self.new n ≡ packet_of self.old n }
    {
        let len = self.slots.len();
        if self.filled >= (len - len / 4) as u64 {
            return Ok(());
        }
        let mut kept = Vec::with_capacity(alloc, self.filled as usize)?;
        for slot in &self.slots {
            if slot.is_filled() {
                kept.push(*slot)?;
            }
        }
        self.slots = kept;
        Ok(())
    }
}
