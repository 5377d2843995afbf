//! The queued packets: most in slots, in chunks for consecutive numbers, and the others in a map.
ghost use Rattle.std.specs.Prelude.{◌≡◌, ◌==◌, ◌&&◌, ◌≤◌, ◌<◌, ◌+◌, ◌/◌, ◌^◌, ℕ, None, Some, nat_eq, length, if◌then◌else◌, IsSome, IfSome, IsTrue, IfOk, OnOk, OnErr};
ghost use Rattle.std.proofs.Props.{props};
ghost use Rattle.std.specs.VecDeque.{deque_len};
ghost use Rattle.indexmap.specs.IndexMap.{get};
ghost use Rattle.sched_defs.specs.SourceState.{with_packet, without};
ghost use Rattle.sched_defs.specs.Laws.{AreNumbersOf};
ghost use Rattle.sched_core.specs.Chunks.{packet_within, packet_from, numbers_below};

use crate::chunk::{Chunk, WIDTH};
use indexmap::IndexMap;
use packet_defs::{BLANK, Packet};
use std::alloc::{AllocError, Global};
use std::collections::VecDeque;

/// How many numbers may be without a packet, however few packets there are.
const SPARE: u64 = 4096;

/// How many chunks at the end keep their empty slots. Most packets that don't stay have departed by
/// the time this many chunks follow.
const OPEN: usize = 4;

/// The last number that may have a slot. At most half of all 64-bit numbers can then have packets
/// in slots, and the sum with the strays fits.
const LAST: u64 = u64::MAX / 2;

/// The chunks for the numbers from 64 `first` on, with `filled` packets in them. The packets'
/// numbers are below `end`.
#[derive(Drop)]
pub struct Window {
    first: u64,
    chunks: VecDeque<Chunk>,
    end: u64,
    filled: u64,
    alloc: Global,
    ghost low: { first + deque_len chunks ≤ 2 ^ 57 },
    ghost ends: { end ≤ 2 ^ 63 },
    ghost behind: { (n : ℕ) → end ≤ n → packet_within first chunks.items n ≡ None } by { Prim.hlevel props },
    ghost counted: { filled ≡ length (numbers_below (packet_within first chunks.items) end) },
}

impl Window {
    ghost use Rattle.sched_core.specs.Windows.{packet_at, numbers_of, end_of};

    fn new(alloc: Global) -> Window
        ensures empty { (n : ℕ) → packet_at result n ≡ None }
    {
        Window {
            first: 0,
            chunks: VecDeque::new(alloc),
            end: 0,
            filled: 0,
            alloc,
        }
    }

    /// Returns how many packets are in the window.
    #[inline(always)]
    fn filled(&self) -> u64
        ensures numbers { result ≡ length (numbers_of self.now) }
        ensures small { result ≤ 2 ^ 63 }
    {
        self.filled
    }

    /// Returns the first packet.
    #[inline(never)]
    fn front(&self) -> Option<Packet>
        ensures { IfSome result (λ p. packet_at self.now p.number ≡ Some p) }
    {
        let chunk = self.chunks.front()?;
        let place = u64::from(chunk.first()) % WIDTH;
        chunk.packet(self.first * WIDTH + place)
    }

    /// Returns whether two thirds or more of the numbers up to one have no packet here. A stray
    /// takes the room of several slots.
    #[inline(always)]
    fn is_sparse(&self, number: u64) -> bool {
        let span = number.saturating_sub(self.first * WIDTH);
        span >= SPARE
            && self.filled > 0
            && span >= self.filled.saturating_mul(3).saturating_add(SPARE)
    }

    /// Returns the first packet, if the window is sparse up to a number.
    fn outlier(&self, number: u64) -> Option<Packet>
        ensures { IfSome result (λ p. packet_at self.now p.number ≡ Some p) }
    {
        if self.is_sparse(number) {
            self.front()
        } else {
            None
        }
    }

    /// Adds a packet if it fits a slot, and returns whether it is in the window now.
    #[inline(always)]
    fn push(&mut self, packet: &Packet) -> Result<bool, AllocError>
        requires below { packet.now.number < end_of self.old }
        requires free { packet_at self.old packet.now.number ≡ None }
        ensures ok { IfOk result (λ stands. (n : ℕ) → packet_at self.new n
            ≡ (if stands && (n == packet.now.number) then Some packet.now else packet_at self.old n)) }
        ensures err { OnErr result ((n : ℕ) → packet_at self.new n ≡ packet_at self.old n) }
        ensures end { end_of self.new ≡ end_of self.old }
    {
        // Before the first chunk the difference wraps, so it is past the last chunk too.
        let i = (packet.number / WIDTH).wrapping_sub(self.first) as usize;
        if i >= self.chunks.len() {
            return Ok(false);
        }
        let stands = self.chunks[i].push(packet)?;
        if stands {
            self.filled += 1;
        }
        Ok(stands)
    }

    /// Frees the empty slots of the chunk that stops being among the last `OPEN` ones when a chunk
    /// is added.
    fn settle(&mut self) -> Result<(), AllocError>
        ensures packets { (n : ℕ) → packet_at self.new n ≡ packet_at self.old n }
        ensures end { end_of self.new ≡ end_of self.old }
        ensures first { self.new.first ≡ self.old.first }
        ensures len { deque_len self.new.chunks ≡ deque_len self.old.chunks }
    {
        let len = self.chunks.len();
        if len < OPEN {
            return Ok(());
        }
        self.chunks[len - OPEN].shrink(self.alloc)
    }

    /// Adds one chunk.
    #[inline(never)]
    fn add_chunk(&mut self) -> Result<(), AllocError>
        requires low { self.old.first + deque_len self.old.chunks < 2 ^ 57 }
        ensures packets { (n : ℕ) → packet_at self.new n ≡ packet_at self.old n }
        ensures end { end_of self.new ≡ end_of self.old }
        ensures first { self.new.first ≡ self.old.first }
        ensures more { OnOk result (deque_len self.new.chunks ≡ deque_len self.old.chunks + 1) }
    {
        self.settle()?;
        self.chunks.push_back(Chunk::new(self.alloc))?;
        Ok(())
    }

    /// Starts over with a chunk after all others, if no packet is in the window.
    fn restart(&mut self, chunk: u64)
        requires low { chunk < 2 ^ 57 }
        ensures packets { (n : ℕ) → packet_at self.new n ≡ packet_at self.old n }
        ensures end { end_of self.new ≡ end_of self.old }
    {
        if self.filled == 0 && self.first + self.chunks.len() as u64 <= chunk {
            self.chunks.clear();
            self.first = chunk;
        }
    }

    /// Extends the window with chunks up to that of a number, which is the last number then.
    #[inline(always)]
    fn stretch(&mut self, number: u64) -> Result<(), AllocError>
        requires behind { end_of self.old ≤ number }
        requires low { number < 2 ^ 63 }
        ensures end { OnOk result (end_of self.new ≡ number + 1) }
        ensures near { end_of self.old ≤ end_of self.new }
        ensures packets { (n : ℕ) → packet_at self.new n ≡ packet_at self.old n }
    {
        if self.first + self.chunks.len() as u64 <= number / WIDTH {
            return self.lengthen(number);
        }
        self.end = number + 1;
        Ok(())
    }

    /// As `stretch`, if the number's chunk doesn't exist yet.
    #[inline(never)]
    fn lengthen(&mut self, number: u64) -> Result<(), AllocError>
        requires behind { end_of self.old ≤ number }
        requires low { number < 2 ^ 63 }
        ensures end { OnOk result (end_of self.new ≡ number + 1) }
        ensures near { end_of self.old ≤ end_of self.new }
        ensures packets { (n : ℕ) → packet_at self.new n ≡ packet_at self.old n }
    {
        let last = number / WIDTH;
        self.restart(last);
        while self.first + self.chunks.len() as u64 <= last {
            self.add_chunk()?;
        }
        self.end = number + 1;
        Ok(())
    }

    /// Removes the packet with a number, if one is in the window, and returns whether one was. The
    /// packet is written through `packet`. Empty chunks before all others are dropped.
    #[inline(always)]
    fn clear(&mut self, number: u64, packet: &mut Packet) -> bool
        ensures value { packet_at self.old number ≡ (if result then Some packet.new else None) }
        ensures packets { (n : ℕ) → packet_at self.new n ≡ without (packet_at self.old) number n }
        ensures end { end_of self.new ≡ end_of self.old }
        ensures fewer { IsTrue result → self.new.filled < self.old.filled }
    {
        let i = (number / WIDTH).wrapping_sub(self.first) as usize;
        if i >= self.chunks.len() {
            return false;
        }
        if !self.chunks[i].take(number, packet) {
            return false;
        }
        self.filled -= 1;
        while self.chunks.len() > 1 && self.chunks[0].filled == 0 {
            self.chunks.pop_front();
            self.first += 1;
        }
        true
    }
}

/// The queued packets, by number. Most are in slots, in number order. The others are in a map:
/// packets that need more room, packets that arrived after one with a later number, and packets
/// that stayed until two thirds of the numbers after them had no packet.
#[derive(Drop)]
pub struct Held {
    window: Window,
    strays: IndexMap<u64, Packet>,
    ghost apart: { (n : ℕ) → IsSome (packet_from window.first window.chunks.items n) → get nat_eq strays n ≡ None } by { Prim.hlevel props },
    ghost behind: { (n : ℕ) → window.end ≤ n → n < 2 ^ 63 → get nat_eq strays n ≡ None } by { Prim.hlevel props },
}

impl Held {
    ghost use Rattle.sched_core.specs.Windows.{packet_at, end_of};
    ghost use Rattle.sched_core.specs.Held.{held_at, numbers_in};

    /// Returns a store without packets. Takes no memory.
    pub fn new(alloc: Global) -> Held
        ensures empty { (n : ℕ) → held_at result n ≡ None }
    {
        Held {
            window: Window::new(alloc),
            strays: IndexMap::new(alloc),
        }
    }

    /// Adds a packet, replacing one with its number if there is one. The error means out of memory.
    #[inline(always)]
    pub fn put(&mut self, packet: &Packet) -> Result<(), AllocError>
        ensures ok { OnOk result ((n : ℕ) → held_at self.new n ≡
            with_packet (held_at self.old) packet.now n) }
        ensures err { OnErr result ((n : ℕ) → held_at self.new n ≡ held_at self.old n) }
    {
        if packet.number < self.window.end || packet.number > LAST {
            return self.put_stray(packet);
        }
        if self.window.is_sparse(packet.number) {
            self.move_outliers(packet.number)?;
        }
        self.window.stretch(packet.number)?;
        if self.window.push(packet)? {
            return Ok(());
        }
        self.put_stray(packet)
    }

    /// Removes the packet with a number, if one is queued, and returns whether one was. The packet
    /// is written through `packet`. Takes no memory.
    #[inline(always)]
    pub fn take(&mut self, number: u64, packet: &mut Packet) -> bool
        ensures value { held_at self.old number ≡ (if result then Some packet.new else None) }
        ensures rest { (n : ℕ) → held_at self.new n ≡ without (held_at self.old) number n }
    {
        if self.window.clear(number, packet) {
            return true;
        }
        take_stray(&mut self.strays, number, packet)
    }

    /// Returns how many packets are queued.
    #[inline(always)]
    pub fn len(&self) -> u64
        ensures len { result ≡ length (numbers_in self.now) }
        ensures numbers { AreNumbersOf (held_at self.now) (numbers_in self.now) }
    {
        self.window.filled() + self.strays.len() as u64
    }

    /// Adds a packet that is in no slot. Removes a packet in a slot with its number, if there is
    /// one.
    #[inline(never)]
    fn put_stray(&mut self, packet: &Packet) -> Result<(), AllocError>
        requires before { end_of self.old.window ≤ packet.now.number → 2 ^ 63 ≤ packet.now.number }
        ensures ok { OnOk result ((n : ℕ) → held_at self.new n ≡
            with_packet (held_at self.old) packet.now n) }
        ensures err { OnErr result ((n : ℕ) → held_at self.new n ≡ held_at self.old n) }
        ensures end { end_of self.new.window ≡ end_of self.old.window }
        ensures fewer { OnOk result (
            IsSome (packet_at self.old.window packet.now.number) → self.new.window.filled < self.old.window.filled) }
    {
        self.strays.insert(packet.number, *packet)?;
        let mut gone = BLANK;
        self.window.clear(packet.number, &mut gone);
        Ok(())
    }

    /// Moves the first packets to the strays. Afterwards few numbers up to this one have no packet.
    #[inline(never)]
    fn move_outliers(&mut self, number: u64) -> Result<(), AllocError>
        ensures held { (n : ℕ) → held_at self.new n ≡ held_at self.old n }
        ensures end { end_of self.new.window ≡ end_of self.old.window }
    {
        while let Some(packet) = self.window.outlier(number) {
            self.put_stray(&packet)?;
        }
        Ok(())
    }
}

/// Removes the stray with a number, if there is one, and returns whether there was. The packet is
/// written through `packet`.
#[inline(never)]
fn take_stray(strays: &mut IndexMap<u64, Packet>, number: u64, packet: &mut Packet) -> bool
    ensures value { get nat_eq strays.old number ≡ (if result then Some packet.new else None) }
    ensures rest { (n : ℕ) → get nat_eq strays.new n ≡ (if nat_eq number n then None else
        get nat_eq strays.old n) }
{
    match strays.swap_remove(&number) {
        Some(stray) => {
            *packet = stray;
            true
        }
        None => false,
    }
}
