//! A list of taps during a run, and the lines of the taps that are done.
ghost use Rattle.std.specs.Prelude.{◌≡◌, ◌≤◌, ◌↔◌, ◌++◌, None, List, map, replicate, vec_len, length, OnOk, IfOk, IsTrue};
ghost use Rattle.tap_core.specs.Lines.{line};
ghost use Rattle.tap_core.specs.Lists.{Entry, entry, entries, is_named, named_entries, departed, dropped, stepped, full, left_after_one, lines_of, Slot, Tracks, waiting};

use crate::kinds::{Dropped, Seen, TapKind};
use crate::tap::Tap;
use packet_defs::Departed;
use std::alloc::{AllocError, Global};

/// The kinds of taps that are named, with any limit.
#[derive(Clone, Copy, PartialEq, Eq, Debug)]
pub struct Named {
    pub bytes: bool,
    pub order: bool,
    pub first: bool,
    pub drops: bool,
}

impl Named {
    ghost use Rattle.tap_core.specs.Lists.{is_named};
    ghost use Rattle.tap_core.specs.Names.{none_named, named_with};

    /// Returns the set without any kind.
    pub fn none() -> Named
        ensures { result ≡ none_named }
    {
        Named {
            bytes: false,
            order: false,
            first: false,
            drops: false,
        }
    }

    /// Returns these kinds and the kind with this name, or `None` if no kind has the name or it is
    /// named already.
    pub fn with(self, name: &str) -> Option<Named>
        ensures { result ≡ named_with self name.now }
    {
        match name {
            "bytes" => (!self.bytes).then_some(Named {
                bytes: true,
                ..self
            }),
            "order" => (!self.order).then_some(Named {
                order: true,
                ..self
            }),
            "first" => (!self.first).then_some(Named {
                first: true,
                ..self
            }),
            "drops" => (!self.drops).then_some(Named {
                drops: true,
                ..self
            }),
            _ => None,
        }
    }

    /// Returns whether taps of this kind are named.
    pub fn has(self, kind: TapKind) -> bool
        ensures { result ≡ is_named self kind }
    {
        match kind {
            TapKind::Bytes => self.bytes,
            TapKind::Order => self.order,
            TapKind::First(_) => self.first,
            TapKind::Drops => self.drops,
        }
    }
}

/// Drops the taps whose kind isn't named. Allocates no memory.
pub fn keep_named<T: Tap>(taps: &mut Vec<T>, named: Named)
    ensures kept { entries T.kind_of T.state_of taps.new.items
        ≡ named_entries named (entries T.kind_of T.state_of taps.old.items) }
    ensures fewer { vec_len taps.new ≤ vec_len taps.old }
{
    taps.retain(
        |tap: &T| -> bool
            ensures { result ≡ is_named named (T.kind_of tap.now) }
        { named.has(tap.kind()) },
    );
}

/// Passes a departure to one tap.
fn show_departure_to<T: Tap>(tap: &mut T, packet: &Departed) -> Seen
    ensures after { entry (T.kind_of tap.new) (T.state_of tap.new)
        ≡ stepped (departed packet.now) (entry (T.kind_of tap.old) (T.state_of tap.old)) }
    ensures done { (result ≡ Seen.Done) ↔
        IsTrue (full (entry (T.kind_of tap.new) (T.state_of tap.new))) }
{
    tap.see(packet)
}

/// Passes a drop to one tap.
fn show_drop_to<T: Tap>(tap: &mut T, packet: &Dropped)
    ensures after { entry (T.kind_of tap.new) (T.state_of tap.new)
        ≡ stepped (dropped packet.now) (entry (T.kind_of tap.old) (T.state_of tap.old)) }
{
    tap.lose(packet);
}

/// Appends the line of a tap.
fn append_line_of<T: Tap>(tap: &T, into: &mut Vec<u8>) -> Result<(), AllocError>
    ensures { OnOk result (into.new.items ≡ into.old.items ++ line (T.kind_of tap.now)
        (T.state_of tap.now)) }
{
    tap.say(into)
}

/// Returns the line of a tap.
fn line_of<T: Tap>(alloc: Global, tap: &T) -> Result<Vec<u8>, AllocError>
    ensures { IfOk result (λ said. said.items ≡ line (T.kind_of tap.now) (T.state_of tap.now)) }
{
    let mut said = Vec::new(alloc);
    append_line_of(tap, &mut said)?;
    Ok(said)
}

fn empty_slots(alloc: Global, count: usize) -> Result<Vec<Option<Vec<u8>>>, AllocError>
    ensures { IfOk result (λ slots. slots.items ≡ replicate count None) }
{
    let mut slots = Vec::with_capacity(alloc, count)?;
    for _ in 0..count {
        slots.push(None)?;
    }
    Ok(slots)
}

/// Returns one slot for each tap, each without a line. The error is out of memory.
#[tactic(auto, using(crate::proofs::SlotLaws::slots_at_first, crate::proofs::SlotLaws::all_waiting))]
pub fn slots<T: Tap>(alloc: Global, taps: &[T]) -> Result<Vec<Option<Vec<u8>>>, AllocError>
    ensures counted { IfOk result (λ slots. waiting slots.items ≡ length taps.now) }
    ensures tracked { IfOk result (λ slots. Tracks (entries T.kind_of T.state_of taps.now)
        slots.items
        (entries T.kind_of T.state_of taps.now)) }
{
    empty_slots(alloc, taps.len())
}

/// Passes a drop to each tap. No tap is done after a drop. Allocates no memory.
pub fn show_dropped<T: Tap>(taps: &mut [T], packet: &Dropped)
    ensures left { entries T.kind_of T.state_of taps.new
        ≡ left_after_one (dropped packet.now) (entries T.kind_of T.state_of taps.old) }
    ensures tracked { (all : List Entry) (slots : List Slot) →
        Tracks all slots (entries T.kind_of T.state_of taps.old)
        → Tracks (map (stepped (dropped packet.now)) all) slots (entries T.kind_of T.state_of taps.new) }
{
    for tap in taps.iter_mut() {
        show_drop_to(tap, packet);
    }
}

/// Passes a departure to each tap in order. When a tap is done, its line is written to its slot and
/// the tap is dropped. `slots` has one slot for each tap of the initial list, in order. The error
/// is out of memory for a line; that tap then stays in the list.
pub fn show_departed<T: Tap>(
    alloc: Global,
    slots: &mut [Option<Vec<u8>>],
    taps: &mut Vec<T>,
    packet: &Departed,
) -> Result<(), AllocError>
    ensures left { (all : List Entry) → Tracks all slots.old
        (entries T.kind_of T.state_of taps.old.items)
        → OnOk result (entries T.kind_of T.state_of taps.new.items
        ≡ left_after_one (departed packet.now) (entries T.kind_of T.state_of taps.old.items)) }
    ensures tracked { (all : List Entry) → Tracks all slots.old
        (entries T.kind_of T.state_of taps.old.items)
        → OnOk result (Tracks (map (stepped (departed packet.now)) all) slots.new
        (entries T.kind_of T.state_of taps.new.items)) }
    ensures fewer { vec_len taps.new ≤ vec_len taps.old }
{
    let mut i = 0;
    for slot in slots.iter_mut() {
        if slot.is_none() {
            let Some(tap) = taps.get_mut(i) else {
                return Ok(());
            };
            match show_departure_to(tap, packet) {
                Seen::More => i += 1,
                Seen::Done => {
                    *slot = Some(line_of(alloc, tap)?);
                    taps.remove(i);
                }
            }
        }
    }
    Ok(())
}

/// Returns the lines of all taps, in order: the lines in the slots, and for each empty slot the
/// line of the remaining tap. The error is out of memory.
pub fn lines<T: Tap>(
    alloc: Global,
    slots: &[Option<Vec<u8>>],
    taps: &[T],
) -> Result<Vec<u8>, AllocError>
    ensures text { (all : List Entry) → Tracks all slots.now (entries T.kind_of T.state_of taps.now)
        → IfOk result (λ text. text.items ≡ lines_of all) }
{
    let mut text = Vec::new(alloc);
    let mut i = 0;
    for slot in slots {
        match slot {
            Some(said) => text.extend_from_slice(said)?,
            None => {
                let Some(tap) = taps.get(i) else {
                    return Ok(text);
                };
                append_line_of(tap, &mut text)?;
                i += 1;
            }
        }
    }
    Ok(text)
}
