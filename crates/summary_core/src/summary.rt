//! The sums of a run.
ghost use Rattle.std.specs.Prelude.{◌≡◌, ◌++◌, ℕ, List, [], length, if◌then◌else◌, IfOk, OnOk};
ghost use Rattle.summary_core.specs.Ranks.{listed};
ghost use Rattle.sched_defs.specs.Events as run;
ghost use Rattle.tree_defs.specs.Tree.{Address};
ghost use Rattle.packet_defs.specs.declared.packet.Packet.{Packet};
ghost use Rattle.std.specs.List.{AllByRecursion};
ghost use Rattle.summary_core.specs.Summing.{of_class, times_of};

use crate::counts::Counts;
use crate::delays::percentiles;
use crate::event::{PacketEvent, Times};
use crate::group::Figures;
use crate::part::Part;
use crate::table::{count_at, count_at_leaf, delay_at, reserve_at, sort_lists};
use crate::timestamps::Timestamps;
use packet_defs::{Departed, Packet};
use sched_defs::LinkRate;
use std::alloc::{AllocError, Global};

/// Nanoseconds per second.
const SECOND: u64 = 1_000_000_000;

/// Starts in nanoseconds stay below this number.
const MOST_START: u128 = 1 << 126;

/// Returns the times of a departure, if its start and the timestamp of its packet are known. It is
/// an error if the rate is 0, the start is 2^126 or more, or the delay is 2^64 or more.
#[inline(always)]
fn times(
    rate: LinkRate,
    len: u32,
    start: Option<u128>,
    timestamp: Option<u64>,
) -> Result<Option<Times>, ()>
    ensures { IfOk result (λ t. t ≡ times_of rate len start timestamp) }
{
    let (Some(start), Some(timestamp)) = (start, timestamp) else {
        return Ok(None);
    };
    if rate.bytes == 0 || start >= MOST_START {
        return Err(());
    }
    let delay = start.saturating_sub(u128::from(timestamp));
    if delay >= 1 << 64 {
        return Err(());
    }
    let bytes = u64::from(len) + u64::from(rate.overhead);
    let sending = (bytes * SECOND).div_ceil(rate.bytes);
    Ok(Some(Times {
        delay: delay as u64,
        finish: start + u128::from(sending),
    }))
}

/// Returns `count` empty lists, one for each class.
fn no_lists(alloc: Global, count: usize) -> Result<Vec<Vec<u64>>, AllocError>
    ensures many { IfOk result (λ v. length v.items ≡ count) }
    ensures empty { IfOk result (λ v. AllByRecursion (λ l. l.items ≡ []) v.items) }
{
    let mut lists = Vec::with_capacity(alloc, count)?;
    for _ in 0..count {
        lists.push(Vec::new(alloc))?;
    }
    Ok(lists)
}

/// Appends a class, if it is wanted.
#[tactic(auto, using(crate::proofs::Ranks::listed_last))]
fn add_member(members: &mut Vec<usize>, class: usize, wanted: bool) -> Result<(), AllocError>
    ensures { OnOk result ((f : ℕ → List ℕ) → listed f members.new.items ≡
        listed f members.old.items ++ (if wanted then f class else [])) }
{
    if wanted {
        members.push(class)?;
    }
    Ok(())
}

/// The sums of a run: of all packets, of the packets of each leaf, and of the packets of each
/// class. It also stores the delays of each class in a list, and the timestamp of each queued
/// packet.
#[derive(Drop)]
pub struct Summary {
    /// The link's rate.
    rate: LinkRate,
    /// The index of each class's leaf.
    table: Vec<u32>,
    all: Counts,
    leaves: Vec<Counts>,
    classes: Vec<Counts>,
    delays: Vec<Vec<u64>>,
    timestamps: Timestamps,
    /// Whether there was room in each sum so far.
    whole: bool,
    /// Whether each call so far succeeded.
    pub(crate) live: bool,
}

impl Summary {
    ghost use Rattle.std.specs.Prelude.{◌≡◌, List, ◌∷◌, [], ℕ, ◌==◌, if◌then◌else◌, Some, None, Option, slice_get, IsTrue, IfOk, OnOk};
    ghost use Rattle.summary_core.specs.Figures.{gathered, counts_in, AreFigures};
    ghost use Rattle.summary_core.specs.Lists.{list_at};
    ghost use Rattle.summary_core.specs.Ranks.{listed, AreSorted};
    ghost use Rattle.summary_core.specs.Summary.{timestamp_at, AddsEvents, Stays, HoldsAlike, IsReordered, Sums, SumsNothing};

    /// Returns the sums of no packet, for a link of this rate. The table gives the
    /// index of each class's leaf among that many leaves. The error is out of memory.
    pub fn new(
        alloc: Global,
        rate: LinkRate,
        table: Vec<u32>,
        leaves: usize,
    ) -> Result<Summary, AllocError>
        ensures { IfOk result (SumsNothing rate table.items leaves) }
    {
        let classes = table.len();
        Ok(Summary {
            rate,
            table,
            all: Counts::new(),
            leaves: Vec::from_elem(alloc, Counts::new(), leaves)?,
            classes: Vec::from_elem(alloc, Counts::new(), classes)?,
            delays: no_lists(alloc, classes)?,
            timestamps: Timestamps::new(alloc),
            whole: true,
            live: true,
        })
    }

    /// Returns whether there was room in each sum. If not, nothing is guaranteed about the sums.
    pub fn is_whole(&self) -> bool
        ensures { result ≡ self.now.whole }
    {
        self.whole
    }

    /// Returns the sums of all packets.
    pub fn all(&self) -> Counts
        ensures { result ≡ self.now.all }
    {
        self.all
    }

    /// Returns the sums of the packets of the leaf with this index.
    pub fn leaf(&self, index: usize) -> Option<Counts>
        ensures { result ≡ slice_get self.now.leaves.items index }
    {
        self.leaves.get(index).copied()
    }

    /// Returns the sums of the packets of this class.
    pub fn class(&self, class: usize) -> Option<Counts>
        ensures { result ≡ slice_get self.now.classes.items class }
    {
        self.classes.get(class).copied()
    }

    /// Returns the delays of each class, in the order of its departures.
    pub fn into_delays(self) -> Vec<Vec<u64>>
        ensures { result ≡ self.delays }
    {
        self.delays
    }

    /// Returns the classes of a part.
    fn members(&self, alloc: Global, part: Part) -> Result<Vec<usize>, AllocError>
        ensures { IfOk result (λ v. listed (list_at self.now.delays.items) v.items ≡
            gathered self.now part) }
    {
        let mut members = Vec::new(alloc);
        for class in 0..self.table.len() {
            add_member(&mut members, class, part.has(&self.table, class))?;
        }
        Ok(members)
    }

    /// Returns the sums of a part, or those of no packet if there is no such leaf or class.
    fn counts(&self, part: Part) -> Counts
        ensures { result ≡ counts_in self.now part }
    {
        let found = match part {
            Part::Whole => Some(self.all),
            Part::Leaf(index) => self.leaves.get(index).copied(),
            Part::Class(class) => self.classes.get(class).copied(),
        };
        found.unwrap_or(Counts::new())
    }

    /// Returns the sums of a part and the percentiles of its delays. The delays of each class must
    /// be sorted. The error is out of memory.
    pub(crate) fn figures(&self, alloc: Global, part: Part) -> Result<Figures, AllocError>
        requires { AreSorted self.now.delays.items }
        ensures { IfOk result (λ f. AreFigures self.now part f) }
    {
        let members = self.members(alloc, part)?;
        Ok(Figures {
            counts: self.counts(part),
            delays: percentiles(&self.delays, &members),
        })
    }

    /// Sorts the delays of each class.
    pub(crate) fn sort_delays(&mut self)
        ensures same { IsReordered self.old self.new }
        ensures sorted { AreSorted self.new.delays.items }
    {
        sort_lists(&mut self.delays);
    }

    /// Counts an event of a packet of a class.
    #[inline(always)]
    fn add(&mut self, class: u32, event: PacketEvent)
        ensures sums { IsTrue self.new.whole →
            AddsEvents self.old self.new (of_class class event ∷ []) }
        ensures stays { Stays self.old self.new }
        ensures timestamps { self.new.timestamps ≡ self.old.timestamps }
    {
        let all = self.all.add(event);
        let in_class = count_at(&mut self.classes, class, event);
        let in_leaf = count_at_leaf(&mut self.leaves, &self.table, class, event);
        let in_list = delay_at(&mut self.delays, class, event);
        self.whole = self.whole && all && in_class && in_leaf && in_list;
    }

    /// Returns the number of queued packets of a class.
    fn queued(&self, class: u32) -> usize {
        match self.classes.get(class as usize) {
            Some(counts) => counts.queued as usize,
            None => 0,
        }
    }

    /// Stores the timestamp of a packet, and reserves room for its delay. Returns whether the
    /// timestamp could be stored. The error is out of memory.
    #[inline(always)]
    fn keep(&mut self, packet: &Packet) -> Result<bool, AllocError>
        ensures alike { HoldsAlike self.old self.new }
        ensures stays { Stays self.old self.new }
        ensures timestamps { IfOk result (λ kept. IsTrue kept → (n : ℕ) → timestamp_at self.new n ≡
            (if n == packet.now.number then Some packet.now.moment else timestamp_at self.old n)) }
    {
        let queued = self.queued(packet.class);
        reserve_at(&mut self.delays, packet.class, queued.saturating_add(1))?;
        self.timestamps.put(packet.number, packet.moment)
    }

    /// Counts a packet that arrived at its leaf. The error is out of memory.
    pub(crate) fn count_arrival(&mut self, packet: &Packet) -> Result<(), AllocError>
        ensures ok { OnOk result ((a : Address) (ranks : List ℕ) →
            Sums self.old self.new (run.Arrived packet.now a ranks ∷ [])) }
        ensures live { self.new.live ≡ self.old.live }
    {
        let kept = self.keep(packet)?;
        self.whole = self.whole && kept;
        self.add(
            packet.class,
            PacketEvent::Arrived(packet.len, packet.moment),
        );
        Ok(())
    }

    /// Counts a packet that was dropped at its leaf.
    pub(crate) fn count_drop(&mut self, packet: &Packet)
        ensures ok { (a : Address) → Sums self.old self.new (run.Dropped packet.now a ∷ []) }
        ensures live { self.new.live ≡ self.old.live }
    {
        self.add(packet.class, PacketEvent::Dropped);
    }

    /// Counts a packet that departed, with its start in nanoseconds if a link sends it.
    pub(crate) fn count_departure(&mut self, departed: &Departed, start: Option<u128>)
        ensures ok { (p : Packet) (a : Address) (ranks : List ℕ) → p.number ≡ departed.now.packet →
            p.class ≡ departed.now.class → p.len ≡ departed.now.len →
            Sums self.old self.new (run.Departed p a ranks start ∷ []) }
        ensures live { self.new.live ≡ self.old.live }
    {
        let timestamp = self.timestamps.take(departed.packet);
        match times(self.rate, departed.len, start, timestamp) {
            Ok(times) => self.add(departed.class, PacketEvent::Departed(departed.len, times)),
            Err(()) => self.whole = false,
        }
    }
}
