//! The `each` variables of the flows at a leaf.

ghost use Rattle.std.specs.Prelude.{◌↔◌, ◌≡◌, ◌≢◌, ◌<◌, ℕ, [], length, slice_get, Some, None, OnErr, OnOk, IsTrue};
ghost use Rattle.std.proofs.Props.{props};
ghost use Rattle.std.specs.Map.{lookup};
ghost use Rattle.rank_defs.specs.declared.environment.FlowKey.{FlowKey as Known};
ghost use Rattle.rank_core.specs.FlowKeys.{key_of, has_key};

use rank_defs::FlowKey;
use std::alloc::{AllocError, Global};
use std::collections::BTreeMap;

/// A flow as an ordered key. The fields that differ most often between flows come first.
#[derive(PartialEq, Eq, PartialOrd, Ord, Drop)]
pub struct OrderedKey {
    sport: u16,
    dport: u16,
    source: u128,
    target: u128,
    proto: u8,
    version: u8,
}

/// Returns the ordered key of a flow.
#[inline]
pub fn key_of(flow: &FlowKey) -> OrderedKey
    ensures { result ≡ key_of flow.now }
{
    OrderedKey {
        sport: flow.sport,
        dport: flow.dport,
        source: flow.source,
        target: flow.target,
        proto: flow.proto,
        version: flow.version,
    }
}

/// Returns whether two flows are the same. It compares the fields that differ most often first, and
/// is part of its caller.
#[inline(always)]
fn is_same(known: &FlowKey, flow: &FlowKey) -> bool
    ensures { IsTrue result ↔ (known.now ≡ flow.now) }
{
    known.sport == flow.sport
        && known.dport == flow.dport
        && known.source == flow.source
        && known.target == flow.target
        && known.proto == flow.proto
        && known.version == flow.version
}

/// The minimum number of guesses, unless there are none.
const FEWEST: usize = 64;

/// The `each` variables of the flows that have room, each flow at its index. Captures choose the
/// flows, so indices are kept in an ordered map: with a hash map and a known seed, a capture could
/// force each lookup to visit all flows. Most indices are found by a guess, and a guess may be
/// wrong. The first guess is `last`, the index that was found last: a step looks up the flow for
/// which room was just made.
#[derive(Drop)]
pub(crate) struct FlowTable {
    places: BTreeMap<OrderedKey, usize>,
    flows: Vec<FlowKey>,
    pub(crate) numbers: Vec<Vec<u64>>,
    guesses: Vec<u32>,
    last: usize,
    alloc: Global,
    ghost even: { length numbers.items ≡ length flows.items },
    ghost there: { (f : Known) (i : ℕ) → lookup (has_key f) places.entries ≡ Some i → slice_get flows.items i ≡ Some f } by { Prim.hlevel props },
    ghost found: { (f : Known) (i : ℕ) → slice_get flows.items i ≡ Some f → lookup (has_key f) places.entries ≡ Some i } by { Prim.hlevel props },
}

impl FlowTable {
    ghost use Rattle.rank_core.specs.Flows.{place_of, numbers_of};

    /// Returns a table in which no flow has room.
    pub(crate) fn new(alloc: Global) -> FlowTable
        ensures { (f : FlowKey) → numbers_of result f ≡ None }
    {
        FlowTable {
            places: BTreeMap::new(alloc),
            flows: Vec::new(alloc),
            numbers: Vec::new(alloc),
            guesses: Vec::new(alloc),
            last: 0,
            alloc,
        }
    }

    /// Returns the index of a flow, if it has room. A flow's guess stands at a hash of its ports
    /// and addresses. An address that doesn't fit in 64 bits counts as 0.
    #[inline(always)]
    pub(crate) fn place(&mut self, flow: &FlowKey) -> Option<usize>
        ensures place { result ≡ place_of self.new flow.now }
        ensures same { (f : FlowKey) → numbers_of self.new f ≡ numbers_of self.old f }
    {
        if let Some(known) = self.flows.get(self.last) {
            if is_same(known, flow) {
                return Some(self.last);
            }
        }
        let ports = (u64::from(flow.sport) << 16) | u64::from(flow.dport);
        let source = u64::try_from(flow.source).unwrap_or(0);
        let target = u64::try_from(flow.target).unwrap_or(0);
        let addresses = source.rotate_left(32) ^ target;
        let hash = ((ports ^ addresses).wrapping_mul(0x9E37_79B9_7F4A_7C15) >> 32) as usize;
        let at = hash & self.guesses.len().wrapping_sub(1);
        let guess = match self.guesses.get(at) {
            Some(guess) => *guess as usize,
            None => 0,
        };
        if let Some(known) = self.flows.get(guess) {
            if is_same(known, flow) {
                self.last = guess;
                return Some(guess);
            }
        }
        self.search(*flow, at)
    }

    /// Looks up the index of a flow in the map, and stores it as the guess at a position. It takes
    /// a copy, so that a packet with a right guess needs none.
    #[inline(never)]
    fn search(&mut self, flow: FlowKey, at: usize) -> Option<usize>
        ensures place { result ≡ place_of self.new flow }
        ensures same { (f : FlowKey) → numbers_of self.new f ≡ numbers_of self.old f }
    {
        match self.places.get(&key_of(&flow)) {
            Some(found) => {
                let place = *found;
                self.last = place;
                if let Some(guess) = self.guesses.get_mut(at) {
                    *guess = u32::try_from(place).unwrap_or(0);
                }
                Some(place)
            }
            None => None,
        }
    }

    /// Makes room for at least four times as many guesses as there are flows, so that few flows share
    /// one.
    fn widen(&mut self) -> Result<(), AllocError>
        ensures places { self.new.places ≡ self.old.places }
        ensures flows { self.new.flows ≡ self.old.flows }
        ensures numbers { self.new.numbers ≡ self.old.numbers }
    {
        if self.flows.len() >= self.guesses.len() / 4 {
            let count = self.guesses.len().saturating_mul(2).max(FEWEST);
            self.guesses = vec![in self.alloc; 0; count]?;
        }
        Ok(())
    }

    /// Makes room for a flow that has none. Its variables get their first values.
    #[cold]
    #[inline(never)]
    pub(crate) fn add(&mut self, flow: &FlowKey, first: &[u64]) -> Result<(), AllocError>
        requires absent { place_of self.old flow.now ≡ None }
        ensures added { OnOk result (numbers_of self.new flow.now ≡ Some first.now) }
        ensures others { (f : FlowKey) → f ≢ flow.now → numbers_of self.new f ≡
            numbers_of self.old f }
        ensures err { OnErr result ((f : FlowKey) → numbers_of self.new f ≡ numbers_of self.old f) }
    {
        self.widen()?;
        let numbers = Vec::from_slice(self.alloc, first)?;
        self.flows.reserve(1)?;
        self.numbers.reserve(1)?;
        self.places.insert(key_of(flow), self.flows.len())?;
        self.flows.push_reserved(*flow);
        self.numbers.push_reserved(numbers);
        Ok(())
    }
}
