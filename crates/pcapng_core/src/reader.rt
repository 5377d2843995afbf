//! Reads a pcapng capture packet by packet.
ghost use Rattle.std.specs.Prelude.{◌≡◌, ◌≢◌, ◌≤◌, ◌<◌, ◌+◌, ◌-◌, ℕ, true, List, Option, Some, None, [], ◌++◌, length, vec_len, IfOk, IfErr, OnOk, OnErr, IfSome, IfNone, IsErrOf, IsTrue};
ghost use Rattle.outside_core.specs.Faults.{Rose};
ghost use Rattle.pcap_core.specs.Rest.{rest_of, TakesFront, HasEnded, Serves};
ghost use Rattle.pcapng_defs.specs.Fault.{block_cut};
ghost use Rattle.pcapng_defs.specs.NgCapture.{front_of, broken, fits_kind, block_len, most_blocks};
ghost use Rattle.pcapng_core.specs.Faults.{fault_in};
ghost use Rattle.pcapng_core.specs.Kinds.{kind_said};
ghost use Rattle.pcap_core.specs.Held.{held};
ghost use Rattle.pcap_core.specs.Passed.{Passes};
ghost use Rattle.pcapng_core.specs.Options.{IsUnitOf};
ghost use Rattle.pcapng_core.specs.Carries.{carried_of};
ghost use Rattle.pcapng_core.specs.Bodies;
ghost use Rattle.pcapng_core.specs.Bodies.{body_said, IsEarly, IsShortBody};
ghost use Rattle.pcapng_core.specs.Blocks.{IsStart, HasRoom, ReadsTo, IsEndFault};

use crate::body::{Body, Packet, body_in, front_len};
use crate::carry::Carry;
use crate::fault::NgFault;
use crate::options::read_unit;
use crate::start::{Kind, START_LEN, Start, start_in};
use outside_core::{Shelf, ShelfError};
use pcap_core::{Frame, LinkedFrame, Window, read_long};
use pcapng_defs::Unit;
use std::alloc::Global;

/// The length of a total length field in bytes.
const TOTAL_LEN: usize = 4;

/// The unit of a block without options.
const NO_UNIT: Unit = Unit::Decimal(0);

/// Reads and parses the first twelve bytes of a block. Returns `None` if nothing is left and it
/// isn't the first block.
fn read_start<S: Shelf>(
    carry: &Carry,
    window: &mut Window,
    shelf: &mut S,
    front: &mut Vec<u8>,
) -> Result<Option<Start>, NgFault>
    requires begun { IsTrue (S.begun shelf.old) }
    ensures start { IfOk result (λ o. IfSome o (λ s.
        IfSome (rest_of (held window.old) (S.left shelf.old)) (IsStart (carried_of carry.now) s))) }
    ensures fits { IfOk result (λ o. IfSome o (λ s. fits_kind (kind_said s.kind) s.total ≡ true)) }
    ensures few { IfOk result (λ o. IfSome o (λ s. (carried_of carry.now).blocks ≢ most_blocks)) }
    ensures first { IfOk result (λ o. IfSome o (λ s. (carried_of carry.now).blocks ≡ 0 →
        s.kind ≡ Kind.Section)) }
    ensures taken { IfOk result (λ o. TakesFront (rest_of (held window.old) (S.left shelf.old))
        (rest_of (held window.new) (S.left shelf.new)) front.new.items) }
    ensures twelve { IfOk result (λ o. IfSome o (λ s. length front.new.items ≡ block_len)) }
    ensures ended { IfOk result (λ o. IfNone o (HasEnded
        (rest_of (held window.old) (S.left shelf.old))
        (rest_of (held window.new) (S.left shelf.new)))) }
    ensures came { IfOk result (λ o. IfNone o ((carried_of carry.now).blocks ≢ 0)) }
    ensures fault { IfErr result (λ e. IfSome (fault_in e) (λ fault.
        IfSome (rest_of (held window.old) (S.left shelf.old)) (λ left. front_of (carried_of carry.now) left ≡ broken fault))) }
    ensures shelf { Serves S.lends S.content S.begun S.faults shelf.old shelf.new }
    ensures cause { IsErrOf result NgFault.ReadFault → Rose (S.faults shelf.old)
        (S.faults shelf.new) }
{
    front.clear();
    window.take(shelf, front, START_LEN)?;
    if front.is_empty() && carry.blocks > 0 {
        return Ok(None);
    }
    Ok(Some(start_in(carry, front)?))
}

/// Reads the rest of a block's front and parses it. It is an error if the file ends before.
fn read_front<S: Shelf>(
    carry: &Carry,
    start: Start,
    window: &mut Window,
    shelf: &mut S,
    front: &mut Vec<u8>,
) -> Result<Body, NgFault>
    requires begun { IsTrue (S.begun shelf.old) }
    requires twelve { length front.old.items ≡ block_len }
    ensures taken { IfOk result (λ body. TakesFront (rest_of (front.old.items ++ held window.old)
        (S.left shelf.old))
        (rest_of (held window.new) (S.left shelf.new)) front.new.items) }
    ensures front { IfOk result (λ body. length front.new.items ≡ Bodies.front_len start.kind) }
    ensures body { IfOk result (λ body.
        body ≡ body_said (carried_of carry.now) start.big start.total front.new.items start.kind) }
    ensures early { IfOk result IsEarly }
    ensures short { IfOk result IsShortBody }
    ensures cut { IfErr result (λ e. IfSome (fault_in e) (λ fault. fault ≡
        block_cut ((carried_of carry.now).blocks + 1))) }
    ensures fault { IfErr result (λ e. IfSome (fault_in e) (λ fault.
        IfSome (rest_of (front.old.items ++ held window.old) (S.left shelf.old)) (λ left.
        length left < Bodies.front_len start.kind))) }
    ensures shelf { Serves S.lends S.content S.begun S.faults shelf.old shelf.new }
    ensures cause { IsErrOf result NgFault.ReadFault → Rose (S.faults shelf.old)
        (S.faults shelf.new) }
{
    let most = front_len(start.kind);
    window.take(shelf, front, most)?;
    if front.len() < most {
        return Err(NgFault::BlockCut(carry.number()));
    }
    Ok(body_in(carry, start, front))
}

/// Skips `count` bytes, which are the options if the block is an interface. Returns the unit, or
/// `None` if the file ends before.
fn pass_gap<S: Shelf>(
    window: &mut Window,
    shelf: &mut S,
    option: &mut Vec<u8>,
    start: Start,
    count: usize,
) -> Result<Option<Unit>, ShelfError>
    requires begun { IsTrue (S.begun shelf.old) }
    ensures passed { IfOk result (λ o. IfSome o (λ unit. Passes count
        (rest_of (held window.old) (S.left shelf.old))
        (rest_of (held window.new) (S.left shelf.new)))) }
    ensures unit { IfOk result (λ o. IfSome o (λ unit. start.kind ≡ Kind.Interface
        → IsUnitOf start.big count (rest_of (held window.old) (S.left shelf.old)) unit)) }
    ensures cut { IfOk result (λ o. IfNone o (IfSome (rest_of (held window.old) (S.left shelf.old))
        (λ left. length left < count))) }
    ensures shelf { Serves S.lends S.content S.begun S.faults shelf.old shelf.new }
    ensures cause { IsErrOf result ShelfError.Failed → Rose (S.faults shelf.old)
        (S.faults shelf.new) }
{
    match start.kind {
        Kind::Interface => {
            let (unit, rest) = read_unit(window, shelf, option, start.big, count)?;
            let passed = window.pass(shelf, rest)?;
            if passed == rest {
                Ok(Some(unit))
            } else {
                Ok(None)
            }
        }
        _ => {
            let passed = window.pass(shelf, count)?;
            if passed == count {
                Ok(Some(NO_UNIT))
            } else {
                Ok(None)
            }
        }
    }
}

/// Reads the bytes after a block's front: captured bytes, others that are skipped, and the total
/// length, which has to equal the one at the front.
fn read_behind<S: Shelf>(
    number: u64,
    start: Start,
    captured: usize,
    window: &mut Window,
    shelf: &mut S,
    front: &mut Vec<u8>,
    into: &mut Vec<u8>,
) -> Result<Unit, NgFault>
    requires begun { IsTrue (S.begun shelf.old) }
    requires room { HasRoom start (length front.old.items) captured }
    ensures read { IfOk result (λ unit. ReadsTo start (length front.old.items) captured
        into.new.items unit
        (rest_of (front.old.items ++ held window.old) (S.left shelf.old)) (rest_of (held window.new) (S.left shelf.new))) }
    ensures captured { IfOk result (λ unit. length into.new.items ≡ captured) }
    ensures fault { IfErr result (λ e. IfSome (fault_in e) (λ fault.
        IfSome (rest_of (front.old.items ++ held window.old) (S.left shelf.old)) (λ left. IsEndFault start number left fault))) }
    ensures shelf { Serves S.lends S.content S.begun S.faults shelf.old shelf.new }
    ensures cause { IsErrOf result NgFault.ReadFault → Rose (S.faults shelf.old)
        (S.faults shelf.new) }
{
    let total = start.total as usize;
    into.clear();
    window.take(shelf, into, captured)?;
    if into.len() < captured {
        return Err(NgFault::BlockCut(number));
    }
    if total == START_LEN {
        return if read_long(start.big, front, 8) == start.total {
            Ok(NO_UNIT)
        } else {
            Err(NgFault::BlockEnd(number))
        };
    }
    let gap = total - front.len() - captured - TOTAL_LEN;
    let unit = pass_gap(window, shelf, front, start, gap)?.ok_or(NgFault::BlockCut(number))?;
    front.clear();
    window.take(shelf, front, TOTAL_LEN)?;
    if front.len() < TOTAL_LEN {
        return Err(NgFault::BlockCut(number));
    }
    if read_long(start.big, front, 0) != start.total {
        return Err(NgFault::BlockEnd(number));
    }
    Ok(unit)
}

/// The result of reading a block: the end of the file, a packet, or another block.
#[derive(Clone, Copy)]
pub enum Block {
    End,
    Packet(Packet),
    Other,
}

/// Reads a pcapng capture packet by packet. It buffers at most 65,536 bytes that were read but not
/// consumed, and a packet's captured bytes.
#[derive(Drop)]
pub struct NgReader {
    alloc: Global,
    window: Window,
    front: Vec<u8>,
    carry: Carry,
    packets: u64,
    live: bool,
    ghost few: { packets ≤ carry.blocks },
}

impl NgReader {
    ghost use Rattle.std.specs.Prelude.{◌≡◌, ◌≢◌, ◌≤◌, ◌<◌, ◌+◌, ◌↔◌, ◌∷◌, ℕ, List, Option, Some, None, [], length, IfOk, IfErr, OnOk, OnErr, IfSome, IfNone, IsErrOf, IsErr, IsOk, IsTrue, is_some, if◌then◌else◌};
    ghost use Rattle.outside_core.specs.Faults.{Rose};
    ghost use Rattle.pcap_core.specs.Captures.{packet_of};
    ghost use Rattle.pcap_core.specs.Frames.{IsNextFrame};
    ghost use Rattle.pcap_core.specs.Held.{held};
    ghost use Rattle.pcap_core.specs.Limits.{most_held};
    ghost use Rattle.pcap_core.specs.Rest.{HasEnded, Serves};
    ghost use Rattle.pcapng_defs.specs.Fault.{BlockFault};
    ghost use Rattle.pcapng_defs.specs.Block.{at_start};
    ghost use Rattle.pcapng_defs.specs.NgCapture.{front_of, broken};
    ghost use Rattle.pcapng_core.specs.Faults.{fault_in};
    ghost use Rattle.pcapng_core.specs.Readers.{carry_of, packets_given, bytes_held, is_live, IsFresh, rest_left, TakesBlock, GoesOn, IsOver, HasNoPacket, block_packet, IsBoundedBlock, IsBoundedPacket};
    ghost use Rattle.pcapng_core.specs.Bodies.{packet_told};

    /// Returns a reader without buffered bytes.
    pub fn new(alloc: Global) -> NgReader
        ensures fresh { IsFresh result }
        ensures none_held { bytes_held result ≡ [] }
    {
        NgReader::over(alloc, Window::new(alloc))
    }

    /// Returns a reader of a window's bytes and then of the rest of the open file.
    pub fn over(alloc: Global, window: Window) -> NgReader
        ensures fresh { IsFresh result }
        ensures held { bytes_held result ≡ held window }
    {
        NgReader {
            alloc,
            window,
            front: Vec::new(alloc),
            carry: Carry::new(alloc),
            packets: 0,
            live: true,
        }
    }

    /// Returns whether no call has returned an error.
    pub fn live(&self) -> bool
        ensures { result ≡ is_live self.now }
    {
        self.live
    }

    /// Reads the next block.
    fn read_block<S: Shelf>(&mut self, shelf: &mut S, into: &mut Vec<u8>) -> Result<Block, NgFault>
        requires begun { IsTrue (S.begun shelf.old) }
        ensures found { IfOk result (λ block. block ≢ Block.End →
            TakesBlock (carry_of self.old) (block_packet block into.new.items) (carry_of self.new)
            (rest_left self.old (S.left shelf.old)) (rest_left self.new (S.left shelf.new))) }
        ensures counted { IfOk result (λ block. block ≢ Block.End →
            (carry_of self.new).blocks ≡ (carry_of self.old).blocks + 1) }
        ensures bounded { IfOk result (λ block. IsBoundedBlock block (length into.new.items)) }
        ensures ended { IfOk result (λ block. block ≡ Block.End → HasEnded
            (rest_left self.old (S.left shelf.old)) (rest_left self.new (S.left shelf.new))) }
        ensures same { IfOk result (λ block. block ≡ Block.End →
            (carry_of self.new ≡ carry_of self.old) × ((carry_of self.old).blocks ≢ 0)) }
        ensures fault { IfErr result (λ e. IfSome (fault_in e) (λ fault.
            IfSome (rest_left self.old (S.left shelf.old)) (λ left. front_of (carry_of self.old) left ≡ broken fault))) }
        ensures first { IfOk result (λ block. (carry_of self.old).blocks ≡ 0 →
            block ≡ Block.Other) }
        ensures given { packets_given self.new ≡ packets_given self.old }
        ensures live { is_live self.new ≡ is_live self.old }
        ensures shelf { Serves S.lends S.content S.begun S.faults shelf.old shelf.new }
        ensures cause { IsErrOf result NgFault.ReadFault → Rose (S.faults shelf.old)
            (S.faults shelf.new) }
    {
        let Some(start) = read_start(&self.carry, &mut self.window, shelf, &mut self.front)? else {
            return Ok(Block::End);
        };
        let body = read_front(&self.carry, start, &mut self.window, shelf, &mut self.front)?;
        let unit = read_behind(
            self.carry.number(),
            start,
            body.captured(),
            &mut self.window,
            shelf,
            &mut self.front,
            into,
        )?;
        match self.carry.go_past(start.big, body, unit)? {
            Some(packet) => Ok(Block::Packet(packet)),
            None => Ok(Block::Other),
        }
    }

    /// Reads blocks up to the next packet.
    fn read_packet<S: Shelf>(
        &mut self,
        shelf: &mut S,
        into: &mut Vec<u8>,
    ) -> Result<Option<Packet>, NgFault>
        requires begun { IsTrue (S.begun shelf.old) }
        ensures found { IfOk result (λ o. IfSome o (λ packet.
            GoesOn (carry_of self.old) (packet_told packet into.new.items ∷ [])
            (carry_of self.new) (rest_left self.old (S.left shelf.old)) (rest_left self.new (S.left shelf.new)))) }
        ensures counted { IfOk result (λ o. IfSome o (λ packet. (carry_of self.old).blocks <
            (carry_of self.new).blocks)) }
        ensures bounded { IfOk result (λ o. IfSome o (λ packet.
            IsBoundedPacket packet (length into.new.items))) }
        ensures ended { IfOk result (λ o. IfNone o (HasNoPacket
            (carry_of self.old) (carry_of self.new) (rest_left self.old (S.left shelf.old)) (rest_left self.new (S.left shelf.new)))) }
        ensures stays { IfOk result (λ o. IfNone o ((carry_of self.old).blocks ≤
            (carry_of self.new).blocks)) }
        ensures fault { IfErr result (λ e. IfSome (fault_in e) (λ fault.
            IfSome (rest_left self.old (S.left shelf.old)) (IsOver (carry_of self.old) (Some fault)))) }
        ensures given { packets_given self.new ≡ packets_given self.old }
        ensures live { is_live self.new ≡ is_live self.old }
        ensures shelf { Serves S.lends S.content S.begun S.faults shelf.old shelf.new }
        ensures cause { IsErrOf result NgFault.ReadFault → Rose (S.faults shelf.old)
            (S.faults shelf.new) }
    {
        loop {
            match self.read_block(shelf, into)? {
                Block::End => return Ok(None),
                Block::Packet(packet) => return Ok(Some(packet)),
                Block::Other => {}
            }
        }
    }

    /// Reads the first block, which has to be a section header: from the buffered bytes, and then
    /// from the open file.
    pub fn start<S: Shelf>(&mut self, shelf: &mut S) -> Result<(), NgFault>
        requires fresh { IsFresh self.old }
        requires begun { IsTrue (S.begun shelf.old) }

        // The remaining bytes were a block without a packet, and then the bytes left now.
        ensures header { OnOk result (TakesBlock at_start None (carry_of self.new)
            (rest_left self.old (S.left shelf.old)) (rest_left self.new (S.left shelf.new))) }
        ensures none_given { packets_given self.new ≡ 0 }
        ensures bounded { length (bytes_held self.new) ≤ most_held }

        // A returned fault is that of the file's first block.
        ensures fault { IfErr result (λ e. IfSome (fault_in e) (λ fault.
            IfSome (rest_left self.old (S.left shelf.old)) (λ file.
            front_of at_start file ≡ broken fault))) }
        ensures live { IsTrue (is_live self.new) ↔ IsOk result }

        ensures shelf { Serves S.lends S.content S.begun S.faults shelf.old shelf.new }
        ensures cause { IsErrOf result NgFault.ReadFault → Rose (S.faults shelf.old)
            (S.faults shelf.new) }
    {
        let mut into = Vec::new(self.alloc);
        match self.read_block(shelf, &mut into) {
            Ok(_) => Ok(()),
            Err(fault) => {
                self.live = false;
                Err(fault)
            }
        }
    }

    /// Reads the next packet, and replaces the contents of `into` by its captured bytes.
    pub fn next<S: Shelf>(
        &mut self,
        shelf: &mut S,
        into: &mut Vec<u8>,
    ) -> Result<Option<LinkedFrame>, NgFault>
        requires live { IsTrue (is_live self.old) }
        requires begun { IsTrue (S.begun shelf.old) }

        // The reading of the remaining bytes is the packet, and then the reading of the bytes left
        // now.
        ensures found { IfOk result (λ o. IfSome o (λ f. GoesOn (carry_of self.old)
            (packet_of f into.new.items ∷ [])
            (carry_of self.new) (rest_left self.old (S.left shelf.old)) (rest_left self.new (S.left shelf.new)))) }
        ensures next { IfOk result (λ o. IfSome o (λ f.
            IsNextFrame (packets_given self.old) f.frame into.new.items)) }

        // There is no packet only if no packet and no fault is left. Then nothing is left for a
        // later call.
        ensures ended { IfOk result (λ o. IfNone o (HasNoPacket
            (carry_of self.old) (carry_of self.new) (rest_left self.old (S.left shelf.old)) (rest_left self.new (S.left shelf.new)))) }

        // A fault of the file is returned only if no packet is left before it.
        ensures fault { IfErr result (λ e. IfSome (fault_in e) (λ fault.
            IfSome (rest_left self.old (S.left shelf.old)) (IsOver (carry_of self.old) (Some fault)))) }
        ensures live { IsTrue (is_live self.new) ↔ IsOk result }

        ensures given { IfOk result (λ o.
            packets_given self.new ≡ packets_given self.old + (if is_some o then 1 else 0)) }
        ensures bounded { length (bytes_held self.new) ≤ most_held }
        ensures shelf { Serves S.lends S.content S.begun S.faults shelf.old shelf.new }
        ensures cause { IsErrOf result NgFault.ReadFault → Rose (S.faults shelf.old)
            (S.faults shelf.new) }
    {
        match self.read_packet(shelf, into) {
            Ok(Some(packet)) => {
                self.packets += 1;
                let frame = Frame {
                    number: self.packets,
                    moment: packet.moment,
                    captured: packet.captured,
                    len: packet.len,
                };
                Ok(Some(LinkedFrame {
                    frame,
                    link: packet.link,
                }))
            }
            Ok(None) => Ok(None),
            Err(fault) => {
                self.live = false;
                Err(fault)
            }
        }
    }
}
