//! The first twelve bytes of a block.
ghost use Rattle.std.specs.Prelude.{◌≡◌, ◌≢◌, ◌≤◌, ◌<◌, ◌+◌, ◌⊎◌, ◌==◌, ◌%◌, ◌&&◌, nat_le, true, Some, length, IfOk, IfErr, IfSome, IfNone, IsSomeAnd, IsTrue};
ghost use Rattle.pcap_defs.specs.Number.{long_at};
ghost use Rattle.pcapng_defs.specs.Block;
ghost use Rattle.pcapng_defs.specs.Fault.{code};
ghost use Rattle.pcapng_defs.specs.NgCapture.{order_at, order_in, fits_kind, most_blocks};
ghost use Rattle.pcapng_defs.specs.FaultCauses.{IsBlockFault};
ghost use Rattle.pcapng_core.specs.Carries.{carried_of};
ghost use Rattle.pcapng_core.specs.Faults.{fault_in};
ghost use Rattle.pcapng_core.specs.Kinds.{kind_said};
ghost use Rattle.pcapng_core.specs.Blocks.{IsStart};

use crate::carry::Carry;
use crate::fault::NgFault;
use pcap_core::read_long;
use pcapng_defs::MOST_TOTAL;

/// The length in bytes of a block before its body, plus the first four bytes of the body.
pub const START_LEN: usize = 12;

const SECTION_TYPE: u32 = 0x0A0D_0D0A;

const ORDER_NUMBER: u32 = 0x1A2B_3C4D;

/// The kinds of blocks that are read, and all others.
#[derive(Clone, Copy, PartialEq, Eq, Debug)]
pub enum Kind {
    Section,
    Interface,
    Enhanced,
    Simple,
    Other,
}

/// The values in a block's first bytes.
#[derive(Clone, Copy)]
pub struct Start {
    /// Whether its numbers are big-endian.
    pub big: bool,
    pub kind: Kind,
    /// The length of the whole block in bytes.
    pub total: u32,
}

/// Returns the kind of a block by its type.
fn kind_of(number: u32) -> Kind
    ensures { kind_said result ≡ Block.kind_of number }
{
    match number {
        SECTION_TYPE => Kind::Section,
        1 => Kind::Interface,
        6 => Kind::Enhanced,
        3 => Kind::Simple,
        _ => Kind::Other,
    }
}

/// Returns the least length in bytes of a block of this kind.
fn least_total(kind: Kind) -> u32
    ensures { result ≡ Block.least_total (kind_said kind) }
{
    match kind {
        Kind::Section => 28,
        Kind::Interface => 20,
        Kind::Enhanced => 32,
        Kind::Simple => 16,
        Kind::Other => 12,
    }
}

/// Returns whether a block of this kind can have this length in bytes.
fn fits(kind: Kind, total: u32) -> bool
    ensures { result ≡ fits_kind (kind_said kind) total }
{
    total % 4 == 0 && least_total(kind) <= total && total <= MOST_TOTAL
}

/// Returns the byte order in a section header's order bytes, `true` if it is big-endian.
fn order_told(bytes: &[u8]) -> Option<bool>
    requires { 12 ≤ length bytes.now }
    ensures { result ≡ order_in bytes.now }
{
    if read_long(false, bytes, 8) == ORDER_NUMBER {
        Some(false)
    } else if read_long(true, bytes, 8) == ORDER_NUMBER {
        Some(true)
    } else {
        None
    }
}

/// Returns the byte order of the block that begins with these bytes.
fn order_of(carry: &Carry, bytes: &[u8]) -> Option<bool>
    requires { 12 ≤ length bytes.now }
    ensures { result ≡ order_at (carried_of carry.now) bytes.now }
{
    if read_long(carry.big, bytes, 0) == SECTION_TYPE {
        order_told(bytes)
    } else if carry.blocks == 0 {
        None
    } else {
        Some(carry.big)
    }
}

/// Parses the first bytes of a block: twelve, or all that are left if there are fewer. There may be
/// none only if it is the first block.
pub fn start_in(carry: &Carry, bytes: &[u8]) -> Result<Start, NgFault>
    requires some { (0 < length bytes.now) ⊎ ((carried_of carry.now).blocks ≡ 0) }
    requires bound { length bytes.now ≤ 12 }
    ensures start { IfOk result (λ s. IsStart (carried_of carry.now) s bytes.now) }
    ensures first { IfOk result (λ s. (carried_of carry.now).blocks ≡ 0 → s.kind ≡ Kind.Section) }
    ensures fault { IfErr result (λ e. IsSomeAnd (fault_in e)
        (IsBlockFault (carried_of carry.now) bytes.now)) }
    ensures cut { IfErr result (λ e. IfSome (fault_in e) (λ fault. code fault ≡ 11 →
        length bytes.now < 12)) }
{
    let number = carry.number();
    if carry.blocks == u32::MAX {
        return Err(NgFault::TooManyBlocks(number));
    }
    if bytes.len() < START_LEN {
        return Err(NgFault::BlockCut(number));
    }
    let big = order_of(carry, bytes).ok_or(NgFault::OrderMagic(number))?;
    let kind = kind_of(read_long(big, bytes, 0));
    let total = read_long(big, bytes, 4);
    if !fits(kind, total) {
        return Err(NgFault::BlockLength(number));
    }
    Ok(Start { big, kind, total })
}
