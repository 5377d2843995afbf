//! The state carried from block to block.
ghost use Rattle.std.specs.Prelude.{◌≤◌};
ghost use Rattle.rank_defs.specs.Programs.{max_rank};
ghost use Rattle.pcapng_defs.specs.NgCapture.{most_blocks};

use crate::body::{Body, Packet};
use crate::fault::NgFault;
use pcapng_defs::{Interface, Unit};
use std::alloc::Global;

/// The state carried from block to block.
#[derive(Drop)]
pub struct Carry {
    /// Whether the section's numbers are big-endian.
    pub big: bool,
    /// The section's interfaces, in order.
    pub described: Vec<Interface>,
    /// The timestamp of the previous packet, or 0 without one.
    pub moment: u64,
    /// The number of blocks read.
    pub blocks: u32,
    ghost early: { moment ≤ max_rank },
    ghost few: { blocks ≤ most_blocks },
}

impl Carry {
    ghost use Rattle.std.specs.Prelude.{◌≡◌, ◌≢◌, ◌+◌, Some, None, OnOk, IfOk, IfErr, IfSome};
    ghost use Rattle.pcapng_defs.specs.Block.{at_start};
    ghost use Rattle.pcapng_core.specs.Bodies.{IsEarly};
    ghost use Rattle.pcapng_core.specs.Carries.{carried_of, went, described_also};
    ghost use Rattle.pcapng_core.specs.Faults.{fault_in};

    /// Returns the state before the first block.
    pub fn new(alloc: Global) -> Carry
        ensures { carried_of result ≡ at_start }
    {
        Carry {
            big: false,
            described: Vec::new(alloc),
            moment: 0,
            blocks: 0,
        }
    }

    /// Returns the number of the next block, counted from 1.
    pub fn number(&self) -> u64
        ensures { result ≡ (carried_of self.now).blocks + 1 }
    {
        u64::from(self.blocks) + 1
    }

    /// Goes past a whole block, and returns its packet, if it is one. The error is the block's
    /// fault or out of memory.
    pub fn go_past(&mut self, big: bool, body: Body, unit: Unit) -> Result<Option<Packet>, NgFault>
        requires few { (carried_of self.old).blocks ≢ most_blocks }
        requires early { IsEarly body }
        ensures past { IfOk result (λ packet.
            went (carried_of self.old) big unit body ≡ Some (packet, carried_of self.new)) }
        ensures faulty { IfErr result (λ e. IfSome (fault_in e) (λ fault. body ≡ Body.Faulty e)) }
        ensures stays { IfErr result (λ e. (carried_of self.new).blocks ≡
            (carried_of self.old).blocks) }
        ensures cause { IfErr result (λ e. e ≡ NgFault.ReadFault → body ≡ Body.Faulty e) }
    {
        let mut given = None;
        match body {
            Body::Section => {
                self.big = big;
                self.described.clear();
            }
            Body::Interface(link, snapshot) => self.describe(link, snapshot, unit)?,
            Body::Packet(packet) => {
                self.moment = packet.moment;
                given = Some(packet);
            }
            Body::Other => {}
            Body::Faulty(fault) => return Err(fault),
        }
        self.blocks += 1;
        Ok(given)
    }

    /// Adds an interface of the section. The only error is out of memory.
    fn describe(&mut self, link: u16, snapshot: u32, unit: Unit) -> Result<(), NgFault>
        ensures described { OnOk result (carried_of self.new ≡ described_also (carried_of self.old)
            (record { link = link; snapshot = snapshot; unit = unit })) }
        ensures blameless { IfErr result (λ e. e ≡ NgFault.NoMemory) }
        ensures kept { (carried_of self.new).blocks ≡ (carried_of self.old).blocks }
    {
        let interface = Interface {
            link,
            snapshot,
            unit,
        };
        match self.described.push(interface) {
            Ok(_) => Ok(()),
            Err(_) => Err(NgFault::NoMemory),
        }
    }
}
