//! The draws of a generated load: departures, and packets with their classes, lengths, flows and
//! timestamps.
ghost use Rattle.std.specs.Prelude.{◌≡◌, ◌<◌, ◌^◌};

use events_core::Load;
use packet_defs::Packet;
use rank_defs::FlowKey;

/// The generator of a load, the number of its next packet, and the timestamp (`moment`) of the last
/// one in nanoseconds.
#[derive(Drop)]
pub struct Drawing {
    pub(crate) load: Load,
    pub(crate) number: u64,
    pub(crate) moment: u64,
}

impl Drawing {
    ghost use Rattle.sched_run.specs.Load.{first_drawing, load_event, load_next};
    ghost use Rattle.sched_run.specs.Drawings.{event_by};

    pub(crate) fn new(seed: u64) -> Drawing
        ensures { result ≡ first_drawing seed }
    {
        Drawing {
            load: Load::new(seed),
            number: 1,
            moment: 0,
        }
    }

    /// Draws the next event: a packet that arrives, or `None` for a departure.
    pub(crate) fn draw(&mut self) -> Option<Packet>
        requires early { self.old.moment < 2 ^ 62 }
        requires few { self.old.number < 2 ^ 62 }

        ensures event { event_by result ≡ load_event self.old }
        ensures next { self.new ≡ load_next self.old }
    {
        if self.load.next() % 5 >= 3 {
            return None;
        }
        let class = (self.load.next() % 8) as u32;
        let len = 64 + (self.load.next() % 1437) as u32;
        let source = (self.load.next() % 16) as u128;
        self.moment += self.load.next() % 2000;
        let number = self.number;
        self.number += 1;
        Some(Packet {
            number,
            class,
            len,
            moment: self.moment,
            flow: FlowKey {
                version: 4,
                source,
                target: 0,
                proto: 0,
                sport: 0,
                dport: 0,
            },
        })
    }
}
