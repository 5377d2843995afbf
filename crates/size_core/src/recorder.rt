//! A sizing records outcomes as the use of each node of a target.
ghost use Rattle.std.specs.Prelude.{IsTrue, false};
ghost use Rattle.size_core.specs.Recording.{RecordsUses, StaysUnwritten, uses_are_joined};

use crate::sizing::Sizing;
use outside_core::{Sink, Stop};
use packet_defs::{Departed, Packet};
use report_core::WriteFault;
use sched_run::{DepartureRecorder, Recorder};

impl Recorder for Sizing {
    ghost records = { λ _. RecordsUses };

    ghost cuts = { λ _. StaysUnwritten };

    ghost live = { λ s. IsTrue s.live };

    ghost over = { λ _. false };

    fn arrived<K: Sink>(
        &mut self,
        _sink: &mut K,
        event: u64,
        packet: &Packet,
        _captured: &[u8],
        _leaf: &str,
        ranks: &[u64],
    ) -> Result<(), Stop> {
        let pushed = self.push(event, packet, ranks);
        self.live = pushed.is_ok();
        pushed?;
        Ok(())
    }

    fn dropped<K: Sink>(
        &mut self,
        _sink: &mut K,
        _event: u64,
        _packet: &Packet,
        _leaf: &str,
    ) -> Result<(), WriteFault> {
        Ok(())
    }

    fn departed<K: Sink>(
        &mut self,
        _sink: &mut K,
        _event: u64,
        departed: &Departed,
        _leaf: &str,
        _ranks: &[u64],
        _start: Option<u128>,
    ) -> Result<(), WriteFault> {
        self.pop(departed.class);
        Ok(())
    }

    fn empty<K: Sink>(&mut self, _sink: &mut K, _event: u64) -> Result<(), WriteFault> {
        Ok(())
    }

    fn over(&self) -> bool {
        false
    }

    ghost joined = { λ _. uses_are_joined };
}

impl DepartureRecorder for Sizing {}
