//! A summary records outcomes as sums.
ghost use Rattle.std.specs.Prelude.{IsTrue, false};
ghost use Rattle.summary_core.specs.Recording.{RecordsSums, StaysUnwritten, sums_are_joined};

use crate::summary::Summary;
use outside_core::{Sink, Stop};
use packet_defs::{Departed, Packet};
use report_core::WriteFault;
use sched_run::{DepartureRecorder, Recorder};

impl Recorder for Summary {
    ghost records = { λ _. RecordsSums };

    ghost cuts = { λ _. StaysUnwritten };

    ghost live = { λ s. IsTrue s.live };

    ghost over = { λ _. false };

    fn arrived<K: Sink>(
        &mut self,
        _sink: &mut K,
        _event: u64,
        packet: &Packet,
        _captured: &[u8],
        _leaf: &str,
        _ranks: &[u64],
    ) -> Result<(), Stop> {
        let counted = self.count_arrival(packet);
        self.live = counted.is_ok();
        counted?;
        Ok(())
    }

    fn dropped<K: Sink>(
        &mut self,
        _sink: &mut K,
        _event: u64,
        packet: &Packet,
        _leaf: &str,
    ) -> Result<(), WriteFault> {
        self.count_drop(packet);
        Ok(())
    }

    fn departed<K: Sink>(
        &mut self,
        _sink: &mut K,
        _event: u64,
        departed: &Departed,
        _leaf: &str,
        _ranks: &[u64],
        start: Option<u128>,
    ) -> Result<(), WriteFault> {
        self.count_departure(departed, start);
        Ok(())
    }

    fn empty<K: Sink>(&mut self, _sink: &mut K, _event: u64) -> Result<(), WriteFault> {
        Ok(())
    }

    fn over(&self) -> bool {
        false
    }

    ghost joined = { λ _. sums_are_joined };
}

impl DepartureRecorder for Summary {}
