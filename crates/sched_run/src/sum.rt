//! A sum over the numbers of departed packets.
ghost use Rattle.std.specs.Prelude.{◌≡◌, false};
ghost use Rattle.sched_run.specs.Sums.{AddsUp, StaysUnwritten, sums_are_joined};

use crate::departure::DepartureRecorder;
use crate::recorder::Recorder;
use outside_core::{Sink, Stop};
use packet_defs::{Departed, Packet};
use report_core::WriteFault;
use std::marker::Model;

/// Folds the numbers of departed packets, in order, into one 32-bit number, which is its model in
/// contracts. Each departure sets the sum to 31 times the sum plus the packet's number, modulo
/// 2^32. Nothing is written.
#[derive(Drop)]
pub struct DepartureSum {
    sum: u64,
}

impl Model for DepartureSum {
    ghost use Rattle.std.specs.Prelude.{ℕ};

    ghost Value = { ℕ };

    ghost view = { λ s. s.sum };
}

impl DepartureSum {
    /// Returns the sum of no departures.
    pub fn new() -> DepartureSum
        ensures { result ≡ 0 }
    {
        DepartureSum { sum: 0 }
    }

    pub fn sum(&self) -> u64
        ensures { result ≡ self.now }
    {
        self.sum
    }
}

impl Recorder for DepartureSum {
    ghost records = { λ _. AddsUp };

    ghost cuts = { λ _. StaysUnwritten };

    ghost live = { λ _. Unit {0} };

    ghost over = { λ _. false };

    fn arrived<K: Sink>(
        &mut self,
        _sink: &mut K,
        _event: u64,
        _packet: &Packet,
        _captured: &[u8],
        _leaf: &str,
        _ranks: &[u64],
    ) -> Result<(), Stop> {
        Ok(())
    }

    fn dropped<K: Sink>(
        &mut self,
        _sink: &mut K,
        _event: u64,
        _packet: &Packet,
        _leaf: &str,
    ) -> Result<(), WriteFault> {
        Ok(())
    }

    fn departed<K: Sink>(
        &mut self,
        _sink: &mut K,
        _event: u64,
        departed: &Departed,
        _leaf: &str,
        _ranks: &[u64],
        _start: Option<u128>,
    ) -> Result<(), WriteFault> {
        let sum = self.sum as u128 * 31 + departed.packet as u128;
        self.sum = (sum % (1 << 32)) as u64;
        Ok(())
    }

    fn empty<K: Sink>(&mut self, _sink: &mut K, _event: u64) -> Result<(), WriteFault> {
        Ok(())
    }

    fn over(&self) -> bool {
        false
    }

    ghost joined = { λ _. sums_are_joined };
}

impl DepartureRecorder for DepartureSum {}
