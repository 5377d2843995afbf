//! Tests of what no run of a built program reaches: public calls that no program uses, and whole runs
//! and readers over reads, writes and allocations that fail or return little. They are in a crate of
//! their own, since a crate's own tests have its functions proved once more.
#![tactic(auto)]

mod block;
#[cfg(test)]
mod capture;
mod classes;
#[cfg(test)]
mod editions;
mod embed;
#[cfg(test)]
mod fabrics;
#[cfg(test)]
mod faults;
#[cfg(test)]
mod files;
#[cfg(test)]
mod filters;
#[cfg(test)]
mod json;
#[cfg(test)]
mod memory;
mod outside;
#[cfg(test)]
mod packets;
#[cfg(test)]
mod pcap;
#[cfg(test)]
mod pcapng;
#[cfg(test)]
mod pcapout;
#[cfg(test)]
mod printed;
mod queues;
#[cfg(test)]
mod reading;
mod report;
#[cfg(test)]
mod sizes;
#[cfg(test)]
mod sums;
#[cfg(test)]
mod taps;
mod trees;
