//! The sums of a run as text.
ghost use Rattle.std.specs.Prelude.{◌≡◌, ◌++◌, IfOk, OnOk};
ghost use Rattle.summary_core.specs.Text.{rate_text, jitter_text, percentiles_text, delays_text, backlog_text, packets_text, figures_text, groups_text, fairness_text, summary_text};

use crate::counts::Counts;
use crate::delays::Delays;
use crate::fairness::Fairness;
use crate::group::{Figures, Group, Groups};
use crate::numbers::{put_millionths, put_number, put_wide};
use std::alloc::{AllocError, Global};

fn put_rate(into: &mut Vec<u8>, rate: Option<u128>) -> Result<(), AllocError>
    ensures { OnOk result (into.new.items ≡ into.old.items ++ rate_text rate) }
{
    let Some(rate) = rate else {
        return Ok(());
    };
    put_wide(into, b"; ", rate)?;
    into.extend_from_slice(b" bytes a second")
}

fn put_jitter(into: &mut Vec<u8>, jitter: Option<u128>) -> Result<(), AllocError>
    ensures { OnOk result (into.new.items ≡ into.old.items ++ jitter_text jitter) }
{
    let Some(jitter) = jitter else {
        return Ok(());
    };
    put_wide(into, b"; jitter ", jitter)
}

#[tactic(auto, unfolding(crate::specs::Text::percentiles_text))]
fn put_percentiles(into: &mut Vec<u8>, delays: &Delays) -> Result<(), AllocError>
    ensures { OnOk result (into.new.items ≡ into.old.items ++ percentiles_text delays.now) }
{
    put_number(into, b"least ", delays.minimum)?;
    put_number(into, b", median ", delays.median)?;
    put_number(into, b", 95 % ", delays.p95)?;
    put_number(into, b", 99 % ", delays.p99)?;
    put_number(into, b", greatest ", delays.maximum)
}

/// Appends the line of the delays, if there are any.
fn put_delays(into: &mut Vec<u8>, counts: &Counts, delays: Option<Delays>) -> Result<(), AllocError>
    ensures { OnOk result (into.new.items ≡ into.old.items ++ delays_text counts.now delays) }
{
    let Some(delays) = delays else {
        return Ok(());
    };
    into.extend_from_slice(b"  delay in ns: ")?;
    put_percentiles(into, &delays)?;
    put_wide(into, b", mean ", counts.mean_delay())?;
    put_jitter(into, counts.jitter())?;
    into.extend_from_slice(b"\n")
}

#[tactic(auto, unfolding(crate::specs::Text::backlog_text))]
fn put_backlog(into: &mut Vec<u8>, counts: &Counts) -> Result<(), AllocError>
    ensures { OnOk result (into.new.items ≡ into.old.items ++ backlog_text counts.now) }
{
    put_number(into, b"  backlog: at most ", counts.most_queued)?;
    put_number(into, b" packets, at most ", counts.most_queued_bytes)?;
    into.extend_from_slice(b" bytes\n")
}

#[tactic(auto, unfolding(crate::specs::Text::packets_text))]
fn put_packets(into: &mut Vec<u8>, counts: &Counts) -> Result<(), AllocError>
    ensures { OnOk result (into.new.items ≡ into.old.items ++ packets_text counts.now) }
{
    put_number(into, b": ", counts.departed)?;
    put_number(into, b" packets departed, ", counts.dropped)?;
    put_number(into, b" dropped, ", counts.queued)?;
    put_number(into, b" queued; ", counts.bytes)?;
    into.extend_from_slice(b" bytes")
}

/// Appends the lines of a group, after its name.
#[tactic(auto, unfolding(crate::specs::Text::figures_text))]
fn put_figures(into: &mut Vec<u8>, figures: &Figures) -> Result<(), AllocError>
    ensures { OnOk result (into.new.items ≡ into.old.items ++ figures_text figures.now) }
{
    let counts = figures.counts;
    put_packets(into, &counts)?;
    put_rate(into, counts.throughput())?;
    into.extend_from_slice(b"\n")?;
    put_delays(into, &counts, figures.delays)?;
    put_backlog(into, &counts)
}

/// Appends groups, each after its kind and its name.
fn put_groups(into: &mut Vec<u8>, kind: &[u8], groups: &[Group]) -> Result<(), AllocError>
    ensures { OnOk result (into.new.items ≡ into.old.items ++ groups_text kind.now groups.now) }
{
    for group in groups {
        into.extend_from_slice(kind)?;
        into.extend_from_slice(group.label.name.as_str().as_bytes())?;
        put_figures(into, &group.figures)?;
    }
    Ok(())
}

#[tactic(auto, unfolding(crate::specs::Text::fairness_text))]
fn put_fairness(into: &mut Vec<u8>, fairness: Fairness) -> Result<(), AllocError>
    ensures { OnOk result (into.new.items ≡ into.old.items ++ fairness_text fairness) }
{
    into.extend_from_slice(b"fairness of the leaves by weight (Jain): ")?;
    match fairness {
        Fairness::Index(index) => put_millionths(into, index)?,
        Fairness::NoShares => into.extend_from_slice(b"no bytes departed")?,
        Fairness::TooLarge => into.extend_from_slice(b"too large")?,
    }
    into.extend_from_slice(b"\n")
}

/// Returns the sums of a run as text: all packets, then each leaf, then each class, and Jain's
/// index of fairness. The error is out of memory.
pub fn put_text(alloc: Global, groups: &Groups) -> Result<Vec<u8>, AllocError>
    ensures { IfOk result (λ text. text.items ≡ summary_text groups.now) }
{
    let mut text = Vec::new(alloc);
    text.extend_from_slice(b"all")?;
    put_figures(&mut text, &groups.all)?;
    put_groups(&mut text, b"leaf ", &groups.leaves)?;
    put_groups(&mut text, b"class ", &groups.classes)?;
    put_fairness(&mut text, groups.fairness)?;
    Ok(text)
}
