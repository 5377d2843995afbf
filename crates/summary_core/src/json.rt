//! The sums of a run as JSON.
ghost use Rattle.std.specs.Prelude.{◌≡◌, ◌++◌, IfOk, OnOk};
ghost use Rattle.summary_core.specs.Json.{number_json, percentiles_json, delays_json, packets_json, bytes_json, backlog_json, figures_json, group_json, more_json, groups_json, fairness_json, array_json, arrays_json, end_json, summary_json};

use crate::counts::Counts;
use crate::delays::Delays;
use crate::fairness::Fairness;
use crate::group::{Figures, Group, Groups};
use crate::numbers::{put_millionths, put_number, put_wide};
use std::alloc::{AllocError, Global};

/// Appends a number after its key, or null if there is none.
fn put_optional(into: &mut Vec<u8>, key: &[u8], number: Option<u128>) -> Result<(), AllocError>
    ensures { OnOk result (into.new.items ≡ into.old.items ++ number_json key.now number) }
{
    let Some(number) = number else {
        into.extend_from_slice(key)?;
        return into.extend_from_slice(b"null");
    };
    put_wide(into, key, number)
}

#[tactic(auto, unfolding(crate::specs::Json::percentiles_json))]
fn put_percentiles(into: &mut Vec<u8>, delays: &Delays) -> Result<(), AllocError>
    ensures { OnOk result (into.new.items ≡ into.old.items ++ percentiles_json delays.now) }
{
    put_number(into, b"\"least\":", delays.minimum)?;
    put_number(into, b",\"median\":", delays.median)?;
    put_number(into, b",\"p95\":", delays.p95)?;
    put_number(into, b",\"p99\":", delays.p99)?;
    put_number(into, b",\"greatest\":", delays.maximum)
}

fn put_delays(into: &mut Vec<u8>, counts: &Counts, delays: Option<Delays>) -> Result<(), AllocError>
    ensures { OnOk result (into.new.items ≡ into.old.items ++ delays_json counts.now delays) }
{
    let Some(delays) = delays else {
        return into.extend_from_slice(b",\"delay\":null");
    };
    into.extend_from_slice(b",\"delay\":{")?;
    put_percentiles(into, &delays)?;
    put_wide(into, b",\"mean\":", counts.mean_delay())?;
    into.extend_from_slice(b"}")
}

#[tactic(auto, unfolding(crate::specs::Json::packets_json))]
fn put_packets(into: &mut Vec<u8>, counts: &Counts) -> Result<(), AllocError>
    ensures { OnOk result (into.new.items ≡ into.old.items ++ packets_json counts.now) }
{
    put_number(into, b"\"arrived\":", counts.arrived)?;
    put_number(into, b",\"departed\":", counts.departed)?;
    put_number(into, b",\"dropped\":", counts.dropped)?;
    put_number(into, b",\"queued\":", counts.queued)
}

#[tactic(auto, unfolding(crate::specs::Json::bytes_json))]
fn put_bytes(into: &mut Vec<u8>, counts: &Counts) -> Result<(), AllocError>
    ensures { OnOk result (into.new.items ≡ into.old.items ++ bytes_json counts.now) }
{
    put_number(into, b",\"bytes\":", counts.bytes)?;
    put_optional(into, b",\"throughput\":", counts.throughput())
}

#[tactic(auto, unfolding(crate::specs::Json::backlog_json))]
fn put_backlog(into: &mut Vec<u8>, counts: &Counts) -> Result<(), AllocError>
    ensures { OnOk result (into.new.items ≡ into.old.items ++ backlog_json counts.now) }
{
    put_number(into, b",\"most_queued\":", counts.most_queued)?;
    put_number(into, b",\"most_queued_bytes\":", counts.most_queued_bytes)?;
    into.extend_from_slice(b"}")
}

/// Appends the members of a group's object, to its end.
#[tactic(auto, unfolding(crate::specs::Json::figures_json))]
fn put_figures(into: &mut Vec<u8>, figures: &Figures) -> Result<(), AllocError>
    ensures { OnOk result (into.new.items ≡ into.old.items ++ figures_json figures.now) }
{
    let counts = figures.counts;
    put_packets(into, &counts)?;
    put_bytes(into, &counts)?;
    put_delays(into, &counts, figures.delays)?;
    put_optional(into, b",\"jitter\":", counts.jitter())?;
    put_backlog(into, &counts)
}

#[tactic(auto, unfolding(crate::specs::Json::group_json))]
fn put_group(into: &mut Vec<u8>, group: &Group) -> Result<(), AllocError>
    ensures { OnOk result (into.new.items ≡ into.old.items ++ group_json group.now) }
{
    into.extend_from_slice(b"{\"name\":\"")?;
    into.extend_from_slice(group.label.name.as_str().as_bytes())?;
    into.extend_from_slice(b"\",")?;
    put_figures(into, &group.figures)
}

/// Appends groups, each after a comma.
fn put_more(into: &mut Vec<u8>, groups: &[Group]) -> Result<(), AllocError>
    ensures { OnOk result (into.new.items ≡ into.old.items ++ more_json groups.now) }
{
    for group in groups {
        into.extend_from_slice(b",")?;
        put_group(into, group)?;
    }
    Ok(())
}

fn put_groups(into: &mut Vec<u8>, groups: &[Group]) -> Result<(), AllocError>
    ensures { OnOk result (into.new.items ≡ into.old.items ++ groups_json groups.now) }
{
    match groups {
        [] => Ok(()),
        [first, rest @ ..] => {
            put_group(into, first)?;
            put_more(into, rest)
        }
    }
}

fn put_fairness(into: &mut Vec<u8>, fairness: Fairness) -> Result<(), AllocError>
    ensures { OnOk result (into.new.items ≡ into.old.items ++ fairness_json fairness) }
{
    match fairness {
        Fairness::Index(index) => put_millionths(into, index),
        Fairness::NoShares => into.extend_from_slice(b"null"),
        Fairness::TooLarge => into.extend_from_slice(b"null"),
    }
}

/// Appends groups after the words before them.
#[tactic(auto, unfolding(crate::specs::Json::array_json))]
fn put_array(into: &mut Vec<u8>, words: &[u8], groups: &[Group]) -> Result<(), AllocError>
    ensures { OnOk result (into.new.items ≡ into.old.items ++ array_json words.now groups.now) }
{
    into.extend_from_slice(words)?;
    put_groups(into, groups)
}

/// Appends the leaves and the classes.
fn put_arrays(into: &mut Vec<u8>, groups: &Groups) -> Result<(), AllocError>
    ensures { OnOk result (into.new.items ≡ into.old.items ++ arrays_json groups.now) }
{
    put_array(into, b",\"leaves\":[", &groups.leaves)?;
    put_array(into, b"],\"classes\":[", &groups.classes)?;
    Ok(())
}

/// Appends the fairness, to the end of the object.
#[tactic(auto, unfolding(crate::specs::Json::end_json))]
fn put_end(into: &mut Vec<u8>, fairness: Fairness) -> Result<(), AllocError>
    ensures { OnOk result (into.new.items ≡ into.old.items ++ end_json fairness) }
{
    into.extend_from_slice(b"],\"jain\":")?;
    put_fairness(into, fairness)?;
    into.extend_from_slice(b"}\n")
}

/// Returns the sums of a run as one JSON object and a newline. The error is out of memory.
pub fn put_json(alloc: Global, groups: &Groups) -> Result<Vec<u8>, AllocError>
    ensures { IfOk result (λ text. text.items ≡ summary_json groups.now) }
{
    let mut text = Vec::new(alloc);
    text.extend_from_slice(b"{\"all\":{")?;
    put_figures(&mut text, &groups.all)?;
    put_arrays(&mut text, groups)?;
    put_end(&mut text, groups.fairness)?;
    Ok(text)
}
