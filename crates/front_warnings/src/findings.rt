//! Warnings about a capture.
use crate::counts::Counts;
use crate::links::{link_name, links_read};
use crate::notes::Notes;
use crate::reach::{Declared, classes_of, is_reached};
use policy_text::Lines;
use policy_text_defs::Statement;
use std::alloc::{AllocError, Global};

/// The most names of classes that a warning lists.
const MOST_NAMES: usize = 20;

/// Returns whether a leaf with this transaction treats all flows alike.
fn is_flowless(using: &str) -> bool {
    using == "fifo" || using == "strict" || using == "shortest" || using == "lstf"
}

/// Returns whether a policy can depend on header fields: a class has a condition, or a leaf or node
/// can distinguish flows.
fn needs_fields(entries: &[(u32, Statement)]) -> bool {
    entries.iter().any(|entry| match &entry.1 {
        Statement::Class(_, _, conditions) => !conditions.is_empty(),
        Statement::Filter(_, _, alternatives) => !alternatives.is_empty(),
        Statement::Leaf(_, using, _, queueing, _) => {
            !is_flowless(using.as_str()) || queueing.per_flow.is_some()
        }
        Statement::Node(_, _, _, queueing, _) => queueing.per_flow.is_some(),
        _ => false,
    })
}

/// Adds a warning if packets have no header fields.
fn warn_of_links(
    alloc: Global,
    notes: &mut Notes<'_>,
    counts: &Counts<'_>,
) -> Result<(), AllocError> {
    let (count, first) = (counts.unread.count, counts.unread.first);
    if count == 0 {
        return Ok(());
    }
    let (all, link, name) = (
        counts.packets,
        counts.unread_link,
        link_name(counts.unread_link),
    );
    let read = links_read(counts.version, link);
    let what = format!(in alloc;
        "{count} of {all} packets have a link type without header fields, the first is packet {first} with {link} ({name}); {read}"
    )?;
    notes.add(&what)
}

/// Adds a warning if packets were passed over.
fn warn_of_blocks(
    alloc: Global,
    notes: &mut Notes<'_>,
    counts: &Counts<'_>,
) -> Result<(), AllocError> {
    let count = counts.obsolete;
    if count == 0 {
        return Ok(());
    }
    let what = format!(in alloc;
        "{count} obsolete packet blocks (type 2) were passed over with their packets; editcap -F pcapng FILE OUT rewrites them"
    )?;
    notes.add(&what)
}

/// Adds warnings about timestamps.
fn warn_of_times(
    alloc: Global,
    notes: &mut Notes<'_>,
    counts: &Counts<'_>,
) -> Result<(), AllocError> {
    let (count, first) = (counts.early.count, counts.early.first);
    if 0 < count {
        let what = format!(in alloc;
            "{count} packets have an earlier timestamp than the packet before, the first is packet {first}; reordercap FILE OUT sorts them"
        )?;
        notes.add(&what)?;
    }
    let (count, first) = (counts.fractions.count, counts.fractions.first);
    if 0 < count {
        let what = format!(in alloc;
            "{count} packets have a fraction of a second that is a second or more, the first is packet {first}"
        )?;
        notes.add(&what)?;
    }
    Ok(())
}

/// Returns whether a class that packets can reach got none. The last class, which takes all other
/// packets, isn't looked at.
fn is_unused(classes: &[Declared<'_>], counts: &[u64], place: usize) -> bool {
    let is_last = classes.len() <= place.saturating_add(1);
    match counts.get(place) {
        Some(0) => !is_last && is_reached(classes, place),
        _ => false,
    }
}

/// Adds a warning if classes have no packet.
fn warn_of_classes(
    alloc: Global,
    notes: &mut Notes<'_>,
    counts: &Counts<'_>,
    classes: &[Declared<'_>],
) -> Result<(), AllocError> {
    let mut names = String::new(alloc);
    let mut count: usize = 0;
    for place in 0..classes.len() {
        if is_unused(classes, &counts.classes, place) {
            count = count.saturating_add(1);
            if count <= MOST_NAMES {
                names.push_str(" ")?;
                names.push_str(classes[place].name)?;
            }
        }
    }
    if count == 0 || counts.packets == 0 {
        return Ok(());
    }
    let more = if count <= MOST_NAMES { "" } else { " .." };
    let what = format!(in alloc; "no packet of the capture is in these classes:{names}{more}")?;
    notes.add(&what)
}

/// Returns the warnings about the capture of this name with these counts, under the policy of these
/// statements. Fails if out of memory.
pub fn capture_warnings(
    alloc: Global,
    name: &str,
    counts: &Counts<'_>,
    lines: &Lines,
) -> Result<String, AllocError> {
    let mut notes = Notes::new(alloc, name);
    if needs_fields(lines.entries()) {
        warn_of_links(alloc, &mut notes, counts)?;
    }
    warn_of_blocks(alloc, &mut notes, counts)?;
    warn_of_times(alloc, &mut notes, counts)?;
    let classes = classes_of(alloc, lines.entries())?;
    warn_of_classes(alloc, &mut notes, counts, &classes)?;
    notes.finish()
}
