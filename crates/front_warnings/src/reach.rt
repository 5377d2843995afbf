//! Classes that no packet can reach.
use crate::conditions::Ranges;
use crate::notes::Notes;
use list_core::List;
use policy_text_defs::{Condition, Statement, Test};
use std::alloc::{AllocError, Global};

/// A class: the line that declares it, its name and the ranges of its alternatives.
#[derive(Drop)]
pub struct Declared<'a> {
    pub line: u32,
    pub name: &'a str,
    pub alternatives: Vec<Ranges>,
}

/// The most classes of a policy.
const MOST_CLASSES: usize = 256;

/// The most alternatives of a class that are compared with those of other classes.
const MOST_ALTERNATIVES: usize = 16;

/// Returns the ranges of a class with conditions, as one alternative. Fails if out of memory.
fn one_alternative(alloc: Global, conditions: &[Condition]) -> Result<Vec<Ranges>, AllocError> {
    let mut alternatives = Vec::new(alloc);
    alternatives.push(Ranges::of(conditions))?;
    Ok(alternatives)
}

/// Returns the ranges of alternatives, or ranges that tell nothing if there are too many to compare
/// soon. Fails if out of memory.
fn alternatives_of(alloc: Global, given: &[List<Test>]) -> Result<Vec<Ranges>, AllocError> {
    let mut alternatives = Vec::new(alloc);
    if given.len() > MOST_ALTERNATIVES {
        alternatives.push(Ranges::unknown())?;
        return Ok(alternatives);
    }
    for tests in given {
        alternatives.push(Ranges::of_tests(tests.as_slice()))?;
    }
    if given.is_empty() {
        alternatives.push(Ranges::all())?;
    }
    Ok(alternatives)
}

/// Returns the class that a statement declares, if it declares one. Fails if out of memory.
fn class_of<'a>(
    alloc: Global,
    entry: &'a (u32, Statement),
) -> Result<Option<Declared<'a>>, AllocError> {
    let line = entry.0;
    match &entry.1 {
        Statement::Class(name, _, conditions) => Ok(Some(Declared {
            line,
            name: name.as_str(),
            alternatives: one_alternative(alloc, conditions.as_slice())?,
        })),
        Statement::Filter(name, _, given) => Ok(Some(Declared {
            line,
            name: name.as_str(),
            alternatives: alternatives_of(alloc, given.as_slice())?,
        })),
        _ => Ok(None),
    }
}

/// Returns the classes of a policy in their order, at most `MOST_CLASSES`. Fails if out of memory.
pub fn classes_of<'a>(
    alloc: Global,
    entries: &'a [(u32, Statement)],
) -> Result<Vec<Declared<'a>>, AllocError> {
    let mut classes = Vec::new(alloc);
    for entry in entries {
        if classes.len() < MOST_CLASSES {
            if let Some(class) = class_of(alloc, entry)? {
                classes.push(class)?;
            }
        }
    }
    Ok(classes)
}

/// Returns whether no packet is in a class.
fn is_empty(class: &Declared<'_>) -> bool {
    class.alternatives.iter().all(|ranges| ranges.is_empty())
}

/// Returns whether an earlier class takes all packets in some ranges.
fn takes_ranges(other: &Declared<'_>, ranges: &Ranges) -> bool {
    other
        .alternatives
        .iter()
        .any(|earlier| ranges.are_within(earlier))
}

/// Returns whether an earlier class takes all packets of a class.
fn takes(other: &Declared<'_>, class: &Declared<'_>) -> bool {
    class
        .alternatives
        .iter()
        .all(|ranges| takes_ranges(other, ranges))
}

/// Returns the first of some earlier classes that takes all packets of a class.
fn taker<'a, 'b>(class: &Declared<'a>, earlier: &'b [Declared<'a>]) -> Option<&'b Declared<'a>> {
    earlier.iter().find(|other| takes(other, class))
}

/// Returns whether a packet can be in the class with this index.
pub fn is_reached(classes: &[Declared<'_>], place: usize) -> bool {
    let (earlier, rest) = classes.split_at(place.min(classes.len()));
    match rest {
        [class, ..] => !is_empty(class) && taker(class, earlier).is_none(),
        [] => false,
    }
}

/// Adds a warning if no packet can be in a class. Fails if out of memory.
fn warn_of(
    alloc: Global,
    notes: &mut Notes<'_>,
    class: &Declared<'_>,
    earlier: &[Declared<'_>],
) -> Result<(), AllocError> {
    let name = class.name;
    if is_empty(class) {
        let what = format!(in alloc;
            "no packet can be in class {name}: its conditions exclude each other"
        )?;
        return notes.add_at(class.line, &what);
    }
    let Some(other) = taker(class, earlier) else {
        return Ok(());
    };
    let (taker, line) = (other.name, other.line);
    let what = format!(in alloc;
        "no packet can be in class {name}: class {taker} on line {line} takes them all"
    )?;
    notes.add_at(class.line, &what)
}

/// Adds a warning for each class that no packet can be in. Fails if out of memory.
pub fn warn_of_reach(
    alloc: Global,
    notes: &mut Notes<'_>,
    classes: &[Declared<'_>],
) -> Result<(), AllocError> {
    for place in 0..classes.len() {
        let (earlier, rest) = classes.split_at(place);
        if let [class, ..] = rest {
            warn_of(alloc, notes, class, earlier)?;
        }
    }
    Ok(())
}
