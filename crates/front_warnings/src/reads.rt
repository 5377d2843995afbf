//! The attributes that transactions read, and whether they keep variables for each flow.
use policy_text_defs::{Statement, Term};
use std::alloc::{AllocError, AllocFailed, Global};
use std::collections::BTreeMap;

/// Which attributes of a child or class a transaction reads, and whether it declares variables for
/// each child or flow.
#[derive(Clone, Copy, PartialEq, Eq, Debug)]
pub struct Reads {
    pub prio: bool,
    pub weight: bool,
    pub slack: bool,
    pub flows: bool,
}

/// Out of memory.
#[derive(Clone, Copy, PartialEq, Eq, Debug)]
pub struct NoMemory;

impl From<AllocError> for NoMemory {
    fn from(_: AllocError) -> NoMemory {
        NoMemory
    }
}

impl<T: Drop> From<AllocFailed<T>> for NoMemory {
    fn from(_: AllocFailed<T>) -> NoMemory {
        NoMemory
    }
}

/// What a transaction reads that has no lines.
pub const NOTHING: Reads = Reads {
    prio: false,
    weight: false,
    slack: false,
    flows: false,
};

const FLOWS: Reads = Reads {
    flows: true,
    ..NOTHING
};

impl Reads {
    /// Returns what one of two reads.
    fn or(self, other: Reads) -> Reads {
        Reads {
            prio: self.prio || other.prio,
            weight: self.weight || other.weight,
            slack: self.slack || other.slack,
            flows: self.flows || other.flows,
        }
    }
}

/// Returns the attribute that a word of an expression reads.
fn reads_of_word(word: &str) -> Reads {
    Reads {
        prio: word == "prio",
        weight: word == "weight",
        slack: word == "slack",
        flows: false,
    }
}

/// Returns the attributes that an expression reads.
fn reads_of_term(term: &Term) -> Reads {
    match term {
        Term::Number(_) => NOTHING,
        Term::Word(word) => reads_of_word(word.as_str()),
        Term::Two(_, left, right) => reads_of_term(left).or(reads_of_term(right)),
        Term::Not(inner) => reads_of_term(inner),
        Term::If(condition, value, other) => reads_of_term(condition)
            .or(reads_of_term(value))
            .or(reads_of_term(other)),
    }
}

/// Returns what a built-in transaction reads.
fn reads_built_in(name: &str) -> Reads {
    Reads {
        prio: name == "strict",
        weight: name == "stfq",
        slack: name == "lstf",
        flows: name == "stfq" || name == "rr",
    }
}

/// What each transaction of a policy reads, by its name.
#[derive(Drop)]
pub struct Readers<'a> {
    places: BTreeMap<&'a str, usize>,
    reads: Vec<Reads>,
}

impl<'a> Readers<'a> {
    /// Returns what the transactions of a policy read. Fails if out of memory.
    pub fn of(alloc: Global, entries: &'a [(u32, Statement)]) -> Result<Readers<'a>, NoMemory> {
        let mut readers = Readers {
            places: BTreeMap::new(alloc),
            reads: Vec::new(alloc),
        };
        for entry in entries {
            match &entry.1 {
                Statement::Transaction(name) => readers.begin(name.as_str())?,
                Statement::Each(_, _) => readers.add(FLOWS),
                Statement::Push(_, term) | Statement::Pop(_, term) => {
                    readers.add(reads_of_term(term))
                }
                _ => (),
            }
        }
        Ok(readers)
    }

    /// Begins a transaction.
    fn begin(&mut self, name: &'a str) -> Result<(), NoMemory> {
        self.places.insert(name, self.reads.len())?;
        self.reads.push(NOTHING)?;
        Ok(())
    }

    /// Adds what a line of the last transaction reads.
    fn add(&mut self, reads: Reads) {
        if let Some(last) = self.reads.last_mut() {
            *last = last.or(reads);
        }
    }

    /// Returns what the transaction of this name reads.
    pub fn reads(&self, name: &str) -> Reads {
        match self.places.get(name) {
            Some(place) if *place < self.reads.len() => self.reads[*place],
            _ => reads_built_in(name),
        }
    }
}
