//! Checks the limits on transactions, classes, nodes, variables and assignments.
ghost use Rattle.std.specs.Prelude.{◌≡◌, ◌+◌, [], List, true, not, ◌==◌};
ghost use Rattle.policy_text_defs.specs.Sense.{Entry, sense_of};
ghost use Rattle.policy_rules.specs.Clauses.{IsFirstLine, IsOneTooMany, is_one_too_many};
ghost use Rattle.policy_rules.specs.Entries.{entries_of, AreRising};
ghost use Rattle.policy_rules.specs.Kept.{IsRoom, IsRoomAfter};

use policy_text_defs::Statement;

/// The most classes of a policy.
const MOST_CLASSES: u32 = 256;
/// The most nodes and leaves together.
const MOST_NODES: u32 = 1024;
/// The most transactions that are written.
const MOST_TRANSACTIONS: u32 = 64;
/// The most variables of a transaction.
const MOST_VARIABLES: u32 = 16;
/// The most assignments of a transaction.
const MOST_ASSIGNMENTS: u32 = 64;

/// How many more statements of each kind are allowed; the last two counts are for the open
/// transaction.
#[derive(Drop)]
struct Room {
    classes: u32,
    nodes: u32,
    transactions: u32,
    variables: u32,
    assignments: u32,
}

/// Takes one of those that are left. Returns false if none is left.
fn take_one(left: &mut u32) -> bool
    ensures none { not result ≡ (left.old == 0) }
    ensures one { result ≡ true → left.new + 1 ≡ left.old }
{
    if *left == 0 {
        return false;
    }
    *left -= 1;
    true
}

impl Room {
    fn new() -> Room
        ensures { IsRoom [] result }
    {
        Room {
            classes: MOST_CLASSES,
            nodes: MOST_NODES,
            transactions: MOST_TRANSACTIONS,
            variables: MOST_VARIABLES,
            assignments: MOST_ASSIGNMENTS,
        }
    }

    /// Counts a statement against its limit. Returns false if the limit is already reached.
    fn admit(&mut self, statement: &Statement) -> bool
        ensures beyond { (earlier : List Entry) → IsRoom earlier self.old →
            not result ≡ is_one_too_many earlier (sense_of statement.now) }
        ensures room { result ≡ true → IsRoomAfter self.old (sense_of statement.now) self.new }
    {
        match statement {
            Statement::Version(_) => true,
            Statement::Transaction(_) => {
                self.variables = MOST_VARIABLES;
                self.assignments = MOST_ASSIGNMENTS;
                take_one(&mut self.transactions)
            }
            Statement::Keep(..) | Statement::Each(..) => take_one(&mut self.variables),
            Statement::Push(..) | Statement::Pop(..) => take_one(&mut self.assignments),
            Statement::Class(..) | Statement::Filter(..) => take_one(&mut self.classes),
            Statement::Leaf(..) | Statement::Node(..) => take_one(&mut self.nodes),
        }
    }
}

/// Returns the line of the first statement that is beyond a limit.
pub fn first_beyond(lines: &[(u32, Statement)]) -> Option<u32>
    requires rising { AreRising (entries_of lines.now) }
    ensures { IsFirstLine (IsOneTooMany (entries_of lines.now)) (entries_of lines.now) result }
{
    let mut room = Room::new();
    for (line, statement) in lines {
        if !room.admit(statement) {
            return Some(*line);
        }
    }
    None
}
