//! The meaning of each error code, and how to correct the error.
use report_core::FaultKind;

/// A description of an error, and how to correct it.
#[derive(Clone, Copy, Debug)]
pub struct Cause {
    pub is: &'static str,
    pub help: &'static str,
}

fn made(is: &'static str, help: &'static str) -> Cause {
    Cause { is, help }
}

/// Describes the codes of a policy's text.
fn text_cause(code: u64) -> Cause {
    match code {
        21 => made(
            "expected at most 1,048,576 bytes of policy, found more",
            "shorten comments, or write a smaller policy",
        ),
        22 => made(
            "expected printable ASCII, found another byte",
            "keep statements in printable ASCII, with spaces and tabs; put other letters after #",
        ),
        23 => made(
            "expected a statement, found a line that does not parse",
            "compare the line with its form: a word missing or too many, a number outside its range, a name that is one of the language's words",
        ),
        _ => made(
            "expected a statement of scheduling, found shaping",
            "take the line out: shaping isn't part of the language",
        ),
    }
}

/// Describes the codes of a policy's tree and classes.
fn tree_rule_cause(code: u64) -> Cause {
    match code {
        8 => made(
            "expected each node and leaf but root to be listed as a child exactly once, found one that isn't",
            "list it below one node",
        ),
        9 => made(
            "expected a node or leaf named root, found none",
            "name the top of the tree root",
        ),
        10 => made(
            "expected a tree, found a node among its own descendants",
            "hang one of them below the root",
        ),
        11 => made(
            "expected at most 64 levels below the root, found more",
            "leave out nodes with one child",
        ),
        12 => made(
            "expected each class to be listed by leaves exactly once, found one that isn't",
            "list it at the leaf that is to hold its packets, and only there",
        ),
        13 => made(
            "expected a last class without a condition, found one with",
            "end the classes with one without `when`",
        ),
        14 => made(
            "expected no limit in version 1, found one",
            "write `policy 2` on the first line",
        ),
        _ => text_cause(code),
    }
}

/// Describes the codes of a policy's names and rules.
fn rule_cause(code: u64) -> Cause {
    match code {
        1 => made(
            "expected `policy 1`, `policy 2` or `policy 3` first and once, and the lines of a transaction right after its line in their order, found this line",
            "put `policy 1` first, and move the line to the part for its kind",
        ),
        2 => made(
            "expected a new name, found one that is declared before or is built in",
            "give the second one another name",
        ),
        3 => made(
            "expected a name that is declared, found another",
            "correct the name, or declare it",
        ),
        4 => made(
            "expected no more than the limits allow, found one too many",
            "merge classes, nodes or transactions",
        ),
        5 => made(
            "expected types that agree, found a truth value where a number is needed or the reverse",
            "write if(CONDITION, 1, 0) for the number that is meant",
        ),
        6 => made(
            "expected an expression within 2^100, found one that can pass it",
            "declare smaller ranges, or divide before multiplying",
        ),
        7 => made(
            "expected a divisor that can't be 0, found one that can",
            "write max(1, DIVISOR)",
        ),
        _ => tree_rule_cause(code),
    }
}

/// Describes the codes of targets.
fn target_cause(code: u64) -> Cause {
    match code {
        1 => made(
            "expected a TOML document, found another text",
            "see https://toml.io; often a missing value or a repeated key",
        ),
        2 => made(
            "expected the keys arity and height, or arities alone, with whole numbers in their range, found something else",
            "arity 2 to 64, height 0 to 16, arities a list of at most 16 numbers from 2 to 64",
        ),
        3 => made(
            "expected a tree of at most 65,536 leaves, found more",
            "use fewer levels or lower arities",
        ),
        _ => made(
            "expected at most 65,536 bytes of target, found more",
            "drop comments",
        ),
    }
}

/// Describes the codes of scripts.
fn script_cause(code: u64) -> Cause {
    match code {
        1 => made(
            "expected a step, found a line that does not parse",
            "write `a N`, `d N`, `rest` or `drain`",
        ),
        2 => made(
            "expected `a` and `d` to count at most 4,194,304, found more up to this line",
            "use `rest` and `drain`",
        ),
        3 => made(
            "expected a packet for the arrival of this event, found the end of the capture",
            "write `rest` for the arrivals that are left",
        ),
        _ => made(
            "expected at most 1,048,576 bytes of script, found more",
            "drop comments",
        ),
    }
}

/// Describes the codes of classic captures.
fn record_cause(code: u64) -> Cause {
    match code {
        1 => made(
            "expected a capture's header of 24 bytes, found",
            "see that the capture is whole",
        ),
        2 => made(
            "expected a magic number of pcap or pcapng, found",
            "give a pcap or pcapng file",
        ),
        4 => made(
            "expected major version 2, found another",
            "write the capture with a newer tool",
        ),
        5 => made(
            "expected the sixteen bytes before a packet, found the end of the file",
            "see that the capture is whole: it ends inside this packet",
        ),
        6 => made(
            "expected the captured bytes of a packet, found the end of the file",
            "see that the capture is whole: it ends inside this packet",
        ),
        7 => made(
            "expected a packet that captures at most 262,144 bytes, found a greater number",
            "see that the capture isn't damaged before this packet",
        ),
        _ => made(
            "expected the end of the file after the last packet that there may be, found more",
            "split the capture",
        ),
    }
}

/// Describes the codes of captures.
fn capture_cause(code: u64) -> Cause {
    match code {
        11 => made(
            "expected a whole block, found the end of the file",
            "see that the capture is whole: it ends inside this block",
        ),
        12 => made(
            "expected a total length that a block of its type has, found another",
            "see that the capture isn't damaged before this block",
        ),
        13 => made(
            "expected the order bytes 0x1A2B3C4D in a section header, found others",
            "see that the capture isn't damaged",
        ),
        14 => made(
            "expected major version 1 in a section header, found another",
            "write the capture with a newer tool",
        ),
        15 => made(
            "expected an interface that its section described, found another",
            "see that the capture isn't damaged before this block",
        ),
        16 => made(
            "expected a packet that captures at most 262,144 bytes and fits its block, found a greater number",
            "see that the capture isn't damaged before this block",
        ),
        17 => made(
            "expected at most 1,024 interfaces in a section, found one more",
            "split the capture",
        ),
        18 => made(
            "expected the end of the file after the last block that there may be, found more",
            "split the capture",
        ),
        19 => made(
            "expected the block's total length at its end, found another",
            "see that the capture isn't damaged in this block",
        ),
        _ => record_cause(code),
    }
}

/// Describes the codes of topologies.
fn tree_cause(code: u64) -> Cause {
    match code {
        1 => made(
            "expected at most 65,536 bytes of topology, found more",
            "drop comments",
        ),
        2 => made(
            "expected one tree on one line, found something else",
            "write `leaf`, or one or more trees in parentheses",
        ),
        _ => made(
            "expected at most 1,024 nodes and 64 levels, found more",
            "draw only what the map uses",
        ),
    }
}

/// Describes the codes of maps.
fn map_cause(code: u64) -> Cause {
    match code {
        1 => made(
            "expected at most 1,048,576 bytes of map, found more",
            "drop comments",
        ),
        2 => made(
            "expected `map NAME ADDRESS`, found a line that does not parse",
            "write numbers up to 4,294,967,295 joined by dots, or -",
        ),
        3 => made(
            "expected the name of a node of the policy, found another",
            "see the names that `plan` prints",
        ),
        4 => made(
            "expected each node once, found one that an earlier line names",
            "keep one of the two",
        ),
        5 => made(
            "expected a line for each node, found none for the node of this number in the order of `plan`, counted from 0",
            "add its line",
        ),
        6 => made(
            "expected an address in the topology, found another",
            "count the children from 0",
        ),
        7 => made(
            "expected the root at the root, found it elsewhere",
            "write -",
        ),
        8 => made(
            "expected a leaf where the policy has one, found none in the topology",
            "go on down to a leaf",
        ),
        _ => made(
            "expected the map to keep which node is below which, found two nodes where it doesn't",
            "give one of the two nodes of the line `pair` another address",
        ),
    }
}

/// Describes the error with this kind and code, and how to correct it.
pub fn cause_of(kind: FaultKind, code: u64) -> Cause {
    match kind {
        FaultKind::Words => made(
            "expected the arguments of a command, found others",
            "see --help",
        ),
        FaultKind::Policy => rule_cause(code),
        FaultKind::Target => target_cause(code),
        FaultKind::Size => made(
            "expected a target with room for the policy's tree, found one that is too small",
            "`plan` prints the minimum height that has room",
        ),
        FaultKind::Script => script_cause(code),
        FaultKind::Capture => capture_cause(code),
        FaultKind::Tree => tree_cause(code),
        FaultKind::Map => map_cause(code),
    }
}
