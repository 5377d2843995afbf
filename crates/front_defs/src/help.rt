//! The help texts.
use crate::command::Command;

/// The help text of all commands.
const HELP: &str = "\
zovatsemo COMMAND ARGUMENT.. [OPTION]..

check POLICY                                    report the first error of a policy, or print its canonical text
plan POLICY TARGET                              print where each node of the policy goes in the target
replay POLICY TARGET CAPTURE SCRIPT [--tap NAME]..
                                                run a capture through the target's queues, as the script says
link POLICY [TARGET] CAPTURE RATE               run it at the pace of a link of that rate
forward POLICY [TARGET] CAPTURE RATE            write the departures of link as a capture for other tools
direct POLICY CAPTURE SCRIPT                    print what replay prints, computed with the policy's own tree
via POLICY TOPOLOGY MAP TARGET CAPTURE SCRIPT   print what replay prints, with a map of your own
soak SEED COUNT                                 run a generated load and print its sums
calm POLICY TARGET                              print whether rank stores always keep the policy's order
size POLICY TARGET CAPTURE (SCRIPT | --rate RATE)
                                                print how deep the target's queues and how wide its ranks must be

RATE is 10Mbit, 10gbit, 1.25MB or 125000 (bytes a second). The file - is standard input.

    --block               run on rank stores, and count the spills (not via and forward)
-h, --help [COMMAND]      this text, or that of a command with an example
    --entry-bits B        with --rank-bits, for size: bits of an entry besides its rank, 1 to 4096
    --json                write each event of direct, replay or link as a JSON line, or size as an object
    --limit-entries N     for size: print the first event at which a node has more than N entries, with status 1
    --limit-rank-bits B   for size: print the first event with a rank of more than B bits, 0 to 64, with status 1
-o, --output FILE         write to a file that doesn't exist yet, or with - to standard output
    --overhead BYTES      bytes that a link adds to each packet, 0 to 65535; Ethernet has 24
    --rank-bits B         with --entry-bits, for size: print the memory for ranks of B bits, 1 to 4096
    --rate RATE           for size: a link of that rate instead of a script
-t, --tap NAME            one more line at the end of replay: bytes, order, first or drops
    --plain               write the line `fault KIND CODE PLACE` too, and no messages
    --summary[=json]      write sums of direct, replay or link instead of events
    --upgrade             for check: print the policy as one of version 3
-q, --quiet               write no messages
-V, --version             the version
";

/// The help text of `check`.
const CHECK: &str = "\
zovatsemo check POLICY [--upgrade]

Reports the first error of a policy, with its line, or prints the policy's canonical text. With --upgrade it prints a policy
of version 1 or 2 as one of version 3.

    zovatsemo check examples/office/policy
";

/// The help text of `plan`.
const PLAN: &str = "\
zovatsemo plan POLICY TARGET

Prints where each node of the policy goes in the target. If the target has no room for the policy's tree, it prints how
high a target would have to be.

    zovatsemo plan examples/office/policy examples/office/target
";

/// The help text of `replay`.
const REPLAY: &str = "\
zovatsemo replay POLICY TARGET CAPTURE SCRIPT [--tap NAME].. [--json | --summary[=json]]

Runs the packets of a capture through the target's queues. The script says when packets arrive and depart. Prints a line
for each event, with the packet and its rank in each queue of the policy. A tap prints one more line at the end; NAME is
bytes, order, first or drops. With --json or --summary there are no taps.

    zovatsemo replay examples/office/policy examples/office/target examples/office/capture examples/office/script
";

/// The help text of `link`.
const LINK: &str = "\
zovatsemo link POLICY [TARGET] CAPTURE RATE [--overhead BYTES] [--json | --summary[=json]]

Runs the packets of a capture through the target's queues, at their timestamps, or without a target through the policy's
own tree. A link of RATE takes them out. Prints what `replay` prints, and the time in nanoseconds at which each packet
starts on the link. With --summary it prints delays, throughput and backlog instead of events.

    zovatsemo link examples/office/policy examples/office/capture 1Mbit --overhead 24 --summary
";

/// The help text of `forward`.
const FORWARD: &str = "\
zovatsemo forward POLICY [TARGET] CAPTURE RATE [--overhead BYTES]

Writes the departures of `link` as a capture (pcap, in nanoseconds), which Wireshark and other tools can read.

    zovatsemo forward examples/office/policy examples/office/capture 1Mbit -o out.pcap
";

/// The help text of `direct`.
const DIRECT: &str = "\
zovatsemo direct POLICY CAPTURE SCRIPT [--json | --summary[=json]]

Prints what `replay` prints, computed with the policy's own tree of queues. It needs no target.

    zovatsemo direct examples/office/policy examples/office/capture examples/office/script --json
";

/// The help text of `via`.
const VIA: &str = "\
zovatsemo via POLICY TOPOLOGY MAP TARGET CAPTURE SCRIPT

Prints what `replay` prints, with a map of your own from the policy's tree into a topology. If the map would change the
schedule, it names two nodes that break it.

    zovatsemo via examples/office/policy examples/office/topology examples/office/map examples/office/target examples/office/capture examples/office/script
";

/// The help text of `soak`.
const SOAK: &str = "\
zovatsemo soak SEED COUNT

Draws COUNT events of a generated load, and runs them through the queues of a built-in target. Prints one line, which is
the same on every machine for the same SEED and COUNT.

    zovatsemo soak 1 1000
";

/// The help text of `calm`.
const CALM: &str = "\
zovatsemo calm POLICY TARGET

Prints `calm yes` if no push can spill on rank stores, for any packets, and otherwise `calm no`. A push spills if an entry
of higher rank waits in the same store.

    zovatsemo calm examples/uplink/strict examples/uplink/target
";

/// The help text of `size`.
const SIZE: &str = "\
zovatsemo size POLICY TARGET CAPTURE SCRIPT [OPTION]..
zovatsemo size POLICY TARGET CAPTURE --rate RATE [--overhead BYTES] [OPTION]..

Runs the packets of a capture through the target's queues, as the script says or on a link of RATE. Prints the most
entries of each node, its greatest rank, and the greatest difference between two ranks that are queued there at once.

With --rank-bits and --entry-bits it prints the memory of all nodes too. With --limit-entries or --limit-rank-bits it
prints the first event at which a node passes the limit, and the exit status is 1. With --block it prints the use of the
rank stores: heads, entries in a store, and spills. With --json it prints one JSON object.

    zovatsemo size examples/office/policy examples/office/target examples/office/capture --rate 1Mbit
";

/// Returns the help text of all commands.
pub fn help_of_all() -> &'static str {
    HELP
}

/// Returns the help text of a command.
pub fn help_of(command: Command) -> &'static str {
    match command {
        Command::Check => CHECK,
        Command::Plan => PLAN,
        Command::Replay => REPLAY,
        Command::Link => LINK,
        Command::Forward => FORWARD,
        Command::Direct => DIRECT,
        Command::Via => VIA,
        Command::Soak => SOAK,
        Command::Calm => CALM,
        Command::Size => SIZE,
    }
}
