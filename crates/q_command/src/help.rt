//! What `--help` tells of the commands and of their words.

/// What the help of a command tells.
#[derive(Clone, Copy)]
pub(crate) struct About {
    /// What it does, on a line.
    pub about: &'static str,
    /// What else is to be known of it.
    pub after_help: &'static str,
}

/// The program.
pub(crate) const BQVIEW: About = About {
    about: "Programs of RFC 9669 over store-collect views",
    after_help: "A file named `-` is the standard input. `bqview COMMAND --help` tells of a command.\nExit status: 0; 1 after a refusal, or where a file or the output fails; 2 for a wrong command line.\nExample: bqview sim examples/count.sim\nFormats: docs/FORMATS.md, refusals: docs/REFUSALS.md",
};

/// `asm`.
pub(crate) const ASM: About = About {
    about: "Prints each unit of a program as 16 hexadecimal digits, one a line",
    after_help: "All is printed at the end. What explains a refusal goes to the standard error.\nExit status: 0; 1 after a refusal, or where the output fails; 2 for a wrong command line.\nExample: bqview asm examples/count.bpf\nFormats: docs/FORMATS.md, \"Assembler text\"",
};

/// `dis`.
pub(crate) const DIS: About = About {
    about: "Prints the assembler text of a program's bytes, one instruction a line",
    after_help: "All is printed at the end. What explains a refusal goes to the standard error.\nExit status: 0; 1 after a refusal, or where the output fails; 2 for a wrong command line.\nExample: bqview dis examples/c/any.bin\nFormats: docs/FORMATS.md, \"Assembler text\"",
};

/// `check`.
pub(crate) const CHECK: About = About {
    about: "Proves that a program never faults, and prints its most steps",
    after_help: "All is printed at the end. What explains a refusal goes to the standard error.\nExit status: 0; 1 after a refusal, or where OUT or the output fails; 2 for a wrong command line.\nExample: bqview check --states examples/count.bpf\nFormats: docs/FORMATS.md, \"Assembler text\" and \"Notes\"",
};

/// `run`.
pub(crate) const RUN: About = About {
    about: "Runs a program over records, and prints the answer and the steps",
    after_help: "All is printed at the end. What explains a refusal goes to the standard error.\nExit status: 0; 1 after a refusal, or where the output fails; 2 for a wrong command line.\nExample: bqview run --least 64 examples/sum.bpf 0 examples/three.records\nFormats: docs/FORMATS.md, \"Assembler text\" and \"Lists of records\"",
};

/// `sim`.
pub(crate) const SIM: About = About {
    about: "Runs a script over a cluster in memory, and prints what events tell",
    after_help: "All is printed at the end. What explains refused lines goes to the standard error.\nExit status: 0; 1 after a refusal of the script, where a journal or the output fails, or as --strict says; 2 for a wrong command line.\nExample: bqview sim examples/count.sim\nFormats: docs/FORMATS.md, \"Scripts\"",
};

/// `cluster`.
pub(crate) const CLUSTER: About = About {
    about: "Runs a script over nodes with sockets, and prints what its lines tell",
    after_help: "All is printed at the end. What explains refusals goes to the standard error.\nExit status: 0; 1 where a refusal ends the run or the output fails, or as --strict says; 2 for a wrong command line.\nExample: bqview cluster examples/three.cluster\nFormats: docs/FORMATS.md, \"Scripts of nodes with sockets\"",
};

/// `audit`.
pub(crate) const AUDIT: About = About {
    about: "Replays a node's journal, and prints the answers that it recorded",
    after_help: "All is printed at the end. What explains a refusal goes to the standard error.\nExit status: 0; 1 after a refusal, or where the output fails; 2 for a wrong command line.\nExample: bqview audit node.journal\nFormats: docs/FORMATS.md, \"Journals\"",
};

/// `gather`.
pub(crate) const GATHER: About = About {
    about: "Gathers the journals of all nodes of a run, and prints its answers with their views",
    after_help: "Prints a line for each journal: its node, its events, and the bytes of a last event that is not whole; then each recorded answer with the view that it saw, and `journals ok`: the journals fit together as those of one run, and each answer is its program's meaning over that view. It says so from the bytes of the journals alone.\nAll is printed at the end. What explains a refusal goes to the standard error.\nExit status: 0; 1 after a refusal, or where the output fails; 2 for a wrong command line.\nExample: bqview gather one.journal two.journal three.journal\nFormats: docs/FORMATS.md, \"Journals that are gathered\"",
};

/// `node`.
pub(crate) const NODE: About = About {
    about: "Runs a node of a cluster as a process of its own",
    after_help: "There is no authentication and no encryption. An address that is not loopback is open to all who reach it. A Unix socket's file mode decides who may connect.\nThe console takes one command a line: `status` prints how the node is, `leave` leaves the cluster for good, and `end` ends the node. The end of the standard input closes the console; the node goes on.\nA node that ended or was killed goes on when it is started again with the same words. Keep J.boot beside the journal J. After a new start of the machine the node goes on only if it ran with --sync, or was ended. Never resume a copy or a backup of a journal.\nWhat explains a refusal goes to the standard error.\nExit status: 0; 1 after a refusal, or where the journal or the output fails; 2 for a wrong command line.\nExample: bqview node examples/apart/three.nodes 1 --clients 127.0.0.1:8001 --journal one.journal\nFormats: docs/FORMATS.md, \"Clusters of nodes apart\"",
};

/// `client`.
pub(crate) const CLIENT: About = About {
    about: "Runs a client's script over a connection with a node, and prints what its lines tell",
    after_help: "What a line tells is printed once its reply came. What explains refused lines goes to the standard error. There is no authentication and no encryption.\nExit status: 0; 1 after a refusal of the script, where the connection or the output fails, or as --strict says; 2 for a wrong command line.\nExample: bqview client 127.0.0.1:8001 examples/apart/count.client\nFormats: docs/FORMATS.md, \"Scripts of clients\"",
};

/// FILE, where it is to hold assembler text.
pub(crate) const ASSEMBLER: &str =
    "A file of assembler text, one instruction a line; `-` is the standard input";

/// FILE, where it is to hold bytes.
pub(crate) const BYTES: &str =
    "A file of a program's bytes, eight a unit; `-` is the standard input";

/// FILE, where it may hold either.
pub(crate) const PROGRAM: &str =
    "A file of assembler text, or with --bytes of the program's bytes; `-` is the standard input";

/// `--bytes`.
pub(crate) const AS_BYTES: &str =
    "FILE holds the program's bytes, as `llvm-objcopy -O binary --only-section=.text` leaves them";

/// `--least`.
pub(crate) const LEAST: &str = "The fewest bytes of a record, from 16";

/// `--most`.
pub(crate) const MOST: &str = "The most bytes of a record, to 128";

/// `--states`.
pub(crate) const STATES: &str = "Prints for each unit what is known of the registers there";

/// `--notes`.
pub(crate) const NOTES: &str = "Writes the program's notes to this file, for a client to send";

/// START.
pub(crate) const START: &str = "The accumulator to begin with, a number below 2^64 in decimal";

/// RECORDS.
pub(crate) const RECORDS: &str =
    "A file of lines `ID SEQ VALUE`, one for each record, by rising ids; `-` is the standard input";

/// SCRIPT of `sim`.
pub(crate) const EVENTS: &str =
    "A file of events, one a line, of which the first founds the cluster; `-` is the standard input";

/// SCRIPT of `cluster`.
pub(crate) const CALLS: &str =
    "A file of `nodes`, programs, stores and queries, one a line; `-` is the standard input";

/// SCRIPT of `client`.
pub(crate) const REQUESTS: &str =
    "A file of programs, stores and queries, one a line; `-` is the standard input";

/// `--strict` of `sim`.
pub(crate) const REFUSED: &str = "Ends with status 1 where a line was refused";

/// `--strict` of `cluster` and `client`.
pub(crate) const UNANSWERED: &str = "Ends with status 1 where a line was refused or unanswered";

/// JOURNAL of `audit`.
pub(crate) const AUDITED: &str =
    "A file that the line `journal NODE FILE` of a script wrote; `-` is the standard input";

/// JOURNAL.. of `gather`.
pub(crate) const GATHERED: &str =
    "Files of journals, one for each node that ever was in the cluster";

/// `--pairs`.
pub(crate) const PAIRS: &str =
    "Prints for each ended store and each collect that began later the least node where they meet";

/// FILE of `node`.
pub(crate) const NODES: &str = "The file of the cluster, one for all machines";

/// ID.
pub(crate) const ID: &str = "The node's id, a number below 2^64 in decimal";

/// `--clients`.
pub(crate) const CLIENTS: &str =
    "Where clients connect: an address, as 10.88.0.1:8000, or the path of a Unix socket, which has a slash";

/// `--journal`.
pub(crate) const JOURNAL: &str =
    "The file of the node's journal. If it is there, the node goes on from it";

/// `--console`.
pub(crate) const CONSOLE: &str =
    "A Unix socket, of mode 600, that takes the console's lines in place of the standard input";

/// `--resume`.
pub(crate) const RESUME: &str =
    "Refuses to start if there is no journal, so that a missing disk begins no new node";

/// `--runners`.
pub(crate) const RUNNERS: &str = "How many threads run programs, from 1 to 64";

/// `--sync`.
pub(crate) const SYNC: &str =
    "Asks the system to keep each part of the journal on the disk before anything is sent";

/// ADDR.
pub(crate) const ADDRESS: &str =
    "Where the node's clients connect: an address, as 10.88.0.1:8000, or the path of a Unix socket, which has a slash";
