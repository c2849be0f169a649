//! The scripts.

/// A script, and what it does.
#[derive(Clone, Copy)]
pub struct Row {
    pub title: &'static str,
    pub text: &'static str,
}

/// The scripts in turn.
pub const ROWS: [Row; 3] = [
    Row {
        title: "a query of a node that is alone",
        text: ALONE,
    },
    Row {
        title: "a query that meets a store",
        text: MEETING,
    },
    Row {
        title: "nodes that come and go",
        text: CHURN,
    },
];

/// Counts the records of one node.
const ALONE: &str = "\
nodes 1 4/5 4/5
program 1 bf3000000000000007000000010000009500000000000000
store 1 5
all 100
ask 1 0 0
all 100
hand 1
run 0
journal 1 1
";

/// A query whose collect meets a store of another node.
const MEETING: &str = "\
nodes 3 2/3 2/3
program 2 bf3000000000000007000000010000009500000000000000
store 1 5
deliver 0 1
deliver 0 2
deliver 1 1
deliver 3 1
ask 2 0 0
deliver 5 2
deliver 5 3
deliver 6 2
deliver 7 2
deliver 8 2
deliver 8 3
deliver 9 2
deliver 11 2
hand 2
run 0
pairs
journal 1 1
journal 2 2
journal 3 3
";

/// A node that enters, one that leaves and one that crashes.
const CHURN: &str = "\
nodes 2 4/5 4/5
enter 3
store 3 9
all 100
store 3 9
enter 3
leave 2
deliver 9 3
crash 1
store 1 5
journal 1 1
journal 2 2
journal 3 3
";
