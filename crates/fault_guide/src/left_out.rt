//! What to write in place of words of DAGMan's that are left out.

/// A word of DAGMan's that dagrun doesn't do, and what to write in its place.
struct LeftOut {
    word: &'static str,
    instead: &'static str,
}

/// Words that begin a line, and those after SCRIPT.
const LEFT_OUT: [LeftOut; 16] = [
    LeftOut {
        word: "SUBDAG",
        instead: "    SPLICE takes its nodes into this graph: SPLICE name inner.dag. Where the
    file is made by a step of this run, a job calls `dagrun run inner.dag`.
",
    },
    LeftOut {
        word: "INCLUDE",
        instead: "    Put the files together before the run: cat a.dag b.dag >x.dag. A file of
    nodes alone may be a splice.
",
    },
    LeftOut {
        word: "CONFIG",
        instead: "    Limits are options of the command line: dagrun run --maxjobs 8 --maxpre 2.
",
    },
    LeftOut {
        word: "PROVISIONER",
        instead: "    Start such a program before the run, and stop it after the run, or by the
    job of a FINAL node.
",
    },
    LeftOut {
        word: "SERVICE",
        instead: "    Start such a program before the run, and stop it after the run, or by the
    job of a FINAL node.
",
    },
    LeftOut {
        word: "CONNECT",
        instead: "    PARENT a CHILD b joins all ends of one splice with all beginnings of the
    other.
",
    },
    LeftOut {
        word: "PIN_IN",
        instead: "    PARENT a CHILD b joins all ends of one splice with all beginnings of the
    other.
",
    },
    LeftOut {
        word: "PIN_OUT",
        instead: "    PARENT a CHILD b joins all ends of one splice with all beginnings of the
    other.
",
    },
    LeftOut {
        word: "SAVE_POINT_FILE",
        instead: "    A rescue file of your own begins a run at any point: a line DONE name for
    each node that is done, in x.dag.rescue001.
",
    },
    LeftOut {
        word: "ENV",
        instead: "    Take ENV GET away: jobs have the environment of dagrun. In place of ENV SET
    write environment = \"NAME=value\" in the submit files.
",
    },
    LeftOut {
        word: "SUBMIT-DESCRIPTION",
        instead: "    Write these lines into a submit file of their own, and name that file in
    the JOB lines.
",
    },
    LeftOut {
        word: "REJECT",
        instead: "    Take the line away: nothing marks a file as one for splices alone.
",
    },
    LeftOut {
        word: "DONE",
        instead: "    Write DONE at the end of the node's line: JOB A a.sub DONE.
",
    },
    LeftOut {
        word: "HOLD",
        instead: "    No job is ever held. One that can't be started fails with -1001, which a
    POST script gets as $RETURN: SCRIPT POST A script $RETURN.
",
    },
    LeftOut {
        word: "DEFER",
        instead: "    Let the script wait by itself: until [ -e data.txt ]; do sleep 60; done.
",
    },
    LeftOut {
        word: "DEBUG",
        instead: "    Let the script write its own log: exec >>pre.log 2>&1. Where it fails, the
    end of what it prints is kept, and `dagrun why` shows it.
",
    },
];

/// What to write in place of a submit description in the DAG file.
const OF_INLINE: &str = "    Write the lines between the braces into a submit file of their own, and
    name it here.
";

/// What to write in place of a line that goes on below.
const OF_BACKSLASH: &str =
    "    Write the whole line on one line, without the backslash: a line may be as
    long as it has to be.
";

/// What to write in place of this word, where it is one that is left out.
pub(crate) fn instead_of(word: &str) -> Option<&'static str> {
    if word.starts_with('{') || word.starts_with("@=") {
        return Some(OF_INLINE);
    }
    let found = LEFT_OUT
        .iter()
        .find(|row| row.word.eq_ignore_ascii_case(word));
    match found {
        Some(row) => Some(row.instead),
        None if word.ends_with('\\') => Some(OF_BACKSLASH),
        None => None,
    }
}
