//! The faults of the files of a DAG and of its graph.

ghost use Rattle.std.specs.Prelude.{◌≡◌, map};
ghost use Rattle.fault_guide.specs.Codes.{code_of_fault, file_codes};

use crate::guide::Fault;

static FILES: [Fault; 11] = [
    Fault {
        code: "S1",
        name: "MissingFile",
        when: "a DAG file that is missing or can't be read",
        detail: "PATH",
        example: "    $ cat x.dag
    SPLICE Y inner.dag DIR inner
    $ dagrun check x.dag
    dagrun: S1 MissingFile inner/inner.dag
",
        advice: "    See that the file is there and may be read. A relative path is taken from
    the folder in which dagrun is called, behind the DIR of each SPLICE line on
    the way to it.
",
    },
    Fault {
        code: "S3",
        name: "Loop",
        when: "a file that lies in itself",
        detail: "PATH ..",
        example: "    $ cat x.dag
    SPLICE Y inner.dag
    $ cat inner.dag
    SPLICE Z inner.dag
    $ dagrun check x.dag
    dagrun: S3 Loop inner.dag
",
        advice: "    Take one of the SPLICE lines away: each of the files that are named splices
    the next, and the last the first.
",
    },
    Fault {
        code: "S4",
        name: "DuplicateName",
        when: "a name that a line above declares too; a second FINAL",
        detail: "FILE:LINE:COLUMN",
        example: "    $ cat x.dag
    JOB A a.sub
    JOB A b.sub
    $ dagrun check x.dag
    dagrun: S4 DuplicateName x.dag:2:5
",
        advice: "    Give one of the two another name. Nodes, splices and FINAL share their
    names, and a DAG has one FINAL.
",
    },
    Fault {
        code: "S5",
        name: "UnknownNode",
        when: "a name that no line of the same file declares",
        detail: "FILE:LINE:COLUMN",
        example: "    $ cat x.dag
    JOB A a.sub
    PARENT A CHILD B
    $ dagrun check x.dag
    dagrun: S5 UnknownNode x.dag:2:16
",
        advice: "    Declare the node by a JOB line, or correct the name: case matters. Lines see
    the names of their own file alone.
",
    },
    Fault {
        code: "S6",
        name: "TooDeep",
        when: "a file that lies in 33 others",
        detail: "PATH",
        example: "    $ for i in {0..33}; do echo \"SPLICE S s$((i + 1)).dag\" > s$i.dag; done; touch s34.dag
    $ dagrun check s0.dag
    dagrun: S6 TooDeep s33.dag
",
        advice: "    Splice some of the files side by side in place of one within the other.
",
    },
    Fault {
        code: "S7",
        name: "TooManyNodes",
        when: "more than 65,536 nodes, or more than 4,096 splices",
        detail: "",
        example: "    $ for i in {1..65537}; do echo \"JOB N$i a.sub\"; done > x.dag
    $ dagrun check x.dag
    dagrun: S7 TooManyNodes
",
        advice: "    Part the DAG into several that are run one after the other, or let a node do
    the work of several.
",
    },
    Fault {
        code: "S8",
        name: "FinalInSplice",
        when: "FINAL in the file of a splice",
        detail: "FILE:LINE:COLUMN",
        example: "    $ cat x.dag
    SPLICE Y inner.dag
    $ cat inner.dag
    FINAL F f.sub
    $ dagrun check x.dag
    dagrun: S8 FinalInSplice inner.dag:1:7
",
        advice: "    Write FINAL in the top file. What is to run after a splice is a JOB and a
    line PARENT splice CHILD job.
",
    },
    Fault {
        code: "S9",
        name: "SpliceSetting",
        when: "a setting for a splice",
        detail: "FILE:LINE:COLUMN",
        example: "    $ cat x.dag
    SPLICE Y inner.dag
    RETRY Y 2
    $ cat inner.dag
    JOB A a.sub
    $ dagrun check x.dag
    dagrun: S9 SpliceSetting x.dag:2:7
",
        advice: "    Write the line into the file of the splice, for its nodes: RETRY ALL_NODES 2
    is for all of them.
",
    },
    Fault {
        code: "S10",
        name: "EmptySpliceEdge",
        when: "a splice without nodes in a PARENT line",
        detail: "FILE:LINE:COLUMN",
        example: "    $ cat x.dag
    JOB A a.sub
    SPLICE Y inner.dag
    PARENT A CHILD Y
    $ touch inner.dag
    $ dagrun check x.dag
    dagrun: S10 EmptySpliceEdge x.dag:3:16
",
        advice: "    Take the splice out of the line, or give it a node: `JOB name file NOOP` is
    one that starts nothing.
",
    },
    Fault {
        code: "S11",
        name: "FinalSetting",
        when: "FINAL in a PARENT line, or with PRIORITY, CATEGORY or ABORT-DAG-ON",
        detail: "FILE:LINE:COLUMN",
        example: "    $ cat x.dag
    FINAL F f.sub
    PRIORITY F 1
    $ dagrun check x.dag
    dagrun: S11 FinalSetting x.dag:2:10
",
        advice: "    Take the line away: FINAL runs last by itself. It may have SCRIPT, RETRY,
    PRE_SKIP and VARS.
",
    },
    Fault {
        code: "G1",
        name: "Cycle",
        when: "a node is its own ancestor",
        detail: "NODE ..",
        example: "    $ cat x.dag
    JOB A a.sub
    JOB B b.sub
    PARENT A CHILD B
    PARENT B CHILD A
    $ dagrun check x.dag
    dagrun: G1 Cycle A B
",
        advice: "    Take away one of the edges between the nodes that are named: none of them
    could ever start.
",
    },
];

pub(crate) fn faults() -> &'static [Fault]
    ensures { map code_of_fault result.now ≡ file_codes }
{
    &FILES
}
