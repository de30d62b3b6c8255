//! The faults of children and of the system, and the answers of an audit.

ghost use Rattle.std.specs.Prelude.{◌≡◌, map};
ghost use Rattle.fault_guide.specs.Codes.{code_of_fault, running_codes};

use crate::guide::Fault;

static RUNNING: [Fault; 9] = [
    Fault {
        code: "A1",
        name: "StartMemory",
        when: "no memory for a child",
        detail: "",
        example: "",
        advice: "    Call `dagrun run` again, which goes on, perhaps with fewer jobs at once:
    --maxjobs 8.
",
    },
    Fault {
        code: "A2",
        name: "WaitFault",
        when: "the system does not tell how a child does",
        detail: "",
        example: "",
        advice: "    Call `dagrun run` again, which goes on: what was recorded stays. Where it is
    refused so each time, what calls dagrun ignores SIGCHLD: let it have its
    default there, as `env --default-signal=CHLD dagrun run x.dag` does.
",
    },
    Fault {
        code: "F1",
        name: "NotAJournal",
        when: "`audit`: no journal of these inputs",
        detail: "",
        example: "    $ cat x.dag
    JOB A a.sub
    $ cat a.sub
    executable = /bin/true
    queue
    $ dagrun audit x.dag
    audit no F1 NotAJournal
",
        advice: "    Audit a journal in a folder where the files of its round are as they were:
    the DAG file, its splices, the submit files and the rescue file that it
    read.
",
    },
    Fault {
        code: "F2",
        name: "NotARun",
        when: "`audit`: a record that may not follow those before it",
        detail: "PLACE",
        example: "",
        advice: "    The journal's bytes were changed: it is that of no run.
",
    },
    Fault {
        code: "F3",
        name: "Unfinished",
        when: "`audit`: the journal of a run that has not ended",
        detail: "",
        example: "",
        advice: "    Wait until `dagrun run` has ended, or call it to go on with a run that was
    cut short.
",
    },
    Fault {
        code: "F5",
        name: "Aborted",
        when: "`audit`: that of a run that was aborted",
        detail: "",
        example: "    $ cat x.dag
    JOB A a.sub
    ABORT-DAG-ON A 0
    $ cat a.sub
    executable = /bin/true
    queue
    $ dagrun run x.dag > report
    $ dagrun audit x.dag
    audit no F5 Aborted
",
        advice: "    Nothing: how far nodes came in a run that a node aborted depends on when it
    did, so an audit confirms none. `dagrun status` says where they are.
",
    },
    Fault {
        code: "H1",
        name: "Halted",
        when: "`run`: nothing more was to be launched, and what ran has ended",
        detail: "PATH",
        example: "    $ cat x.dag
    JOB A a.sub
    $ cat a.sub
    executable = /bin/true
    queue
    $ touch x.dag.halt
    $ dagrun run x.dag
    dagrun: H1 Halted x.dag.halt
",
        advice: "    Where a file .halt is named, remove that file, and call `dagrun run` again,
    which goes on: what ended is recorded, and no child was killed. Where
    --stop-at-first-error is named, a node failed for good: `dagrun why` says how,
    and `dagrun run` without the option runs what does not wait for it. To run the
    node again, mend it, call `dagrun redo` with the DAG file, and then `dagrun
    run`. Where the DAG file is named, its folder was renamed or replaced while the
    run went on: give the folder its name again, and make the same call. Where that
    call named the DAG file without a folder, it can be made in the folder as it
    is, too. Where the journal is named, it was removed or replaced while the run
    went on: nothing more was started. What ran has ended; its endings are not
    known to the next run.
",
    },
    Fault {
        code: "X1",
        name: "Memory",
        when: "memory was refused",
        detail: "",
        example: "",
        advice: "    Give the program more memory (`ulimit -v`), or call it again; `dagrun run`
    goes on, and what was recorded stays.
",
    },
    Fault {
        code: "X2",
        name: "FileRefused",
        when: "a table of outcomes, standard input, a folder or a rescue file that can't be read; a journal that `status` and `audit` can't read or `run` can't rename; a lock that can't be made, or is held; a launcher that is not found; a file beside the DAG file that is no regular one or may be another user's",
        detail: "PATH",
        example: "    $ cat x.dag
    JOB A a.sub
    $ dagrun rehearse x.dag table
    dagrun: X2 FileRefused table
",
        advice: "    See that the file or folder that is named is there and that you may read it,
    and write in its folder. Where it ends with .lock, another `dagrun run`
    works on this DAG: wait for it (`fuser x.dag.lock` names it). A launcher is a
    path, or is looked for in the folders of PATH. A file beside the DAG file
    that another user may have put there is refused, too: see --trust-owner. One
    that ends with .begun is not as it was written: remove it.
",
    },
];

pub(crate) fn faults() -> &'static [Fault]
    ensures { map code_of_fault result.now ≡ running_codes }
{
    &RUNNING
}
