//! The faults of tables of outcomes, rescue files and journals.

ghost use Rattle.std.specs.Prelude.{◌≡◌, map};
ghost use Rattle.fault_guide.specs.Codes.{code_of_fault, round_codes};

use crate::guide::Fault;

static ROUNDS: [Fault; 21] = [
    Fault {
        code: "N3",
        name: "BadLine",
        when: "a line of the table of outcomes",
        detail: "LINE",
        example: "    $ cat x.dag
    JOB A a.sub
    $ cat table
    A 0 exit 1
    $ dagrun rehearse x.dag table
    dagrun: N3 BadLine 1
",
        advice: "    Write the line as `name attempt PRE|JOB|POST c`, where c is 0 to 255,
    `signal n`, `nostart` or `untold`: A 0 JOB 1.
",
    },
    Fault {
        code: "E1",
        name: "BadLine",
        when: "a line of a rescue file that is neither a comment nor `DONE name`, or is no text",
        detail: "PATH:LINE",
        example: "    $ cat x.dag
    JOB A a.sub
    $ cat a.sub
    executable = /bin/true
    queue
    $ cat x.dag.rescue001
    RETRY A 1
    $ dagrun run x.dag
    dagrun: E1 BadLine x.dag.rescue001:1
",
        advice: "    Take the line away. Rescue files of DAGMan with RETRY lines are not read:
    retries begin anew in each round.
",
    },
    Fault {
        code: "E2",
        name: "UnknownNode",
        when: "a rescue file names no node of the DAG",
        detail: "PATH:LINE",
        example: "    $ cat x.dag
    JOB A a.sub
    $ cat a.sub
    executable = /bin/true
    queue
    $ cat x.dag.rescue001
    DONE B
    $ dagrun run x.dag
    dagrun: E2 UnknownNode x.dag.rescue001:1
",
        advice: "    Correct the name, or take the line away where the DAG has no such node by
    now: the other lines keep what is done. To run all nodes anew, remove the
    rescue file, or call `dagrun run --autorescue 0`.
",
    },
    Fault {
        code: "E3",
        name: "FinalDone",
        when: "a rescue file names FINAL",
        detail: "PATH:LINE",
        example: "    $ cat x.dag
    FINAL F a.sub
    $ cat a.sub
    executable = /bin/true
    queue
    $ cat x.dag.rescue001
    DONE F
    $ dagrun run x.dag
    dagrun: E3 FinalDone x.dag.rescue001:1
",
        advice: "    Take the line away: FINAL runs in each round.
",
    },
    Fault {
        code: "E4",
        name: "NotThere",
        when: "a number of a rescue file that is not one of 1 to 999, in the header of a journal or after `--dorescuefrom`; one after `--dorescuefrom` whose file is missing",
        detail: "NUMBER",
        example: "    $ cat x.dag
    JOB A a.sub
    $ cat a.sub
    executable = /bin/true
    queue
    $ dagrun run --dorescuefrom 2 x.dag
    dagrun: E4 NotThere 2
",
        advice: "    Name a number whose file is there: `ls x.dag.rescue*`. Without
    --dorescuefrom the journal was changed: put it back, or remove it to begin a
    new round.
",
    },
    Fault {
        code: "E6",
        name: "Unfinished",
        when: "`--dorescuefrom` is asked for, and the run that the journal tells of has not ended",
        detail: "",
        example: "",
        advice: "    Call `dagrun run` without the option, which goes on with that run, or remove
    x.dag.journal to give it up.
",
    },
    Fault {
        code: "J1",
        name: "Device",
        when: "the system refuses a call on the journal or the rescue file",
        detail: "",
        example: "    $ cat x.dag
    JOB A a.sub
    $ cat a.sub
    executable = /bin/true
    queue
    $ mkdir x.dag.journal
    $ dagrun run x.dag
    dagrun: J1 Device
",
        advice: "    See that the disk is not full (`df .`), that x.dag.journal is a file that
    may be read and written, and that the folder may be written. Then `dagrun
    run` goes on: what was recorded stays.
",
    },
    Fault {
        code: "J3",
        name: "NotAJournal",
        when: "bytes that are no journal",
        detail: "",
        example: "    $ cat x.dag
    JOB A a.sub
    $ cat a.sub
    executable = /bin/true
    queue
    $ seq 99 > x.dag.journal
    $ dagrun status x.dag
    dagrun: J3 NotAJournal
",
        advice: "    Put the journal of the round back, or remove x.dag.journal to begin a new
    round: nodes that a rescue file names stay done.
",
    },
    Fault {
        code: "J4",
        name: "Version",
        when: "a journal of another version",
        detail: "VERSION",
        example: "",
        advice: "    It was written by another version of dagrun: go on with that one, or remove
    x.dag.journal to begin a new round.
",
    },
    Fault {
        code: "J5",
        name: "OtherInputs",
        when: "a journal of a round that began with other files",
        detail: "",
        example: "    $ cat x.dag
    JOB A a.sub
    $ cat a.sub
    executable = /bin/true
    queue
    $ dagrun run x.dag > report
    $ echo '# changed' >> a.sub
    $ dagrun status x.dag
    dagrun: J5 OtherInputs
",
        advice: "    A round goes on only with the files that it began with: the DAG file, its
    splices, the submit files and the rescue file that it read. Which of them was
    changed `sha256sum -c x.dag.inputs` says: put it back. While a manager works
    on the round, `--as-begun` shows it, and the next one goes by what was changed.
    Where a file is to stay as it is now, call `dagrun salvage x.dag`, which makes
    a rescue file of what is done, and then `dagrun run x.dag`, which starts the
    rest. A round that has ended is no hindrance: `dagrun run` begins the next one,
    by the rescue file that the round has left. It leaves none where all was done:
    then all nodes run, or none that is done where `dagrun salvage --ended x.dag`
    is called first. If nodes that are done are to run again with what was changed,
    call `dagrun redo --as-begun x.dag NODE ..` first. A round that was cut short
    and that no manager works on is given up by removing its journal
    (x.dag.journal): then nodes that were done in it run again.
",
    },
    Fault {
        code: "J6",
        name: "SlotsFull",
        when: "no further record is allowed",
        detail: "",
        example: "",
        advice: "    The journal has 16,777,216 records, since nodes were repeated very often:
    call `dagrun salvage`, which keeps what is done and puts the journal away,
    and then `dagrun run`, with a lower RETRY.
",
    },
    Fault {
        code: "J9",
        name: "BadSlot",
        when: "a record that was not written so",
        detail: "PLACE",
        example: "",
        advice: "    The journal's bytes were changed, by a disk or a program: put it back from a
    copy, or remove x.dag.journal to begin a new round.
",
    },
    Fault {
        code: "J10",
        name: "OtherFlag",
        when: "a journal of a round that runs POST scripts otherwise",
        detail: "",
        example: "",
        advice: "    The journal's header says whether POST scripts run after PRE scripts that
    failed (`run --always-run-post`), and each command goes by it. This is reported
    where the records after the header can't be read: the journal's bytes were
    changed. Put it back from a copy, or remove x.dag.journal to begin a new round.
",
    },
    Fault {
        code: "M2",
        name: "Foreign",
        when: "a record that may not follow those before it",
        detail: "PLACE",
        example: "",
        advice: "    The journal's bytes were changed: put it back from a copy, or remove
    x.dag.journal to begin a new round.
",
    },
    Fault {
        code: "R1",
        name: "NoJournal",
        when: "`salvage`: no round was begun",
        detail: "PATH",
        example: "    $ cat x.dag
    JOB A a.sub
    $ dagrun salvage x.dag
    dagrun: R1 NoJournal x.dag.journal
",
        advice: "    There is nothing to keep: `dagrun run` begins a round, by the rescue file of
    the highest number. Was this the path that `run` was called with?
",
    },
    Fault {
        code: "R2",
        name: "Ended",
        when: "`salvage`: the round has ended, or with --ended it has written its rescue file",
        detail: "PATH",
        example: "    $ cat x.dag
    JOB A a.sub
    $ cat a.sub
    executable = /bin/true
    queue
    $ dagrun run x.dag > report
    $ dagrun salvage x.dag
    dagrun: R2 Ended x.dag.journal
",
        advice: "    A round that has ended has written its rescue file, where it needed one:
    call `dagrun run`, which begins the next one. Where all was done, and the
    DAG has more nodes by now, `dagrun salvage --ended x.dag` keeps what is done.
",
    },
    Fault {
        code: "R3",
        name: "NoInputs",
        when: "`salvage`: the file that says what the round was begun with is missing",
        detail: "PATH",
        example: "",
        advice: "    It is written as a round begins, unless the system refuses it. Without it
    nobody can say whether the DAG file is as it was: put back the files that were
    changed and call `dagrun run`, or give the round up: remove x.dag.journal.
",
    },
    Fault {
        code: "R4",
        name: "BadInputs",
        when: "`salvage`: the file that says what the round was begun with is not as it was written",
        detail: "PATH",
        example: "",
        advice: "    Its bytes were changed: put it back, or go on as after R3.
",
    },
    Fault {
        code: "R5",
        name: "OtherRound",
        when: "`salvage`: that file says it of another round than the journal's",
        detail: "PATH",
        example: "",
        advice: "    It was put there from elsewhere, or could not be written as the round began:
    go on as behind R3.
",
    },
    Fault {
        code: "R6",
        name: "Changed",
        when: "`salvage`: the DAG file, a splice or the rescue file that was read is not as it was when the round began",
        detail: "PATH",
        example: "",
        advice: "    Put the file back and call `dagrun salvage` again. Where x.dag.begun keeps
    what the round began with, salvage works after any change: here that file is
    missing, or is of another round. Once the rescue file is made the DAG may be
    changed: that file names the nodes that are done.
",
    },
    Fault {
        code: "R7",
        name: "NotListed",
        when: "`salvage`: the DAG file, a splice or a rescue file is none of those that the round was begun with",
        detail: "PATH",
        example: "",
        advice: "    Call `dagrun salvage` in the folder in which `run` was called, and with the
    same path. Move a rescue file away that came later. Where x.dag.begun keeps
    what the round began with, salvage works after any change: here that file is
    missing, or is of another round.
",
    },
];

pub(crate) fn faults() -> &'static [Fault]
    ensures { map code_of_fault result.now ≡ round_codes }
{
    &ROUNDS
}
