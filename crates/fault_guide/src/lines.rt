//! The faults of lines of a DAG file.

ghost use Rattle.std.specs.Prelude.{◌≡◌, map};
ghost use Rattle.fault_guide.specs.Codes.{code_of_fault, line_codes};

use crate::guide::Fault;

static LINES: [Fault; 9] = [
    Fault {
        code: "L1",
        name: "NotText",
        when: "bytes that are not UTF-8, or a control character but the tab",
        detail: "FILE:LINE:COLUMN",
        example: "    $ printf 'JOB A a.sub\\001\\n' > x.dag
    $ dagrun check x.dag
    dagrun: L1 NotText x.dag:1:12
",
        advice: "    Take the byte at this column away. `cat -A x.dag` shows it; a file in
    another encoding is brought to UTF-8 by `iconv`. A CR is taken as a line's
    end only just before LF.
",
    },
    Fault {
        code: "L2",
        name: "UnknownCommand",
        when: "the first word is no command",
        detail: "FILE:LINE:COLUMN",
        example: "    $ cat x.dag
    JOB A a.sub
    JOBS B b.sub
    $ dagrun check x.dag
    dagrun: L2 UnknownCommand x.dag:2:1
",
        advice: "    Correct the first word. The commands are JOB, PARENT, SCRIPT, RETRY,
    PRE_SKIP, VARS, PRIORITY, CATEGORY, MAXJOBS, ABORT-DAG-ON, FINAL and SPLICE;
    a comment begins with #.
",
    },
    Fault {
        code: "L3",
        name: "Unsupported",
        when: "left out by name",
        detail: "FILE:LINE:COLUMN",
        example: "    $ cat x.dag
    SUBDAG EXTERNAL A inner.dag
    $ dagrun check x.dag
    dagrun: L3 Unsupported x.dag:1:1
",
        advice: "    This is DAGMan's language, but dagrun does not do it. Write SPLICE in place
    of SUBDAG EXTERNAL and INCLUDE, an option of `dagrun run` in place of
    CONFIG, a file of its own in place of a submit description in
    the DAG file, and one long line in place of one that ends with a backslash.
    docs/FROM_DAGMAN.md has each with an example.
",
    },
    Fault {
        code: "L4",
        name: "MissingWord",
        when: "the line ends too early",
        detail: "FILE:LINE:COLUMN",
        example: "    $ cat x.dag
    JOB A
    $ dagrun check x.dag
    dagrun: L4 MissingWord x.dag:1:6
",
        advice: "    Add the word that is missing: after JOB and FINAL come a name and a submit
    file, after SPLICE a name and a DAG file, after PARENT names, CHILD and
    names.
",
    },
    Fault {
        code: "L5",
        name: "UnexpectedWord",
        when: "a word that has no place there",
        detail: "FILE:LINE:COLUMN",
        example: "    $ cat x.dag
    JOB A a.sub DONE # it is there
    $ dagrun check x.dag
    dagrun: L5 UnexpectedWord x.dag:1:18
",
        advice: "    Take the word at this column away. A comment has a line of its own; each
    option is given once; a path with a blank in it can't be written in a DAG
    file.
",
    },
    Fault {
        code: "L6",
        name: "BadName",
        when: "no name of a node, a category or a macro; a second CHILD",
        detail: "FILE:LINE:COLUMN",
        example: "    $ cat x.dag
    JOB sample.1 a.sub
    $ dagrun check x.dag
    dagrun: L6 BadName x.dag:1:5
",
        advice: "    Give another name: one of a node has 1 to 255 bytes, holds no . and no +,
    and is not PARENT, CHILD or ALL_NODES. A node within a splice can't be named
    from outside: name the splice. A macro's name begins with a letter, _ or +,
    and not with queue.
",
    },
    Fault {
        code: "L7",
        name: "BadNumber",
        when: "no number, or out of its range",
        detail: "FILE:LINE:COLUMN",
        example: "    $ cat x.dag
    JOB A a.sub
    RETRY A often
    $ dagrun check x.dag
    dagrun: L7 BadNumber x.dag:2:9
",
        advice: "    Write a number in digits: RETRY takes 0 to 1000000, MAXJOBS 1 to 1000000,
    RETURN 0 to 255, PRE_SKIP any but 0, and the others one of 32 bits.
",
    },
    Fault {
        code: "L8",
        name: "BadQuote",
        when: "a VARS text that is not opened, closed or followed by a blank or the line's end",
        detail: "FILE:LINE:COLUMN",
        example: "    $ cat x.dag
    JOB A a.sub
    VARS A size=12
    $ dagrun check x.dag
    dagrun: L8 BadQuote x.dag:2:13
",
        advice: "    Put the text between double quotes: size=\"12\". Within them a double quote is
    \\\" and a backslash \\\\.
",
    },
    Fault {
        code: "L9",
        name: "TooLong",
        when: "a line of over 65,536 bytes",
        detail: "FILE:LINE:COLUMN",
        example: "    $ { printf 'JOB A a.sub\\nPARENT'; printf ' A%.0s' {1..40000}; } > x.dag
    $ dagrun check x.dag
    dagrun: L9 TooLong x.dag:2:65537
",
        advice: "    Part the line: a PARENT line can be written as several, and of a long list
    of macros each VARS line takes some.
",
    },
];

pub(crate) fn faults() -> &'static [Fault]
    ensures { map code_of_fault result.now ≡ line_codes }
{
    &LINES
}
