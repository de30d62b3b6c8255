//! The faults of submit files and of the texts of jobs.

ghost use Rattle.std.specs.Prelude.{◌≡◌, map};
ghost use Rattle.fault_guide.specs.Codes.{code_of_fault, job_codes};

use crate::guide::Fault;

static JOBS: [Fault; 13] = [
    Fault {
        code: "U1",
        name: "NotText",
        when: "a submit file that is not UTF-8",
        detail: "PATH",
        example: "    $ cat x.dag
    JOB A a.sub
    $ printf 'executable = caf\\351\\nqueue\\n' > a.sub
    $ dagrun check x.dag
    dagrun: U1 NotText a.sub
",
        advice: "    Bring the file to UTF-8: `iconv -f latin1 -t utf8 a.sub`.
",
    },
    Fault {
        code: "U2",
        name: "BadLine",
        when: "no `=`, or a name that is empty or holds a blank",
        detail: "PATH:LINE",
        example: "    $ cat x.dag
    JOB A a.sub
    $ cat a.sub
    executable /bin/true
    queue
    $ dagrun check x.dag
    dagrun: U2 BadLine a.sub:1
",
        advice: "    Write the line as `name = value`, or begin it with # where it is a comment.
",
    },
    Fault {
        code: "U3",
        name: "NoQueue",
        when: "no line queues the job",
        detail: "PATH",
        example: "    $ cat x.dag
    JOB A a.sub
    $ cat a.sub
    executable = /bin/true
    $ dagrun check x.dag
    dagrun: U3 NoQueue a.sub
",
        advice: "    End the file with a line `queue`.
",
    },
    Fault {
        code: "U4",
        name: "QueueCount",
        when: "a count other than 1, or a second queue line",
        detail: "PATH:LINE",
        example: "    $ cat x.dag
    JOB A a.sub
    $ cat a.sub
    executable = /bin/true
    queue 3
    $ dagrun check x.dag
    dagrun: U4 QueueCount a.sub:2
",
        advice: "    Write `queue` once, with no count, and a JOB line for each of the jobs, with
    its number by VARS.
",
    },
    Fault {
        code: "U5",
        name: "Unsupported",
        when: "`queue` with other words, or a line of `if`, `elif`, `else`, `endif` or `include`",
        detail: "PATH:LINE",
        example: "    $ cat x.dag
    JOB A a.sub
    $ cat a.sub
    executable = /bin/true
    queue name in (p q)
    $ dagrun check x.dag
    dagrun: U5 Unsupported a.sub:2
",
        advice: "    Write a JOB line for each item, and the item as a macro: VARS A name=\"p\".
    What an `if` would choose, a macro can say.
",
    },
    Fault {
        code: "V1",
        name: "Unclosed",
        when: "a reference that no parenthesis closes",
        detail: "NODE",
        example: "    $ cat x.dag
    JOB A a.sub
    $ cat a.sub
    executable = /bin/$(name
    queue
    $ dagrun check x.dag
    dagrun: V1 Unclosed A
",
        advice: "    Close the reference: $(name). A default within it has balanced parentheses.
    A dollar sign by itself, as in `a$b`, stays as it is.
",
    },
    Fault {
        code: "V2",
        name: "Loop",
        when: "a name within its own expansion",
        detail: "NODE",
        example: "    $ cat x.dag
    JOB A a.sub
    VARS A a=\"$(b)\" b=\"$(a)\"
    $ cat a.sub
    executable = /bin/echo
    arguments = $(a)
    queue
    $ dagrun check x.dag
    dagrun: V2 Loop A
",
        advice: "    Give one of the macros another name: `path = $(path):/more` does not add to
    what path was before. The macros are those of the node's VARS lines and of its
    submit file.
",
    },
    Fault {
        code: "V3",
        name: "TooLong",
        when: "over 65,536 bytes, or over 65,536 references",
        detail: "NODE",
        example: "    $ cat x.dag
    JOB A a.sub
    $ cat a.sub
    executable = /bin/echo
    a = xxxxxxxxxxxxxxxxxxxxxxxxxxxxxxxx
    b = $(a)$(a)$(a)$(a)$(a)$(a)$(a)$(a)
    c = $(b)$(b)$(b)$(b)$(b)$(b)$(b)$(b)
    d = $(c)$(c)$(c)$(c)$(c)$(c)$(c)$(c)
    arguments = $(d)$(d)$(d)$(d)$(d)$(d)$(d)$(d)
    queue
    $ dagrun check x.dag
    dagrun: V3 TooLong A
",
        advice: "    Put long texts into a file that the job reads.
",
    },
    Fault {
        code: "V4",
        name: "BadQuote",
        when: "arguments or an environment with a lone `\"` or an open group; an environment that is not new style, or with a word that is no setting",
        detail: "NODE",
        example: "    $ cat x.dag
    JOB A a.sub
    $ cat a.sub
    executable = /bin/true
    environment = HOME=/tmp;LANG=C
    queue
    $ dagrun check x.dag
    dagrun: V4 BadQuote A
",
        advice: "    In arguments between double quotes a single quote begins a group: write ''
    for one within such a group, as in arguments = \"'it''s fine'\". Without
    double quotes around all of them a ' is a plain one. Write the environment in
    new style, between double quotes and with blanks in between:
    environment = \"HOME=/tmp LANG=C\". Within the quotes a word with blanks is
    between single quotes, a single quote is '' and a double quote \"\".
",
    },
    Fault {
        code: "V5",
        name: "BadReference",
        when: "an empty or unlawful name, `$(DOLLAR)`, `$$(`, `$word(`",
        detail: "NODE",
        example: "    $ cat x.dag
    JOB A a.sub
    $ cat a.sub
    executable = /bin/echo
    arguments = $ENV(HOME)
    queue
    $ dagrun check x.dag
    dagrun: V5 BadReference A
",
        advice: "    Name a macro of the submit file or of VARS. $ENV(..), $F(..), $$(..) and
    $(DOLLAR) are not done: a job has dagrun's environment, so `/bin/sh -c 'echo
    $HOME'` finds it there.
",
    },
    Fault {
        code: "P1",
        name: "MissingFile",
        when: "a submit file that is missing or can't be read",
        detail: "PATH",
        example: "    $ cat x.dag
    JOB A a.sub DIR work
    $ dagrun check x.dag
    dagrun: P1 MissingFile work/a.sub
",
        advice: "    See that the file is there and may be read. A relative path is taken from
    the folder in which dagrun is called, then the DIR of each SPLICE line on the
    way to the node, and then the DIR of its JOB line. Where the file is beside
    the DAG file, call dagrun in that folder.
",
    },
    Fault {
        code: "P4",
        name: "NoExecutable",
        when: "no executable, or one that expands to nothing",
        detail: "NODE",
        example: "    $ cat x.dag
    JOB A a.sub
    $ cat a.sub
    arguments = 1 2
    queue
    $ dagrun check x.dag
    dagrun: P4 NoExecutable A
",
        advice: "    Write a line `executable = program` above `queue`; where the program is a
    macro, assign it. A name that is spelled otherwise is a macro of your own:
    `dagrun check --hints` says which one may be meant.
",
    },
    Fault {
        code: "P5",
        name: "BadUniverse",
        when: "a universe that there is not",
        detail: "NODE",
        example: "    $ cat x.dag
    JOB A a.sub
    $ cat a.sub
    universe = docker
    executable = /bin/true
    queue
    $ dagrun check x.dag
    dagrun: P5 BadUniverse A
",
        advice: "    Take the line away, or write vanilla, local or scheduler: all jobs run on
    this machine. `docker run ..` can be the executable.
",
    },
];

pub(crate) fn faults() -> &'static [Fault]
    ensures { map code_of_fault result.now ≡ job_codes }
{
    &JOBS
}
