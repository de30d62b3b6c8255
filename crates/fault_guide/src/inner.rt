//! Faults that no command tells by their own code: of the files of a DAG, and of memory.

ghost use Rattle.std.specs.Prelude.{◌≡◌, map};
ghost use Rattle.fault_guide.specs.Codes.{code_of_fault, inner_file_codes, inner_part_codes, inner_run_codes};

use crate::guide::Fault;

static OF_FILES: [Fault; 11] = [
    Fault {
        code: "L10",
        name: "Memory",
        when: "memory was refused to the reader of a DAG file",
        detail: "",
        example: "",
        advice: "    It is reported as X1.
",
    },
    Fault {
        code: "S2",
        name: "InFile",
        when: "a line of a DAG file is refused",
        detail: "",
        example: "",
        advice: "    It is reported as the fault of that line, L1 to L9, with the file's path.
",
    },
    Fault {
        code: "S12",
        name: "Memory",
        when: "memory was refused as files were opened",
        detail: "",
        example: "",
        advice: "    It is reported as X1.
",
    },
    Fault {
        code: "G2",
        name: "Memory",
        when: "memory was refused to the graph",
        detail: "",
        example: "",
        advice: "    It is reported as X1.
",
    },
    Fault {
        code: "U6",
        name: "Memory",
        when: "memory was refused to the reader of a submit file",
        detail: "",
        example: "",
        advice: "    It is reported as X1.
",
    },
    Fault {
        code: "V6",
        name: "Memory",
        when: "memory was refused to an expansion",
        detail: "",
        example: "",
        advice: "    It is reported as X1.
",
    },
    Fault {
        code: "P2",
        name: "InSubmit",
        when: "a submit file is refused",
        detail: "",
        example: "",
        advice: "    It is reported as the fault of that file, U1 to U5, with its path.
",
    },
    Fault {
        code: "P3",
        name: "InMacro",
        when: "a text of a job can't be expanded",
        detail: "",
        example: "",
        advice: "    It is reported as the fault of that text, V1 to V5, with the node.
",
    },
    Fault {
        code: "P6",
        name: "InRescue",
        when: "a line of the rescue file is refused",
        detail: "",
        example: "",
        advice: "    It is reported as the fault of that line, E1 to E3, with the file's path.
",
    },
    Fault {
        code: "P7",
        name: "Memory",
        when: "memory was refused to the plan",
        detail: "",
        example: "",
        advice: "    It is reported as X1.
",
    },
    Fault {
        code: "N1",
        name: "NotWanted",
        when: "a phase of a node is launched that does not come next",
        detail: "",
        example: "",
        advice: "    It is a fault within the program, and no command tells it.
",
    },
];

pub(crate) fn of_files() -> &'static [Fault]
    ensures { map code_of_fault result.now ≡ inner_file_codes }
{
    &OF_FILES
}

static OF_PARTS: [Fault; 10] = [
    Fault {
        code: "N2",
        name: "NotRunning",
        when: "a phase of a node ends that does not run",
        detail: "",
        example: "",
        advice: "    It is a fault within the program, and no command tells it.
",
    },
    Fault {
        code: "N4",
        name: "Memory",
        when: "memory was refused to the table of outcomes",
        detail: "",
        example: "",
        advice: "    It is reported as X1.
",
    },
    Fault {
        code: "E5",
        name: "Memory",
        when: "memory was refused to a rescue text",
        detail: "",
        example: "",
        advice: "    It is reported as X1.
",
    },
    Fault {
        code: "Q1",
        name: "Present",
        when: "a node is added to a queue where it is",
        detail: "",
        example: "",
        advice: "    It is a fault within the program, and no command tells it.
",
    },
    Fault {
        code: "Q2",
        name: "Absent",
        when: "a node is taken from a queue where it is not",
        detail: "",
        example: "",
        advice: "    It is a fault within the program, and no command tells it.
",
    },
    Fault {
        code: "Q3",
        name: "Memory",
        when: "memory was refused to a queue",
        detail: "",
        example: "",
        advice: "    It is reported as X1.
",
    },
    Fault {
        code: "H2",
        name: "NoneRunning",
        when: "a phase ends of which none runs",
        detail: "",
        example: "",
        advice: "    It is a fault within the program, and no command tells it.
",
    },
    Fault {
        code: "H3",
        name: "Memory",
        when: "memory was refused to the limits",
        detail: "",
        example: "",
        advice: "    It is reported as X1.
",
    },
    Fault {
        code: "C1",
        name: "NotLawful",
        when: "a record may not follow those before it",
        detail: "",
        example: "",
        advice: "    It is reported as M2 where a journal has such a record.
",
    },
    Fault {
        code: "C2",
        name: "Finished",
        when: "a record comes after the end of a run",
        detail: "",
        example: "",
        advice: "    It is reported as M2 where a journal has such a record.
",
    },
];

pub(crate) fn of_parts() -> &'static [Fault]
    ensures { map code_of_fault result.now ≡ inner_part_codes }
{
    &OF_PARTS
}

static OF_RUNS: [Fault; 12] = [
    Fault {
        code: "C3",
        name: "Memory",
        when: "memory was refused to a run",
        detail: "",
        example: "",
        advice: "    It is reported as X1.
",
    },
    Fault {
        code: "J2",
        name: "DiskFull",
        when: "a write would pass the size that a disk in memory may have",
        detail: "",
        example: "",
        advice: "    It is a fault within the program, and no command tells it.
",
    },
    Fault {
        code: "J7",
        name: "Broken",
        when: "a journal is written to after a failure",
        detail: "",
        example: "",
        advice: "    It is a fault within the program, and no command tells it.
",
    },
    Fault {
        code: "J8",
        name: "Memory",
        when: "memory was refused to the journal",
        detail: "",
        example: "",
        advice: "    It is reported as X1.
",
    },
    Fault {
        code: "M1",
        name: "Journal",
        when: "the journal is refused",
        detail: "",
        example: "",
        advice: "    It is reported as the fault of the journal, J1 to J9.
",
    },
    Fault {
        code: "M3",
        name: "NotLawful",
        when: "a record may not be added to a run",
        detail: "",
        example: "",
        advice: "    It is a fault within the program, and no command tells it.
",
    },
    Fault {
        code: "M4",
        name: "Memory",
        when: "memory was refused to the manager of a run",
        detail: "",
        example: "",
        advice: "    It is reported as X1.
",
    },
    Fault {
        code: "M5",
        name: "AlreadyFinished",
        when: "a run is ended twice",
        detail: "",
        example: "",
        advice: "    It is a fault within the program, and no command tells it.
",
    },
    Fault {
        code: "A3",
        name: "Manager",
        when: "the manager of a run refuses a record",
        detail: "",
        example: "",
        advice: "    It is reported as the fault of the journal, J1 to J9.
",
    },
    Fault {
        code: "A4",
        name: "NoChild",
        when: "nothing runs that could end",
        detail: "",
        example: "",
        advice: "    It is a fault within the program, and no command tells it.
",
    },
    Fault {
        code: "A5",
        name: "Memory",
        when: "memory was refused to the log of a starter",
        detail: "",
        example: "",
        advice: "    It is reported as X1.
",
    },
    Fault {
        code: "F4",
        name: "Memory",
        when: "memory was refused to an audit",
        detail: "",
        example: "",
        advice: "    It is reported as X1.
",
    },
];

pub(crate) fn of_runs() -> &'static [Fault]
    ensures { map code_of_fault result.now ≡ inner_run_codes }
{
    &OF_RUNS
}
