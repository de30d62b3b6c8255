//! The command that starts the child of a phase.

use dag_reader::{Text, Texts};

/// What a child is started by.
#[derive(Debug)]
pub struct ChildCommand {
    /// The path of the program.
    pub program: Text,

    /// The words after the program's name.
    pub words: Texts,

    /// The folder in which the child runs. Where it is empty, that is the manager's own.
    pub folder: Text,

    /// The path of the file that is the child's standard input. Without one the input is empty.
    pub input: Option<Text>,

    /// The path of the file that takes the child's standard output. Without one it is dropped.
    pub output: Option<Text>,

    /// The path of the file that takes the child's standard error. Without one it is dropped.
    pub error: Option<Text>,

    /// Settings that are added to the manager's environment, each `name=value`.
    pub environment: Texts,
}

// Each function that drops a value calls this; a derived drop would be in each, part by part.
impl Drop for ChildCommand {
    fn drop(self) {
        let ChildCommand {
            program: _,
            words: _,
            folder: _,
            input: _,
            output: _,
            error: _,
            environment: _,
        } = self;
    }
}

/// What is known of a run when a phase is launched: the numbers of this launch and of the last
/// launch of the job in this attempt, the values of the job and of the PRE script, the state of the
/// DAG as `$DAG_STATUS` has it, and how many ordinary nodes are in error. What there is not yet is 0.
#[derive(Clone, Copy, Debug, PartialEq, Eq)]
pub struct PhaseFacts {
    pub launch: u64,
    pub job_launch: u64,
    pub job_value: i32,
    pub pre_value: i32,
    pub dag_status: u8,
    pub failed: u32,
}
