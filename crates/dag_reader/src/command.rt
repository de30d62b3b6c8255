//! What the lines of a file say.

use crate::span::Span;
use crate::word::{Word, Words};
use std::alloc::{AllocError, Global};
use std::fmt;
use std::marker::Model;

/// The node that a setting is for.
#[derive(Debug, Drop)]
pub enum Target {
    /// The node of this name.
    Node(Word),

    /// Each node that a JOB line of the same file declares: the word ALL_NODES, in any case.
    AllNodes(Span),
}

/// When a script of a node runs.
#[derive(Clone, Copy, Debug, PartialEq, Eq)]
pub enum ScriptKind {
    /// Before the node's job.
    Pre,

    /// After the node's job.
    Post,
}

/// Where the macros of a VARS line go.
#[derive(Clone, Copy, Debug, PartialEq, Eq)]
pub enum Placement {
    /// Before the assignments of the submit file.
    Prepend,

    /// After them.
    Append,
}

/// A macro: its name, and its text without the quotes and the backslashes of escapes. The span of
/// the text holds its quotes.
#[derive(Debug, Drop)]
pub struct Macro {
    pub name: Word,
    pub text: Word,
}

/// Macros, as the line has them. A contract sees the list of them.
#[derive(Drop)]
pub struct Macros {
    items: Vec<Macro>,
}

impl Model for Macros {
    ghost use Rattle.std.specs.Prelude.{List};
    ghost use Rattle.dag_reader.specs.declared.command.Macro.{Macro};

    ghost Value = { List Macro };

    ghost view = { λ m. m.items.items };
}

impl Macros {
    ghost use Rattle.std.specs.Prelude.{◌≡◌, ◌==◌, ◌++◌, [], ◌∷◌, length, IfOk, OnErr};

    /// The macros as a slice.
    pub fn as_slice(&self) -> &[Macro]
        ensures { result.now ≡ self.now }
    {
        self.items.as_slice()
    }

    /// Whether there are none.
    pub fn is_empty(&self) -> bool
        ensures { result ≡ (length self.now == 0) }
    {
        self.items.is_empty()
    }

    pub(crate) fn new(alloc: Global) -> Macros
        ensures { result ≡ [] }
    {
        Macros {
            items: Vec::new(alloc),
        }
    }

    pub(crate) fn push(&mut self, one: Macro) -> Result<(), AllocError>
        ensures ok { IfOk result (λ _. self.new ≡ self.old ++ one ∷ []) }
        ensures err { OnErr result (self.new ≡ self.old) }
    {
        self.items.push(one)?;
        Ok(())
    }
}

impl fmt::Debug for Macros {
    fn fmt<W: fmt::Write>(&self, f: &mut fmt::Formatter<W>) -> fmt::Result {
        fmt::Debug::fmt(self.as_slice(), f)
    }
}

/// What one line of a DAG file says, as the chapter "DAG input file commands" of the HTCondor
/// manual has it.
#[derive(Debug)]
pub enum Command {
    /// `JOB name file [DIR dir] [NOOP] [DONE]`: a node and its submit file.
    Job {
        name: Word,
        file: Word,
        dir: Option<Word>,
        noop: bool,
        done: bool,
    },

    /// `PARENT name.. CHILD name..`: each child depends on each parent.
    ParentChild {
        parents: Words,
        children: Words,
    },

    /// `SCRIPT PRE|POST node program word..`: a program that runs before or after the job.
    Script {
        kind: ScriptKind,
        node: Target,
        program: Word,
        arguments: Words,
    },

    /// `RETRY node n [UNLESS-EXIT v]`: how often a failed node is repeated, from 0 to 1,000,000,
    /// and the value that ends this.
    Retry {
        node: Target,
        retries: u32,
        unless_exit: Option<i32>,
    },

    /// `PRE_SKIP node v`: the value of the PRE script, not 0, that skips the job.
    PreSkip {
        node: Target,
        value: i32,
    },

    /// `VARS node [PREPEND|APPEND] macro="text" ..`: one macro or more for a node's submit file.
    Vars {
        node: Target,
        placement: Placement,
        macros: Macros,
    },

    /// `PRIORITY node k`: how early a node starts; higher is earlier.
    Priority {
        node: Target,
        priority: i32,
    },

    /// `CATEGORY node category`: the category, of 1 to 255 bytes, that a node belongs to.
    Category {
        node: Target,
        category: Word,
    },

    /// `MAXJOBS category n`: how many jobs of a category run at once, from 1 to 1,000,000.
    MaxJobs {
        category: Word,
        limit: u32,
    },

    /// `ABORT-DAG-ON node v [RETURN r]`: the value of the node that aborts the DAG, and the exit
    /// status that is returned then.
    AbortDagOn {
        node: Target,
        value: i32,
        status: Option<u8>,
    },

    /// `FINAL name file [DIR dir] [NOOP]`: the node that runs last.
    Final {
        name: Word,
        file: Word,
        dir: Option<Word>,
        noop: bool,
    },

    /// `SPLICE name file [DIR dir]`: the nodes of another file.
    Splice {
        name: Word,
        file: Word,
        dir: Option<Word>,
    },

    /// `DOT ..`, `JOBSTATE_LOG ..`, `NODE_STATUS_FILE ..` or `SET_JOB_ATTR ..`: a line that has no
    /// effect here, of which the user is warned. The span is that of its first word.
    Ignored(Span),
}

// Each function that drops a value calls this; a derived drop would be in each, part by part.
impl Drop for Command {
    fn drop(self) {
        match self {
            Command::Job {
                name: _,
                file: _,
                dir: _,
                noop: _,
                done: _,
            } => {}
            Command::ParentChild {
                parents: _,
                children: _,
            } => {}
            Command::Script {
                kind: _,
                node: _,
                program: _,
                arguments: _,
            } => {}
            Command::Retry {
                node: _,
                retries: _,
                unless_exit: _,
            } => {}
            Command::PreSkip { node: _, value: _ } => {}
            Command::Vars {
                node: _,
                placement: _,
                macros: _,
            } => {}
            Command::Priority {
                node: _,
                priority: _,
            } => {}
            Command::Category {
                node: _,
                category: _,
            } => {}
            Command::MaxJobs {
                category: _,
                limit: _,
            } => {}
            Command::AbortDagOn {
                node: _,
                value: _,
                status: _,
            } => {}
            Command::Final {
                name: _,
                file: _,
                dir: _,
                noop: _,
            } => {}
            Command::Splice {
                name: _,
                file: _,
                dir: _,
            } => {}
            Command::Ignored(_) => {}
        }
    }
}

/// What the lines of a file say, in their order; lines that say nothing are left out. The spans of
/// a command have the number of its line.
#[derive(Debug)]
pub struct DagFile {
    pub commands: Vec<Command>,
}

// Each function that drops a value calls this; a derived drop would be in each, part by part.
impl Drop for DagFile {
    fn drop(self) {
        let DagFile { commands: _ } = self;
    }
}
