//! What a page shows of a round, as values.

ghost use Rattle.std.specs.Prelude.{◌≡◌};
ghost use Rattle.report_page.specs.States.{state_word, look_of, look_class, look_of_end, state_number};

/// Where a node is in a round.
#[derive(Clone, Copy, Debug, PartialEq, Eq)]
pub enum NodeState {
    /// It is done.
    Done,
    /// Its last attempt was not good, and no further one is allowed.
    Error,
    /// Its PRE script runs.
    PreRun,
    /// Its job runs.
    Submitted,
    /// Its POST script runs.
    PostRun,
    /// It may start.
    Ready,
    /// It waits.
    NotReady,
}

impl NodeState {
    /// The word of a state, as a status text has it.
    pub fn word(self) -> &'static str
        ensures { result.now ≡ state_word self }
    {
        match self {
            NodeState::Done => "DONE",
            NodeState::Error => "ERROR",
            NodeState::PreRun => "PRERUN",
            NodeState::Submitted => "SUBMITTED",
            NodeState::PostRun => "POSTRUN",
            NodeState::Ready => "READY",
            NodeState::NotReady => "NOT_READY",
        }
    }

    /// The place of a state in the order in which a page counts them.
    pub(crate) fn number(self) -> u8
        ensures { result ≡ state_number self }
    {
        match self {
            NodeState::Done => 0,
            NodeState::Error => 1,
            NodeState::PreRun => 2,
            NodeState::Submitted => 3,
            NodeState::PostRun => 4,
            NodeState::Ready => 5,
            NodeState::NotReady => 6,
        }
    }

    /// How a node of this state looks.
    pub(crate) fn look(self) -> Look
        ensures { result ≡ look_of self }
    {
        match self {
            NodeState::Done => Look::Done,
            NodeState::Error => Look::Error,
            NodeState::PreRun | NodeState::Submitted | NodeState::PostRun => Look::Runs,
            NodeState::Ready => Look::Ready,
            NodeState::NotReady => Look::Waits,
        }
    }
}

/// How a round is.
#[derive(Clone, Copy, Debug, PartialEq, Eq)]
pub enum RoundState {
    /// No round has begun.
    NotBegun,
    /// A manager runs it.
    Runs,
    /// It ended with this exit status.
    Ended(u8),
    /// It has no end, and no manager runs it.
    CutShort,
}

/// How a phase ended.
#[derive(Clone, Copy, Debug, PartialEq, Eq)]
pub enum PhaseEnd {
    /// With this exit code.
    Exit(u8),
    /// By the signal of this number.
    Signal(u8),
    /// It was not reported how.
    Unknown,
    /// It could not be started.
    NotStarted,
    /// It was killed, at an abort or since the run stopped.
    Killed,
    /// Its manager was killed first.
    Lost,
    /// It has not ended.
    Runs,
}

impl PhaseEnd {
    /// How a phase that ended so looks.
    pub(crate) fn look(self) -> Look
        ensures { result ≡ look_of_end self }
    {
        match self {
            PhaseEnd::Exit(0) => Look::Done,
            PhaseEnd::Exit(_) | PhaseEnd::Signal(_) | PhaseEnd::NotStarted => Look::Error,
            PhaseEnd::Unknown | PhaseEnd::Killed | PhaseEnd::Lost => Look::Waits,
            PhaseEnd::Runs => Look::Runs,
        }
    }
}

/// How a part of a page looks: each look has a colour of its own.
#[derive(Clone, Copy, Debug, PartialEq, Eq)]
pub enum Look {
    /// What ended well.
    Done,
    /// What failed.
    Error,
    /// What runs.
    Runs,
    /// What may start.
    Ready,
    /// What waits, or ended neither well nor badly.
    Waits,
    /// What has no state.
    Plain,
}

impl Look {
    /// The class by which the style of a page gives a look its colour.
    pub(crate) fn class(self) -> &'static str
        ensures { result.now ≡ look_class self }
    {
        match self {
            Look::Done => "done",
            Look::Error => "error",
            Look::Runs => "run",
            Look::Ready => "ready",
            Look::Waits => "wait",
            Look::Plain => "plain",
        }
    }
}

/// A node of a round, as its row shows it.
#[derive(Clone, Copy)]
pub struct Row<'a> {
    /// Its full name.
    pub name: &'a str,
    /// Where it is.
    pub state: NodeState,
    /// How many of its attempts ended.
    pub attempts: u64,
    /// The value of the last of them, where one ended.
    pub value: Option<i32>,
    /// When its last attempt began, in milliseconds since the round did, where that is known.
    pub began: Option<u64>,
    /// How long that took, in milliseconds, where that is known.
    pub took: Option<u64>,
    /// The command of its job, where that is known.
    pub command: Option<&'a str>,
    /// The folder in which its job runs.
    pub folder: Option<&'a str>,
    /// The file that has what its job writes.
    pub output: Option<&'a str>,
    /// The file that has the errors that its job writes.
    pub error: Option<&'a str>,
    /// The places of its parents among all rows.
    pub parents: &'a [u32],
    /// Whether it is the FINAL node, which comes after all others.
    pub is_final: bool,
    /// The place among all rows of the first node of its shape, at most its own. Nodes of one shape have one box, where there are many nodes.
    pub alike: u32,
}

/// A phase of a node that was run.
#[derive(Clone, Copy)]
pub struct PhaseBar<'a> {
    /// The full name of the node.
    pub node: &'a str,
    /// The word of the phase: PRE, JOB or POST.
    pub phase: &'a str,
    /// The attempt, from 0.
    pub attempt: u32,
    /// When it began, in milliseconds since the round did.
    pub began: u64,
    /// How long it took, in milliseconds.
    pub took: u64,
    /// How it ended.
    pub end: PhaseEnd,
}

/// A limit on what runs at once, and how full it was.
#[derive(Clone, Copy)]
pub struct LimitRow<'a> {
    /// What it counts, such as jobs.
    pub what: &'a str,
    /// The category whose nodes' jobs it counts, where it counts no others.
    pub category: Option<&'a str>,
    /// How many of these it allows at once.
    pub limit: u64,
    /// How many of them ran at once, at most.
    pub most: u64,
}

/// What a page shows.
#[derive(Clone, Copy)]
pub struct Page<'a> {
    /// The path of the DAG file.
    pub path: &'a str,
    /// The version of the program, as it displays it.
    pub version: &'a str,
    /// How the round is.
    pub round: RoundState,
    /// When it began, as the log has it, where there is a log.
    pub began: Option<&'a str>,
    /// How long it took, or has taken, in milliseconds, where there is a log.
    pub took: Option<u64>,
    /// The warnings of the files, a line each.
    pub warnings: &'a str,
    /// The nodes in plan order.
    pub rows: &'a [Row<'a>],
    /// The phases in the order in which they began.
    pub phases: &'a [PhaseBar<'a>],
    /// The limits on what runs at once.
    pub limits: &'a [LimitRow<'a>],
    /// What `why` prints.
    pub why: &'a str,
    /// The digest of the files by which the round is, in hexadecimal digits.
    pub digest: &'a str,
    /// Where the round has ended, whether `audit` confirms it.
    pub confirmed: Option<bool>,
    /// Whether the page loads itself anew every five seconds.
    pub reloads: bool,
}
