//! What the lines of each kind look like: the table of layouts.

ghost use Rattle.std.specs.Prelude.{◌≡◌, IfSome, map};
ghost use Rattle.dag_reader.specs.LineReader.{word_of};
ghost use Rattle.dag_reader.specs.Layouts.{layout, line_kind};
ghost use Rattle.dag_reader.specs.LayoutViews.{HasRow};
ghost use Rattle.std.specs.Option.{option_map};
ghost use Rattle.std.specs.List.{find, AllByRecursion};
ghost use Rattle.dag_reader.specs.Keywords.{is_keyword};

use crate::token::Token;

/// The most repetitions of a node, and the most jobs of a category at once.
const MOST: u32 = 1_000_000;

/// What a word of a line has to be.
#[derive(Clone, Copy)]
pub(crate) enum Field {
    /// The name of a node or a splice.
    Name,

    /// The name of a node, or ALL_NODES.
    Node,

    /// The name of a submit file.
    SubmitFile,

    /// A path or a program: any word.
    AnyWord,

    /// PRE or POST.
    When,

    /// The name of a category.
    CategoryName,

    /// A number from the first to the second.
    Count(u32, u32),

    /// An `i32`.
    Integer,

    /// An `i32` other than 0.
    NonZero,

    /// The folder after DIR.
    Folder,

    /// The `i32` after UNLESS-EXIT.
    ExitValue,

    /// The number from 0 to 255 after RETURN.
    ExitStatus,

    /// One of the names before CHILD.
    Parent,

    /// One of the names after it.
    Child,

    /// A word of a script's command line.
    Argument,
}

/// What may be in brackets: a keyword, and the words that it wants.
#[derive(Clone, Copy)]
pub(crate) enum Bracket {
    Dir,
    NoOp,
    Done,
    UnlessExit,
    Return,
}

impl Bracket {
    ghost use Rattle.dag_reader.specs.Layouts.{bracket};

    /// The keyword that it begins with.
    pub(crate) fn keyword(self) -> &'static str
        ensures { result.now ≡ (bracket self).keyword }
    {
        match self {
            Bracket::Dir => "DIR",
            Bracket::NoOp => "NOOP",
            Bracket::Done => "DONE",
            Bracket::UnlessExit => "UNLESS-EXIT",
            Bracket::Return => "RETURN",
        }
    }

    /// The words that it wants after that.
    pub(crate) fn fields(self) -> &'static [Field]
        ensures { result.now ≡ (bracket self).fields }
    {
        match self {
            Bracket::Dir => &[Field::Folder],
            Bracket::NoOp | Bracket::Done => &[],
            Bracket::UnlessExit => &[Field::ExitValue],
            Bracket::Return => &[Field::ExitStatus],
        }
    }
}

/// What may come after the words that a line wants.
#[derive(Clone, Copy)]
pub(crate) enum Ending {
    /// These, each once, in any order.
    Brackets(&'static [Bracket]),

    /// Any number of such words.
    Many(Field),

    /// Any number of parents, CHILD, and one child or more.
    Children,
}

/// The kinds of lines that are commands, but for VARS.
#[derive(Clone, Copy)]
pub(crate) enum LineKind {
    Job,
    Parent,
    Script,
    Retry,
    PreSkip,
    Priority,
    Category,
    MaxJobs,
    AbortDagOn,
    Final,
    Splice,
}

/// What a line of one kind looks like: its first word, the words that it wants after that, and
/// what may come after these.
#[derive(Clone, Copy)]
pub(crate) struct Layout {
    pub(crate) kind: LineKind,
    pub(crate) keyword: &'static str,
    pub(crate) fields: &'static [Field],
    pub(crate) ending: Ending,
}

static LAYOUTS: [Layout; 11] = [
    Layout {
        kind: LineKind::Job,
        keyword: "JOB",
        fields: &[Field::Name, Field::SubmitFile],
        ending: Ending::Brackets(&[Bracket::Dir, Bracket::NoOp, Bracket::Done]),
    },
    Layout {
        kind: LineKind::Parent,
        keyword: "PARENT",
        fields: &[Field::Parent],
        ending: Ending::Children,
    },
    Layout {
        kind: LineKind::Script,
        keyword: "SCRIPT",
        fields: &[Field::When, Field::Node, Field::AnyWord],
        ending: Ending::Many(Field::Argument),
    },
    Layout {
        kind: LineKind::Retry,
        keyword: "RETRY",
        fields: &[Field::Node, Field::Count(0, MOST)],
        ending: Ending::Brackets(&[Bracket::UnlessExit]),
    },
    Layout {
        kind: LineKind::PreSkip,
        keyword: "PRE_SKIP",
        fields: &[Field::Node, Field::NonZero],
        ending: Ending::Brackets(&[]),
    },
    Layout {
        kind: LineKind::Priority,
        keyword: "PRIORITY",
        fields: &[Field::Node, Field::Integer],
        ending: Ending::Brackets(&[]),
    },
    Layout {
        kind: LineKind::Category,
        keyword: "CATEGORY",
        fields: &[Field::Node, Field::CategoryName],
        ending: Ending::Brackets(&[]),
    },
    Layout {
        kind: LineKind::MaxJobs,
        keyword: "MAXJOBS",
        fields: &[Field::CategoryName, Field::Count(1, MOST)],
        ending: Ending::Brackets(&[]),
    },
    Layout {
        kind: LineKind::AbortDagOn,
        keyword: "ABORT-DAG-ON",
        fields: &[Field::Node, Field::Integer],
        ending: Ending::Brackets(&[Bracket::Return]),
    },
    Layout {
        kind: LineKind::Final,
        keyword: "FINAL",
        fields: &[Field::Name, Field::SubmitFile],
        ending: Ending::Brackets(&[Bracket::Dir, Bracket::NoOp]),
    },
    Layout {
        kind: LineKind::Splice,
        keyword: "SPLICE",
        fields: &[Field::Name, Field::AnyWord],
        ending: Ending::Brackets(&[Bracket::Dir]),
    },
];

/// The layout of the lines that begin with this word.
pub(crate) fn layout_of(word: &Token<'_>) -> Option<&'static Layout>
    ensures kind { option_map (λ l. l.now.kind) result ≡ line_kind (word_of word.now) }
    ensures row { IfSome result (λ l. HasRow l.now) }
{
    row_of(&LAYOUTS, word)
}

/// The same of any rows that are those of the table.
fn row_of<'t>(rows: &'t [Layout], word: &Token<'_>) -> Option<&'t Layout>
    requires { AllByRecursion HasRow rows.now }
    ensures kind { option_map (λ l. l.now.kind) result
        ≡ find (λ kind. is_keyword (layout kind).keyword (word_of word.now)) (map (λ l. l.kind) rows.now) }
    ensures row { IfSome result (λ l. HasRow l.now) }
{
    first_row(rows, word)
}

/// The first row whose keyword is this word.
fn first_row<'t>(rows: &'t [Layout], word: &Token<'_>) -> Option<&'t Layout>
    ensures { option_map (λ l. l.now) result ≡ find (λ l. is_keyword l.keyword.now (word_of word.now)) rows.now }
{
    rows.iter().find(|row| word.is(row.keyword))
}
