//! The flat DAG: nodes, edges and settings of all files.

ghost use Rattle.std.specs.Prelude.{◌≡◌};
ghost use Rattle.splices_flat.specs.Places.{other_side};

use crate::name_table::NameTable;
use crate::part::Numbers;
use crate::shared::SharedTexts;
use dag_reader::{Placement, Text};
use std::alloc::Global;
use std::fmt;
use std::marker::Model;

/// `SCRIPT PRE` or `SCRIPT POST`: the words of the script, of which the first is the program, and the
/// line that says so. The nodes that a line is for share its words.
#[derive(Debug, Drop)]
pub struct ScriptSetting {
    pub line: usize,
    pub words: SharedTexts,
}

/// `RETRY`: how often a failed node is repeated, and the value that ends this.
#[derive(Clone, Copy, Debug, PartialEq, Eq)]
pub struct RetrySetting {
    pub line: usize,
    pub retries: u32,
    pub unless_exit: Option<i32>,
}

/// `PRE_SKIP`: the value of the PRE script that skips the job.
#[derive(Clone, Copy, Debug, PartialEq, Eq)]
pub struct PreSkipSetting {
    pub line: usize,
    pub value: i32,
}

/// One macro of `VARS`. No two of a node's have one name; letters have no case there.
#[derive(Debug, Drop)]
pub struct MacroSetting {
    pub line: usize,
    pub placement: Placement,
    pub name: Text,
    pub text: Text,
}

/// Macros, which are found by their names in lower case. A contract sees the list of them.
#[derive(Debug, Drop)]
pub struct MacroSettings {
    pub(crate) names: NameTable,
    pub(crate) items: Vec<MacroSetting>,
}

impl Model for MacroSettings {
    ghost use Rattle.std.specs.Prelude.{◌≡◌, List, map};
    ghost use Rattle.splices_flat.specs.MacroKeys.{macro_key};
    ghost use Rattle.splices_flat.specs.declared.flat.MacroSetting.{MacroSetting};

    ghost Value = { List MacroSetting };

    ghost view = { λ m. m.items.items };

    ghost invariant = { λ m. m.names ≡ map macro_key m.items.items };
}

impl MacroSettings {
    ghost use Rattle.std.specs.Prelude.{[]};

    /// The macros as a slice.
    pub fn as_slice(&self) -> &[MacroSetting]
        ensures { result.now ≡ self.now }
    {
        self.items.as_slice()
    }

    pub(crate) fn new(alloc: Global) -> MacroSettings
        ensures { result ≡ [] }
    {
        MacroSettings {
            names: NameTable::new(alloc),
            items: Vec::new(alloc),
        }
    }
}

/// `PRIORITY`: a greater one starts earlier.
#[derive(Clone, Copy, Debug, PartialEq, Eq)]
pub struct PrioritySetting {
    pub line: usize,
    pub value: i32,
}

/// `CATEGORY`: the category's full name.
#[derive(Debug, Drop)]
pub struct CategorySetting {
    pub line: usize,
    pub name: Text,
}

/// `ABORT-DAG-ON`: the value that aborts the DAG, and the exit status that is returned then.
#[derive(Clone, Copy, Debug, PartialEq, Eq)]
pub struct AbortSetting {
    pub line: usize,
    pub value: i32,
    pub status: Option<u8>,
}

/// What lines say of a node beside its declaration. Each setting has the number of its line, from 1.
#[derive(Debug)]
pub struct Settings {
    pub pre: Option<ScriptSetting>,
    pub post: Option<ScriptSetting>,
    pub retry: Option<RetrySetting>,
    pub pre_skip: Option<PreSkipSetting>,
    pub macros: MacroSettings,
    pub priority: Option<PrioritySetting>,
    pub category: Option<CategorySetting>,
    pub abort: Option<AbortSetting>,
}

// Each function that drops a value calls this; a derived drop would be in each, part by part.
impl Drop for Settings {
    fn drop(self) {
        let Settings {
            pre: _,
            post: _,
            retry: _,
            pre_skip: _,
            macros: _,
            priority: _,
            category: _,
            abort: _,
        } = self;
    }
}

/// A node: its full name, the path of its submit file, its folder, and its settings.
#[derive(Debug)]
pub struct FlatNode {
    pub name: Text,
    pub file: Text,
    pub folder: Text,
    pub noop: bool,
    pub done: bool,
    pub settings: Settings,
}

// Each function that drops a value calls this; a derived drop would be in each, part by part.
impl Drop for FlatNode {
    fn drop(self) {
        let FlatNode {
            name: _,
            file: _,
            folder: _,
            noop: _,
            done: _,
            settings: _,
        } = self;
    }
}

/// The child depends on the parent. Nodes go by their numbers.
#[derive(Clone, Copy, Debug, PartialEq, Eq)]
pub struct Edge {
    pub parent: usize,
    pub child: usize,
}

/// Edges: each of the parents is one of each of the children. A PARENT line says one group.
#[derive(Debug, Drop)]
pub struct EdgeGroup {
    pub parents: Numbers,
    pub children: Numbers,
}

impl EdgeGroup {
    ghost use Rattle.splices_flat.specs.Places.{nodes_on_side};

    /// The numbers of the parents, or of the children; a name that is in the line again adds none.
    pub fn ends(&self, side: Side) -> &[usize]
        ensures { result.now ≡ nodes_on_side side self.now }
    {
        match side {
            Side::Parent => self.parents.as_slice(),
            Side::Child => self.children.as_slice(),
        }
    }
}

/// A side of an edge.
#[derive(Clone, Copy, Debug, PartialEq, Eq)]
pub enum Side {
    Parent,
    Child,
}

impl Side {
    /// The other side.
    pub fn other(self) -> Side
        ensures { result ≡ other_side self }
    {
        match self {
            Side::Parent => Side::Child,
            Side::Child => Side::Parent,
        }
    }
}

/// `MAXJOBS`: a category's full name, how many of its jobs run at once, and the file and the line
/// that say so.
#[derive(Debug, Drop)]
pub struct CategoryLimit {
    pub name: Text,
    pub limit: u32,
    pub path: Text,
    pub line: usize,
}

/// A warning of a line of a file that is no fault. It is displayed as `FILE:LINE` and
/// what happens to the line.
#[derive(Debug, Drop)]
pub enum DagWarning {
    /// The line has no effect: its first word is DOT, JOBSTATE_LOG, NODE_STATUS_FILE or
    /// SET_JOB_ATTR.
    Ignored(Text, usize),

    /// A setting of the line is replaced by that of a later one.
    Overridden(Text, usize),
}

impl fmt::Display for DagWarning {
    fn fmt<W: fmt::Write>(&self, f: &mut fmt::Formatter<W>) -> fmt::Result {
        match self {
            DagWarning::Ignored(path, line) => write!(f, "{path}:{line} ignored"),
            DagWarning::Overridden(path, line) => write!(f, "{path}:{line} overridden"),
        }
    }
}

/// The nodes, edges and settings of the files of a DAG.
///
/// The ordinary nodes are in plan order: a node's number is its place, from 0. The FINAL node
/// has the next number.
#[derive(Debug)]
pub struct FlatDag {
    top: Text,
    nodes: Vec<FlatNode>,
    final_node: Option<FlatNode>,
    edges: Vec<EdgeGroup>,
    categories: Vec<CategoryLimit>,
    warnings: Vec<DagWarning>,
}

// Each function that drops a value calls this; a derived drop would be in each, part by part.
impl Drop for FlatDag {
    fn drop(self) {
        let FlatDag {
            top: _,
            nodes: _,
            final_node: _,
            edges: _,
            categories: _,
            warnings: _,
        } = self;
    }
}

impl Model for FlatDag {
    ghost use Rattle.std.specs.Prelude.{length};
    ghost use Rattle.std.specs.List.{All};
    ghost use Rattle.splices_flat.specs.Dag.{Dag, IsGroupBelow, IsWellSized};
    ghost use Rattle.splices_flat.specs.Places.{edges_of};

    ghost Value = { Dag };

    ghost view = { λ d. record { top = d.top; nodes = d.nodes.items; final_node = d.final_node; edges = edges_of d.edges.items; categories = d.categories.items; warnings = d.warnings.items } };

    ghost invariant = { λ d. IsWellSized (record { top = d.top; nodes = d.nodes.items; final_node = d.final_node; edges = edges_of d.edges.items; categories = d.categories.items; warnings = d.warnings.items })
        × All (IsGroupBelow (length d.nodes.items)) d.edges.items };
}

impl FlatDag {
    ghost use Rattle.std.specs.Prelude.{◌≤◌, length};
    ghost use Rattle.std.specs.List.{All};
    ghost use Rattle.std.specs.Option.{option_map};
    ghost use Rattle.splices_flat.specs.Dag.{IsBelow, IsGroupBelow, IsWellSized};
    ghost use Rattle.splices_flat.specs.Places.{edges_of};

    /// The DAG of these nodes and edges: at most 65,536 nodes, and both ends of each edge among them.
    pub fn new(
        top: Text,
        nodes: Vec<FlatNode>,
        final_node: Option<FlatNode>,
        edges: Vec<EdgeGroup>,
        categories: Vec<CategoryLimit>,
        warnings: Vec<DagWarning>,
    ) -> FlatDag
        requires within { IsWellSized (record { top = top; nodes = nodes.items; final_node = final_node; edges = edges_of edges.items; categories = categories.items; warnings = warnings.items }) }
        requires below { All (IsGroupBelow (length nodes.items)) edges.items }
        ensures { result ≡ record { top = top; nodes = nodes.items; final_node = final_node; edges = edges_of edges.items; categories = categories.items; warnings = warnings.items } }
    {
        FlatDag {
            top,
            nodes,
            final_node,
            edges,
            categories,
            warnings,
        }
    }

    /// The path of the file that was opened first, as it was handed in.
    pub fn top(&self) -> &str
        ensures { result.now ≡ self.now.top }
    {
        self.top.as_str()
    }

    /// The ordinary nodes in plan order, at most 65,536.
    pub fn nodes(&self) -> &[FlatNode]
        ensures are { result.now ≡ self.now.nodes }
        ensures few { length self.now.nodes ≤ 65536 }
    {
        self.nodes.as_slice()
    }

    /// The FINAL node, if there is one.
    pub fn final_node(&self) -> Option<&FlatNode>
        ensures { option_map (λ n. n.now) result ≡ self.now.final_node }
    {
        match &self.final_node {
            Some(node) => Some(node),
            None => None,
        }
    }

    /// The pairs of parents and children, which are ordinary nodes, in the groups that PARENT lines
    /// say; a pair may be there more than once.
    pub fn edges(&self) -> &[EdgeGroup]
        ensures are { edges_of result.now ≡ self.now.edges }
        ensures within { All (IsBelow (length self.now.nodes)) self.now.edges }
        ensures below { All (IsGroupBelow (length self.now.nodes)) result.now }
    {
        self.edges.as_slice()
    }

    /// Each category that has a MAXJOBS, once.
    pub fn categories(&self) -> &[CategoryLimit]
        ensures { result.now ≡ self.now.categories }
    {
        self.categories.as_slice()
    }

    /// The warnings of lines, each notice once, in the order of the files and of their lines.
    pub fn warnings(&self) -> &[DagWarning]
        ensures { result.now ≡ self.now.warnings }
    {
        self.warnings.as_slice()
    }
}
