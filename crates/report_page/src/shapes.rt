//! Drawings, as lists of shapes.

use crate::values::{Look, NodeState, PhaseBar};

/// A line that leads from one box to another and is bent between them.
#[derive(Clone, Copy)]
pub struct Bend {
    /// Where it begins.
    pub x: u64,
    /// The height at which it begins.
    pub y: u64,
    /// How far to the right it changes its height.
    pub middle: u64,
    /// Where it ends.
    pub to_x: u64,
    /// The height at which it ends.
    pub to_y: u64,
}

/// A line from top to bottom.
#[derive(Clone, Copy)]
pub struct Rule {
    /// How far to the right it is.
    pub x: u64,
    /// Its upper end.
    pub y: u64,
    /// Its lower end.
    pub to_y: u64,
}

/// A box, or a bar.
#[derive(Clone, Copy)]
pub struct Panel<'a> {
    /// Its left side.
    pub x: u64,
    /// Its upper side.
    pub y: u64,
    /// How wide it is.
    pub width: u64,
    /// How high it is.
    pub height: u64,
    /// Its colour.
    pub look: Look,
    /// What is shown where a pointer rests on it.
    pub title: Caption<'a>,
}

/// A text of a drawing.
#[derive(Clone, Copy)]
pub struct Label<'a> {
    /// Where it begins, or ends.
    pub x: u64,
    /// The height of its base line.
    pub y: u64,
    /// Which of its points is there.
    pub align: Align,
    /// The text.
    pub caption: Caption<'a>,
}

/// Which point of a text is where its label is.
#[derive(Clone, Copy, Debug, PartialEq, Eq)]
pub enum Align {
    /// Its beginning.
    Start,
    /// Its middle.
    Middle,
    /// Its end.
    End,
}

/// A unit of time.
#[derive(Clone, Copy, Debug, PartialEq, Eq)]
pub enum Unit {
    /// A thousandth of a second.
    Millisecond,
    /// A second.
    Second,
    /// A minute.
    Minute,
    /// An hour.
    Hour,
    /// A day.
    Day,
}

/// What a text of a drawing says.
#[derive(Clone, Copy)]
pub enum Caption<'a> {
    /// A name.
    Name(&'a str),
    /// The beginning of a name that is too long.
    Cut(&'a str),
    /// A node, and where it is.
    Node(&'a str, NodeState),
    /// How many nodes have this state.
    Count(u64, NodeState),
    /// How many further nodes there are.
    More(u64),
    /// How many nodes there are.
    Nodes(u64),
    /// Which phase of a node it is, and at which attempt.
    Phase(&'a str, u32),
    /// When a phase ran, and how it ended.
    Ran(PhaseBar<'a>),
    /// How long something took, in milliseconds.
    Took(u64),
    /// A time in such units.
    Time(u64, Unit),
}

/// A shape of a drawing.
#[derive(Clone, Copy)]
pub enum Shape<'a> {
    /// A line between two boxes.
    Bend(Bend),
    /// A line from top to bottom.
    Rule(Rule),
    /// A box, or a bar.
    Panel(Panel<'a>),
    /// A text.
    Label(Label<'a>),
}

/// What a drawing leaves out.
#[derive(Clone, Copy, Debug, PartialEq, Eq)]
pub enum Omission {
    /// Nothing.
    Nothing,
    /// There are so many nodes that each box has all that have the same parents and children.
    Groups,
    /// There are so many that each box has all nodes of so many layers. A layer has those that are equally far from the first
    /// ones.
    Layers(u64),
    /// Only the longest are drawn, so many of so many.
    Longest(u64, u64),
}

/// A drawing.
#[derive(Drop)]
pub struct Drawing<'a> {
    /// How wide it is.
    pub width: u64,
    /// How high it is.
    pub height: u64,
    /// What it leaves out.
    pub omission: Omission,
    /// Its shapes; a later one covers an earlier one.
    pub shapes: Vec<Shape<'a>>,
}
