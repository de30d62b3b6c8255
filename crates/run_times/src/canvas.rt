//! Where things are in a picture. All lengths are in tenths of a pixel.

ghost use Rattle.std.specs.Prelude.{◌≡◌, length};
ghost use Rattle.run_times.specs.Canvas.{row_height_of, latest_end, canvas_of, axis_place, top_of, is_labelled, bar_height_of, letters_of, load_top_of, load_bottom_of, frame_of, picture_height_of};

use crate::runs::PhaseRun;

/// The length of the axis of time.
const AXIS: u64 = 10_000;

/// The room to the left of it.
const LEFT: u64 = 200;

/// The room to the right of it, which labels of the last phases have.
const RIGHT: u64 = 1_800;

/// The width of a picture.
pub(crate) const WIDTH: u64 = LEFT + AXIS + RIGHT;

/// Where labels end at the latest.
pub(crate) const EDGE: u64 = WIDTH - 20;

/// The room above the bars: the legend, and the words of the axis.
const HEAD: u64 = 560;

/// The upper side of the grid, above which the words of the axis are.
pub(crate) const MARKS: u64 = 500;

/// The least height of a row that has labels.
const LABELLED: u64 = 130;

/// The room between the bars and the row of how many ran.
const GAP: u64 = 240;

/// The height of the row of how many ran.
pub(crate) const LOAD: u64 = 600;

/// The height of a picture whose rows have no labels, without what is above and below these.
const DENSE: u64 = 19_500;

/// The height of each of so many rows.
fn row_height(rows: usize) -> u64
    ensures { result ≡ row_height_of rows }
{
    match rows {
        0..=60 => 180,
        61..=150 => LABELLED,
        many => (DENSE / many as u64).max(1),
    }
}

/// The latest end of a phase, in milliseconds since the log began; 0 where there is none.
pub(crate) fn latest_end(runs: &[PhaseRun<'_>]) -> u64
    ensures { result ≡ latest_end runs.now (length runs.now) }
{
    let mut latest: u64 = 0;
    for run in runs {
        latest = latest.max(run.end());
    }
    latest
}

/// Where the row of how many ran is, and its words.
#[derive(Clone, Copy)]
pub(crate) struct Frame {
    pub(crate) left: u64,
    pub(crate) right: u64,
    pub(crate) top: u64,
    pub(crate) bottom: u64,
    /// the line on which its heading is
    pub(crate) words: u64,
    /// where the words of its scale begin
    pub(crate) scale: u64,
}

/// What is drawn.
#[derive(Clone, Copy)]
pub(crate) struct Canvas {
    /// the milliseconds of the axis, at least one
    pub(crate) total: u64,
    /// how many rows of bars there are
    rows: u64,
    /// the height of such a row
    height: u64,
}

impl Canvas {
    /// That of these phases in so many rows.
    pub(crate) fn new(runs: &[PhaseRun<'_>], rows: usize) -> Canvas
        ensures { result ≡ canvas_of runs.now rows }
    {
        Canvas {
            total: latest_end(runs).max(1),
            rows: rows as u64,
            height: row_height(rows),
        }
    }

    /// A time along the axis.
    pub(crate) fn place(&self, time: u64) -> u64
        ensures { result ≡ axis_place self.now time }
    {
        (time.min(self.total).saturating_mul(AXIS) / self.total.max(1)).saturating_add(LEFT)
    }

    /// The upper side of a row.
    pub(crate) fn top(&self, row: usize) -> u64
        ensures { result ≡ top_of self.now row }
    {
        (row as u64)
            .saturating_mul(self.height)
            .saturating_add(HEAD)
    }

    /// Where the rows end.
    fn bottom(&self) -> u64
        ensures { result ≡ top_of self.now self.now.rows }
    {
        self.rows.saturating_mul(self.height).saturating_add(HEAD)
    }

    /// Whether the bars have labels.
    pub(crate) fn is_labelled(&self) -> bool
        ensures { result ≡ is_labelled self.now }
    {
        self.height >= LABELLED
    }

    /// The height of a bar: a row's, without a line between two rows where these are high.
    pub(crate) fn bar_height(&self) -> u64
        ensures { result ≡ bar_height_of self.now }
    {
        if self.is_labelled() {
            self.height.saturating_sub(20)
        } else {
            self.height
        }
    }

    /// The lower side of the letters in a row.
    pub(crate) fn letters(&self, row: usize) -> u64
        ensures { result ≡ letters_of self.now row }
    {
        self.top(row)
            .saturating_add(self.bar_height() / 2)
            .saturating_add(40)
    }

    /// Where the row of how many ran is.
    pub(crate) fn frame(&self) -> Frame
        ensures { result ≡ frame_of self.now }
    {
        let (right, top) = (self.place(self.total), self.load_top());
        Frame {
            left: self.place(0),
            right,
            top,
            bottom: self.load_bottom(),
            words: top.saturating_sub(60),
            scale: right.saturating_add(60),
        }
    }

    /// The upper side of the row of how many ran.
    fn load_top(&self) -> u64
        ensures { result ≡ load_top_of self.now }
    {
        self.bottom().saturating_add(GAP)
    }

    /// The lower side of it.
    pub(crate) fn load_bottom(&self) -> u64
        ensures { result ≡ load_bottom_of self.now }
    {
        self.load_top().saturating_add(LOAD)
    }

    /// The height of the picture.
    pub(crate) fn picture_height(&self) -> u64
        ensures { result ≡ picture_height_of self.now }
    {
        self.load_bottom().saturating_add(100)
    }
}
