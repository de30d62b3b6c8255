//! The line that says how far a run is.

ghost use Rattle.std.specs.Prelude.{◌≡◌, ◌≤◌, ◌-◌, ◌+◌, ◌<◌, ◌++◌, ◌∷◌, [], map, take, length, chars, OnOk, IfOk, string_bytes};
ghost use Rattle.run_progress.specs.Columns.{columns};
ghost use Rattle.run_progress.specs.Line.{two_digits, clock_of, duration_of, failed_front, percent_of, front_of, seconds_left, left_words, back_of, shown_node, further_nodes, list_of, longest_list, cut_text, first_fitting, progress_line, painted};

use crate::columns::fits;
use std::alloc::{AllocError, Global};

/// How many nodes have come how far.
#[derive(Clone, Copy, Debug, PartialEq, Eq)]
pub struct Counts {
    /// Done, from the start or after a good last attempt.
    pub done: u32,
    /// Those of them that were done as this manager began.
    pub kept: u32,
    /// All nodes, FINAL among them.
    pub total: u32,
    /// None of its phases runs, one is to come, and all its parents are done.
    pub ready: u32,
    /// Its last attempt was not good, and no further one is allowed.
    pub failed: u32,
}

/// A node that runs, and since how many seconds.
#[derive(Clone, Copy, Debug, PartialEq, Eq)]
pub struct RunningNode<'a> {
    pub name: &'a str,
    pub seconds: u64,
}

/// How far a run is.
#[derive(Clone, Copy, Debug)]
pub struct ProgressLine<'a> {
    /// How many nodes have come how far, where that is known.
    pub counts: Option<Counts>,
    /// How many nodes run.
    pub running: usize,
    /// Those of them that run longest, the one that runs longest first.
    pub longest: &'a [RunningNode<'a>],
    /// For how many seconds the run goes on.
    pub seconds: u64,
}

/// Adds a number below a hundred, with two digits.
fn push_two_digits(text: &mut String, number: u64) -> Result<(), AllocError>
    ensures { OnOk result (string_bytes text.new ≡ string_bytes text.old ++ two_digits number) }
{
    write!(text, "{}{}", number / 10, number % 10)
}

/// Adds a time in seconds: `m:ss`, and `h:mm:ss` from an hour on.
fn push_clock(text: &mut String, seconds: u64) -> Result<(), AllocError>
    ensures { OnOk result (string_bytes text.new ≡ string_bytes text.old ++ clock_of seconds) }
{
    if seconds < 3600 {
        write!(text, "{}:", seconds / 60)?;
    } else {
        write!(text, "{}:", seconds / 3600)?;
        push_two_digits(text, (seconds / 60) % 60)?;
        text.push_str(":")?;
    }
    push_two_digits(text, seconds % 60)
}

/// Adds how long a node runs: `n s`, and as `push_clock` from a minute on.
fn push_span(text: &mut String, seconds: u64) -> Result<(), AllocError>
    ensures { OnOk result (string_bytes text.new ≡ string_bytes text.old ++ duration_of seconds) }
{
    if seconds < 60 {
        write!(text, "{seconds} s")
    } else {
        push_clock(text, seconds)
    }
}

/// Adds how many nodes failed, where some did.
fn push_failed(text: &mut String, failed: u32) -> Result<(), AllocError>
    ensures { OnOk result (string_bytes text.new ≡ string_bytes text.old ++ failed_front failed) }
{
    if failed > 0 {
        write!(text, "{failed} failed, ")?;
    }
    Ok(())
}

/// Adds the percent of all nodes that is done, rounded down, where there are nodes.
fn push_percent(text: &mut String, done: u32, total: u32) -> Result<(), AllocError>
    ensures { OnOk result (string_bytes text.new ≡ string_bytes text.old ++ percent_of done total) }
{
    if total > 0 {
        let percent = u64::from(done) * 100 / u64::from(total);
        write!(text, " ({percent}%)")?;
    }
    Ok(())
}

/// What is before the names.
fn front_text(alloc: Global, counts: Option<Counts>, running: usize) -> Result<String, AllocError>
    ensures { IfOk result (λ text. string_bytes text ≡ front_of counts running) }
{
    let mut text = String::new(alloc);
    if let Some(counts) = counts {
        push_failed(&mut text, counts.failed)?;
        write!(text, "{}/{} done", counts.done, counts.total)?;
        push_percent(&mut text, counts.done, counts.total)?;
        text.push_str(", ")?;
    }
    write!(text, "{running} running")?;
    Ok(text)
}

/// How many seconds are left of a run in which this manager has worked for so many: each node that is left takes as long
/// as one that it has done. None before it has done a tenth of what it had to do, and where nothing is left.
fn seconds_left(counts: Counts, seconds: u64) -> Option<u64>
    ensures { result ≡ seconds_left counts seconds }
{
    let fresh = u64::from(counts.done.saturating_sub(counts.kept));
    let left = u64::from(counts.total.saturating_sub(counts.done));
    let first = u64::from(counts.total.saturating_sub(counts.kept));
    if fresh == 0 || left == 0 || 10 * fresh < first {
        return None;
    }
    Some(seconds.saturating_mul(left) / fresh)
}

/// Adds how much time is left, where that is estimated.
fn push_left(text: &mut String, seconds: Option<u64>) -> Result<(), AllocError>
    ensures { OnOk result (string_bytes text.new ≡ string_bytes text.old ++ left_words seconds) }
{
    match seconds {
        Some(seconds) => {
            text.push_str(", ")?;
            push_clock(text, seconds)?;
            text.push_str(" left")
        }
        None => Ok(()),
    }
}

/// What is after them.
fn back_text(alloc: Global, counts: Option<Counts>, seconds: u64) -> Result<String, AllocError>
    ensures { IfOk result (λ text. string_bytes text ≡ back_of counts seconds) }
{
    let mut text = String::new(alloc);
    match counts {
        Some(counts) => {
            write!(text, ", {} ready  ", counts.ready)?;
            push_clock(&mut text, seconds)?;
            push_left(&mut text, seconds_left(counts, seconds))?;
        }
        None => {
            text.push_str("  ")?;
            push_clock(&mut text, seconds)?;
        }
    }
    Ok(text)
}

/// Adds a node that runs.
fn push_entry(text: &mut String, node: &RunningNode<'_>) -> Result<(), AllocError>
    ensures { OnOk result (string_bytes text.new
        ≡ string_bytes text.old ++ shown_node (node.now.name.now, node.now.seconds)) }
{
    text.push_str(node.name)?;
    text.push_str(" ")?;
    push_span(text, node.seconds)
}

/// Adds further nodes, each after a comma.
fn push_further(text: &mut String, nodes: &[RunningNode<'_>]) -> Result<(), AllocError>
    ensures { OnOk result (string_bytes text.new ≡ string_bytes text.old
        ++ further_nodes (map (λ node. (node.name.now, node.seconds)) nodes.now)) }
{
    for node in nodes {
        text.push_str(", ")?;
        push_entry(text, node)?;
    }
    Ok(())
}

/// The first of some nodes between parentheses, of which this many run: `count` of them.
fn list_text(
    alloc: Global,
    nodes: &[RunningNode<'_>],
    count: usize,
    running: usize,
) -> Result<String, AllocError>
    requires { count ≤ length nodes.now }
    ensures { IfOk result (λ text. string_bytes text
        ≡ list_of (map (λ node. (node.name.now, node.seconds)) nodes.now) count running) }
{
    let mut text = String::new(alloc);
    let Some((first, others)) = nodes.split_first() else {
        return Ok(text);
    };
    text.push_str(" (")?;
    push_entry(&mut text, first)?;
    push_further(&mut text, &others[..count.saturating_sub(1)])?;
    text.push_str(if count < running { ", ..)" } else { ")" })?;
    Ok(text)
}

/// The longest list of some nodes, of which this many run, that takes no more columns than there is room;
/// none where not even one node fits.
fn longest_text(
    alloc: Global,
    nodes: &[RunningNode<'_>],
    room: usize,
    running: usize,
) -> Result<String, AllocError>
    ensures { IfOk result (λ text. string_bytes text ≡ longest_list
        (map (λ node. (node.name.now, node.seconds)) nodes.now) room running (length nodes.now)) }
{
    let mut count = nodes.len();
    while count > 0 {
        let text = list_text(alloc, nodes, count, running)?;
        if fits(text.as_str(), room) {
            return Ok(text);
        }
        count -= 1;
    }
    Ok(String::new(alloc))
}

/// A text cut after so many characters less two, with `..` for the rest.
fn cut_text(alloc: Global, text: &str, width: usize) -> Result<String, AllocError>
    ensures { IfOk result (λ cut. string_bytes cut ≡ cut_text text.now width) }
{
    let mut cut = String::new(alloc);
    for character in text.chars().take(width.saturating_sub(2)) {
        cut.push(character)?;
    }
    cut.push_str("..")?;
    Ok(cut)
}

/// The first of these texts that takes no more columns than the width; none where none does.
fn first_fitting(alloc: Global, width: usize, whole: String, bare: String, cut: String) -> String
    ensures is { string_bytes result ≡ first_fitting width
        (string_bytes whole ∷ string_bytes bare ∷ string_bytes cut ∷ []) }
    ensures fits { columns (chars (string_bytes result)) ≤ width }
{
    if fits(whole.as_str(), width) {
        return whole;
    }
    if fits(bare.as_str(), width) {
        return bare;
    }
    if fits(cut.as_str(), width) {
        return cut;
    }
    String::new(alloc)
}

/// The line that says how far a run is, such as
/// `1 failed, 47/160 done (29%), 5 running (s1_06 3 s, s1_07 2 s, ..), 33 ready  0:20, 0:48 left`, with as many
/// names as the width has room for, and cut where it has no room for the numbers. Names that are handed in have
/// no control characters.
///
/// # Errors
/// Lack of memory.
pub fn line_text(alloc: Global, line: &ProgressLine<'_>, width: usize) -> Result<String, AllocError>
    ensures is { IfOk result (λ text. string_bytes text ≡ progress_line line.now.counts
        (map (λ node. (node.name.now, node.seconds)) line.now.longest.now) line.now.running line.now.seconds width) }
    // It is never wider than the terminal.
    ensures fits { IfOk result (λ text. columns (chars (string_bytes text)) ≤ width) }
{
    let front = front_text(alloc, line.counts, line.running)?;
    let back = back_text(alloc, line.counts, line.seconds)?;
    let room = width.saturating_sub(front.len().saturating_add(back.len()));
    let names = longest_text(alloc, line.longest, room, line.running)?;
    let whole = format!(in alloc; "{front}{names}{back}")?;
    let bare = format!(in alloc; "{front}{back}")?;
    let cut = cut_text(alloc, bare.as_str(), width)?;
    Ok(first_fitting(alloc, width, whole, bare, cut))
}

/// A line of `line_text` in colours: where nodes failed, how many these are is red, if the line has it whole.
///
/// # Errors
/// Lack of memory.
pub fn painted(alloc: Global, line: &str, failed: u32) -> Result<String, AllocError>
    ensures { IfOk result (λ text. string_bytes text ≡ painted line.now failed) }
{
    if failed == 0 {
        return String::from_str(alloc, line);
    }
    let front = format!(in alloc; "{failed} failed")?;
    match line.strip_prefix(front.as_str()) {
        Some(rest) => format!(in alloc; "\x1b[31m{front}\x1b[0m{rest}"),
        None => String::from_str(alloc, line),
    }
}
