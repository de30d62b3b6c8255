//! The lines of a rescue file.

ghost use Rattle.std.specs.Prelude.{◌≡◌, ◌⊎◌, ◌<◌, ℕ, List, Option, length, IfOk, IfErr, Ok, Err};
ghost use Rattle.std.specs.Option.{option_map};
ghost use Rattle.std.specs.List.{All};
ghost use Rattle.std.specs.Str.Lines.{lines};
ghost use Rattle.dag_reader.specs.LineReader.{left_of, word_of};
ghost use Rattle.rescue_file.specs.Grammar.{SayNodes, IsFirstBadName};
ghost use Rattle.rescue_file.specs.Reading.{Gives, name_behind, rescue_name_at, node_by_name, rescue_line_at, rescued_of};
ghost use Rattle.rescue_file.specs.Results.{viewed};
ghost use Rattle.rescue_file.specs.declared.fault.RescueFault.{RescueFault};
ghost use Rattle.rescue_file.specs.declared.fault.RescueFault.TheVariants.{Memory};

use crate::fault::RescueFault;
use dag_graph::Graph;
use dag_reader::{LineReader, Token, line_text, split_line};
use std::alloc::Global;

/// The numbers of the nodes that a rescue file marks as done, from 0, in the order of its lines. A
/// node that is there twice comes twice, which does no harm.
///
/// Each line is `DONE` and the full name of an ordinary node, is a comment, or holds no word. The
/// keyword is in any case of ASCII letters. Lines, words and comments are those of a DAG file. Of
/// what HTCondor's chapter "The rescue DAG" has in such a file, this is all that is read.
///
/// # Errors
/// The fault of the first line that is none of these: `BadLine` where it is neither silent nor
/// `DONE` and one word, also where it has over 65,536 bytes, is not UTF-8 or holds a control
/// character other than the tab, comments included; else `UnknownNode` where no node has the name,
/// and `FinalDone` where it is the FINAL node's. `Memory` where memory runs out.
pub fn read_rescue(alloc: Global, bytes: &[u8], graph: &Graph) -> Result<Vec<u32>, RescueFault>
    // The lines say the nodes that are read.
    ensures found { IfOk result (λ nodes. SayNodes graph.now.dag 1 (lines bytes.now) nodes.items) }

    // Where the lines say nodes, these are read, unless memory runs out.
    ensures only { (nodes : List ℕ) → SayNodes graph.now.dag 1 (lines bytes.now) nodes
        → Gives (λ found. found.items) result (Ok nodes) }

    // A fault other than lack of memory is that of the first bad line.
    ensures fault { IfErr result
        (λ fault. (fault ≡ Memory) ⊎ IsFirstBadName graph.now.dag (lines bytes.now) fault) }

    // The fault of the first bad line is given, unless memory runs out before.
    ensures refused { (fault : RescueFault) → IsFirstBadName graph.now.dag (lines bytes.now) fault
        → Gives (λ found. found.items) result (Err fault) }

    // They are ordinary nodes.
    ensures ordinary { IfOk result (λ nodes.
        All (λ node. node < length graph.now.dag.nodes) nodes.items) }

    // All of it at once: what reading the lines from the first gives.
    ensures exact { Gives (λ nodes. nodes.items) result (rescued_of graph.now.dag bytes.now) }
{
    read_lines(alloc, bytes, graph)
}

fn read_lines(alloc: Global, bytes: &[u8], graph: &Graph) -> Result<Vec<u32>, RescueFault>
    ensures { Gives (λ nodes. nodes.items) result (rescued_of graph.now.dag bytes.now) }
{
    let mut nodes = Vec::new(alloc);
    let mut rest = bytes;
    let mut number = 1usize;
    while !rest.is_empty() {
        let (line, after) = split_line(rest);
        if let Some(node) = read_line(number, line, graph)? {
            nodes.push(node)?;
        }
        rest = after;
        number += 1;
    }
    Ok(nodes)
}

/// The node that the line of this number says is done, if it says one.
#[tactic(auto, unfolding(crate::specs::Reading::rescue_line_at))]
fn read_line(number: usize, bytes: &[u8], graph: &Graph) -> Result<Option<u32>, RescueFault>
    ensures { result ≡ rescue_line_at graph.now.dag number bytes.now }
{
    match read_name(number, bytes)? {
        Some(name) => Ok(Some(ordinary_node(number, name, graph)?)),
        None => Ok(None),
    }
}

/// The name of the node that the line of this number says is done, if it says one.
#[tactic(auto, unfolding(crate::specs::Reading::rescue_name_at))]
fn read_name(number: usize, bytes: &[u8]) -> Result<Option<&str>, RescueFault>
    ensures { viewed (option_map (λ name. name.now)) result ≡ rescue_name_at number bytes.now }
{
    let Ok(text) = line_text(number, bytes) else {
        return Err(RescueFault::BadLine(number));
    };
    let mut line = LineReader::new(number, text);
    let Some(first) = line.next_word() else {
        return Ok(None);
    };
    if first.is_comment() {
        return Ok(None);
    }
    match done_name(&first, &mut line) {
        Some(name) => Ok(Some(name)),
        None => Err(RescueFault::BadLine(number)),
    }
}

/// The name after this keyword, if it is `DONE` and one word is left of the line.
fn done_name<'a>(keyword: &Token<'a>, line: &mut LineReader<'a>) -> Option<&'a str>
    ensures { option_map (λ name. name.now) result
        ≡ name_behind (word_of keyword.now) (left_of line.old).words }
{
    if !keyword.is("DONE") {
        return None;
    }
    let name = line.next_word()?;
    match line.next_word() {
        Some(_) => None,
        None => Some(name.text),
    }
}

/// The ordinary node of this name.
fn ordinary_node(number: usize, name: &str, graph: &Graph) -> Result<u32, RescueFault>
    ensures { result ≡ node_by_name graph.now.dag number name.now }
{
    match graph.node_named(name) {
        None => Err(RescueFault::UnknownNode(number)),
        Some(node) => {
            if (node as usize) < graph.flat().nodes().len() {
                Ok(node)
            } else {
                Err(RescueFault::FinalDone(number))
            }
        }
    }
}
