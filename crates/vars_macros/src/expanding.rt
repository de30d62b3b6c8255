//! The expansion of a text.

ghost use Rattle.std.specs.Prelude.{◌≡◌, Bool, true, false, IsTrue, Ok};
ghost use Rattle.std.specs.Str.{IsUtf8};
ghost use Rattle.vars_macros.specs.Meaning.{MacroScope, scope_of};
ghost use Rattle.vars_macros.specs.Scopes.{scope_seen, IsTextScope};
ghost use Rattle.vars_macros.specs.Expansion.{expansion};
ghost use Rattle.vars_macros.specs.Answers.{Gives};
ghost use Rattle.vars_macros.specs.Output.{expansion_of};
ghost use Rattle.vars_macros.specs.Pairs.{ArePairsOf, closer_of};

use crate::fault::MacroFault;
use crate::machine::Machine;
use crate::macros::Macros;
use crate::output::{Expanded, LONGEST_TEXT, Output};
use crate::pairs::Pairs;
use crate::part::Part;
use crate::scope::Scope;
use dag_reader::Text;
use itoa::Buffer;
use std::alloc::Global;

/// The number of an attempt, from 0, and that of the launch of its job.
#[derive(Clone, Copy, Debug)]
pub struct Attempt {
    pub retry: u32,
    pub launch: u64,
}

/// Expands a text of a submit file.
///
/// A reference is `$(name)` or `$(name:default)`. `Cluster` and `ClusterId` are the number of the
/// launch, `Process` and `ProcId` are 0. Any other name stands for the expansion of what is assigned
/// to it last, and where nothing is, `JOB` and `RETRY` are the node's name and the number of the
/// attempt, and else the default is expanded. No result is scanned again.
///
/// # Errors
/// The first fault from the left, those of what a reference stands for at its place: `BadReference`
/// of a parenthesis after two dollar signs or after a dollar sign and a word, `Unclosed`,
/// `BadReference` of a name, `Loop`, and `TooLong` at the byte or the reference that is too many.
/// `Memory` where memory runs out.
pub fn expand(
    alloc: Global,
    text: &str,
    macros: &Macros,
    attempt: Attempt,
) -> Result<Expanded, MacroFault>
    ensures { Gives expansion_of result (expansion (scope_of macros.now attempt) false text.now) }
{
    expand_text(alloc, text, false, macros, attempt)
}

/// Expands a text of a VARS line: as `expand` does, but a reference `$(JOB)` or `$(RETRY)` without a
/// default is the node's name or the number of the attempt, whatever is assigned.
///
/// # Errors
/// Those of `expand`.
pub fn expand_vars(
    alloc: Global,
    text: &str,
    macros: &Macros,
    attempt: Attempt,
) -> Result<Expanded, MacroFault>
    ensures { Gives expansion_of result (expansion (scope_of macros.now attempt) true text.now) }
{
    expand_text(alloc, text, true, macros, attempt)
}

fn expand_text(
    alloc: Global,
    text: &str,
    vars: bool,
    macros: &Macros,
    attempt: Attempt,
) -> Result<Expanded, MacroFault>
    ensures { Gives expansion_of result (expansion (scope_of macros.now attempt) vars text.now) }
{
    if is_plain(text.as_bytes()) {
        let text = Text::new(alloc, text)?;
        return Ok(Expanded {
            text,
            whole_run: false,
        });
    }
    let mut launch = Buffer::new();
    let mut retry = Buffer::new();
    let scope = macros.scope(retry.format(attempt.retry), launch.format(attempt.launch));
    let pairs = Pairs::of(alloc, text.as_bytes())?;
    expand_in(alloc, text.as_bytes(), &pairs, vars, scope)
}

/// Whether a text stands for itself: it refers to nothing, and is not too long. Most are so.
fn is_plain(text: &[u8]) -> bool
    ensures { IsTrue result → (scope : MacroScope) (vars : Bool)
        → expansion scope vars text.now ≡ Ok (record { text = text.now; whole_run = false }) }
{
    text.len() <= LONGEST_TEXT && !text.contains(&b'$')
}

fn expand_in<'a>(
    alloc: Global,
    text: &'a [u8],
    pairs: &'a Pairs,
    vars: bool,
    scope: Scope<'a>,
) -> Result<Expanded, MacroFault>
    requires text { IsUtf8 text.now }
    requires pairs { ArePairsOf text.now (closer_of pairs.now) }
    requires scope { IsTextScope (scope_seen scope) }
    ensures { Gives expansion_of result (expansion (scope_seen scope.entry) vars text.now) }
{
    let part = Part::whole(text, pairs, None, scope.names);
    let mut machine = Machine::new(alloc, scope, vars, part);
    let mut output = Output::new(alloc);
    while let Some(event) = machine.next()? {
        output.count(event)?;
    }
    output.finish(alloc)
}
