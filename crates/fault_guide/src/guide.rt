//! What is displayed of a fault, from the table of faults.

ghost use Rattle.std.specs.Prelude.{◌≡◌, ◌++◌, map, find, OnOk, IfOk, string_bytes, option_map};
ghost use Rattle.fault_guide.specs.Codes.{AreAllFaults, code_of_fault, lent_codes};
ghost use Rattle.fault_guide.specs.Guide.{has_code, part_text, page_text, list_line, list_text};

use crate::{files, inner, jobs, lines, rounds, running};
use std::alloc::{AllocError, Global};

/// A fault: its code and its name, when it comes, what is displayed after its name, an example of it as a
/// transcript, and what to do.
#[derive(Clone, Copy, Debug)]
pub struct Fault {
    pub code: &'static str,
    pub name: &'static str,
    pub when: &'static str,
    pub detail: &'static str,
    pub example: &'static str,
    pub advice: &'static str,
}

/// Adds these faults after the others.
fn add_all(all: &mut Vec<&'static Fault>, part: &'static [Fault]) -> Result<(), AllocError>
    ensures { OnOk result (lent_codes all.new.items ≡ lent_codes all.old.items ++ map code_of_fault part.now) }
{
    for fault in part {
        all.push(fault)?;
    }
    Ok(())
}

/// All faults, each code once: first those that commands tell, in the order in which docs/MANUAL.md
/// has them, then those that no command tells by their own code.
///
/// # Errors
/// Lack of memory, and nothing else.
pub fn faults(alloc: Global) -> Result<Vec<&'static Fault>, AllocError>
    ensures { IfOk result (λ all. AreAllFaults all.items) }
{
    let mut all = Vec::new(alloc);
    for part in [
        lines::faults(),
        files::faults(),
        jobs::faults(),
        rounds::faults(),
        running::faults(),
        inner::of_files(),
        inner::of_parts(),
        inner::of_runs(),
    ] {
        add_all(&mut all, part)?;
    }
    Ok(all)
}

/// The first of these faults that has this code.
fn first_of<'t, 'f>(faults: &'t [&'f Fault], code: &str) -> Option<&'t &'f Fault>
    ensures { option_map (λ f. f.now) result ≡ find (λ f. has_code code.now f.now) faults.now }
{
    faults
        .iter()
        .find(|fault| fault.code.eq_ignore_ascii_case(code))
}

/// The first of these faults that has this code, in letters of either case, if there is one.
pub fn fault_of<'f>(faults: &[&'f Fault], code: &str) -> Option<&'f Fault>
    ensures { result ≡ find (λ f. has_code code.now f.now) faults.now }
{
    first_of(faults, code).copied()
}

/// Adds a part of a page after its heading, where there is one.
fn push_part(text: &mut String, heading: &str, part: &str) -> Result<(), AllocError>
    ensures { OnOk result (string_bytes text.new ≡ string_bytes text.old ++ part_text heading.now part.now) }
{
    if part.is_empty() {
        return Ok(());
    }
    write!(text, "\n{heading}:\n{part}")
}

/// What is displayed of a fault.
///
/// # Errors
/// Lack of memory, and nothing else.
pub fn page_text(alloc: Global, fault: &Fault) -> Result<String, AllocError>
    ensures { IfOk result (λ text. string_bytes text ≡ page_text fault.now) }
{
    let mut text = String::new(alloc);
    let Fault {
        code,
        name,
        when,
        detail,
        ..
    } = *fault;
    if detail.is_empty() {
        writeln!(text, "{code} {name}\n    {when}")?;
    } else {
        writeln!(text, "{code} {name} {detail}\n    {when}")?;
    }
    push_part(&mut text, "Example", fault.example)?;
    push_part(&mut text, "What to do", fault.advice)?;
    Ok(text)
}

/// Adds the line of a fault.
fn push_line(text: &mut String, fault: &Fault) -> Result<(), AllocError>
    ensures { OnOk result (string_bytes text.new ≡ string_bytes text.old ++ list_line fault.now) }
{
    let (code, name, when) = (fault.code, fault.name, fault.when);
    writeln!(text, "{code} {name}: {when}")
}

/// A line for each of these faults: its code, its name, and when it comes.
///
/// # Errors
/// Lack of memory, and nothing else.
pub fn list_text(alloc: Global, faults: &[&Fault]) -> Result<String, AllocError>
    ensures { IfOk result (λ text. string_bytes text ≡ list_text (map (λ f. f.now) faults.now)) }
{
    let mut text = String::new(alloc);
    for fault in faults {
        push_line(&mut text, fault)?;
    }
    Ok(text)
}
