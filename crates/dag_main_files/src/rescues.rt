//! The rescue files of later rounds, which are put away where a round goes back to one before them.

ghost use Rattle.std.specs.Prelude.{◌≡◌, ◌↔◌, IsTrue, IfOk, IfErr, Contains};
ghost use Rattle.dag_main_check.specs.declared.fault.RunFault.TheVariants.{Memory};
ghost use Rattle.dag_main_files.specs.Rescues.{AreAbove};

use crate::beside::rescue_path;
use dag_main_check::RunFault;
use dag_reader::Text;
use rescue_file::pick_number;
use std::alloc::Global;

/// Whether this name is among these.
fn stands_in(names: &[Text], name: &str) -> bool
    ensures { IsTrue result ↔ Contains names.now name.now }
{
    names.iter().any(|there| there.as_str() == name)
}

/// The numbers above this one of the rescue files of a top DAG file that stand among the names of its
/// folder, the highest first: in that order they are renamed where a round goes back to this one. A
/// name counts only if it is the `rescue_name` of a number, so one with `.old` after it does not.
///
/// # Errors
/// `Memory` alone.
pub fn numbers_above(
    alloc: Global,
    names: &[Text],
    top: &str,
    from: u16,
) -> Result<Vec<u16>, RunFault>
    ensures above { IfOk result (λ numbers. AreAbove names.now top.now from numbers.items) }
    ensures refused { IfErr result (λ fault. fault ≡ Memory) }
{
    let mut numbers = Vec::new(alloc);
    let mut number = pick_number(names, top);
    while number > from {
        let name = rescue_path(alloc, top, number)?;
        if stands_in(names, name.as_str()) {
            numbers.push(number)?;
        }
        number -= 1;
    }
    Ok(numbers)
}
