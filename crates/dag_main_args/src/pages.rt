//! The pages of faults, as words ask for them.

ghost use Rattle.std.specs.Prelude.{◌≡◌, ◌⊎◌, IfOk, IfErr, string_bytes, option_map};
ghost use Rattle.dag_main_args.specs.Pages.{IsExplained, IsUnexplained};

use crate::request::WordsFault;
use fault_guide::{fault_of, faults, list_text, page_text};
use std::alloc::{AllocError, Global};

/// What is displayed of a code that no fault has, as clap displays a bad value.
fn unknown(alloc: Global, code: &str) -> Result<String, AllocError> {
    format!(in alloc;
        "error: invalid value '{code}' for '[CODE]': no fault has this code\n\nFor more information, try 'dagrun explain'.\n"
    )
}

/// What is displayed of the fault of this code, in letters of either case; without a code, a line for each
/// fault.
///
/// # Errors
/// `Refused` where no fault has this code; `Memory`.
pub(crate) fn explained(alloc: Global, code: Option<&str>) -> Result<String, WordsFault>
    ensures page { IfOk result (λ text. IsExplained (option_map (λ c. c.now) code.entry) (string_bytes text)) }
    ensures refused { IfErr result (λ fault. (fault ≡ WordsFault.Memory) ⊎ IsUnexplained (option_map (λ c. c.now) code.entry)) }
{
    let faults = faults(alloc)?;
    let Some(code) = code else {
        return Ok(list_text(alloc, &faults)?);
    };
    match fault_of(&faults, code) {
        Some(fault) => Ok(page_text(alloc, fault)?),
        None => Err(WordsFault::Refused(unknown(alloc, code)?)),
    }
}
