//! The rescue file that `salvage` makes of a round that was cut short, though its files were changed since.
#![tactic(auto)]

mod carried;
mod changed;
mod fault;
mod here;
mod rescue;
mod rounds;

pub use fault::SalvageFault;
pub use here::{has_own_files, salvage_here, write_rescue};
pub use rescue::{Salvaged, salvage_text};
