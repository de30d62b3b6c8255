//! The commands of dagrun that look at texts alone, each as a call: what it answers, why it is refused, and how either is displayed.
#![tactic(auto)]

mod check;
mod check_data;
mod console;
mod display;
mod fault;
mod form;
mod missing;
mod plans;
mod warnings;

pub use check::check_text;
pub use console::{Console, MemConsole, SystemConsole};
pub use display::{REFUSED, display_reply};
pub use fault::RunFault;
pub use form::CheckForm;
pub use missing::missing_in;
pub use plans::{graph_of, plan_by, plan_of, plan_with};
pub use warnings::{Answer, warning_text};
