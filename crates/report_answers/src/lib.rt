//! What `report` answers: a page of the last round of a DAG file, from the files beside it.
#![tactic(auto)]

mod bars;
mod here;
mod jobs;
mod limits;
mod pages;
mod rows;

pub use here::page_here;
pub use pages::Wanted;
