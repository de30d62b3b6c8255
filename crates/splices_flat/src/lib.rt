//! What the files of a DAG with their splices say: nodes in plan order, edges and settings, and the rules by which files are
//! opened. `splices` opens them.
#![tactic(auto)]

mod fault;
mod file_set;
mod flat;
pub mod laws;
mod name_table;
mod part;
mod paths;
mod settings;
mod shared;
mod used;

pub use fault::{DagFault, SpliceFault};
pub use file_set::FileSet;
pub use flat::{
    AbortSetting, CategoryLimit, CategorySetting, DagWarning, Edge, EdgeGroup, FlatDag, FlatNode,
    MacroSetting, MacroSettings, PreSkipSetting, PrioritySetting, RetrySetting, ScriptSetting,
    Settings, Side,
};
pub use name_table::NameTable;
pub use part::{Numbers, Part};
pub use paths::path_in;
pub use settings::{full_category, target_line};
pub use shared::SharedTexts;
pub use used::Used;
