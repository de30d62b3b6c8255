//! Opens the files of a DAG with their splices, as the rules of `splices` say.
#![tactic(auto)]

mod acting;
mod check;
mod declare;
mod edges;
mod ends;
mod lines;
mod names;
mod nodes;
mod notices;
mod open;
mod own_nodes;
mod parsed_files;
mod warned;

pub use open::open_dag;
pub use splices_flat::{
    AbortSetting, CategoryLimit, CategorySetting, DagFault, DagWarning, Edge, EdgeGroup, FileSet,
    FlatDag, FlatNode, MacroSetting, MacroSettings, NameTable, PreSkipSetting, PrioritySetting,
    RetrySetting, ScriptSetting, Settings, Side, SpliceFault, path_in,
};
