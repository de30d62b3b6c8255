//! Files that are named by the number of a launch. It begins at 1 again in each round, so two nodes may have one number in two rounds,
//! and one file.

use crate::Hint;
use crate::findings::Findings;
use crate::jobs::{JobFile, command_at, expanded_at};
use dag_reader::Text;
use splices_flat::{FlatNode, NameTable};
use std::alloc::{AllocError, Global};
use vars_macros::{Attempt, Macros};

/// The files that jobs write whose launch is the first one of a round, and that are named by its number.
#[derive(Drop)]
pub(crate) struct CountedFiles<'a> {
    paths: NameTable,
    /// The first node that writes each.
    nodes: Vec<&'a str>,
    /// Those of which it was told that another node writes them.
    told: NameTable,
}

/// The first launch of a round.
const FIRST: Attempt = Attempt {
    retry: 0,
    launch: 1,
};

/// Whether the number of the launch is in what a text stands for, where it can be expanded.
fn is_counted(alloc: Global, text: &str, macros: &Macros) -> Result<bool, AllocError> {
    match expanded_at(alloc, text, macros, FIRST)? {
        Some(expanded) => Ok(expanded.whole_run),
        None => Ok(false),
    }
}

impl<'a> CountedFiles<'a> {
    /// None so far.
    pub(crate) fn new(alloc: Global) -> CountedFiles<'a> {
        CountedFiles {
            paths: NameTable::new(alloc),
            nodes: Vec::new(alloc),
            told: NameTable::new(alloc),
        }
    }

    /// The first node that writes a file.
    fn first_of(&self, path: &str) -> Option<&'a str> {
        let place = self.paths.place_of(path)?;
        self.nodes.get(place).copied()
    }

    /// The first node that writes a file, where it is another one than this; none where that was told before.
    fn other(
        &mut self,
        alloc: Global,
        path: &str,
        node: &'a str,
    ) -> Result<Option<&'a str>, AllocError> {
        if !self.paths.has(path) {
            self.paths.add(alloc, path)?;
            self.nodes.push(node)?;
            return Ok(None);
        }
        if self.told.has(path) {
            return Ok(None);
        }
        match self.first_of(path) {
            Some(first) if first != node => {
                self.told.add(alloc, path)?;
                Ok(Some(first))
            }
            _ => Ok(None),
        }
    }

    /// Adds a file that a node writes: what is odd where another one writes it, too.
    fn add_file(
        &mut self,
        alloc: Global,
        node: &'a str,
        path: &str,
    ) -> Result<Option<Hint>, AllocError> {
        match self.other(alloc, path, node)? {
            Some(first) => Ok(Some(Hint::CountedOutput {
                path: Text::new(alloc, path)?,
                first: Text::new(alloc, first)?,
                second: Text::new(alloc, node)?,
            })),
            None => Ok(None),
        }
    }

    /// Adds the files of a node's streams that are named by the number of its launch, and what is odd in them.
    ///
    /// # Errors
    /// Lack of memory.
    pub(crate) fn add(
        &mut self,
        alloc: Global,
        node: &'a FlatNode,
        macros: &Macros,
        file: &JobFile,
        findings: &mut Findings,
    ) -> Result<(), AllocError> {
        if !is_counted(alloc, "$(output)$(error)", macros)? {
            return Ok(());
        }
        let Some(command) = command_at(alloc, node, macros, FIRST)? else {
            return Ok(());
        };
        let streams = [
            ("output", "$(output)", &command.output),
            ("error", "$(error)", &command.error),
        ];
        for (stream, text, path) in streams {
            if let Some(path) = path {
                if is_counted(alloc, text, macros)? {
                    let hint = self.add_file(alloc, node.name.as_str(), path.as_str())?;
                    findings.add_hint(file.path.as_str(), file.line_of(stream), hint)?;
                }
            }
        }
        Ok(())
    }
}
