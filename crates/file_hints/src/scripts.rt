//! The scripts of a DAG's nodes.

use crate::findings::Findings;
use crate::looking::look_at_program;
use crate::opened::{Opened, dir_text, lines_of};
use dag_reader::{Command, Target, Word};
use splices_flat::{FileSet, NameTable, path_in, target_line};
use std::alloc::{AllocError, Global};
use std::fs::File;
use std::rt::{Env, Files};

/// The nodes that a DAG file declares: their names, and the folder of each.
#[derive(Drop)]
struct Declared<'a> {
    names: NameTable,
    dirs: Vec<&'a Option<Word>>,
    /// The folders of those that ALL_NODES stands for, each once.
    all: Vec<&'a str>,
}

impl<'a> Declared<'a> {
    fn of(alloc: Global, commands: &'a [Command]) -> Result<Declared<'a>, AllocError> {
        let mut declared = Declared {
            names: NameTable::new(alloc),
            dirs: Vec::new(alloc),
            all: Vec::new(alloc),
        };
        for command in commands {
            match command {
                Command::Job { name, dir, .. } => {
                    declared.add(alloc, name, dir)?;
                    let folder = dir_text(dir);
                    if !declared.all.contains(&folder) {
                        declared.all.push(folder)?;
                    }
                }
                Command::Final { name, dir, .. } => declared.add(alloc, name, dir)?,
                _ => {}
            }
        }
        Ok(declared)
    }

    fn add(&mut self, alloc: Global, name: &Word, dir: &'a Option<Word>) -> Result<(), AllocError> {
        if !self.names.has(name.text()) {
            self.names.add(alloc, name.text())?;
            self.dirs.push(dir)?;
        }
        Ok(())
    }

    /// The folders from which the scripts of a target are seen.
    fn folders(&self, alloc: Global, target: &Target) -> Result<Vec<&'a str>, AllocError> {
        let mut folders = Vec::new(alloc);
        match target {
            Target::AllNodes(_) => folders.extend_from_slice(self.all.as_slice())?,
            Target::Node(word) => {
                if let Some(place) = self.names.place_of(word.text()) {
                    if let Some(dir) = self.dirs.get(place) {
                        folders.push(dir_text(dir))?;
                    }
                }
            }
        }
        Ok(folders)
    }
}

/// Adds what is odd in the scripts of a DAG file's nodes.
///
/// # Errors
/// Lack of memory.
pub(crate) fn add_scripts<R: Files<File = File> + Env + AllocGlobal>(
    rt: &R,
    files: &FileSet,
    one: &Opened,
    findings: &mut Findings,
) -> Result<(), AllocError> {
    let alloc = rt.alloc();
    let Some(lines) = lines_of(alloc, files, one.path.as_str())? else {
        return Ok(());
    };
    let declared = Declared::of(alloc, lines.commands.as_slice())?;
    for command in lines.commands.iter() {
        if let Command::Script { node, program, .. } = command {
            let line = target_line(node);
            for folder in declared.folders(alloc, node)?.iter() {
                let seat = path_in(alloc, one.folder.as_str(), folder)?;
                let path = path_in(alloc, seat.as_str(), program.text())?;
                let hint = look_at_program(rt, path.as_str())?;
                findings.add_hint(one.path.as_str(), line, hint)?;
            }
        }
    }
    Ok(())
}
