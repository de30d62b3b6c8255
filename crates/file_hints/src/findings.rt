//! What is found in files, file by file.

use crate::{Finding, Hint, finding_line};
use dag_reader::Text;
use splices_flat::{FileSet, NameTable};
use std::alloc::{AllocError, Global};

/// What is found in a file.
#[derive(Drop)]
struct FileFindings {
    path: Text,
    found: Vec<Finding>,
}

/// What is found in the files of a DAG.
#[derive(Drop)]
pub(crate) struct Findings {
    paths: NameTable,
    files: Vec<FileFindings>,
}

impl Findings {
    /// Nothing so far: the DAG file is first, and then the others in the order of their paths.
    pub(crate) fn new(alloc: Global, files: &FileSet, top: &str) -> Result<Findings, AllocError> {
        let mut findings = Findings {
            paths: NameTable::new(alloc),
            files: Vec::new(alloc),
        };
        findings.add_file(alloc, top)?;
        for (path, _) in files.iter() {
            findings.add_file(alloc, path.as_str())?;
        }
        Ok(findings)
    }

    /// Adds a file, unless it is there.
    fn add_file(&mut self, alloc: Global, path: &str) -> Result<(), AllocError> {
        if self.paths.has(path) {
            return Ok(());
        }
        self.paths.add(alloc, path)?;
        self.files.push(FileFindings {
            path: Text::new(alloc, path)?,
            found: Vec::new(alloc),
        })?;
        Ok(())
    }

    /// Adds what is found in the file of this path.
    pub(crate) fn add(&mut self, path: &str, finding: Finding) -> Result<(), AllocError> {
        let Some(place) = self.paths.place_of(path) else {
            return Ok(());
        };
        if let Some(file) = self.files.get_mut(place) {
            file.found.push(finding)?;
        }
        Ok(())
    }

    /// Adds a hint on a line of the file of this path, if there is one.
    pub(crate) fn add_hint(
        &mut self,
        path: &str,
        line: usize,
        hint: Option<Hint>,
    ) -> Result<(), AllocError> {
        match hint {
            Some(hint) => self.add(path, Finding { line, hint }),
            None => Ok(()),
        }
    }

    /// The same of several.
    pub(crate) fn add_all(&mut self, path: &str, found: Vec<Finding>) -> Result<(), AllocError> {
        for finding in found {
            self.add(path, finding)?;
        }
        Ok(())
    }

    /// What is displayed of them, each line once: file by file, in the order of the lines.
    pub(crate) fn text(mut self, alloc: Global) -> Result<String, AllocError> {
        let mut text = String::new(alloc);
        for file in self.files.iter_mut() {
            file.found.sort_by_key(|finding| finding.line)?;
            push_lines(alloc, &mut text, file.path.as_str(), file.found.as_slice())?;
        }
        Ok(text)
    }
}

/// Adds what is displayed of a file, each line once.
fn push_lines(
    alloc: Global,
    text: &mut String,
    path: &str,
    found: &[Finding],
) -> Result<(), AllocError> {
    let mut told = NameTable::new(alloc);
    for finding in found {
        let line = finding_line(alloc, path, finding)?;
        if !told.has(line.as_str()) {
            told.add(alloc, line.as_str())?;
            text.push_str(line.as_str())?;
        }
    }
    Ok(())
}
