//! The names in a file's PARENT lines and settings that can't stand there.

ghost use Rattle.std.specs.Prelude.{◌≡◌, Some, IfOk, position};
ghost use Rattle.std.specs.Str.{bytes_eq};
ghost use Rattle.splices_flat.specs.Faults.{first_some, line_fault, edge_fault, setting_fault, target_fault, job_target_fault, is_empty_at};

use crate::names::Names;
use dag_reader::{Command, Target, Text, Word};
use splices_flat::{DagFault, Part};
use std::alloc::{AllocError, Global};

/// What names in a file can stand for: its names, and the parts that its splices are.
#[derive(Drop)]
pub(crate) struct NameCheck<'a> {
    pub(crate) path: &'a str,
    pub(crate) names: &'a Names,
    pub(crate) parts: &'a [Part],
}

impl NameCheck<'_> {
    ghost use Rattle.splices.specs.NameCheck.{checked_by};

    /// The fault of the first line that has one.
    pub(crate) fn lines(
        &self,
        alloc: Global,
        commands: &[Command],
    ) -> Result<Option<DagFault>, AllocError>
        ensures { IfOk result (λ fault. fault ≡ first_some (line_fault (checked_by self.now)) commands.now) }
    {
        for command in commands {
            if let Some(fault) = self.line(alloc, command)? {
                return Ok(Some(fault));
            }
        }
        Ok(None)
    }

    /// The fault of a line.
    fn line(&self, alloc: Global, command: &Command) -> Result<Option<DagFault>, AllocError>
        ensures { IfOk result (λ fault. fault ≡ line_fault (checked_by self.now) command.now) }
    {
        match command {
            Command::ParentChild { parents, children } => {
                match self.ends(alloc, parents.as_slice())? {
                    Some(fault) => Ok(Some(fault)),
                    None => self.ends(alloc, children.as_slice()),
                }
            }
            Command::Script { node, .. } => self.target(alloc, node),
            Command::Retry { node, .. } => self.target(alloc, node),
            Command::PreSkip { node, .. } => self.target(alloc, node),
            Command::Vars { node, .. } => self.target(alloc, node),
            Command::Priority { node, .. } => self.job_target(alloc, node),
            Command::Category { node, .. } => self.job_target(alloc, node),
            Command::AbortDagOn { node, .. } => self.job_target(alloc, node),
            _ => Ok(None),
        }
    }

    /// The fault of the first of these names of a PARENT line that has one.
    fn ends(&self, alloc: Global, words: &[Word]) -> Result<Option<DagFault>, AllocError>
        ensures { IfOk result (λ fault. fault ≡ first_some (edge_fault (checked_by self.now)) words.now) }
    {
        for word in words {
            if let Some(fault) = self.end(alloc, word)? {
                return Ok(Some(fault));
            }
        }
        Ok(None)
    }

    /// Whether a name is that of a splice with no nodes.
    fn is_empty(&self, name: &str) -> bool
        ensures { result ≡ is_empty_at (checked_by self.now).counts (position (bytes_eq name.now) (checked_by self.now).splices) }
    {
        match self.names.splices.place_of(name) {
            Some(place) => self.is_empty_at(place),
            None => false,
        }
    }

    fn is_empty_at(&self, place: usize) -> bool
        ensures { result ≡ is_empty_at (checked_by self.now).counts (Some place) }
    {
        match self.parts.get(place) {
            Some(part) => part.count == 0,
            None => false,
        }
    }

    /// The fault of a name in a PARENT line.
    fn end(&self, alloc: Global, word: &Word) -> Result<Option<DagFault>, AllocError>
        ensures { IfOk result (λ fault. fault ≡ edge_fault (checked_by self.now) word.now) }
    {
        let name = word.text();
        if self.names.jobs.has(name) {
            return Ok(None);
        }
        let path = Text::new(alloc, self.path)?;
        let span = word.span();
        if self.names.finals.has(name) {
            Ok(Some(DagFault::FinalSetting(path, span)))
        } else if !self.names.splices.has(name) {
            Ok(Some(DagFault::UnknownNode(path, span)))
        } else if self.is_empty(name) {
            Ok(Some(DagFault::EmptySpliceEdge(path, span)))
        } else {
            Ok(None)
        }
    }

    /// The fault of a setting's target, where FINAL may have the setting.
    fn target(&self, alloc: Global, target: &Target) -> Result<Option<DagFault>, AllocError>
        ensures { IfOk result (λ fault. fault ≡ target_fault (checked_by self.now) target.now) }
    {
        match target {
            Target::Node(word) if self.names.finals.has(word.text()) => { Ok(None) }
            Target::Node(word) => self.job(alloc, word),
            Target::AllNodes(_) => Ok(None),
        }
    }

    /// The fault of a setting's target, where FINAL may not have the setting.
    fn job_target(&self, alloc: Global, target: &Target) -> Result<Option<DagFault>, AllocError>
        ensures { IfOk result (λ fault. fault ≡ job_target_fault (checked_by self.now) target.now) }
    {
        match target {
            Target::Node(word) => self.job(alloc, word),
            Target::AllNodes(_) => Ok(None),
        }
    }

    /// The fault of a word that has to name the node of a JOB line.
    fn job(&self, alloc: Global, word: &Word) -> Result<Option<DagFault>, AllocError>
        ensures { IfOk result (λ fault. fault ≡ setting_fault (checked_by self.now)
            (Some (DagFault.FinalSetting (checked_by self.now).path word.now.span)) word.now) }
    {
        let name = word.text();
        if self.names.jobs.has(name) {
            return Ok(None);
        }
        let path = Text::new(alloc, self.path)?;
        let span = word.span();
        if self.names.finals.has(name) {
            Ok(Some(DagFault::FinalSetting(path, span)))
        } else if self.names.splices.has(name) {
            Ok(Some(DagFault::SpliceSetting(path, span)))
        } else {
            Ok(Some(DagFault::UnknownNode(path, span)))
        }
    }
}
