//! What is noted of files: the limits of categories, and the lines that are ignored or replaced.

ghost use Rattle.std.specs.Prelude.{◌≡◌, [], map, OnOk, IfOk};
ghost use Rattle.splices_flat.specs.Notices.{warning_of, with_notices};
ghost use Rattle.splices_flat.specs.Settings.{setting_target};
ghost use Rattle.splices_flat.specs.Warnings.{category_limit, replaced_settings, warn_line, warn_limit};

use crate::lines::target_of;
use crate::notices::Notices;
use dag_reader::{Command, Text, Word};
use splices_flat::{CategoryLimit, DagWarning, NameTable, full_category, target_line};
use std::alloc::{AllocError, Global};
use std::marker::Model;

/// What is noted of the files so far. A contract sees the limits and the notices.
pub(crate) struct Warned {
    names: NameTable,
    limits: Vec<CategoryLimit>,
    notices: Notices,
}

// Each function that drops a value calls this; a derived drop would be in each, part by part.
impl Drop for Warned {
    fn drop(self) {
        let Warned {
            names: _,
            limits: _,
            notices: _,
        } = self;
    }
}

impl Model for Warned {
    ghost use Rattle.std.specs.Prelude.{◌≡◌, map};
    ghost use Rattle.splices_flat.specs.Warnings as warned;

    ghost Value = { warned.Warned };

    ghost view = { λ t. record { limits = t.limits.items; notices = t.notices } };

    ghost invariant = { λ t. t.names ≡ map (λ l. l.name) t.limits.items };
}

impl Warned {
    /// Nothing is noted.
    pub(crate) fn new(alloc: Global) -> Warned
        ensures { result ≡ record { limits = []; notices = [] } }
    {
        Warned {
            names: NameTable::new(alloc),
            limits: Vec::new(alloc),
            notices: Notices::new(alloc),
        }
    }

    /// The limits of categories, and the warnings.
    pub(crate) fn into_parts(
        self,
        alloc: Global,
    ) -> Result<(Vec<CategoryLimit>, Vec<DagWarning>), AllocError>
        ensures limits { IfOk result (λ parts. parts.0.items ≡ self.limits) }
        ensures warnings { IfOk result (λ parts. parts.1.items ≡ map warning_of self.notices) }
    {
        let Warned {
            names: _,
            limits,
            notices,
        } = self;
        let warnings = notices.warnings(alloc)?;
        Ok((limits, warnings))
    }

    /// Puts in the limit of a category: a later one takes the place of that there, and the user is
    /// warned of it.
    fn set_limit(&mut self, alloc: Global, limit: CategoryLimit) -> Result<(), AllocError>
        ensures { OnOk result (self.new ≡ warn_limit self.old limit) }
    {
        match self.names.place_of(limit.name.as_str()) {
            Some(place) => {
                let old = &self.limits[place];
                let path = limit.path.as_str();
                self.notices
                    .add_overridden(alloc, old.path.as_str(), old.line, path, limit.line)?;
                self.limits[place] = limit;
            }
            None => {
                self.limits.reserve(1)?;
                self.names.add(alloc, limit.name.as_str())?;
                self.limits.push(limit)?;
            }
        }
        Ok(())
    }

    /// Tells of the lines of a file whose settings a line replaces.
    fn warn_replaced(
        &mut self,
        alloc: Global,
        path: &str,
        command: &Command,
        replaced: &[usize],
    ) -> Result<(), AllocError>
        ensures { OnOk result (self.new ≡ record self.old {
          notices = with_notices self.old.notices
              (replaced_settings path.now (setting_target command.now) replaced.now);
        }) }
    {
        match target_of(command) {
            Some(target) => self
                .notices
                .add_replaced(alloc, path, replaced, target_line(target)),
            None => Ok(()),
        }
    }

    /// Tells of a line of a file, which replaces the settings of these lines.
    pub(crate) fn warn_line(
        &mut self,
        alloc: Global,
        path: &str,
        prefix: &str,
        command: &Command,
        replaced: &[usize],
    ) -> Result<(), AllocError>
        ensures { OnOk result (self.new
            ≡ warn_line path.now prefix.now self.old command.now replaced.now) }
    {
        match command {
            Command::MaxJobs { category, limit } => {
                let limit = limit_of(alloc, path, prefix, category, *limit)?;
                self.set_limit(alloc, limit)
            }
            Command::Ignored(span) => self.notices.add_ignored(alloc, path, span.line),
            _ => self.warn_replaced(alloc, path, command, replaced),
        }
    }
}

/// The limit that a MAXJOBS line sets.
fn limit_of(
    alloc: Global,
    path: &str,
    prefix: &str,
    category: &Word,
    limit: u32,
) -> Result<CategoryLimit, AllocError>
    ensures { IfOk result
        (λ l. l ≡ category_limit path.now prefix.now category.now limit) }
{
    Ok(CategoryLimit {
        name: full_category(alloc, prefix, category.text())?,
        limit,
        path: Text::new(alloc, path)?,
        line: category.span().line,
    })
}
