//! The warnings of lines, for the user.

ghost use Rattle.std.specs.Prelude.{◌≡◌, [], map, IfOk, OnOk};
ghost use Rattle.splices_flat.specs.Notices.{ignored, overridden, place, warning_of, with_notice, with_notices};
ghost use Rattle.splices.specs.NoticeSets.{notice_of, notice_place};

use dag_reader::Text;
use indexmap::IndexSet;
use splices_flat::DagWarning;
use std::alloc::{AllocError, Global};
use std::marker::Model;

/// A line of a file.
#[derive(PartialEq, Eq, Hash, Drop)]
pub(crate) struct Place {
    path: String,
    line: usize,
}

impl Place {
    fn new(alloc: Global, path: &str, line: usize) -> Result<Place, AllocError>
        ensures { IfOk result (λ p. notice_place p ≡ place path.now line) }
    {
        Ok(Place {
            path: String::from_str(alloc, path)?,
            line,
        })
    }
}

/// A line that is warned of, and the line that causes the warning.
#[derive(PartialEq, Eq, Hash, Drop)]
pub(crate) struct Notice {
    warned: Place,
    by: Place,
    is_ignored: bool,
}

impl Notice {
    fn warning(&self, alloc: Global) -> Result<DagWarning, AllocError>
        ensures { IfOk result (λ warning. warning ≡ warning_of (notice_of self.now)) }
    {
        let path = Text::new(alloc, self.warned.path.as_str())?;
        let line = self.warned.line;
        if self.is_ignored {
            Ok(DagWarning::Ignored(path, line))
        } else {
            Ok(DagWarning::Overridden(path, line))
        }
    }
}

/// The notices of lines, in the order in which each was added first. A contract sees the list of
/// them, none of which is there twice.
#[derive(Drop)]
pub(crate) struct Notices {
    notices: IndexSet<Notice>,
}

impl Model for Notices {
    ghost use Rattle.std.specs.Prelude.{List, map};
    ghost use Rattle.splices_flat.specs.Notices as warned;
    ghost use Rattle.splices.specs.NoticeSets.{notice_of};

    ghost Value = { List warned.Notice };

    ghost view = { λ n. map notice_of n.notices.keys };
}

impl Notices {
    /// There are no notices.
    pub(crate) fn new(alloc: Global) -> Notices
        ensures { result ≡ [] }
    {
        Notices {
            notices: IndexSet::new(alloc),
        }
    }

    fn add(&mut self, notice: Notice) -> Result<(), AllocError>
        ensures { OnOk result (self.new ≡ with_notice self.old (notice_of notice)) }
    {
        self.notices.insert(notice)?;
        Ok(())
    }

    /// Tells that a line is ignored.
    pub(crate) fn add_ignored(
        &mut self,
        alloc: Global,
        path: &str,
        line: usize,
    ) -> Result<(), AllocError>
        ensures { OnOk result (self.new ≡ with_notice self.old (ignored (place path.now line))) }
    {
        self.add(Notice {
            warned: Place::new(alloc, path, line)?,
            by: Place::new(alloc, path, line)?,
            is_ignored: true,
        })
    }

    /// Tells that a later line replaces the setting of a line.
    pub(crate) fn add_overridden(
        &mut self,
        alloc: Global,
        path: &str,
        line: usize,
        later_path: &str,
        later_line: usize,
    ) -> Result<(), AllocError>
        ensures { OnOk result (self.new ≡ with_notice self.old (overridden (place path.now line) (place later_path.now later_line))) }
    {
        self.add(Notice {
            warned: Place::new(alloc, path, line)?,
            by: Place::new(alloc, later_path, later_line)?,
            is_ignored: false,
        })
    }

    /// Tells that a later line of a file replaces the settings of these lines.
    pub(crate) fn add_replaced(
        &mut self,
        alloc: Global,
        path: &str,
        lines: &[usize],
        later_line: usize,
    ) -> Result<(), AllocError>
        ensures { OnOk result (self.new ≡ with_notices self.old
            (map (λ line. overridden (place path.now line) (place path.now later_line)) lines.now)) }
    {
        for line in lines {
            self.add_overridden(alloc, path, *line, path, later_line)?;
        }
        Ok(())
    }

    /// The warnings that the user reads.
    pub(crate) fn warnings(&self, alloc: Global) -> Result<Vec<DagWarning>, AllocError>
        ensures { IfOk result (λ warnings. warnings.items ≡ map warning_of self.now) }
    {
        let mut warnings = Vec::new(alloc);
        for notice in self.notices.as_slice() {
            warnings.push(notice.warning(alloc)?)?;
        }
        Ok(warnings)
    }
}
