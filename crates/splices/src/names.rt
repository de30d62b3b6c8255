//! The names that a file declares.

ghost use Rattle.std.specs.Prelude.{◌≡◌, ◌++◌, ◌+◌, ◌^◌, ◌<◌, ◌≤◌, ℕ, length, position};
ghost use Rattle.std.specs.Str.{bytes_eq};
ghost use Rattle.splices.specs.NodeChanges.{is_between};
ghost use Rattle.splices_flat.specs.Nodes.{reaches};

use dag_reader::Target;
use splices_flat::NameTable;

/// The names of a file's JOB, FINAL and SPLICE lines, each in the order of the lines.
pub(crate) struct Names {
    pub(crate) jobs: NameTable,
    pub(crate) finals: NameTable,
    pub(crate) splices: NameTable,
}

// Each function that drops a value calls this; a derived drop would be in each, part by part.
impl Drop for Names {
    fn drop(self) {
        let Names {
            jobs: _,
            finals: _,
            splices: _,
        } = self;
    }
}

impl Names {
    /// The place of a node among those of the file: the nodes of the JOB lines, and then FINAL.
    pub(crate) fn node_place(&self, name: &str) -> Option<usize>
        requires { length self.now.jobs + length self.now.finals < 2 ^ 64 }
        ensures { result ≡ position (bytes_eq name.now) (self.now.jobs ++ self.now.finals) }
    {
        match self.jobs.place_of(name) {
            Some(place) => Some(place),
            None => match self.finals.place_of(name) {
                Some(place) => Some(self.jobs.len() + place),
                None => None,
            },
        }
    }

    /// The places of the nodes that a target stands for: from the first number to the one before
    /// the second.
    pub(crate) fn reached(&self, target: &Target) -> (usize, usize)
        requires { length self.now.jobs + length self.now.finals < 2 ^ 64 }
        ensures are { (place : ℕ) → reaches self.now.jobs self.now.finals place target.now
            ≡ is_between result.0 result.1 place }
        ensures ordered { result.0 ≤ result.1 }
        ensures within { result.1 ≤ length self.now.jobs + length self.now.finals }
    {
        match target {
            Target::Node(word) => match self.node_place(word.text()) {
                Some(place) => (place, place + 1),
                None => (0, 0),
            },
            Target::AllNodes(_) => (0, self.jobs.len()),
        }
    }
}
