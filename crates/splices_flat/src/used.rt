//! How much was opened.

/// How many nodes the files have that were opened, FINAL among them, and how many splices were
/// opened.
#[derive(Clone, Copy, Debug)]
pub struct Used {
    pub nodes: usize,
    pub splices: usize,
}
