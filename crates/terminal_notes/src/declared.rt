//! Where a DAG file declares a node, and with which submit file.

/// A line that declares a node.
#[derive(Clone, Copy)]
pub(crate) struct Declared<'a> {
    /// The number of the line, from 1.
    pub line: usize,
    /// The name of the node, as the line has it.
    pub node: &'a str,
    /// The path of its submit file, as the line has it.
    pub file: &'a str,
}

/// Whether a word begins such a line.
fn declares(word: &str) -> bool {
    ["JOB", "FINAL"]
        .iter()
        .any(|command| command.eq_ignore_ascii_case(word))
}

/// The node that a line of this number declares.
fn declared_at(line: usize, text: &str) -> Option<Declared<'_>> {
    let mut words = text.split_whitespace();
    if !declares(words.next()?) {
        return None;
    }
    Some(Declared {
        line,
        node: words.next()?,
        file: words.next()?,
    })
}

/// The first line of a DAG file that declares a node of this submit file.
pub(crate) fn declared_with<'a>(dag: &'a str, file: &str) -> Option<Declared<'a>> {
    let mut line = 0usize;
    for text in dag.lines() {
        line = line.saturating_add(1);
        match declared_at(line, text) {
            Some(declared) if declared.file == file => return Some(declared),
            _ => {}
        }
    }
    None
}

/// The first line of a DAG file that declares a node of this name.
pub(crate) fn declaration_of<'a>(dag: &'a str, node: &str) -> Option<Declared<'a>> {
    let mut line = 0usize;
    for text in dag.lines() {
        line = line.saturating_add(1);
        match declared_at(line, text) {
            Some(declared) if declared.node == node => return Some(declared),
            _ => {}
        }
    }
    None
}
