//! The line of a refusal, as a command prints it: a code, a name, and what it is about.

/// A place in a file.
#[derive(Clone, Copy, Debug, PartialEq, Eq)]
pub struct SourcePlace<'a> {
    /// The path of the file.
    pub path: &'a str,
    /// The number of the line, from 1.
    pub line: usize,
    /// The column, counted in bytes from 1, where the place has one.
    pub column: Option<usize>,
}

/// The parts of the line of a refusal, without `dagrun: `.
#[derive(Clone, Copy, Debug, PartialEq, Eq)]
pub struct Refusal<'a> {
    /// The code of the fault, as `L2`.
    pub code: &'a str,
    /// What comes after the fault's name: a path, a place, names.
    pub detail: &'a str,
}

/// A number and what is before the colon in front of it.
fn number_behind(text: &str) -> Option<(&str, usize)> {
    let (front, number) = text.rsplit_once(':')?;
    Some((front, number.parse().ok()?))
}

impl<'a> Refusal<'a> {
    /// The parts of this line.
    pub fn of(line: &'a str) -> Refusal<'a> {
        let mut parts = line.splitn(3, ' ');
        let code = parts.next().unwrap_or("");
        let _name = parts.next();
        Refusal {
            code,
            detail: parts.next().unwrap_or(""),
        }
    }

    /// The place that it names, where it names one: a path, a line, and perhaps a column.
    pub fn place(&self) -> Option<SourcePlace<'a>> {
        let (front, last) = number_behind(self.detail)?;
        match number_behind(front) {
            Some((path, line)) => Some(SourcePlace {
                path,
                line,
                column: Some(last),
            }),
            None => Some(SourcePlace {
                path: front,
                line: last,
                column: None,
            }),
        }
    }

    /// The path that the system refused or did not find, where it is of one.
    pub fn path(&self) -> Option<&'a str> {
        match self.code {
            "S1" | "P1" | "X2" => Some(self.detail),
            _ => None,
        }
    }
}
