//! Where an answer is displayed.

ghost use Rattle.std.specs.Prelude.{◌≡◌, [], false, IsTrue, OnOk, OnErr, string_bytes};
ghost use Rattle.dag_main_check.specs.Consoles.{Streams, with_printed, with_warned};

use std::alloc::Global;
use std::io::{self, ErrorKind};

/// Standard output and standard error.
///
/// What is said of texts is said of a console that is honest in the end: nobody else wrote there, and no warning was lost.
pub trait Console {
    /// What is on both, whether standard output has refused a text, and whether standard error is a terminal.
    ghost shown: { Self → Streams };

    /// The premise under which that is there: so far it was honest.
    ghost honest: { Self → Type 0 };

    /// Writes a text to standard output.
    ///
    /// # Errors
    /// What the system says where it refuses the text or a part of it: a part may be written.
    fn print(&mut self, text: &str) -> io::Result<()>
        ensures printed { honest self.new → OnOk result (shown self.new ≡ with_printed (shown self.old) text.now) }
        ensures refused { honest self.new → OnErr result (IsTrue (shown self.new).refuses) }
        ensures warned { honest self.new → (shown self.new).warned ≡ (shown self.old).warned }
        ensures at_terminal { honest self.new → (shown self.new).at_terminal ≡ (shown self.old).at_terminal }
        ensures back { honest self.new → honest self.old };

    /// Writes a text to standard error; where that is refused, there is nowhere left to say so.
    fn warn(&mut self, text: &str)
        ensures warned { honest self.new → shown self.new ≡ with_warned (shown self.old) text.now }
        ensures back { honest self.new → honest self.old };

    /// Whether standard error is a terminal.
    fn is_terminal(&self) -> bool
        ensures { result ≡ (shown self.now).at_terminal };
}

/// The streams of this process. That they are honest is a premise, which nothing here proves.
#[derive(Drop)]
pub struct SystemConsole<'a, R> {
    /// The system.
    pub rt: &'a R,
    /// Whether standard error is a terminal.
    pub at_terminal: bool,
}

impl<'a, R: Print + Eprint> Console for SystemConsole<'a, R> {
    ghost shown = { λ c. record { printed = []; warned = []; refuses = false; at_terminal = c.at_terminal } };

    ghost honest = { λ _. ⊥ };

    fn print(&mut self, text: &str) -> io::Result<()> {
        print!(self.rt; "{text}")
    }

    fn warn(&mut self, text: &str) {
        let _ = eprint!(self.rt; "{text}");
    }

    fn is_terminal(&self) -> bool {
        self.at_terminal
    }
}

/// A console in memory, which is no terminal. It is honest until a text is too long for the memory that is left.
#[derive(Drop)]
pub struct MemConsole {
    printed: String,
    warned: String,
    refuses: bool,
    lost: bool,
}

impl MemConsole {
    /// An empty one.
    pub fn new(alloc: Global) -> MemConsole
        ensures printed { string_bytes result.printed ≡ [] }
        ensures warned { string_bytes result.warned ≡ [] }
        ensures takes { result.refuses ≡ false }
        ensures honest { result.lost ≡ false }
    {
        MemConsole {
            printed: String::new(alloc),
            warned: String::new(alloc),
            refuses: false,
            lost: false,
        }
    }

    /// What was printed.
    pub fn printed(&self) -> &str
        ensures { result.now ≡ string_bytes self.now.printed }
    {
        self.printed.as_str()
    }

    /// What was displayed on standard error.
    pub fn warned(&self) -> &str
        ensures { result.now ≡ string_bytes self.now.warned }
    {
        self.warned.as_str()
    }
}

impl Console for MemConsole {
    ghost shown = { λ c. record { printed = string_bytes c.printed; warned = string_bytes c.warned; refuses = c.refuses; at_terminal = false } };

    ghost honest = { λ c. c.lost ≡ false };

    fn print(&mut self, text: &str) -> io::Result<()> {
        match self.printed.push_str(text) {
            Ok(()) => Ok(()),
            Err(_) => {
                self.refuses = true;
                Err(io::Error::from(ErrorKind::OutOfMemory))
            }
        }
    }

    fn warn(&mut self, text: &str) {
        if self.warned.push_str(text).is_err() {
            self.lost = true;
        }
    }

    fn is_terminal(&self) -> bool {
        false
    }
}
