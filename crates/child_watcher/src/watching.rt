//! Who is informed of what a system does with its children.

use node_machine::{Key, Outcome};
use run_plan_node::ChildCommand;
use std::io;

/// What came of a kill.
#[derive(Clone, Copy, Debug, PartialEq, Eq)]
pub enum Killed {
    /// The child ended, and was waited for.
    Ended,
    /// The system refused the kill or the wait: the child is dropped.
    LetGo,
}

/// What of a command the system refused.
#[derive(Clone, Copy, Debug, PartialEq, Eq)]
pub enum CommandPart {
    /// The program, or the folder in which it is to run: the system doesn't say which.
    Program,
    /// The file that is the standard input.
    Input,
    /// The file that takes the standard output.
    Output,
    /// The file that takes the standard error.
    Error,
}

/// Who is informed by a system of what it does with its children. Nothing is promised of it but that it is prepared when endings are
/// recorded, and nothing that a system promises rests on it.
pub trait ChildWatcher {
    /// Nothing is left to do before the endings that were reported may be recorded.
    ghost prepared: { Self → Type 0 };

    /// A child is about to be started that has this command of its own.
    fn launching(&mut self, key: &Key, command: &ChildCommand);

    /// A child runs, as the process of this number, started by this command.
    fn launched(&mut self, key: &Key, process: u32, command: &ChildCommand);

    /// The system has no process or no descriptor to give for the moment: it is asked again.
    fn held(&mut self, key: &Key, error: &io::Error);

    /// A child could not be started by this command, since the system refused this part of it.
    fn not_started(
        &mut self,
        key: &Key,
        command: &ChildCommand,
        part: CommandPart,
        error: &io::Error,
    );

    /// A child was reported to have ended.
    fn ended(&mut self, key: &Key, outcome: Outcome);

    /// The endings that were reported are about to be recorded.
    fn will_record(&mut self)
        ensures { prepared self.new };

    /// A child was killed, or dropped where that was refused.
    fn killed(&mut self, key: &Key, answer: Killed);

    /// No child has ended since they were looked at: it is waited a little.
    fn waits(&mut self);

    /// Whether nothing more is to be launched. It is asked before each launch, until it answers so.
    fn halts(&mut self) -> bool;
}

/// Nobody.
#[derive(Clone, Copy)]
pub struct Unwatched;

impl ChildWatcher for Unwatched {
    ghost prepared = { λ _. Unit {0} };

    fn launching(&mut self, _key: &Key, _command: &ChildCommand) {}

    fn launched(&mut self, _key: &Key, _process: u32, _command: &ChildCommand) {}

    fn held(&mut self, _key: &Key, _error: &io::Error) {}

    fn not_started(
        &mut self,
        _key: &Key,
        _command: &ChildCommand,
        _part: CommandPart,
        _error: &io::Error,
    ) {}

    fn ended(&mut self, _key: &Key, _outcome: Outcome) {}

    fn will_record(&mut self) {}

    fn killed(&mut self, _key: &Key, _answer: Killed) {}

    fn waits(&mut self) {}

    fn halts(&mut self) -> bool {
        false
    }
}

impl<W: ChildWatcher> ChildWatcher for &mut W {
    ghost prepared = { λ w. W.prepared w.now };

    fn launching(&mut self, key: &Key, command: &ChildCommand) {
        (**self).launching(key, command);
    }

    fn launched(&mut self, key: &Key, process: u32, command: &ChildCommand) {
        (**self).launched(key, process, command);
    }

    fn held(&mut self, key: &Key, error: &io::Error) {
        (**self).held(key, error);
    }

    fn not_started(
        &mut self,
        key: &Key,
        command: &ChildCommand,
        part: CommandPart,
        error: &io::Error,
    ) {
        (**self).not_started(key, command, part, error);
    }

    fn ended(&mut self, key: &Key, outcome: Outcome) {
        (**self).ended(key, outcome);
    }

    fn will_record(&mut self) {
        (**self).will_record();
    }

    fn killed(&mut self, key: &Key, answer: Killed) {
        (**self).killed(key, answer);
    }

    fn waits(&mut self) {
        (**self).waits();
    }

    fn halts(&mut self) -> bool {
        (**self).halts()
    }
}
