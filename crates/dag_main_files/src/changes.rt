//! What a command changes beside a DAG file, in order, as clauses read it. It takes no memory: nothing of it is kept at run time.

ghost use Rattle.std.specs.Prelude.{◌≡◌, ◌∷◌, ◌++◌, [], string_bytes};

use dag_reader::Text;
use http_server::Log;
use std::marker::Model;
use std::snapshot::Snapshot;

/// What is noted, of which clauses read the bytes.
#[derive(Drop)]
enum Noting {
    /// Nothing.
    Nothing,
    /// A path.
    Name(Snapshot<Text>),
    /// A text.
    Text(Snapshot<String>),
    /// Bytes.
    Bytes(Snapshot<Vec<u8>>),
}

/// A path, or the bytes of a file, as clauses read them.
#[derive(Drop)]
pub struct Noted {
    of: Noting,
}

impl Model for Noted {
    ghost use Rattle.std.specs.Prelude.{ℕ, List};
    ghost use Rattle.dag_main_files.specs.Noted.{bytes_noted};

    ghost Value = { List ℕ };

    ghost view = { λ noted. bytes_noted noted.of };
}

impl Noted {
    /// No bytes.
    fn nothing() -> Noted
        ensures { result ≡ [] }
    {
        Noted {
            of: Noting::Nothing,
        }
    }

    /// The bytes of this path.
    pub fn name(name: &Text) -> Noted
        ensures { result ≡ name.now }
    {
        Noted {
            of: Noting::Name(Snapshot::of(name)),
        }
    }

    /// The bytes of this text.
    pub fn text(text: &String) -> Noted
        ensures { result ≡ string_bytes text.now }
    {
        Noted {
            of: Noting::Text(Snapshot::of(text)),
        }
    }

    /// These bytes.
    pub fn bytes(bytes: &Vec<u8>) -> Noted
        ensures { result ≡ bytes.now.items }
    {
        Noted {
            of: Noting::Bytes(Snapshot::of(bytes)),
        }
    }
}

/// What is done to a file beside a DAG file, or to its folder. A lock, a new name, a sync and a written file are noted once the system has
/// answered that it is done; the others are noted as they are asked for.
#[derive(Drop)]
pub enum Change {
    /// The file is locked; it is made where it is missing.
    Locked,
    /// The lock is given back, and its file is removed.
    Unlocked,
    /// The file has this name, in place of the file that had it.
    Renamed(Noted),
    /// The names in the folder are on the disk.
    Synced,
    /// The file is made, empty, where it is missing and the system lets it be made.
    Made,
    /// The file has these bytes: they were written under another name and are on the disk, as is the name of the file.
    Written(Noted),
    /// The file is removed, where the system lets it be removed.
    Removed,
    /// The processes that the file names, which an earlier manager left, are dealt with.
    Settled,
    /// A round is led, with a journal and a rescue file beside the DAG file.
    Led,
}

/// The changes so far, each with the path of its file; one that is of no single file has an empty path. Clauses read the list.
#[derive(Drop)]
pub struct Changes {
    log: Log<Noted, Change>,
}

impl Model for Changes {
    ghost use Rattle.std.specs.Prelude.{ℕ, List};
    ghost use Rattle.dag_main_files.specs.declared.changes.Change.{Change};

    ghost Value = { List (List ℕ × Change) };

    ghost view = { λ changes. changes.log.items };
}

impl Changes {
    /// No changes.
    pub fn new() -> Changes
        ensures { result ≡ [] }
    {
        Changes { log: Log::new() }
    }

    /// Notes what was done to the file of this path.
    pub fn note(&mut self, path: &Text, change: Change)
        ensures { self.new ≡ self.old ++ (path.now, change) ∷ [] }
    {
        self.log = self.log.and(&Noted::name(path), &change);
    }

    /// Notes what was done that is of no single file.
    pub fn happened(&mut self, change: Change)
        ensures { self.new ≡ self.old ++ ([], change) ∷ [] }
    {
        self.log = self.log.and(&Noted::nothing(), &change);
    }
}
