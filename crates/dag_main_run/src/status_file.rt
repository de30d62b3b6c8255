//! The file into which the status of a run is written while it goes on, for others who look on.

ghost use Rattle.std.specs.Prelude.{◌≡◌, ◌≢◌, ◌≤◌, ◌<◌, ◌⊎◌, ◌++◌, ◌∷◌, ℕ, List, length, true, false, codes, Some, IfErr};
ghost use Rattle.dag_main_files.specs.Beside.{IsRefusalOf};
ghost use Rattle.dag_main_run.specs.StatusFile.{BeginAlike, IsAfterPath, IsInside};
ghost use Rattle.dag_main_run.specs.declared.status_file.Extent.TheVariants.{Whole};

use dag_main_args::RunOptions;
use dag_main_check::RunFault;
use dag_main_files::{Place, journal_path, refused};
use dag_main_inspect::json_of_status;
use dag_reader::Text;
use event_journal::require_regular;
use file_hints::is_own_ending;
use run_log::seat_of;
use run_plan::Plan;
use std::alloc::Global;
use std::fs::{self, File, OpenOptions};
use std::io::{self, ErrorKind, Write};
use std::os::unix::fs::FileExt;
use std::rt::Files;
use std::time::{Clock, Duration};

/// How many seconds pass at least before the file is written again, where that is not said.
const SECONDS: u16 = 60;

/// The file, and the other name under which it is written before it gets its own.
#[derive(Drop)]
struct Paths {
    file: Text,
    draft: Text,
}

/// It writes the status of a round as JSON into a file, at most once in some seconds; nothing where no file is asked for.
#[derive(Drop)]
pub(crate) struct StatusWatcher<'a, R: Drop> {
    rt: R,
    place: Place<'a>,
    plan: &'a Plan,
    paths: Option<Paths>,
    every: Duration,
    /// when it was written last, by the time since an arbitrary start
    last: Option<Duration>,
}

/// The folder of a path, and its name there.
fn parts_of(path: &str) -> (&str, &str) {
    match path.rsplit_once('/') {
        Some(("", name)) => ("/", name),
        Some((folder, name)) => (folder, name),
        None => (".", path),
    }
}

/// Whether two folders are one. Where the system refuses to say it, they may be.
fn may_be_same<R: Files>(rt: &R, folder: &str, other: &str) -> bool {
    match (seat_of(rt, folder), seat_of(rt, other)) {
        (Ok(seat), Ok(other)) => seat == other,
        _ => true,
    }
}

/// Whether a path is that of the DAG file, or of one of dagrun's own files beside it, however its folder is spelled.
fn is_own<R: Files>(rt: &R, dag: &str, path: &str) -> bool {
    let (home, top) = parts_of(dag);
    let (folder, name) = parts_of(path);
    match name.strip_prefix(top) {
        Some(ending) => is_own_ending(ending) && may_be_same(rt, home, folder),
        None => false,
    }
}

/// How the text of a status begins, up to the path of its DAG file.
const BEGINNING: &[u8] = b"{\"dag\":\"";

/// How it ends. That of an audit ends otherwise.
const ENDING: [u8; 3] = *b"]}\n";

/// How many bytes of the beginning of a file are looked at: more than a path takes.
const MOST_BYTES: u64 = 1 << 16;

/// Whether a byte is no part of a JSON string, by whether a backslash before it escapes it: a control character, or the last quotation mark.
fn ends_string(byte: u8, is_escaped: bool) -> bool
    ensures ends { result ≡ true → (byte < 32) ⊎ ((byte ≡ 34) × (is_escaped ≡ false)) }
    ensures goes_on { result ≡ false → (32 ≤ byte) × (byte ≡ 34 → is_escaped ≡ true) }
{
    byte < b' ' || (byte == b'"' && !is_escaped)
}

/// Whether a byte escapes the next one, by whether it is escaped itself.
fn escapes_next(byte: u8, is_escaped: bool) -> bool
    ensures backslash { is_escaped ≡ false → byte ≡ 92 → result ≡ true }
    ensures other { byte ≢ 92 → result ≡ false }
    ensures escaped { is_escaped ≡ true → result ≡ false }
{
    byte == b'\\' && !is_escaped
}

/// How many of these bytes are of a JSON string, of which they begin after its first quotation mark: all where it does not end in them, and
/// those before a control character, which no such string has.
fn string_length(bytes: &[u8]) -> usize
    ensures within { result ≤ length bytes.now }
    ensures ends { (inside rest : List ℕ) → IsInside false inside → bytes.now ≡ inside ++ 34 ∷ rest → result ≡ length inside }
{
    let mut is_escaped = false;
    let mut place = 0;
    for byte in bytes {
        if ends_string(*byte, is_escaped) {
            return place;
        }
        is_escaped = escapes_next(*byte, is_escaped);
        place += 1;
    }
    place
}

/// Whether some bytes begin with others, or are the beginning of these.
fn agree(bytes: &[u8], wanted: &[u8]) -> bool
    ensures agree { result ≡ true → BeginAlike bytes.now wanted.now }
    ensures every { BeginAlike bytes.now wanted.now → result ≡ true }
{
    bytes.starts_with(wanted) || wanted.starts_with(bytes)
}

/// Whether what is after the path of the DAG file is of a status, as far as it goes.
fn is_after_path(after: &[u8]) -> bool
    ensures status { result ≡ true → IsAfterPath after.now }
    ensures every { IsAfterPath after.now → result ≡ true }
{
    agree(after, b"\",\"nodes\":[{\"attempts\":") || agree(after, b"\",\"nodes\":[]}")
}

/// Whether a file that begins with these bytes begins as a status does, as far as they go.
fn begins_as_status(bytes: &[u8]) -> bool
    ensures status { (inside after : List ℕ) → IsInside false inside → bytes.now ≡ codes "{\"dag\":\"" ++ (inside ++ 34 ∷ after) → result ≡ true → IsAfterPath (34 ∷ after) }
    ensures every { (inside after : List ℕ) → IsInside false inside → bytes.now ≡ codes "{\"dag\":\"" ++ (inside ++ 34 ∷ after) → IsAfterPath (34 ∷ after) → result ≡ true }
{
    match bytes.strip_prefix(BEGINNING) {
        Some(path) => is_after_path(&path[string_length(path)..]),
        None => BEGINNING.starts_with(bytes),
    }
}

/// What of a status a file may be.
#[derive(Clone, Copy, Debug, PartialEq, Eq)]
enum Extent {
    /// All of it.
    Whole,
    /// All of it, or what was written before the manager was killed.
    CutShort,
}

/// Whether a file that ends with these bytes ends as a status may that has this extent.
fn ends_as_status(last: &[u8], extent: Extent) -> bool
    ensures { result ≡ true → extent ≡ Whole → last.now ≡ codes "]}\n" }
{
    last == ENDING.as_slice() || (extent == Extent::CutShort && !last.ends_with(b"\n".as_slice()))
}

/// So many bytes of a file from this place on, as far as the system gives them.
fn bytes_at(alloc: Global, file: &File, count: u64, place: u64) -> io::Result<Vec<u8>> {
    let mut bytes = vec![in alloc; 0u8; count as usize]?;
    let count = file.read_at(&mut bytes, place)?;
    bytes.truncate(count);
    Ok(bytes)
}

/// Whether the file of this path is missing, empty, or a status of this extent: no other file is written over.
///
/// # Errors
/// What the system refuses, a path that names no regular file, and lack of memory.
fn may_be_replaced<R: Files<File = File> + AllocGlobal>(
    rt: &R,
    path: &str,
    extent: Extent,
) -> io::Result<bool> {
    require_regular(rt, path)?;
    let file = match File::open(rt, path) {
        Ok(file) => file,
        Err(error) if error.kind() == ErrorKind::NotFound => return Ok(true),
        Err(error) => return Err(error),
    };
    let found = file.metadata()?;
    let size = found.len();
    if found.is_file() && size == 0 {
        return Ok(true);
    }
    let alloc = rt.alloc();
    let first = bytes_at(alloc, &file, size.min(MOST_BYTES), 0)?;
    let last = bytes_at(alloc, &file, 3, size.saturating_sub(3))?;
    Ok(begins_as_status(&first) && ends_as_status(&last, extent))
}

/// Whether neither the file nor its draft is another one than a status, or a part of one.
///
/// # Errors
/// As `may_be_replaced`.
fn are_free<R: Files<File = File> + AllocGlobal>(rt: &R, paths: &Paths) -> io::Result<bool> {
    Ok(
        may_be_replaced(rt, paths.file.as_str(), Extent::Whole)?
            && may_be_replaced(rt, paths.draft.as_str(), Extent::CutShort)?,
    )
}

/// Sees to it that neither the file nor its draft is the DAG file, one of dagrun's own files beside it, or another file than a status.
///
/// # Errors
/// `AlreadyExists`, and as `may_be_replaced`.
fn require_free<R: Files<File = File> + AllocGlobal>(
    rt: &R,
    dag: &str,
    paths: &Paths,
) -> io::Result<()> {
    let is_own = is_own(rt, dag, paths.file.as_str()) || is_own(rt, dag, paths.draft.as_str());
    if !is_own && are_free(rt, paths)? {
        return Ok(());
    }
    Err(io::Error::new(ErrorKind::AlreadyExists, "it is no status"))
}

/// Makes the draft, empty. What is in its place is a regular file, or nothing.
fn made<R: Files<File = File>>(rt: &R, paths: &Paths) -> io::Result<File> {
    require_regular(rt, paths.file.as_str())?;
    require_regular(rt, paths.draft.as_str())?;
    OpenOptions::new()
        .write(true)
        .create(true)
        .truncate(true)
        .open(rt, paths.draft.as_str())
}

/// Writes a text into the file: under its other name first, so that at each moment the file has all of one status.
fn write<R: Files<File = File>>(rt: &R, paths: &Paths, text: &str) -> io::Result<()> {
    let mut file = made(rt, paths)?;
    file.write_all(text.as_bytes())?;
    fs::rename(rt, paths.draft.as_str(), paths.file.as_str())
}

/// The paths of the file of this name, which can be made.
///
/// # Errors
/// `FileRefused` with the file, where the system refuses to make it, it is no regular file or another one than a status, or it is the DAG
/// file or one of dagrun's own beside that; the same is true of its draft; `Memory`.
fn paths_of<R: Files<File = File> + AllocGlobal>(
    rt: &R,
    place: &Place<'_>,
    name: &str,
) -> Result<Paths, RunFault>
    ensures { IfErr result (IsRefusalOf name.now) }
{
    let alloc = rt.alloc();
    let file = place.at(alloc, name)?;
    let draft = Text::joined(alloc, file.as_str(), ".new")?;
    let paths = Paths { file, draft };
    let dag = place.at(alloc, place.top)?;
    match require_free(rt, dag.as_str(), &paths).and_then(|()| made(rt, &paths)) {
        Ok(_file) => {
            let _ = fs::remove_file(rt, paths.draft.as_str());
            Ok(paths)
        }
        Err(error) => Err(refused(alloc, name, &error)),
    }
}

/// It writes the status of a round of a plan, as the options ask for it.
///
/// # Errors
/// `FileRefused` with the file, where the system refuses to make it, it is no regular file or another one than a status, or it is the DAG
/// file or one of dagrun's own beside that; the same is true of its draft; `Memory`.
pub(crate) fn status_watcher<'a, R: Files<File = File> + AllocGlobal + Drop>(
    rt: R,
    place: &Place<'a>,
    plan: &'a Plan,
    options: &RunOptions,
) -> Result<StatusWatcher<'a, R>, RunFault>
    ensures { IfErr result (λ fault. (name : List ℕ) × (options.now.status_file ≡ Some name) × IsRefusalOf name fault) }
{
    let paths = match &options.status_file {
        Some(name) => Some(paths_of(&rt, place, name.as_str())?),
        None => None,
    };
    Ok(StatusWatcher {
        rt,
        place: *place,
        plan,
        paths,
        every: Duration::from_secs(u64::from(options.status_every.unwrap_or(SECONDS))),
        last: None,
    })
}

impl<'a, R: Files<File = File> + Clock + AllocGlobal + Drop> StatusWatcher<'a, R> {
    /// The status by the records that the journal has now; none where it can't be read, or there is no memory.
    fn text(&self) -> Option<String> {
        let alloc = self.rt.alloc();
        let path = journal_path(alloc, self.place.top).ok()?;
        let bytes = self.place.read(&self.rt, path.as_str()).ok()??;
        json_of_status(alloc, self.plan, &bytes, self.place.top).ok()
    }

    /// Writes the text into the file. Where the system refuses that, the file stays as it was.
    fn write_text(&self) {
        if let (Some(paths), Some(text)) = (&self.paths, self.text()) {
            let _ = write(&self.rt, paths, text.as_str());
        }
    }

    /// Writes it. Where another file has the name by now, or that of the draft, that file is left, and nothing is written any more.
    fn write(&mut self) {
        let is_free = match &self.paths {
            Some(paths) => are_free(&self.rt, paths),
            None => return,
        };
        match is_free {
            Ok(true) => self.write_text(),
            Ok(false) => self.paths = None,
            Err(_) => {}
        }
    }

    /// Writes it, where it was not written for long enough.
    pub(crate) fn waits(&mut self) {
        if self.paths.is_none() {
            return;
        }
        let now = self.rt.monotonic().unwrap_or(Duration::ZERO);
        let is_due = match self.last {
            Some(last) => now.saturating_sub(last) >= self.every,
            None => true,
        };
        if is_due {
            self.last = Some(now);
            self.write();
        }
    }

    /// Writes it as the run ends.
    pub(crate) fn ends(&mut self) {
        self.write();
    }
}
