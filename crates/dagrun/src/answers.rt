//! What is answered to a request by the files of a folder.

ghost use Rattle.std.specs.Prelude.{◌≡◌, ℕ, List, true, [], ◌++◌, Some, IfOk, IfErr, IfSome, is_some, map, string_bytes, codes};
ghost use Rattle.std.specs.Option.{option_map};
ghost use Rattle.dag_main_args.specs.Requests.{asked_by, runs};
ghost use Rattle.dag_main_files.specs.Beside.{IsRefusalOf};
ghost use Rattle.dag_main_rehearse.specs.Rehearsed.{IsRehearsalOf};
ghost use Rattle.folder_answers.specs.Answered.{IsRehearsalOfSome, IsRehearsalRefusal, IsRehearsalRefusalFrom};
ghost use Rattle.dag_main_check.specs.declared.fault.RunFault.TheVariants.{Memory};
ghost use Rattle.salvage.specs.Faults.{fault_text};
ghost use Rattle.salvage.specs.Answered.{IsSalvageOf, IsSalvageFrom};
ghost use Rattle.salvage.specs.Refused.{IsSalvageFault};
ghost use Rattle.salvage.specs.Sight.{any_files, held_files};
ghost use Rattle.salvage.specs.declared.fault.SalvageFault.TheVariants.{Refused};
ghost use Rattle.dag_main_files.specs.Folder.{any_paths, these_paths};
ghost use Rattle.dag_main_files.specs.Opened.{changing, fixed};
ghost use Rattle.dag_main_run.specs.Sites.{rounds_at};
ghost use Rattle.dag_main_run.specs.RunChanges.{found_where};
ghost use Rattle.dagrun.specs.Changes.{ChangesOfRun, ChangesOfSalvage, ChangesAs, MakesRedoWhere, known_where};
ghost use Rattle.dagrun.specs.Answered.{is_run, changing_files, held_in, run_contract, redo_contract, command_contract, ComesTo, IsPage, IsRehearsalWith, IsRehearsalRefusalWith, IsSalvageWith, AreHints};

use crate::checking::{check, check_form};
use crate::of_round::{files_asked, show};
use dag_main_args::{Request, RunOptions};
use dag_main_check::{Answer, Console, REFUSED, RunFault};
use dag_main_files::{Changes, Folder, Place, read_input, refused};
use dag_main_inspect::{Form, Question, answer_here, report_here};
use dag_main_run::{Screen, Site, run_dag};
use file_hints::Wanted;
use folder_answers::rehearse_here;
use redo::redo_here;
use round_inputs::seen_by;
use salvage::{SalvageFault, salvage_here};
use std::alloc::Global;
use std::fs::File;
use std::process::Processes;
use std::rt::Files;
use std::time::Clock;
use throttles::Limits;

/// What is answered to a request by the files of a folder. What a run writes, and what the system has besides, as a
/// table of outcomes or the output of a job, is where the system says, seen from the path of that folder. The hints
/// of a check that is refused are displayed at once.
///
/// # Errors
/// Those of the call that the request is for; a table of outcomes that the system refuses to read; memory.
pub(crate) fn answer_in<
    R: Files<File = File> + Processes + Clock + Screen + AllocGlobal + Copy + Drop,
    C: Console,
    F: Site,
>(
    rt: &R,
    console: &mut C,
    folder: &F,
    request: Request<'_>,
    changes: &mut Changes,
) -> Result<Answer, RunFault>
    ensures some { (is_run (asked_by request.entry) ≡ true → ¬ (F.streams folder.now)) → ComesTo (command_contract changing_files
        (rounds_at F.Journal.Disk F.Rescue.Disk (F.own folder.now) (F.honest folder.now) (F.holds folder.now))
        (asked_by request.entry)) result }
    // It is that of the files that the folder holds; `run` does not read standard input.
    ensures held { F.honest folder.now → (is_run (asked_by request.entry) ≡ true → ¬ (F.streams folder.now)) → ComesTo (command_contract
        (held_in (F.holds folder.now) (F.has folder.now))
        (rounds_at F.Journal.Disk F.Rescue.Disk (F.own folder.now) (F.honest folder.now) (F.holds folder.now))
        (asked_by request.entry)) result }
    ensures hinted { C.honest console.new → AreHints (asked_by request.entry) result (C.shown console.old) (C.shown console.new) }
    ensures back { C.honest console.new → C.honest console.old }
    // What the command changes beside the DAG file: only `run`, `salvage` and `redo` change anything.
    ensures changes { ChangesAs (known_where (F.honest folder.now) (F.holds folder.now) (F.has folder.now))
        (rounds_at F.Journal.Disk F.Rescue.Disk (F.own folder.now) (F.honest folder.now) (F.holds folder.now))
        (asked_by request.entry) result changes.old changes.new }
{
    match request {
        Request::Run { dag, options } => run_in(rt, folder, dag, &options, changes),
        Request::Show { round, view } => show(rt, folder, &round, view),
        Request::Salvage {
            dag,
            ended,
            trust_owner,
        } => salvage_in(rt, folder, dag, ended, trust_owner, changes),
        Request::Redo {
            dag,
            nodes,
            only,
            as_begun,
            trust_owner,
        } => {
            let wanted = Redone {
                nodes: &nodes,
                only,
                as_begun,
            };
            redo_in(rt, folder, dag, &wanted, trust_owner, changes)
        }
        Request::Page { text } => Ok(page(rt.alloc(), text)),
        Request::Check {
            dag,
            all,
            json,
            hints,
            condor,
        } => {
            let wanted = Wanted { hints, condor };
            check(rt, console, folder, dag, all, check_form(json), wanted)
        }
        Request::Rehearse {
            dag,
            outcomes,
            limits,
            always_post,
        } => rehearse(rt, folder, dag, outcomes, limits, always_post),
    }
}

/// The answer that is this page.
fn page(alloc: Global, text: String) -> Answer
    ensures { IsPage (string_bytes text) (string_bytes result.text) (string_bytes result.warnings) result.status }
{
    Answer {
        text,
        warnings: String::new(alloc),
        status: 0,
    }
}

/// Runs a DAG file. Where JSON is asked for, it is answered where each node is then, by the journal that the run left, in place of what
/// the run prints; its warnings and its exit status stay.
///
/// # Errors
/// Those of `run_or_report`; then, where JSON is asked for, those of `answer_here`.
fn run_in<R: Files<File = File> + Processes + Clock + Screen + AllocGlobal + Copy + Drop, F: Site>(
    rt: &R,
    folder: &F,
    dag: &str,
    options: &RunOptions,
    changes: &mut Changes,
) -> Result<Answer, RunFault>
    ensures some { ¬ (F.streams folder.now) → ComesTo (command_contract changing_files
        (rounds_at F.Journal.Disk F.Rescue.Disk (F.own folder.now) (F.honest folder.now) (F.holds folder.now))
        (runs dag.now options.now)) result }
    ensures held { F.honest folder.now → ¬ (F.streams folder.now) → ComesTo (command_contract (held_in (F.holds folder.now) (F.has folder.now))
        (rounds_at F.Journal.Disk F.Rescue.Disk (F.own folder.now) (F.honest folder.now) (F.holds folder.now))
        (runs dag.now options.now)) result }
    ensures changes { ChangesOfRun (found_where (F.honest folder.now) (F.holds folder.now) (F.has folder.now))
        (rounds_at F.Journal.Disk F.Rescue.Disk (F.own folder.now) (F.honest folder.now) (F.holds folder.now))
        dag.now options.now result changes.old changes.new }
{
    let answer = run_or_report(rt, folder, dag, options, changes)?;
    if !options.json {
        return Ok(answer);
    }
    let states = answer_here(rt.alloc(), folder, dag, Question::Status(Form::Json))?;
    Ok(Answer {
        text: states.text,
        warnings: answer.warnings,
        status: answer.status,
    })
}

/// Runs a DAG file; or, where the options ask for it and its last round has ended, answers
/// what that printed.
fn run_or_report<
    R: Files<File = File> + Processes + Clock + Screen + AllocGlobal + Copy + Drop,
    F: Site,
>(
    rt: &R,
    folder: &F,
    dag: &str,
    options: &RunOptions,
    changes: &mut Changes,
) -> Result<Answer, RunFault>
    ensures some { ¬ (F.streams folder.now) → ComesTo (run_contract changing_files
        (rounds_at F.Journal.Disk F.Rescue.Disk (F.own folder.now) (F.honest folder.now) (F.holds folder.now))
        dag.now options.now) result }
    ensures held { F.honest folder.now → ¬ (F.streams folder.now) → ComesTo (run_contract (held_in (F.holds folder.now) (F.has folder.now))
        (rounds_at F.Journal.Disk F.Rescue.Disk (F.own folder.now) (F.honest folder.now) (F.holds folder.now))
        dag.now options.now) result }
    ensures changes { ChangesOfRun (found_where (F.honest folder.now) (F.holds folder.now) (F.has folder.now))
        (rounds_at F.Journal.Disk F.Rescue.Disk (F.own folder.now) (F.honest folder.now) (F.holds folder.now))
        dag.now options.now result changes.old changes.new }
{
    let place = Place {
        folder: folder.seat(),
        top: dag,
    };
    if !options.resume {
        return run_dag(*rt, folder, &place, options, changes);
    }
    let told = report_here(rt.alloc(), folder, dag)?;
    match told {
        Some(answer) => Ok(answer),
        None => run_dag(*rt, folder, &place, options, changes),
    }
}

/// The answer that nothing was salvaged, for a fault that no other command has: its line as a warning, and status 125.
///
/// # Errors
/// `Memory` alone.
fn not_salvaged(alloc: Global, fault: &SalvageFault) -> Result<Answer, RunFault>
    ensures warned { IfOk result (λ answer. IfSome (fault_text fault.now) (λ line.
        string_bytes answer.warnings ≡ codes "dagrun: " ++ (line ++ codes "\n"))) }
    ensures text { IfOk result (λ answer. string_bytes answer.text ≡ []) }
    ensures status { IfOk result (λ answer. answer.status ≡ 125) }
    ensures err { IfErr result (λ fault. fault ≡ Memory) }
{
    let warnings = format!(in alloc; "dagrun: {fault}\n")?;
    Ok(Answer {
        text: String::new(alloc),
        warnings,
        status: REFUSED,
    })
}

/// Makes a rescue file of a round that was cut short, or has ended where such a round is taken, too.
fn salvage_in<R: Files<File = File> + Clock + AllocGlobal + Copy + Drop, F: Site>(
    rt: &R,
    folder: &F,
    dag: &str,
    ended: bool,
    trust_owner: bool,
    changes: &mut Changes,
) -> Result<Answer, RunFault>
    ensures answered { IfOk result (λ answer. IsSalvageWith (IsSalvageOf ended dag.now) (IsSalvageFault ended any_files dag.now)
        (string_bytes answer.text) (string_bytes answer.warnings) answer.status) }
    ensures held { F.honest folder.now → IfOk result (λ answer. IsSalvageWith (IsSalvageFrom ended (F.holds folder.now) (F.has folder.now) dag.now)
        (IsSalvageFault ended (held_files (F.holds folder.now) (F.has folder.now) dag.now) dag.now)
        (string_bytes answer.text) (string_bytes answer.warnings) answer.status) }
    ensures refused { IfErr result (λ fault. IsSalvageFault ended any_files dag.now (Refused fault)) }
    ensures refused_held { F.honest folder.now
        → IfErr result (λ fault. IsSalvageFault ended (held_files (F.holds folder.now) (F.has folder.now) dag.now) dag.now (Refused fault)) }
    ensures changes { ChangesOfSalvage dag.now ended result changes.old changes.new }
{
    let place = Place {
        folder: folder.seat(),
        top: dag,
    };
    match salvage_here(*rt, folder, &place, ended, trust_owner, changes) {
        Ok(answer) => Ok(answer),
        Err(fault) => {
            let own = fault.own()?;
            not_salvaged(rt.alloc(), &own)
        }
    }
}

/// What `redo` is asked for.
#[derive(Clone, Copy)]
struct Redone<'a> {
    nodes: &'a [&'a str],
    only: bool,
    as_begun: bool,
}

/// Makes a rescue file by which nodes of a round run again, by the files as they are or by those with which the round began.
///
/// # Errors
/// Those of `seen_by`; then those of `redo_here`.
fn redo_in<R: Files<File = File> + Clock + AllocGlobal + Copy + Drop, F: Site>(
    rt: &R,
    folder: &F,
    dag: &str,
    wanted: &Redone<'_>,
    trust_owner: bool,
    changes: &mut Changes,
) -> Result<Answer, RunFault>
    ensures some { ComesTo (redo_contract changing_files dag.now (map (λ n. n.now) wanted.now.nodes.now) wanted.now.only wanted.now.as_begun) result }
    ensures held { F.honest folder.now → ComesTo (redo_contract (held_in (F.holds folder.now) (F.has folder.now)) dag.now
        (map (λ n. n.now) wanted.now.nodes.now) wanted.now.only wanted.now.as_begun) result }
    ensures changes { MakesRedoWhere (F.honest folder.now) (F.holds folder.now) (F.has folder.now) dag.now
        (map (λ n. n.now) wanted.now.nodes.now) wanted.now.only wanted.now.as_begun result changes.old changes.new }
{
    let seen = seen_by(rt.alloc(), folder, dag, files_asked(wanted.as_begun))?;
    let place = Place {
        folder: folder.seat(),
        top: dag,
    };
    redo_here(
        *rt,
        &seen,
        &place,
        wanted.nodes,
        wanted.only,
        trust_owner,
        changes,
    )
}

/// What `rehearse` answers, by the table of outcomes where one is named.
fn rehearse<R: Files + AllocGlobal, F: Folder>(
    rt: &R,
    folder: &F,
    dag: &str,
    outcomes: Option<&str>,
    limits: Limits,
    always_post: bool,
) -> Result<Answer, RunFault>
    ensures answered { IfOk result (λ answer. IsRehearsalWith (λ table. IsRehearsalOfSome always_post dag.now table limits)
        (option_map (λ t. t.now) outcomes.entry) (string_bytes answer.text) (string_bytes answer.warnings) answer.status) }
    ensures held { F.honest folder.now → IfOk result (λ answer. IsRehearsalWith (λ table. IsRehearsalOf always_post (F.holds folder.now) dag.now table limits)
        (option_map (λ t. t.now) outcomes.entry) (string_bytes answer.text) (string_bytes answer.warnings) answer.status) }
    ensures refused { IfErr result (IsRehearsalRefusalWith (λ table. IsRehearsalRefusal always_post dag.now table limits) (option_map (λ t. t.now) outcomes.entry)) }
    ensures refused_held { F.honest folder.now → IfErr result (IsRehearsalRefusalWith (λ table. IsRehearsalRefusalFrom always_post (F.holds folder.now) dag.now table limits)
        (option_map (λ t. t.now) outcomes.entry)) }
{
    let table = outcomes_of(rt, outcomes)?;
    rehearse_here(
        rt.alloc(),
        folder,
        dag,
        table.as_deref(),
        limits,
        always_post,
    )
}

/// The table of outcomes, where one is named.
fn outcomes_of<R: Files + AllocGlobal>(
    rt: &R,
    path: Option<&str>,
) -> Result<Option<Vec<u8>>, RunFault>
    ensures named { IfOk result (λ bytes. is_some (option_map (λ b. b.items) bytes) ≡ is_some (option_map (λ p. p.now) path.entry)) }
    ensures refused { IfErr result (λ fault. (named : List ℕ) × (option_map (λ p. p.now) path.entry ≡ Some named) × IsRefusalOf named fault) }
{
    match path {
        Some(path) => Ok(Some(read_outcomes(rt, path)?)),
        None => Ok(None),
    }
}

/// The bytes of a table of outcomes: a regular file, or a pipe.
///
/// # Errors
/// `FileRefused` with the path of another sort of file, or of one that the system refuses to read;
/// `Memory`, also for more than 256 MiB.
fn read_outcomes<R: Files + AllocGlobal>(rt: &R, path: &str) -> Result<Vec<u8>, RunFault>
    ensures { IfErr result (IsRefusalOf path.now) }
{
    match read_input(rt, path, true) {
        Ok(bytes) => Ok(bytes),
        Err(error) => Err(refused(rt.alloc(), path, &error)),
    }
}
