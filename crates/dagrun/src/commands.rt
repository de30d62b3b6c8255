//! The program's commands over the system's files and streams.

ghost use Rattle.std.specs.Prelude.{◌≡◌, map};
ghost use Rattle.dag_main_args.specs.Requests.{asked_by, shown_by};
ghost use Rattle.dag_main_check.specs.Consoles.{IsExitStatusOf};
ghost use Rattle.dag_main_run.specs.Sites.{rounds_at};
ghost use Rattle.dagrun.specs.Changes.{ChangesAs, ChangesAsAsked, known_where};
ghost use Rattle.dagrun.specs.Answered.{fold_at, shown_at, asked_at, is_beside, is_owner_trusted, IsReply, IsExit, AreHints, IsDisplayedThen, IsCall};

use crate::answers::answer_in;
use crate::host::Host;
use crate::of_round::graph_asked;
use dag_main_args::{FoldRule, ProgressRule, Request, ShownRound, View, WordsFault, read_words};
use dag_main_check::{Answer, Console, REFUSED, RunFault, display_reply};
use dag_main_files::Changes;
use dag_main_run::Screen;
use std::fs::File;
use std::process::Processes;
use std::rt::{Env, Files};
use std::time::{Clock, Duration};
use terminal_notes::{Postscript, display_hint, display_hint_of_answer, display_postscript};

/// Runs the command of these words, of which the first is the program's name, and answers the
/// exit status; `to_terminal` says whether standard output is a terminal, on which `graph` folds by itself.
///
/// What the command prints is on standard output, its warnings on standard error; a refused
/// command line is reported by clap's text on standard error, a refused input by one line
/// `dagrun: CODE Name detail`, both with status 125 and nothing on standard output. At a terminal, what may help
/// comes after it on standard error, and so does what is displayed while a run goes on, which isn't written to this console.
pub fn run<
    R: Files<File = File> + Processes + Clock + Screen + Input + AllocGlobal + Copy + Drop,
    H: Host,
    C: Console,
>(rt: &R, host: &H, console: &mut C, words: &[&str], to_terminal: bool, changes: &mut Changes) -> u8
    // It is that of the reply to what the words ask for, or 125 where they ask for nothing. Where the host is honest, the reply
    // is that of the files that it holds, and a round is led by its disks and children.
    ensures exit { IsExit to_terminal (IsReply (H.honest host.now) (H.is_lost host.now) (H.world host.now)
        (rounds_at H.Here.Journal.Disk H.Here.Rescue.Disk (H.own host.now) (H.honest host.now) (H.world host.now).holds))
        (map (λ w. w.now) words.now) result }
    // On an honest console that reply is displayed: all that is printed is the text of the answer.
    ensures shown { C.honest console.new → IsCall to_terminal (IsReply (H.honest host.now) (H.is_lost host.now) (H.world host.now)
        (rounds_at H.Here.Journal.Disk H.Here.Rescue.Disk (H.own host.now) (H.honest host.now) (H.world host.now).holds))
        (map (λ w. w.now) words.now) (C.shown console.old) (C.shown console.new) result }
    ensures back { C.honest console.new → C.honest console.old }
    // What the command changes beside its DAG file, and in which order; only `run`, `salvage` and `redo` change anything.
    ensures changes { ChangesAsAsked (known_where (H.honest host.now) (H.world host.now).holds (H.world host.now).has)
        (rounds_at H.Here.Journal.Disk H.Here.Rescue.Disk (H.own host.now) (H.honest host.now) (H.world host.now).holds) to_terminal
        (IsReply (H.honest host.now) (H.is_lost host.now) (H.world host.now)
        (rounds_at H.Here.Journal.Disk H.Here.Rescue.Disk (H.own host.now) (H.honest host.now) (H.world host.now).holds))
        (map (λ w. w.now) words.now) changes.old changes.new }
{
    match read_words(rt.alloc(), words) {
        Ok(request) => {
            let dag = dag_in(&request);
            let postscript = postscript_to(rt, &request, to_terminal);
            let reply = answer(rt, host, console, request_at(to_terminal, request), changes);
            finish(rt, console, dag, postscript, &reply)
        }
        Err(WordsFault::Refused(text)) => {
            console.warn(text.as_str());
            REFUSED
        }
        Err(WordsFault::Memory) => {
            finish(
                rt,
                console,
                None,
                Postscript::Nothing,
                &Err(RunFault::Memory),
            )
        }
    }
}

/// The rule by which a graph is drawn: where words say nothing of it, nodes of one shape have one box if standard output is a terminal.
fn fold_at(to_terminal: bool, fold: FoldRule) -> FoldRule
    ensures { result ≡ fold_at to_terminal fold }
{
    match (to_terminal, fold) {
        (true, FoldRule::AtTerminal) => FoldRule::Folded,
        _ => fold,
    }
}

/// What is shown of a round, with that settled.
fn view_at<'a>(to_terminal: bool, view: View<'a>) -> View<'a>
    ensures { shown_by result ≡ shown_at to_terminal (shown_by view.entry) }
{
    match view {
        View::Graph { fold, as_is } => View::Graph {
            fold: fold_at(to_terminal, fold),
            as_is,
        },
        other => other,
    }
}

/// What is asked for, with that settled.
fn request_at<'a>(to_terminal: bool, request: Request<'a>) -> Request<'a>
    ensures { asked_by result ≡ asked_at to_terminal (asked_by request.entry) }
{
    match request {
        Request::Show { round, view } => Request::Show {
            round,
            view: view_at(to_terminal, view),
        },
        other => other,
    }
}

/// What is answered to a request, by the files of the folder in which the program was called; `check` and `rehearse` read
/// standard input where `-` is asked for.
///
/// # Errors
/// The system refuses the folder in which the program was called or a file, or memory; else those of
/// the call that the request is for.
fn answer<
    R: Files<File = File> + Processes + Clock + Screen + AllocGlobal + Copy + Drop,
    H: Host,
    C: Console,
>(
    rt: &R,
    host: &H,
    console: &mut C,
    request: Request<'_>,
    changes: &mut Changes,
) -> Result<Answer, RunFault>
    ensures reply { IsReply (H.honest host.now) (H.is_lost host.now) (H.world host.now)
        (rounds_at H.Here.Journal.Disk H.Here.Rescue.Disk (H.own host.now) (H.honest host.now) (H.world host.now).holds)
        (asked_by request.entry) result }
    ensures hinted { C.honest console.new → AreHints (asked_by request.entry) result (C.shown console.old) (C.shown console.new) }
    ensures back { C.honest console.new → C.honest console.old }
    ensures changes { ChangesAs (known_where (H.honest host.now) (H.world host.now).holds (H.world host.now).has)
        (rounds_at H.Here.Journal.Disk H.Here.Rescue.Disk (H.own host.now) (H.honest host.now) (H.world host.now).holds)
        (asked_by request.entry) result changes.old changes.new }
{
    if !is_beside(&request) {
        return answer_in(rt, console, &host.inputs(), request, changes);
    }
    let here = host.here(is_owner_trusted(&request))?;
    answer_in(rt, console, &here, request, changes)
}

/// Whether a request is for a run, and so for the files that stand beside a DAG file.
fn is_beside(request: &Request<'_>) -> bool
    ensures { result ≡ is_beside (asked_by request.now) }
{
    match request {
        Request::Check { .. } | Request::Rehearse { .. } | Request::Page { .. } => false,
        _ => true,
    }
}

/// Whether the owner of the files that stand beside the DAG file of a request is trusted.
fn is_owner_trusted(request: &Request<'_>) -> bool
    ensures { result ≡ is_owner_trusted (asked_by request.now) }
{
    match request {
        Request::Run { options, .. } => options.trust_owner,
        Request::Show { round, .. } => round.trust_owner,
        Request::Salvage { trust_owner, .. } | Request::Redo { trust_owner, .. } => *trust_owner,
        _ => false,
    }
}

/// The path of the DAG file that a request is for; none for a page.
fn dag_in<'a>(request: &Request<'a>) -> Option<&'a str> {
    match request {
        Request::Show { round, .. } => Some(round.dag),
        Request::Run { dag, .. }
        | Request::Salvage { dag, .. }
        | Request::Redo { dag, .. }
        | Request::Check { dag, .. }
        | Request::Rehearse { dag, .. } => Some(*dag),
        Request::Page { text: _ } => None,
    }
}

/// What is displayed after what is shown of a round.
fn postscript_of(round: &ShownRound<'_>, view: &View<'_>, to_terminal: bool) -> Postscript {
    let trusts_owner = round.trust_owner;
    match view {
        View::Status { json: false } => Postscript::Totals { trusts_owner },
        View::Why { json: false, .. } => Postscript::Worker { trusts_owner },
        View::Status { .. } | View::Why { .. } => Postscript::Nothing,
        View::Graph { fold, as_is } => Postscript::Drawing {
            folds_by_itself: to_terminal && *fold == FoldRule::AtTerminal,
            by: graph_asked(*as_is, round.as_begun),
        },
        _ => Postscript::Changes,
    }
}

/// What is displayed after the answer to a request.
fn postscript_to<R: Clock>(rt: &R, request: &Request<'_>, to_terminal: bool) -> Postscript {
    match request {
        Request::Run { options, .. } if options.progress != ProgressRule::Never && !options.json =>
            {
                Postscript::Run {
                    began: rt.monotonic().unwrap_or(Duration::ZERO),
                }
            }
        Request::Check {
            json: false,
            hints: false,
            condor: false,
            ..
        } => Postscript::Hints,
        Request::Show { round, view } => postscript_of(round, view, to_terminal),
        _ => Postscript::Nothing,
    }
}

/// Displays the reply to a request for this DAG file, and gives the exit status; at a terminal, also what may help
/// where it is refused, and who works on the DAG.
fn finish<R: Files<File = File> + Clock + Env + Input + AllocGlobal + Copy + Drop, C: Console>(
    rt: &R,
    console: &mut C,
    dag: Option<&str>,
    postscript: Postscript,
    reply: &Result<Answer, RunFault>,
) -> u8
    ensures exit { IsExitStatusOf reply.now result }
    ensures shown { C.honest console.new → IsDisplayedThen (C.shown console.old) (C.shown console.new) reply.now result }
    ensures back { C.honest console.new → C.honest console.old }
{
    let status = display_reply(rt.alloc(), console, reply);
    match (reply, dag) {
        (Ok(answer), Some(dag)) if postscript.is_due(status) => {
            display_postscript(rt, console, dag, postscript, answer.text.as_str());
        }
        (Ok(answer), _) if status == REFUSED => {
            display_hint_of_answer(rt, console, dag, answer.warnings.as_str());
        }
        (Ok(_), _) => {}
        (Err(fault), _) => {
            if let Ok(line) = format!(in rt.alloc(); "{fault}") {
                display_hint(rt, console, dag, line.as_str());
            }
        }
    }
    status
}
