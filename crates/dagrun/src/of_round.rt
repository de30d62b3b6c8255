//! What is answered of the last round of a DAG file: by the files as they are, or as they were when the round began.

ghost use Rattle.std.specs.Prelude.{◌≡◌, IfOk, IfErr, string_bytes};
ghost use Rattle.dag_main_args.specs.Requests.{shown_by};
ghost use Rattle.dag_main_files.specs.Opened.{changing, fixed};
ghost use Rattle.dagrun.specs.Answered.{why_form, form_asked, shape_asked, times_form, files_asked, round_asked, graph_asked, files_for_view, IsView, IsNoView, changing_files, held_in, view_contract, ComesTo};

use dag_main_args::{FoldRule, ShownRound, VERSION, View};
use dag_main_check::{Answer, RunFault};
use dag_main_files::{Folder, Place};
use dag_main_inspect::{Form, Question, Shape, answer_here};
use dag_main_run::Site;
use failure_answers::{WhyForm, why_here};
use failure_report::Grouping;
use report_answers::{Wanted, page_here};
use round_inputs::{ByFiles, seen_by};
use run_times::{Form as TimesForm, times_here};
use std::fs::File;
use std::rt::Files;

/// How `why` shows nodes in error: those with one cause once, or each by itself; or as JSON.
fn why_form(all: bool, json: bool) -> WhyForm
    ensures { result ≡ why_form all json }
{
    match (all, json) {
        (_, true) => WhyForm::Json,
        (true, false) => WhyForm::Text(Grouping::Each),
        (false, false) => WhyForm::Text(Grouping::ByCause),
    }
}

/// The form in which `status` and `audit` answer: lines or JSON.
fn form_asked(json: bool) -> Form
    ensures { result ≡ form_asked json }
{
    if json { Form::Json } else { Form::Lines }
}

/// What `graph` draws: one box for nodes that are alike where that is asked for, else one for each node.
fn shape_asked(fold: FoldRule) -> Shape
    ensures { result ≡ shape_asked fold }
{
    match fold {
        FoldRule::Folded => Shape::Boxes,
        _ => Shape::Nodes,
    }
}

/// How `times` shows the phases; no two of a picture, JSON, a summary and rounds are ever asked for together.
fn times_form(svg: bool, json: bool, summary: bool, rounds: bool) -> TimesForm
    ensures { result ≡ times_form svg json summary rounds }
{
    match (svg, json, summary, rounds) {
        (true, _, _, _) => TimesForm::Picture,
        (false, true, _, _) => TimesForm::Json,
        (false, false, true, _) => TimesForm::Summary,
        (false, false, false, true) => TimesForm::Rounds,
        (false, false, false, false) => TimesForm::Table,
    }
}

/// By which files `status`, `audit` and `redo` look at a round: by the files as they are, unless it is to be shown as it began.
pub(crate) fn files_asked(as_begun: bool) -> ByFiles
    ensures { result ≡ files_asked as_begun }
{
    if as_begun {
        ByFiles::AsItBegan
    } else {
        ByFiles::AsTheyAre
    }
}

/// By which files `why`, `times` and `report` show a round: by those with which it began, where they are kept, unless it is to be
/// shown by these alone.
fn round_asked(as_begun: bool) -> ByFiles
    ensures { result ≡ round_asked as_begun }
{
    if as_begun {
        ByFiles::AsItBegan
    } else {
        ByFiles::AsKept
    }
}

/// By which files `graph` draws a round: as `round_asked`, unless the files are to be drawn as they are.
pub(crate) fn graph_asked(as_is: bool, as_begun: bool) -> ByFiles
    ensures { result ≡ graph_asked as_is as_begun }
{
    if as_is {
        ByFiles::AsTheyAre
    } else {
        round_asked(as_begun)
    }
}

/// By which files a round is shown.
fn files_for_view(view: &View<'_>, as_begun: bool) -> ByFiles
    ensures { result ≡ files_for_view (shown_by view.now) as_begun }
{
    match view {
        View::Status { .. } | View::Audit { .. } => files_asked(as_begun),
        View::Graph { as_is, .. } => graph_asked(*as_is, as_begun),
        View::Why { .. } | View::Times { .. } | View::Report { .. } => round_asked(as_begun),
    }
}

/// What is shown of the last round of a DAG file, by the files of this folder.
///
/// # Errors
/// Those of the call that shows it.
fn view_of<R: Files<File = File> + AllocGlobal, F: Folder>(
    rt: &R,
    folder: &F,
    place: &Place<'_>,
    view: View<'_>,
    trust_owner: bool,
) -> Result<Answer, RunFault>
    ensures answered { IfOk result (λ answer. IsView changing place.now.top.now (shown_by view.entry)
        (string_bytes answer.text) (string_bytes answer.warnings) answer.status) }
    ensures held { F.honest folder.now → IfOk result (λ answer. IsView (fixed (F.holds folder.now)) place.now.top.now (shown_by view.entry)
        (string_bytes answer.text) (string_bytes answer.warnings) answer.status) }
    ensures refused { IfErr result (IsNoView changing place.now.top.now (shown_by view.entry)) }
    ensures refused_held { F.honest folder.now → IfErr result (IsNoView (fixed (F.holds folder.now)) place.now.top.now (shown_by view.entry)) }
{
    let (alloc, dag) = (rt.alloc(), place.top);
    match view {
        View::Status { json } => {
            answer_here(alloc, folder, dag, Question::Status(form_asked(json)))
        }
        View::Audit { json } => answer_here(alloc, folder, dag, Question::Audit(form_asked(json))),
        View::Graph { fold, .. } => {
            answer_here(alloc, folder, dag, Question::Graph(shape_asked(fold)))
        }
        View::Why { nodes, all, json } => {
            why_here(rt, folder, place, &nodes, trust_owner, why_form(all, json))
        }
        View::Times {
            svg,
            json,
            summary,
            rounds,
        } => {
            let form = times_form(svg, json, summary, rounds);
            times_here(alloc, folder, dag, form)
        }
        View::Report { reload } => {
            let wanted = Wanted {
                version: VERSION,
                reloads: reload,
            };
            page_here(rt, folder, place, &wanted, trust_owner)
        }
    }
}

/// What is shown of the last round of a DAG file, by the files by which it is to be shown.
///
/// # Errors
/// Those of `seen_by`; then those of the call that shows it.
pub(crate) fn show<R: Files<File = File> + AllocGlobal, F: Site>(
    rt: &R,
    folder: &F,
    round: &ShownRound<'_>,
    view: View<'_>,
) -> Result<Answer, RunFault>
    ensures some { ComesTo (view_contract changing_files round.now.dag.now round.now.as_begun (shown_by view.entry)) result }
    // It is that of the files that the folder holds.
    ensures held { F.honest folder.now
        → ComesTo (view_contract (held_in (F.holds folder.now) (F.has folder.now)) round.now.dag.now round.now.as_begun (shown_by view.entry)) result }
{
    let by = files_for_view(&view, round.as_begun);
    let seen = seen_by(rt.alloc(), folder, round.dag, by)?;
    let place = Place {
        folder: folder.seat(),
        top: round.dag,
    };
    view_of(rt, &seen, &place, view, round.trust_owner)
}
