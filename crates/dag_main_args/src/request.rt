//! What the words of a command line ask for.

ghost use Rattle.std.specs.Prelude.{◌≡◌, ◌<◌, ◌≤◌, true, false, None, length, codes, ◌⊎◌, IsOkAnd, IfOk, IfErr, IfSome, map, option_map, string_bytes};
ghost use Rattle.std.specs.Option.{option_map_or};
ghost use Rattle.clap.specs.Words.{found_of, rows_of, first_of, kind_of, subcommand_rows_of};
ghost use Rattle.dag_main_args.specs.Requests.{rehearses, asked_by, no_limits, limits_in, AreLimits};
ghost use Rattle.dag_main_args.specs.Matched as matched;
ghost use Rattle.dag_main_args.specs.Launchers.{HasNoLauncher};
ghost use Rattle.clap.specs.Walk.{texts};
ghost use Rattle.dag_main_args.specs.Answered as answered;
ghost use Rattle.dag_main_args.specs.Answered.{AsksForNone, AsksNothing};
ghost use Rattle.dag_main_args.specs.declared.request.WordsFault.TheVariants.{Memory};

use crate::commands::{dagrun_command, help_text};
use crate::launchers::launcher_in;
use crate::pages::explained;
use clap::error::ErrorKind;
use clap::{ArgMatches, Error};
use dag_reader::{Text, Texts};
use std::alloc::{AllocError, Global};
use throttles::Limits;

/// What `version` prints.
pub const VERSION: &str = "dagrun 1.0.0\n";

/// What `version --json` prints.
const VERSION_JSON: &str = "{\"version\":\"1.0.0\"}\n";

/// No limits but that on all children.
const NO_LIMITS: Limits = Limits {
    jobs: 0,
    pre: 0,
    post: 0,
    children: 1024,
};

/// What is done with processes that an earlier manager left running.
#[derive(Clone, Copy, Debug, PartialEq, Eq)]
pub enum OrphanRule {
    /// They are killed, and it is waited until they are gone.
    Kill,
    /// It is waited until they have ended.
    Wait,
    /// They are left as they are.
    Leave,
}

/// Whether standard error shows how far a run is.
#[derive(Clone, Copy, Debug, PartialEq, Eq)]
pub enum ProgressRule {
    /// Where it is a terminal.
    Auto,
    /// Whatever it is.
    Always,
    /// It shows nothing.
    Never,
}

/// Whether nodes of one shape have one box in a picture.
#[derive(Clone, Copy, Debug, PartialEq, Eq)]
pub enum FoldRule {
    /// Where standard output is a terminal.
    AtTerminal,
    /// Whatever it is.
    Folded,
    /// Each node has a box of its own.
    Unfolded,
}

/// How a run is to be done.
#[derive(Debug)]
pub struct RunOptions {
    /// What may run at once.
    pub limits: Limits,
    /// Whether a new round reads the rescue file of the highest number.
    pub autorescue: bool,
    /// The number of the rescue file by which a new round begins, in place of the highest, where one
    /// is asked for; `autorescue` is passed over then.
    pub dorescuefrom: Option<u16>,
    /// What is done with processes that an earlier manager left running.
    pub orphans: OrphanRule,
    /// Whether a new round runs POST scripts after PRE scripts that failed, too.
    pub always_post: bool,
    /// Whether nothing more is launched once a node is in error: what runs is waited for, and the run is halted.
    pub stop_at_first_error: bool,
    /// Whether the files that take the output and the errors of a job are brought to the disk before its
    /// ending is recorded.
    pub sync_output: bool,
    /// Whether what scripts print is kept where they fail.
    pub script_output: bool,
    /// How many MiB the log of the round may have, where that is said; 0 is no limit.
    pub log_limit: Option<u16>,
    /// The file into which the status is written as JSON while the run goes on, where one is named.
    pub status_file: Option<Text>,
    /// How many seconds pass at least before it is written again, where that is said.
    pub status_every: Option<u16>,
    /// The program that starts jobs, and the words before theirs; none where they are started by themselves.
    pub launcher: Texts,
    /// How many seconds it has to end by itself where a run is stopped, where that is said.
    pub launcher_grace: Option<u16>,
    /// Whether it starts FINAL's job, too.
    pub launcher_final: bool,
    /// Whether standard error shows how far the run is.
    pub progress: ProgressRule,
    /// Whether no round begins where the last one has ended: its report is printed again.
    pub resume: bool,
    /// Whether where each node is is printed at the end as JSON, in place of the report.
    pub json: bool,
    /// Whether root goes by files of others that stand beside the DAG file, and others by those of root.
    pub trust_owner: bool,
}

// Each function that drops a value calls this; a derived drop would be in each, part by part.
impl Drop for RunOptions {
    fn drop(self) {
        let RunOptions {
            limits: _,
            autorescue: _,
            dorescuefrom: _,
            orphans: _,
            always_post: _,
            stop_at_first_error: _,
            sync_output: _,
            script_output: _,
            log_limit: _,
            status_file: _,
            status_every: _,
            launcher: _,
            launcher_grace: _,
            launcher_final: _,
            progress: _,
            resume: _,
            json: _,
            trust_owner: _,
        } = self;
    }
}

/// The round of which something is shown: the last one of a DAG file.
#[derive(Clone, Copy, Debug)]
pub struct ShownRound<'a> {
    /// The path of the DAG file.
    pub dag: &'a str,
    /// Whether it is shown by the files with which it began.
    pub as_begun: bool,
    /// Whether the owner of the files beside the DAG file is trusted, as `RunOptions` says it.
    pub trust_owner: bool,
}

/// What of a round is shown; as JSON, it is for other programs.
#[derive(Debug, Drop)]
pub enum View<'a> {
    /// `status`: where each node is, as lines or as JSON.
    Status {
        json: bool,
    },

    /// `audit`: what the nodes came to, as lines or as JSON.
    Audit {
        json: bool,
    },

    /// `graph`: a picture of the graph; whether nodes that are alike have one box, and whether its files are drawn as they are, also where
    /// they were changed since the round began.
    Graph {
        fold: FoldRule,
        as_is: bool,
    },

    /// `why`: why nodes are in error; the names of nodes, none for all that are in error, and then whether each is shown by itself; as
    /// text or as JSON.
    Why {
        nodes: Vec<&'a str>,
        all: bool,
        json: bool,
    },

    /// `times`: when the phases ran; whether a picture, JSON, a summary or rounds are asked for, never two of them.
    Times {
        svg: bool,
        json: bool,
        summary: bool,
        rounds: bool,
    },

    /// `report`: a page; whether it loads itself again while the round runs.
    Report {
        reload: bool,
    },
}

/// What the words of a command line ask for.
#[derive(Debug, Drop)]
pub enum Request<'a> {
    /// `check DAG`: the path of the DAG file, `-` for standard input; whether all faults of lines are listed, whether the answer is
    /// for other programs (JSON), whether it is said what is odd in the files, and what would be otherwise under
    /// `condor_submit_dag`.
    Check {
        dag: &'a str,
        all: bool,
        json: bool,
        hints: bool,
        condor: bool,
    },

    /// `run DAG`: the path of the DAG file, and how it is run.
    Run {
        dag: &'a str,
        options: RunOptions,
    },

    /// `status DAG`, `audit DAG`, `graph DAG`, `why DAG [NODE ..]`, `times DAG` and `report DAG`: the round, and what of it is shown.
    Show {
        round: ShownRound<'a>,
        view: View<'a>,
    },

    /// `rehearse DAG [OUTCOMES]`, and no words at all, which is `rehearse -`: the path of the DAG
    /// file, `-` for standard input, and that of the table of outcomes; and whether POST scripts run
    /// after PRE scripts that failed, too.
    Rehearse {
        dag: &'a str,
        outcomes: Option<&'a str>,
        limits: Limits,
        always_post: bool,
    },

    /// `salvage DAG`: the path of the DAG file, and whether a round that has ended is made into a rescue file, too.
    Salvage {
        dag: &'a str,
        ended: bool,
        trust_owner: bool,
    },

    /// `redo DAG NODE ..`: the path of the DAG file, the names of nodes, whether these alone run again, and whether the round is looked
    /// up by the files with which it began.
    Redo {
        dag: &'a str,
        nodes: Vec<&'a str>,
        only: bool,
        as_begun: bool,
        trust_owner: bool,
    },

    /// `explain [CODE]`, `help [COMMAND]` and `version`: the page that is to be printed, which the words
    /// alone determine.
    Page {
        text: String,
    },
}

/// Why the words of a command line are no request.
#[derive(Debug, Drop)]
pub enum WordsFault {
    /// What is to be printed: how they are wrong, or the help for which they call.
    Refused(String),
    /// Memory was refused.
    Memory,
}

impl From<AllocError> for WordsFault {
    ghost from_gives = { λ _ fault. fault ≡ Memory };

    fn from(_e: AllocError) -> WordsFault {
        WordsFault::Memory
    }
}

/// What clap's error tells.
pub(crate) fn told(alloc: Global, error: &Error) -> WordsFault
    ensures { kind_of error.now ≡ ErrorKind.OutOfMemory → result ≡ WordsFault.Memory }
{
    if error.kind() == ErrorKind::OutOfMemory {
        return WordsFault::Memory;
    }
    match format!(in alloc; "{error}") {
        Ok(text) => WordsFault::Refused(text),
        Err(_) => WordsFault::Memory,
    }
}

/// The number of 16 bits that an option has.
fn number_of(found: &ArgMatches<'_>, name: &str) -> Option<u16>
    ensures { result ≡ matched.number_asked 16 name.now (rows_of (found_of found.now)) }
{
    found.get_one::<u16>(name)
}

/// The number of 8 bits that an option has.
fn small_number_of(found: &ArgMatches<'_>, name: &str) -> Option<u8>
    ensures { result ≡ matched.number_asked 8 name.now (rows_of (found_of found.now)) }
{
    found.get_one::<u8>(name)
}

/// Whether what is on until it is given as 0 is on.
fn is_on(found: &ArgMatches<'_>, name: &str) -> bool
    ensures { result ≡ matched.is_on name.now (rows_of (found_of found.now)) }
{
    match small_number_of(found, name) {
        Some(number) => number != 0,
        None => true,
    }
}

/// Whether a flag is set.
fn is_set(found: &ArgMatches<'_>, name: &str) -> bool
    ensures { result ≡ matched.is_set name.now (rows_of (found_of found.now)) }
{
    found.get_one::<bool>(name).unwrap_or(false)
}

/// Whether the owner of the files beside the DAG file is trusted.
fn trusts_owner(found: &ArgMatches<'_>) -> bool
    ensures { result ≡ matched.trusts_owner (rows_of (found_of found.now)) }
{
    is_set(found, "trust-owner")
}

/// The first value of an option or an argument.
fn value_of<'a>(found: &ArgMatches<'a>, name: &str) -> Option<&'a str>
    ensures { option_map (λ text. text.now) result ≡ first_of name.now (rows_of (found_of found.now)) }
{
    found.get_str(name)
}

/// The first value of an option, where it has one.
fn text_of(alloc: Global, found: &ArgMatches<'_>, name: &str) -> Result<Option<Text>, AllocError>
    ensures { IfOk result (λ text. text ≡ first_of name.now (rows_of (found_of found.now))) }
{
    match value_of(found, name) {
        Some(text) => Ok(Some(Text::new(alloc, text)?)),
        None => Ok(None),
    }
}

/// Whether this word is the first value of an option.
fn is_given_as(found: &ArgMatches<'_>, name: &str, word: &str) -> bool
    ensures { result ≡ matched.is_given_as name.now word.now (rows_of (found_of found.now)) }
{
    match value_of(found, name) {
        Some(value) => value == word,
        None => false,
    }
}

/// The limit of this name; 0, which is none, where it is not given.
fn limit_of(found: &ArgMatches<'_>, name: &str) -> u32
    ensures fits { result < 65536 }
    ensures value { result ≡ matched.limit_option name.now (rows_of (found_of found.now)) }
{
    match number_of(found, name) {
        Some(limit) => u32::from(limit),
        None => 0,
    }
}

/// The limits of a run.
fn limits_of(found: &ArgMatches<'_>) -> Limits
    ensures fit { AreLimits result }
    ensures value { result ≡ matched.limits_asked (rows_of (found_of found.now)) }
{
    Limits {
        jobs: limit_of(found, "maxjobs"),
        pre: limit_of(found, "maxpre"),
        post: limit_of(found, "maxpost"),
        ..NO_LIMITS
    }
}

/// What is to be done with processes that were left running: they are killed, unless it is said.
fn orphan_rule_of(found: &ArgMatches<'_>) -> OrphanRule
    ensures { result ≡ matched.orphan_rule_of (rows_of (found_of found.now)) }
{
    if is_given_as(found, "orphans", "wait") {
        OrphanRule::Wait
    } else if is_given_as(found, "orphans", "leave") {
        OrphanRule::Leave
    } else {
        OrphanRule::Kill
    }
}

/// Whether standard error shows how far a run is: where it is a terminal, unless it is said.
fn progress_of(found: &ArgMatches<'_>) -> ProgressRule
    ensures { result ≡ matched.progress_of (rows_of (found_of found.now)) }
{
    if is_given_as(found, "progress", "always") {
        ProgressRule::Always
    } else if is_given_as(found, "progress", "never") {
        ProgressRule::Never
    } else {
        ProgressRule::Auto
    }
}

/// Whether nodes of one shape have one box, as it is said; else it is left to the terminal.
fn fold_of(found: &ArgMatches<'_>) -> FoldRule
    ensures { result ≡ matched.fold_of (rows_of (found_of found.now)) }
{
    if is_set(found, "fold") {
        FoldRule::Folded
    } else if is_set(found, "no-fold") {
        FoldRule::Unfolded
    } else {
        FoldRule::AtTerminal
    }
}

/// The options of a run.
///
/// # Errors
/// `Refused` where the launcher is no words; `Memory`.
fn options_of(alloc: Global, found: &ArgMatches<'_>) -> Result<RunOptions, WordsFault>
    ensures fit { IfOk result (λ options. AreLimits options.limits) }
    ensures asked { IfOk result (λ options. matched.AreOptionsOf (rows_of (found_of found.now)) options) }
    ensures refused { IfErr result (λ fault. (fault ≡ WordsFault.Memory) ⊎ HasNoLauncher (first_of (codes "launcher") (rows_of (found_of found.now)))) }
{
    Ok(RunOptions {
        limits: limits_of(found),
        autorescue: is_on(found, "autorescue"),
        dorescuefrom: number_of(found, "dorescuefrom"),
        orphans: orphan_rule_of(found),
        always_post: is_set(found, "always-run-post"),
        stop_at_first_error: is_set(found, "stop-at-first-error"),
        sync_output: is_on(found, "sync-output"),
        script_output: is_on(found, "script-output"),
        log_limit: number_of(found, "log-limit"),
        status_file: text_of(alloc, found, "status-file")?,
        status_every: number_of(found, "status-every"),
        launcher: launcher_in(alloc, value_of(found, "launcher"))?,
        launcher_grace: number_of(found, "launcher-grace"),
        launcher_final: is_set(found, "launcher-final"),
        progress: progress_of(found),
        resume: is_set(found, "resume"),
        json: is_set(found, "json"),
        trust_owner: trusts_owner(found),
    })
}

/// The path of the DAG file, which each command has.
fn dag_of<'a>(found: &ArgMatches<'a>) -> &'a str
    ensures { result.now ≡ matched.dag_path (rows_of (found_of found.now)) }
{
    match value_of(found, "DAG") {
        Some(path) => path,
        None => "-",
    }
}

/// The nodes that are asked for, in their order.
fn nodes_of<'a>(alloc: Global, found: &ArgMatches<'a>) -> Result<Vec<&'a str>, AllocError>
    ensures { IfOk result (λ nodes. map (λ n. n.now) nodes.items ≡ matched.nodes_asked (rows_of (found_of found.now))) }
{
    let mut nodes = Vec::new(alloc);
    match found.get_strs("NODE") {
        Some(words) => {
            nodes.extend_from_slice(words)?;
            Ok(nodes)
        }
        None => Ok(nodes),
    }
}

/// The request of no words.
fn bare_rehearsal<'a>() -> Request<'a>
    ensures { asked_by result ≡ rehearses (codes "-") None no_limits false }
{
    Request::Rehearse {
        dag: "-",
        outcomes: None,
        limits: NO_LIMITS,
        always_post: false,
    }
}

/// The request for a page.
fn page<'a>(text: String) -> Request<'a>
    ensures { result ≡ Request.Page text }
{
    Request::Page { text }
}

/// What `version` prints, also for other programs.
fn version_of(alloc: Global, json: bool) -> Result<String, AllocError>
    ensures { IfOk result (λ text. string_bytes text ≡ matched.version_asked json) }
{
    if json {
        String::from_str(alloc, VERSION_JSON)
    } else {
        String::from_str(alloc, VERSION)
    }
}

/// The request for the page that the words name.
fn page_of<'a>(
    alloc: Global,
    command: &str,
    found: &ArgMatches<'a>,
) -> Result<Request<'a>, WordsFault>
    ensures fit { IfOk result (λ request. IfSome (limits_in (asked_by request)) AreLimits) }
    ensures asked { IfOk result (λ request. matched.is_text_among matched.page_names command.now ≡ true
        → matched.IsRequestOf command.now (rows_of (found_of found.now)) request) }
    ensures refused { IfErr result (λ fault. (fault ≡ WordsFault.Memory) ⊎ AsksForNone command.now (rows_of (found_of found.now))) }
{
    match command {
        "explain" => Ok(page(explained(alloc, value_of(found, "CODE"))?)),
        "help" => Ok(page(help_text(alloc, value_of(found, "COMMAND"))?)),
        _ => Ok(page(version_of(alloc, is_set(found, "json"))?)),
    }
}

/// The rehearsal that is asked for.
fn rehearsal_of<'a>(found: &ArgMatches<'a>) -> Request<'a>
    ensures fit { IfSome (limits_in (asked_by result)) AreLimits }
    ensures asked { matched.IsRequestOf (codes "rehearse") (rows_of (found_of found.now)) result }
{
    Request::Rehearse {
        dag: dag_of(found),
        outcomes: value_of(found, "OUTCOMES"),
        limits: limits_of(found),
        always_post: is_set(found, "always-run-post"),
    }
}

/// The request for the rescue file that is made of a round; for another command the one for a page.
fn made_of_round<'a>(
    alloc: Global,
    command: &str,
    found: &ArgMatches<'a>,
) -> Result<Request<'a>, WordsFault>
    ensures fit { IfOk result (λ request. IfSome (limits_in (asked_by request)) AreLimits) }
    ensures asked { IfOk result (λ request. matched.is_text_among matched.made_names command.now ≡ true
        → matched.IsRequestOf command.now (rows_of (found_of found.now)) request) }
    ensures refused { IfErr result (λ fault. (fault ≡ WordsFault.Memory) ⊎ AsksForNone command.now (rows_of (found_of found.now))) }
{
    let dag = dag_of(found);
    let trust_owner = trusts_owner(found);
    match command {
        "salvage" => Ok(Request::Salvage {
            dag,
            ended: is_set(found, "ended"),
            trust_owner,
        }),
        "redo" => Ok(Request::Redo {
            dag,
            nodes: nodes_of(alloc, found)?,
            only: is_set(found, "only"),
            as_begun: is_set(found, "as-begun"),
            trust_owner,
        }),
        _ => page_of(alloc, command, found),
    }
}

/// The round of which something is to be shown.
fn round_of<'a>(found: &ArgMatches<'a>) -> ShownRound<'a>
    ensures { matched.IsShownRoundOf (rows_of (found_of found.now)) result }
{
    ShownRound {
        dag: dag_of(found),
        as_begun: is_set(found, "as-begun"),
        trust_owner: trusts_owner(found),
    }
}

/// The request for a drawing of a round, or for its page; for another command the one for what is made of it.
fn drawn_of_round<'a>(
    alloc: Global,
    command: &str,
    found: &ArgMatches<'a>,
) -> Result<Request<'a>, WordsFault>
    ensures fit { IfOk result (λ request. IfSome (limits_in (asked_by request)) AreLimits) }
    ensures asked { IfOk result (λ request. matched.is_text_among matched.drawn_names command.now ≡ true
        → matched.IsRequestOf command.now (rows_of (found_of found.now)) request) }
    ensures refused { IfErr result (λ fault. (fault ≡ WordsFault.Memory) ⊎ AsksForNone command.now (rows_of (found_of found.now))) }
{
    let round = round_of(found);
    let view = match command {
        "graph" => View::Graph {
            fold: fold_of(found),
            as_is: is_set(found, "as-is"),
        },
        "times" => View::Times {
            svg: is_set(found, "svg"),
            json: is_set(found, "json"),
            summary: is_set(found, "summary"),
            rounds: is_set(found, "rounds"),
        },
        "report" => View::Report {
            reload: is_set(found, "reload"),
        },
        _ => return made_of_round(alloc, command, found),
    };
    Ok(Request::Show { round, view })
}

/// The request for what is told of a round, by the files that stand beside the DAG file; for another command the one
/// for what is drawn of it.
fn told_of_round<'a>(
    alloc: Global,
    command: &str,
    found: &ArgMatches<'a>,
) -> Result<Request<'a>, WordsFault>
    ensures fit { IfOk result (λ request. IfSome (limits_in (asked_by request)) AreLimits) }
    ensures asked { IfOk result (λ request. matched.is_text_among matched.told_names command.now ≡ true
        → matched.IsRequestOf command.now (rows_of (found_of found.now)) request) }
    ensures refused { IfErr result (λ fault. (fault ≡ WordsFault.Memory) ⊎ AsksForNone command.now (rows_of (found_of found.now))) }
{
    let round = round_of(found);
    let all = is_set(found, "all");
    let json = is_set(found, "json");
    let view = match command {
        "status" => View::Status { json },
        "audit" => View::Audit { json },
        "why" => View::Why {
            nodes: nodes_of(alloc, found)?,
            all,
            json,
        },
        _ => return drawn_of_round(alloc, command, found),
    };
    Ok(Request::Show { round, view })
}

/// The request that a command asks for by what was matched to it.
fn asked_for<'a>(
    alloc: Global,
    command: &str,
    found: &ArgMatches<'a>,
) -> Result<Request<'a>, WordsFault>
    ensures fit { IfOk result (λ request. IfSome (limits_in (asked_by request)) AreLimits) }
    ensures asked { IfOk result (λ request. matched.is_text_among matched.command_names command.now ≡ true
        → matched.IsRequestOf command.now (rows_of (found_of found.now)) request) }
    ensures refused { IfErr result (λ fault. (fault ≡ WordsFault.Memory) ⊎ AsksForNone command.now (rows_of (found_of found.now))) }
{
    match command {
        "run" => Ok(Request::Run {
            dag: dag_of(found),
            options: options_of(alloc, found)?,
        }),
        "check" => Ok(Request::Check {
            dag: dag_of(found),
            all: is_set(found, "all"),
            json: is_set(found, "json"),
            hints: is_set(found, "hints"),
            condor: is_set(found, "condor"),
        }),
        "rehearse" => Ok(rehearsal_of(found)),
        _ => told_of_round(alloc, command, found),
    }
}

/// The request that the matches of the words say.
fn request_of<'a>(alloc: Global, matches: &ArgMatches<'a>) -> Result<Request<'a>, WordsFault>
    ensures fit { IfOk result (λ request. IfSome (limits_in (asked_by request)) AreLimits) }
    ensures asked { IfOk result (λ request. option_map_or (λ p. matched.is_text_among matched.command_names p.0) (subcommand_rows_of matches.now) true ≡ true
        → matched.AsksFor (subcommand_rows_of matches.now) request) }
    ensures refused { IfErr result (λ fault. (fault ≡ WordsFault.Memory) ⊎ AsksNothing (subcommand_rows_of matches.now)) }
{
    match matches.subcommand() {
        Some((command, found)) => asked_for(alloc, command, found),
        None => Ok(bare_rehearsal()),
    }
}

/// Whether two of these flags are set.
fn are_two(one: bool, other: bool, third: bool, fourth: bool) -> bool
    ensures { result ≡ answered.are_two one other third fourth }
{
    (one && other)
        || (one && third)
        || (one && fourth)
        || (other && third)
        || (other && fourth)
        || (third && fourth)
}

/// Whether two options are given of which one can't be given with the other: `--resume` and `--dorescuefrom`, two of `--json`, `--svg`,
/// `--summary` and `--rounds`, `--fold` and `--no-fold`, or `--as-is` and `--as-begun`.
fn has_clash(found: &ArgMatches<'_>) -> bool
    ensures { result ≡ answered.has_clash (rows_of (found_of found.now)) }
{
    if is_set(found, "resume") && value_of(found, "dorescuefrom").is_some() {
        return true;
    }
    let (json, svg, summary, rounds) = (
        is_set(found, "json"),
        is_set(found, "svg"),
        is_set(found, "summary"),
        is_set(found, "rounds"),
    );
    if are_two(json, svg, summary, rounds) {
        return true;
    }
    if is_set(found, "fold") && is_set(found, "no-fold") {
        return true;
    }
    is_set(found, "as-is") && is_set(found, "as-begun")
}

/// The same of the command that was matched.
fn clashes(matches: &ArgMatches<'_>) -> bool
    ensures { result ≡ answered.clashes (subcommand_rows_of matches.now) }
{
    match matches.subcommand() {
        Some((_, found)) => has_clash(found),
        None => false,
    }
}

/// What clap tells of words that are refused, where it knows which options can't stand side by side.
fn refusal(alloc: Global, words: &[&str]) -> WordsFault {
    let Ok(command) = dagrun_command(alloc, true) else {
        return WordsFault::Memory;
    };
    match command.try_get_matches_from(words) {
        Ok(_) => WordsFault::Refused(String::new(alloc)),
        Err(error) => told(alloc, &error),
    }
}

/// Reads the words of a command line, of which the first is the program's name. Where there are no
/// others, they ask for a rehearsal of standard input.
///
/// # Errors
/// `Refused` with clap's text, where the words are no command as clap reads them, or call for help by an
/// option, where a page is asked for that there is not, and where a launcher can't be split into words;
/// `Memory` where it was refused.
pub fn read_words<'a>(alloc: Global, words: &'a [&'a str]) -> Result<Request<'a>, WordsFault>
    // No words ask for `rehearse -`, with no table, with no limits but that on all children, and with
    // no POST script after a PRE script that failed.
    ensures no_words { length words.entry.now ≤ 1 → IsOkAnd result (λ request.
        asked_by request ≡ rehearses (codes "-") None no_limits false) }
    // All children are always limited, and what else may be is a number of 16 bits.
    ensures limits { IfOk result (λ request. IfSome (limits_in (asked_by request)) AreLimits) }
    // Other words ask for what the manual says of the command to which clap matches them by the program's
    // table, and clap finds no fault in them.
    ensures said { 1 < length words.entry.now → IfOk result (answered.IsAskedFor (texts words.entry.now)) }
    // Words are refused only where memory is, where clap finds a fault in them, and where they ask for
    // what there is not.
    ensures refused { IfErr result (λ fault. (fault ≡ WordsFault.Memory) ⊎ answered.IsRefused (texts words.entry.now)) }
{
    if words.len() <= 1 {
        return Ok(bare_rehearsal());
    }
    let command = dagrun_command(alloc, false)?;
    match command.try_get_matches_from(words) {
        Ok(matches) => {
            if clashes(&matches) {
                return Err(refusal(alloc, words));
            }
            request_of(alloc, &matches)
        }
        Err(error) => {
            if error.kind() == ErrorKind::OutOfMemory {
                return Err(WordsFault::Memory);
            }
            Err(refusal(alloc, words))
        }
    }
}
