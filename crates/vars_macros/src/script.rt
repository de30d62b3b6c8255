//! The words of a script.

ghost use Rattle.std.specs.Prelude.{◌≡◌, ◌++◌, Ok, map, codes, decimal};
ghost use Rattle.std.specs.Fmt.{signed_decimal};
ghost use Rattle.std.specs.List.{list_any};
ghost use Rattle.vars_macros.specs.Answers.{Gives};

use crate::fault::MacroFault;
use dag_reader::{Text, Texts};
use itoa::Buffer;
use std::alloc::Global;

/// What the words of a script can stand for: the node's name, the number of the attempt from 0, its
/// allowed retries, whether the script is a POST script, the state of the DAG, how many nodes failed,
/// the values of the job and of the PRE script, and the number of the job's launch.
#[derive(Debug, Drop)]
pub struct ScriptFacts {
    pub name: Text,
    pub attempt: u32,
    pub retries: u32,
    pub post: bool,
    pub dag_status: u8,
    pub failed: u32,
    pub job_value: i32,
    pub pre_value: i32,
    pub job_launch: u64,
}

ghost use Rattle.vars_macros.specs.Script.{is_exactly, script_word, post_word, other_word, is_whole_run};

/// Gives each word of a script what it stands for: in every script `$JOB`, `$RETRY`, `$MAX_RETRIES`,
/// `$DAG_STATUS` and `$FAILED_COUNT`, and in a POST script `$RETURN`, `$PRE_SCRIPT_RETURN` and
/// `$JOBID`, which is the launch's number and `.0`. They are whole words, in this case of letters; all
/// other words stay as they are.
///
/// # Errors
/// `Memory` where memory runs out.
pub fn script_words(alloc: Global, words: &[Text], facts: &ScriptFacts) -> Result<Texts, MacroFault>
    ensures { Gives (λ ws. ws) result (Ok (map (λ w. script_word facts.now w) words.now)) }
{
    let mut out = Texts::new(alloc);
    for word in words {
        let said = script_word(alloc, word.as_str(), facts)?;
        out.push(said)?;
    }
    Ok(out)
}

/// Whether one of the words of a script is known in a whole run alone: `$DAG_STATUS`,
/// `$FAILED_COUNT`, `$JOBID`, `$(Cluster)` or `$(ClusterId)`, in this case of letters.
pub fn uses_whole_run(words: &[Text]) -> bool
    ensures { result ≡ list_any is_whole_run words.now }
{
    words.iter().any(|word| is_whole_run(word.as_str()))
}

#[tactic(auto, unfolding(crate::specs::Script::is_whole_run))]
fn is_whole_run(word: &str) -> bool
    ensures { result ≡ is_whole_run word.now }
{
    (is_exactly(word, "$DAG_STATUS")
        || is_exactly(word, "$FAILED_COUNT")
        || is_exactly(word, "$JOBID"))
        || (is_exactly(word, "$(Cluster)") || is_exactly(word, "$(ClusterId)"))
}

#[tactic(auto, unfolding(crate::specs::Script::script_word))]
fn script_word(alloc: Global, word: &str, facts: &ScriptFacts) -> Result<Text, MacroFault>
    ensures { Gives (λ t. t) result (Ok (script_word facts.now word.now)) }
{
    if is_exactly(word, "$JOB") {
        return copy(alloc, facts.name.as_str());
    }
    if is_exactly(word, "$RETRY") {
        return number(alloc, facts.attempt as u64);
    }
    if is_exactly(word, "$MAX_RETRIES") {
        return number(alloc, facts.retries as u64);
    }
    if is_exactly(word, "$DAG_STATUS") {
        return number(alloc, facts.dag_status as u64);
    }
    if is_exactly(word, "$FAILED_COUNT") {
        return number(alloc, facts.failed as u64);
    }
    other_word(alloc, word, facts)
}

fn other_word(alloc: Global, word: &str, facts: &ScriptFacts) -> Result<Text, MacroFault>
    ensures { Gives (λ t. t) result (Ok (other_word facts.now word.now)) }
{
    if facts.post {
        post_word(alloc, word, facts)
    } else {
        copy(alloc, word)
    }
}

#[tactic(auto, unfolding(crate::specs::Script::post_word))]
fn post_word(alloc: Global, word: &str, facts: &ScriptFacts) -> Result<Text, MacroFault>
    ensures { Gives (λ t. t) result (Ok (post_word facts.now word.now)) }
{
    if is_exactly(word, "$RETURN") {
        return value(alloc, facts.job_value);
    }
    if is_exactly(word, "$PRE_SCRIPT_RETURN") {
        return value(alloc, facts.pre_value);
    }
    if is_exactly(word, "$JOBID") {
        return job_id(alloc, facts.job_launch);
    }
    copy(alloc, word)
}

fn copy(alloc: Global, text: &str) -> Result<Text, MacroFault>
    ensures { Gives (λ t. t) result (Ok text.now) }
{
    Ok(Text::new(alloc, text)?)
}

fn number(alloc: Global, n: u64) -> Result<Text, MacroFault>
    ensures { Gives (λ t. t) result (Ok (decimal n)) }
{
    let mut buffer = Buffer::new();
    copy(alloc, buffer.format(n))
}

fn value(alloc: Global, n: i32) -> Result<Text, MacroFault>
    ensures { Gives (λ t. t) result (Ok (signed_decimal n)) }
{
    let mut buffer = Buffer::new();
    copy(alloc, buffer.format(n))
}

fn job_id(alloc: Global, launch: u64) -> Result<Text, MacroFault>
    ensures { Gives (λ t. t) result (Ok (decimal launch ++ codes ".0")) }
{
    let mut buffer = Buffer::new();
    Ok(Text::joined(alloc, buffer.format(launch), ".0")?)
}

#[tactic(auto, unfolding(crate::specs::Script::is_exactly))]
fn is_exactly(word: &str, text: &str) -> bool
    ensures { result ≡ is_exactly word.now text.now }
{
    word == text
}
