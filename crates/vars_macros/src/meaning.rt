//! What a name stands for.

ghost use Rattle.std.specs.Prelude.{◌≡◌, ◌||◌, ℕ, List, IfSome, option_copied, option_map};
ghost use Rattle.vars_macros.specs.Each.{Each};
ghost use Rattle.vars_macros.specs.Names.{same_name};
ghost use Rattle.vars_macros.specs.NameTable.{HaveSameNumbers, IsKeyOf, place_in};
ghost use Rattle.vars_macros.specs.Meaning.{is_launch_macro, is_process, last_macro, unassigned, ordinary, stands_for};
ghost use Rattle.vars_macros.specs.Places.{macros_in, GivesLast, HasPlaces};
ghost use Rattle.vars_macros.specs.Scopes.{scope_seen, meaning_of, text_of_part, HasNames};
ghost use Rattle.vars_macros.specs.declared.assignment.Assigned.{Assigned};

use crate::assignment::Assigned;
use crate::key::Key;
use crate::numbering::Names;
use crate::part::Part;
use crate::scope::Scope;

/// A text that is written as it is (`whole` says that it is known in a whole run alone), or one that
/// is expanded (`vars` says that it is from a VARS line).
pub(crate) enum Meaning<'a> {
    Fixed { whole: bool, text: &'a [u8] },
    Value { vars: bool, text: Part<'a> },
}

/// What a name stands for in a text, where the reference to it has this default.
#[tactic(auto, unfolding(crate::specs::Meaning::stands_for))]
pub(crate) fn stands_for<'a>(
    scope: Scope<'a>,
    vars: bool,
    name: &[u8],
    key: &Key,
    default: Option<Part<'a>>,
) -> Meaning<'a>
    requires key { IsKeyOf scope.names.now name.now key.now }
    requires default { IfSome default (λ text. HaveSameNumbers text.names.now scope.names.now) }
    ensures is { meaning_of result ≡ stands_for (scope_seen scope.entry) vars name.now (option_map text_of_part default.entry) }
    ensures names { HasNames scope.entry.names.now result }
{
    if is_launch(name) {
        return Meaning::Fixed {
            whole: true,
            text: scope.launch,
        };
    }
    if is_process(name) {
        return Meaning::Fixed {
            whole: false,
            text: b"0",
        };
    }
    if vars && default.is_none() && same_name(name, b"JOB") {
        return Meaning::Fixed {
            whole: false,
            text: scope.job,
        };
    }
    if vars && default.is_none() && same_name(name, b"RETRY") {
        return Meaning::Fixed {
            whole: false,
            text: scope.retry,
        };
    }
    ordinary(scope, vars, name, key, default)
}

fn is_launch(name: &[u8]) -> bool
    ensures { result ≡ is_launch_macro name.now }
{
    same_name(name, b"Cluster") || same_name(name, b"ClusterId")
}

fn is_process(name: &[u8]) -> bool
    ensures { result ≡ is_process name.now }
{
    same_name(name, b"Process") || same_name(name, b"ProcId")
}

fn ordinary<'a>(
    scope: Scope<'a>,
    vars: bool,
    name: &[u8],
    key: &Key,
    default: Option<Part<'a>>,
) -> Meaning<'a>
    requires key { IsKeyOf scope.names.now name.now key.now }
    requires default { IfSome default (λ text. HaveSameNumbers text.names.now scope.names.now) }
    ensures is { meaning_of result ≡ ordinary (scope_seen scope.entry) vars name.now (option_map text_of_part default.entry) }
    ensures names { HasNames scope.entry.names.now result }
{
    match last_assigned(scope.assigned, scope.names, key) {
        Some(found) => Meaning::Value {
            vars: found.one.vars,
            text: found.value(scope.names),
        },
        None => unassigned(scope, vars, name, default),
    }
}

/// The last assignment of the name with this key.
pub(crate) fn last_assigned<'a>(
    assigned: &'a [Assigned],
    names: &Names,
    key: &Key,
) -> Option<&'a Assigned>
    requires last { GivesLast (place_in names.now) (macros_in assigned.now) }
    requires places { Each (HasPlaces names.now) assigned.now }
    ensures last { (name : List ℕ) → IsKeyOf names.now name key.now →
        option_map (λ (a : Assigned). a.one) (option_copied result) ≡ last_macro (macros_in assigned.now) name }
    ensures places { IfSome result (λ found. HasPlaces names.now found.now) }
{
    match key {
        Key::Numbered(number) => assigned.get(names.last(*number)?),
        Key::Spelled(_) => None,
    }
}

fn unassigned<'a>(
    scope: Scope<'a>,
    vars: bool,
    name: &[u8],
    default: Option<Part<'a>>,
) -> Meaning<'a>
    requires { IfSome default (λ text. HaveSameNumbers text.names.now scope.names.now) }
    ensures is { meaning_of result ≡ unassigned (scope_seen scope.entry) vars name.now (option_map text_of_part default.entry) }
    ensures names { HasNames scope.entry.names.now result }
{
    if same_name(name, b"JOB") {
        return Meaning::Fixed {
            whole: false,
            text: scope.job,
        };
    }
    if same_name(name, b"RETRY") {
        return Meaning::Fixed {
            whole: false,
            text: scope.retry,
        };
    }
    match default {
        Some(text) => Meaning::Value { vars, text },
        None => Meaning::Value {
            vars,
            text: Part::empty(scope.names),
        },
    }
}

/// Whether two names are the same, in any case of ASCII letters.
#[tactic(auto, unfolding(crate::specs::Names::same_name))]
pub(crate) fn same_name(a: &[u8], b: &[u8]) -> bool
    ensures { result ≡ same_name a.now b.now }
{
    a.eq_ignore_ascii_case(b)
}
