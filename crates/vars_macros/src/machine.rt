//! Goes over a text and the texts that its references stand for.

ghost use Rattle.std.specs.Prelude.{◌≡◌, ◌++◌, ℕ, List, [], IfOk};
ghost use Rattle.vars_macros.specs.Each.{Each};
ghost use Rattle.vars_macros.specs.Frames.{HasKey};
ghost use Rattle.vars_macros.specs.NameTable.{HaveSameNumbers, IsKeyOf};
ghost use Rattle.vars_macros.specs.Pieces.{IsNamedBy};

use crate::cut::{Naming, Piece, first_piece, reference_in};
use crate::fault::MacroFault;
use crate::key::{Key, key_of};
use crate::meaning::{Meaning, stands_for};
use crate::numbering::Names;
use crate::part::Part;
use crate::scope::Scope;
use indexmap::IndexMap;
use std::alloc::{AllocError, Global};

/// A text that is gone on with when the name's expansion is done.
#[derive(Drop)]
pub(crate) struct Suspended<'a> {
    name: &'a [u8],
    vars: bool,
    rest: Part<'a>,
}

/// What is met next.
pub(crate) enum Event<'a> {
    Byte(u8),
    Fixed { whole: bool, text: &'a [u8] },
    Opened,
    Refused(MacroFault),
}

/// A text that is expanded, as far as it is left. The names whose expansions have begun and are not
/// done are in the table by their keys, the innermost last.
#[derive(Drop)]
pub(crate) struct Machine<'a> {
    alloc: Global,
    scope: Scope<'a>,
    vars: bool,
    rest: Part<'a>,
    stack: IndexMap<Key, Suspended<'a>>,
    ghost numbers: { HaveSameNumbers rest.names.now scope.names.now },
    ghost keys: { Each (HasKey scope.names.now) stack.entries },
}

impl<'a> Machine<'a> {
    ghost use Rattle.vars_macros.specs.Expansion.{events};
    ghost use Rattle.vars_macros.specs.Scopes.{scope_seen};
    ghost use Rattle.vars_macros.specs.Machine.{left_in, events_left, event_of, MeetsEvent};

    /// A text of which nothing is met yet.
    pub(crate) fn new(alloc: Global, scope: Scope<'a>, vars: bool, text: Part<'a>) -> Machine<'a>
        requires { HaveSameNumbers text.names.now scope.names.now }
        ensures { left_in result ≡ events (scope_seen scope.entry) [] vars text.entry.bytes.now }
    {
        Machine {
            alloc,
            scope,
            vars,
            rest: text,
            stack: IndexMap::new(alloc),
        }
    }

    /// What is met next, or nothing where all is met.
    pub(crate) fn next(&mut self) -> Result<Option<Event<'a>>, AllocError>
        ensures { IfOk result (λ met. MeetsEvent met (left_in self.old) (left_in self.new)) }
    {
        loop {
            match first_piece(self.rest) {
                Piece::End => match self.stack.pop() {
                    Some((_, outer)) => {
                        self.vars = outer.vars;
                        self.rest = outer.rest;
                    }
                    None => return Ok(None),
                },
                Piece::Plain(byte, after) => {
                    self.rest = after;
                    return Ok(Some(Event::Byte(byte)));
                }
                Piece::Reference(inside, after) => {
                    return Ok(Some(self.reference(inside, after)?));
                }
                Piece::Bad(fault) => {
                    self.rest = Part::empty(self.scope.names);
                    return Ok(Some(Event::Refused(fault)));
                }
            }
        }
    }

    /// Goes on after a reference, or into what it stands for.
    fn reference(&mut self, inside: Part<'a>, after: Part<'a>) -> Result<Event<'a>, AllocError>
        requires inside { HaveSameNumbers inside.names.now self.old.scope.names.now }
        requires after { HaveSameNumbers after.names.now self.old.scope.names.now }
        ensures { IfOk result (λ met. events_left inside.entry.bytes.now after.entry.bytes.now self.old ≡ event_of met ++ left_in self.new) }
    {
        let Some(named) = reference_in(inside) else {
            self.rest = after;
            return Ok(Event::Refused(MacroFault::BadReference));
        };
        let name = named.name;
        let key = key_by(self.alloc, self.scope.names, named.naming)?;
        match stands_for(self.scope, self.vars, name, &key, named.default) {
            Meaning::Fixed { whole, text } => {
                self.rest = after;
                Ok(Event::Fixed { whole, text })
            }
            Meaning::Value { vars, text } => {
                if self.stack.contains_key(&key) {
                    self.rest = after;
                    return Ok(Event::Refused(MacroFault::Loop));
                }
                let outer = Suspended {
                    name,
                    vars: self.vars,
                    rest: after,
                };
                self.stack.insert(key, outer)?;
                self.vars = vars;
                self.rest = text;
                Ok(Event::Opened)
            }
        }
    }
}

/// The key of a name that is known so.
fn key_by(alloc: Global, names: &Names, naming: Naming<'_>) -> Result<Key, AllocError>
    ensures { (name : List ℕ) → IsNamedBy names.now name naming.entry → IfOk result (λ key. IsKeyOf names.now name key) }
{
    match naming {
        Naming::Numbered(number) => Ok(Key::Numbered(number)),
        Naming::Spelled(name) => key_of(alloc, names, name),
    }
}
