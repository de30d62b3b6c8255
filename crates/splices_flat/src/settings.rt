//! What a line sets for a node.

ghost use Rattle.std.specs.Prelude.{◌≡◌, ◌∷◌, [], Some, find, IfOk, OnOk};
ghost use Rattle.splices_flat.specs.MacroKeys.{macro_key};
ghost use Rattle.splices_flat.specs.Settings.{full_category, is_namesake, line_of_target, macro_setting, macros_of, no_settings, with_line, with_macro, with_macros, with_script, words_said};
ghost use Rattle.splices_flat.specs.Warnings.{with_numbers, line_if, replaced_by, replaced_in, script_setting};

use crate::flat::{
    AbortSetting, CategorySetting, MacroSetting, MacroSettings, PreSkipSetting, PrioritySetting,
    RetrySetting, ScriptSetting, Settings,
};
use crate::shared::SharedTexts;
use dag_reader::{Command, Macro, Placement, ScriptKind, Target, Text};
use std::alloc::{AllocError, Global};

impl Settings {
    /// The settings of a node of which no line says anything.
    pub fn new(alloc: Global) -> Settings
        ensures { result ≡ no_settings }
    {
        Settings {
            pre: None,
            post: None,
            retry: None,
            pre_skip: None,
            macros: MacroSettings::new(alloc),
            priority: None,
            category: None,
            abort: None,
        }
    }

    /// Puts in what a line says of the node, and adds the lines that it replaces to those there. The
    /// words of the script that it says, if it says one, are handed in, for all of its nodes share
    /// them.
    pub fn set(
        &mut self,
        alloc: Global,
        prefix: &str,
        command: &Command,
        words: &SharedTexts,
        replaced: &mut Vec<usize>,
    ) -> Result<(), AllocError>
        requires { words.now ≡ words_said command.now }
        ensures settings { OnOk result (self.new ≡ with_line prefix.now self.old command.now) }
        ensures replaced { OnOk result
            (replaced.new.items ≡ with_numbers replaced.old.items (replaced_in self.old command.now)) }
    {
        match command {
            Command::Script { kind, node, .. } => {
                self.set_script(*kind, ScriptSetting::new(node, words)?, replaced)
            }
            Command::Retry {
                node,
                retries,
                unless_exit,
            } => self.set_retry(target_line(node), *retries, *unless_exit, replaced),
            Command::PreSkip { node, value } => {
                self.set_pre_skip(target_line(node), *value, replaced)
            }
            Command::Vars {
                node,
                placement,
                macros,
            } => self
                .macros
                .put_all(alloc, node, *placement, macros.as_slice(), replaced),
            Command::Priority { node, priority } => {
                self.set_priority(target_line(node), *priority, replaced)
            }
            Command::Category { node, category } => {
                let name = full_category(alloc, prefix, category.text())?;
                self.set_category(target_line(node), name, replaced)
            }
            Command::AbortDagOn {
                node,
                value,
                status,
            } => self.set_abort(target_line(node), *value, *status, replaced),
            _ => Ok(()),
        }
    }

    fn set_script(
        &mut self,
        kind: ScriptKind,
        setting: ScriptSetting,
        replaced: &mut Vec<usize>,
    ) -> Result<(), AllocError>
        ensures settings { OnOk result (self.new ≡ with_script kind setting self.old) }
        ensures replaced { OnOk result (replaced.new.items
            ≡ with_numbers replaced.old.items (line_if (λ s. s.line) (script_setting kind self.old))) }
    {
        match kind {
            ScriptKind::Pre => self.set_pre(setting, replaced),
            ScriptKind::Post => self.set_post(setting, replaced),
        }
    }

    fn set_pre(
        &mut self,
        setting: ScriptSetting,
        replaced: &mut Vec<usize>,
    ) -> Result<(), AllocError>
        ensures settings { OnOk result (self.new ≡ record self.old { pre = Some setting }) }
        ensures replaced { OnOk result
            (replaced.new.items ≡ with_numbers replaced.old.items (line_if (λ s. s.line) self.old.pre)) }
    {
        if let Some(old) = &self.pre {
            add_once(replaced, old.line)?;
        }
        self.pre = Some(setting);
        Ok(())
    }

    fn set_post(
        &mut self,
        setting: ScriptSetting,
        replaced: &mut Vec<usize>,
    ) -> Result<(), AllocError>
        ensures settings { OnOk result (self.new ≡ record self.old { post = Some setting }) }
        ensures replaced { OnOk result
            (replaced.new.items ≡ with_numbers replaced.old.items (line_if (λ s. s.line) self.old.post)) }
    {
        if let Some(old) = &self.post {
            add_once(replaced, old.line)?;
        }
        self.post = Some(setting);
        Ok(())
    }

    fn set_retry(
        &mut self,
        line: usize,
        retries: u32,
        unless_exit: Option<i32>,
        replaced: &mut Vec<usize>,
    ) -> Result<(), AllocError>
        ensures settings { OnOk result (self.new ≡ record self.old { retry = Some (record { line = line; retries = retries; unless_exit = unless_exit }) }) }
        ensures replaced { OnOk result
            (replaced.new.items ≡ with_numbers replaced.old.items (line_if (λ s. s.line) self.old.retry)) }
    {
        if let Some(old) = self.retry {
            add_once(replaced, old.line)?;
        }
        self.retry = Some(RetrySetting {
            line,
            retries,
            unless_exit,
        });
        Ok(())
    }

    fn set_pre_skip(
        &mut self,
        line: usize,
        value: i32,
        replaced: &mut Vec<usize>,
    ) -> Result<(), AllocError>
        ensures settings { OnOk result (self.new ≡ record self.old { pre_skip = Some (record { line = line; value = value }) }) }
        ensures replaced { OnOk result
            (replaced.new.items ≡ with_numbers replaced.old.items (line_if (λ s. s.line) self.old.pre_skip)) }
    {
        if let Some(old) = self.pre_skip {
            add_once(replaced, old.line)?;
        }
        self.pre_skip = Some(PreSkipSetting { line, value });
        Ok(())
    }

    fn set_priority(
        &mut self,
        line: usize,
        value: i32,
        replaced: &mut Vec<usize>,
    ) -> Result<(), AllocError>
        ensures settings { OnOk result (self.new ≡ record self.old { priority = Some (record { line = line; value = value }) }) }
        ensures replaced { OnOk result
            (replaced.new.items ≡ with_numbers replaced.old.items (line_if (λ s. s.line) self.old.priority)) }
    {
        if let Some(old) = self.priority {
            add_once(replaced, old.line)?;
        }
        self.priority = Some(PrioritySetting { line, value });
        Ok(())
    }

    fn set_category(
        &mut self,
        line: usize,
        name: Text,
        replaced: &mut Vec<usize>,
    ) -> Result<(), AllocError>
        ensures settings { OnOk result (self.new ≡ record self.old { category = Some (record { line = line; name = name }) }) }
        ensures replaced { OnOk result
            (replaced.new.items ≡ with_numbers replaced.old.items (line_if (λ s. s.line) self.old.category)) }
    {
        if let Some(old) = &self.category {
            add_once(replaced, old.line)?;
        }
        self.category = Some(CategorySetting { line, name });
        Ok(())
    }

    fn set_abort(
        &mut self,
        line: usize,
        value: i32,
        status: Option<u8>,
        replaced: &mut Vec<usize>,
    ) -> Result<(), AllocError>
        ensures settings { OnOk result (self.new ≡ record self.old { abort = Some (record { line = line; value = value; status = status }) }) }
        ensures replaced { OnOk result
            (replaced.new.items ≡ with_numbers replaced.old.items (line_if (λ s. s.line) self.old.abort)) }
    {
        if let Some(old) = self.abort {
            add_once(replaced, old.line)?;
        }
        self.abort = Some(AbortSetting {
            line,
            value,
            status,
        });
        Ok(())
    }
}

impl ScriptSetting {
    /// That of these words, by a line with this target.
    fn new(target: &Target, words: &SharedTexts) -> Result<ScriptSetting, AllocError>
        ensures { IfOk result (λ s. s ≡ record { line = line_of_target target.now; words = words.now }) }
    {
        Ok(ScriptSetting {
            line: target_line(target),
            words: words.share()?,
        })
    }
}

impl MacroSetting {
    fn new(
        alloc: Global,
        line: usize,
        placement: Placement,
        one: &Macro,
    ) -> Result<MacroSetting, AllocError>
        ensures { IfOk result (λ m. m ≡ macro_setting line placement one.now) }
    {
        Ok(MacroSetting {
            line,
            placement,
            name: Text::new(alloc, one.name.text())?,
            text: Text::new(alloc, one.text.text())?,
        })
    }

    /// The name in lower case: letters have no case there.
    fn key(&self, alloc: Global) -> Result<Text, AllocError>
        ensures { IfOk result (λ key. key ≡ macro_key self.now) }
    {
        let key = self.name.as_str().to_ascii_lowercase(alloc)?;
        Text::new(alloc, key.as_str())
    }
}

impl MacroSettings {
    /// Puts in a macro, in place of its namesake if there is one, whose line is added to those there.
    fn put(
        &mut self,
        alloc: Global,
        one: MacroSetting,
        replaced: &mut Vec<usize>,
    ) -> Result<(), AllocError>
        ensures macros { OnOk result (self.new ≡ with_macro self.old one) }
        ensures replaced { OnOk result (replaced.new.items
            ≡ with_numbers replaced.old.items (line_if (λ m. m.line) (find (is_namesake one) self.old))) }
    {
        let key = one.key(alloc)?;
        match self.names.place_of(key.as_str()) {
            Some(place) => {
                let old = &self.items[place];
                add_once(replaced, old.line)?;
                self.items[place] = one;
            }
            None => {
                self.items.reserve(1)?;
                self.names.add(alloc, key.as_str())?;
                self.items.push(one)?;
            }
        }
        Ok(())
    }

    /// Puts in the macros of a line, one after the other.
    fn put_all(
        &mut self,
        alloc: Global,
        target: &Target,
        placement: Placement,
        macros: &[Macro],
        replaced: &mut Vec<usize>,
    ) -> Result<(), AllocError>
        ensures macros { OnOk result
            (self.new ≡ with_macros self.old (macros_of target.now placement macros.now)) }
        ensures replaced { OnOk result (replaced.new.items
            ≡ with_numbers replaced.old.items (replaced_by self.old (macros_of target.now placement macros.now))) }
    {
        for one in macros {
            let one = MacroSetting::new(alloc, target_line(target), placement, one)?;
            self.put(alloc, one, replaced)?;
        }
        Ok(())
    }
}

/// The number of the line that a target is in.
pub fn target_line(target: &Target) -> usize
    ensures { result ≡ line_of_target target.now }
{
    match target {
        Target::Node(word) => word.span().line,
        Target::AllNodes(span) => span.line,
    }
}

/// A category's full name: prefixed like a node's, unless it begins with a plus.
pub fn full_category(alloc: Global, prefix: &str, name: &str) -> Result<Text, AllocError>
    ensures { IfOk result (λ t. t ≡ full_category prefix.now name.now) }
{
    match name.as_bytes() {
        [b'+', ..] => Text::new(alloc, name),
        _ => Text::joined(alloc, prefix, name),
    }
}

/// Adds a line that is not there yet.
fn add_once(lines: &mut Vec<usize>, line: usize) -> Result<(), AllocError>
    ensures { OnOk result (lines.new.items ≡ with_numbers lines.old.items (line ∷ [])) }
{
    if !lines.as_slice().contains(&line) {
        lines.push(line)?;
    }
    Ok(())
}
