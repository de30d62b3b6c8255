//! Texts that contracts see as their bytes.

ghost use Rattle.std.specs.Prelude.{◌≡◌, ◌++◌, IfOk};

use std::alloc::{AllocError, Global};
use std::fmt;
use std::marker::Model;

/// A text. A contract sees its bytes.
#[derive(Debug)]
pub struct Text {
    text: String,
}

// Each function that drops a value calls this; a derived drop would be in each, part by part.
impl Drop for Text {
    fn drop(self) {
        let Text { text: _ } = self;
    }
}

impl Model for Text {
    ghost use Rattle.std.specs.Prelude.{ℕ, List, string_bytes};

    ghost Value = { List ℕ };

    ghost view = { λ t. string_bytes t.text };
}

impl Text {
    /// The text as a string slice.
    pub fn as_str(&self) -> &str
        ensures { result.now ≡ self.now }
    {
        self.text.as_str()
    }

    /// A copy of a text.
    pub fn new(alloc: Global, text: &str) -> Result<Text, AllocError>
        ensures { IfOk result (λ t. t ≡ text.now) }
    {
        Ok(Text {
            text: String::from_str(alloc, text)?,
        })
    }

    /// The two texts, one after the other.
    pub fn joined(alloc: Global, front: &str, back: &str) -> Result<Text, AllocError>
        ensures { IfOk result (λ t. t ≡ front.now ++ back.now) }
    {
        let mut text = String::from_str(alloc, front)?;
        text.push_str(back)?;
        Ok(Text { text })
    }
}

impl fmt::Display for Text {
    ghost use Rattle.std.specs.Prelude.{Some};

    ghost output = { λ text. Some text };

    fn fmt<W: fmt::Write>(&self, f: &mut fmt::Formatter<W>) -> fmt::Result {
        write!(f, "{}", self.text)
    }
}

/// Texts in their order. A contract sees the list of their bytes. They are displayed with a blank
/// before each.
#[derive(Debug)]
pub struct Texts {
    texts: Vec<Text>,
}

// Each function that drops a value calls this; a derived drop would be in each, part by part.
impl Drop for Texts {
    fn drop(self) {
        let Texts { texts: _ } = self;
    }
}

impl Model for Texts {
    ghost use Rattle.std.specs.Prelude.{ℕ, List};

    ghost Value = { List (List ℕ) };

    ghost view = { λ t. t.texts.items };
}

impl Texts {
    ghost use Rattle.std.specs.Prelude.{[], ◌∷◌, ◌<◌, ◌≤◌, OnOk, OnErr, IfSome, drop, take, length, position, ◌-◌};
    ghost use Rattle.std.specs.Str.{bytes_eq};

    /// The texts as a slice.
    pub fn as_slice(&self) -> &[Text]
        ensures { result.now ≡ self.now }
    {
        self.texts.as_slice()
    }

    /// No texts.
    pub fn new(alloc: Global) -> Texts
        ensures { result ≡ [] }
    {
        Texts {
            texts: Vec::new(alloc),
        }
    }

    /// Adds a text after the others.
    pub fn push(&mut self, text: Text) -> Result<(), AllocError>
        ensures ok { OnOk result (self.new ≡ self.old ++ text ∷ []) }
        ensures err { OnErr result (self.new ≡ self.old) }
    {
        self.texts.push(text)?;
        Ok(())
    }

    /// Takes the last text away, if there is one.
    pub fn pop(&mut self)
        ensures { self.new ≡ take (length self.old - 1) self.old }
    {
        let _ = self.texts.pop();
    }

    /// The first place of a text.
    pub fn place_of(&self, text: &str) -> Option<usize>
        ensures value { result ≡ position (bytes_eq text.now) self.now }
        ensures within { IfSome result (λ k. k < length self.now) }
    {
        self.texts.iter().position(|t| text == t.as_str())
    }

    /// Those from this place on.
    pub fn from_place(&self, alloc: Global, place: usize) -> Result<Texts, AllocError>
        requires { place ≤ length self.now }
        ensures { IfOk result (λ t. t ≡ drop place self.now) }
    {
        copies(alloc, &self.texts[place..])
    }
}

impl fmt::Display for Texts {
    ghost use Rattle.std.specs.Prelude.{Some};
    ghost use Rattle.dag_reader.specs.Fault.{texts_text};

    ghost output = { λ texts. Some (texts_text texts) };

    fn fmt<W: fmt::Write>(&self, f: &mut fmt::Formatter<W>) -> fmt::Result {
        let texts = self.as_slice();
        for text in texts {
            write!(f, " {text}")?;
        }
        Ok(())
    }
}

/// The texts once more.
fn copies(alloc: Global, texts: &[Text]) -> Result<Texts, AllocError>
    ensures { IfOk result (λ t. t ≡ texts.now) }
{
    let mut all = Texts::new(alloc);
    for text in texts {
        all.push(Text::new(alloc, text.as_str())?)?;
    }
    Ok(all)
}
