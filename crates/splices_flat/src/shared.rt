//! Texts with several owners.

ghost use Rattle.std.specs.Prelude.{◌≡◌, IfOk};

use dag_reader::{Text, Texts};
use std::alloc::{AllocError, Global};
use std::fmt;
use std::marker::Model;
use std::rc::Rc;

/// Texts that several owners share, so that one more takes no memory. A contract sees the list of
/// their bytes. They are displayed with a blank before each.
#[derive(Debug)]
pub struct SharedTexts {
    texts: Rc<Texts, Global>,
}

// Each function that drops a value calls this; a derived drop would be in each, part by part.
impl Drop for SharedTexts {
    fn drop(self) {
        let SharedTexts { texts: _ } = self;
    }
}

impl Model for SharedTexts {
    ghost use Rattle.std.specs.Prelude.{ℕ, List};

    ghost Value = { List (List ℕ) };

    ghost view = { λ t. t.texts.value };
}

impl SharedTexts {
    /// The texts as a slice.
    pub fn as_slice(&self) -> &[Text]
        ensures { result.now ≡ self.now }
    {
        self.texts.as_slice()
    }

    /// The texts, with one owner.
    pub fn new(alloc: Global, texts: Texts) -> Result<SharedTexts, AllocError>
        ensures { IfOk result (λ t. t ≡ texts) }
    {
        let texts = Rc::new(alloc, texts)?;
        Ok(SharedTexts { texts })
    }

    /// The same texts for one more owner. It is refused where they have 2^63 owners or more.
    pub fn share(&self) -> Result<SharedTexts, AllocError>
        ensures { IfOk result (λ t. t ≡ self.now) }
    {
        let texts = self.texts.clone()?;
        Ok(SharedTexts { texts })
    }
}

impl fmt::Display for SharedTexts {
    fn fmt<W: fmt::Write>(&self, f: &mut fmt::Formatter<W>) -> fmt::Result {
        write!(f, "{}", *self.texts)
    }
}
