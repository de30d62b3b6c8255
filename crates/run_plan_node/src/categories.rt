//! The categories that have a limit, found by their names.

ghost use Rattle.std.specs.Prelude.{◌≡◌, position, IfOk};
ghost use Rattle.std.specs.Str.{bytes_eq};

use splices_flat::{CategoryLimit, NameTable};
use std::alloc::{AllocError, Global};
use std::marker::Model;

/// The categories that have a limit, each of which is found by its name at once. A contract sees
/// the limits.
#[derive(Drop)]
pub struct Categories<'a> {
    limits: &'a [CategoryLimit],
    /// their names, each once
    names: NameTable,
    /// the place of the first limit of each name
    places: Vec<usize>,
}

impl<'a> Model for Categories<'a> {
    ghost use Rattle.std.specs.Prelude.{List};
    ghost use Rattle.splices_flat.specs.declared.flat.CategoryLimit.{CategoryLimit};
    ghost use Rattle.run_plan_node.specs.Categories.{AreFound};

    ghost Value = { List CategoryLimit };

    ghost view = { λ a. a.limits.now };

    ghost invariant = { λ a. AreFound a.limits.now a.names a.places.items };
}

impl<'a> Categories<'a> {
    /// Those that have these limits.
    ///
    /// # Errors
    /// Where memory is refused.
    pub fn new(alloc: Global, limits: &'a [CategoryLimit]) -> Result<Categories<'a>, AllocError>
        ensures { IfOk result (λ categories. categories ≡ limits.now) }
    {
        let mut names = NameTable::new(alloc);
        let mut places = Vec::new(alloc);
        for (place, limit) in limits.iter().enumerate() {
            if !names.has(limit.name.as_str()) {
                names.add(alloc, limit.name.as_str())?;
                places.push(place)?;
            }
        }
        Ok(Categories {
            limits,
            names,
            places,
        })
    }

    /// The place of the first limit of a category, if it has one.
    pub fn place_of(&self, name: &str) -> Option<usize>
        ensures { result ≡ position (λ limit. bytes_eq name.now limit.name) self.now }
    {
        let _limits = self.limits;
        match self.names.place_of(name) {
            Some(number) => Some(self.places[number]),
            None => None,
        }
    }
}
