//! Folders of nodes and splices.

ghost use Rattle.std.specs.Prelude.{◌≡◌};
ghost use Rattle.splices_flat.specs.Paths.{dir_text};

use dag_reader::Word;

/// What DIR gives, which is nothing where it is missing.
pub(crate) fn dir_text(dir: &Option<Word>) -> &str
    ensures { result.now ≡ dir_text dir.now }
{
    match dir {
        Some(word) => word.text(),
        None => "",
    }
}
