//! Paths of files, seen from a folder.

ghost use Rattle.std.specs.Prelude.{◌≡◌, IfOk};
ghost use Rattle.splices_flat.specs.Paths.{join};

use dag_reader::Text;
use std::alloc::{AllocError, Global};

/// A path as seen from a folder: the path alone where there is no folder or the path begins with a
/// slash, the folder alone where there is no path, and else the folder, a slash and the path.
pub fn path_in(alloc: Global, folder: &str, path: &str) -> Result<Text, AllocError>
    ensures { IfOk result (λ t. t ≡ join folder.now path.now) }
{
    match (folder.as_bytes(), path.as_bytes()) {
        ([], _) => Text::new(alloc, path),
        (_, []) => Text::new(alloc, folder),
        (_, [b'/', ..]) => Text::new(alloc, path),
        _ => {
            let below = Text::joined(alloc, folder, "/")?;
            Text::joined(alloc, below.as_str(), path)
        }
    }
}
