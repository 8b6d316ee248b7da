ghost use Rattle.std.specs.Prelude.{◌≡◌, ℕ, List, Option, take, option_map, true, IfSome, IfOk};
ghost use Rattle.std.specs.List.{list_all};
ghost use Rattle.std.specs.List.Sorted.{IsPermutation};
ghost use Rattle.std.specs.Str.{is_utf8};
ghost use Rattle.mj_terms.specs.Causes.{HasCause};
ghost use Rattle.mj_io.specs.Folder.{ascend, found_in, names_in, file_at};

use mj_fields::{Bytes, Items, Memory};
use std::alloc::Global;

/// Why files weren't listed or read.
#[derive(Clone, Copy, Debug, PartialEq, Eq)]
pub enum FilesError {
    /// The device failed; its count of faults rose.
    Failed,
    /// There was no room for the answer.
    Memory,
}

impl From<Memory> for FilesError {
    ghost use Rattle.std.specs.Prelude.{◌≡◌};
    ghost use Rattle.mj_io.specs.declared.files.FilesError.TheVariants.{Memory as NoRoom};

    ghost from_gives = { λ _ e. e ≡ NoRoom };

    fn from(_: Memory) -> FilesError {
        FilesError::Memory
    }
}

/// Files that are listed and read by path. A path is a folder, `/` and a name; it is UTF-8.
pub trait Files {
    /// The files, each path with its bytes, where the object tells them.
    ghost told: { Self → Option (List (List ℕ × List ℕ)) };

    /// How often the device has failed.
    ghost faults: { Self → ℕ };

    /// The names of the files that stand in the folder itself, in ascending byte order. A missing folder has
    /// none.
    fn list(&mut self, alloc: Global, folder: &str) -> Result<Items<Bytes>, FilesError>
        ensures names { IfSome (told self.old) (λ files. IfOk result (λ names. names ≡ names_in folder.now files)) }
        // So they ascend, and are those of the files in the folder, each as often.
        ensures order { IfSome (told self.old) (λ _. IfOk result (λ names. ascend names ≡ true)) }
        ensures members { IfSome (told self.old) (λ files. IfOk result (λ names. IsPermutation (found_in folder.now files) names)) }
        ensures utf8 { IfOk result (λ names. list_all is_utf8 names ≡ true) }
        ensures same { told self.new ≡ told self.old }
        ensures cause { HasCause FilesError.Failed (faults self.old) (faults self.new) result };

    /// The first `limit` bytes of the file at the path, or all of them if it has fewer; `None` exactly where
    /// there is no such file.
    fn read(&mut self, alloc: Global, path: &str, limit: usize) -> Result<Option<Bytes>, FilesError>
        ensures bytes { IfSome (told self.old) (λ files. IfOk result (λ bytes. bytes ≡ option_map (take limit) (file_at path.now files))) }
        ensures same { told self.new ≡ told self.old }
        ensures cause { HasCause FilesError.Failed (faults self.old) (faults self.new) result };
}
