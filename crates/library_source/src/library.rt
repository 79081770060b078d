//! What reads files.

ghost use Rattle.std.specs.Prelude.{◌≡◌, ◌≤◌, ℕ, List, Option, IfOk, IfSome};
ghost use Rattle.std.specs.Result.{IsErrOf};
ghost use Rattle.ld_base.specs.declared.linking.File.{File};
ghost use Rattle.library_source.specs.Count.{Rises};
ghost use Rattle.library_source.specs.Files.{file_at};
ghost use Rattle.library_source.specs.declared.library.ReadError.TheVariants.{Memory};

use std::alloc::AllocError;
use thiserror::Error;

/// Why a path gives no bytes.
#[derive(Clone, Copy, Debug, PartialEq, Eq, Error)]
pub enum ReadError {
    /// There is no file at the path.
    #[error("no such file")]
    Missing,
    /// The library failed to read.
    #[error("the read failed")]
    Failed,
    #[error("out of memory")]
    Memory,
}

impl From<AllocError> for ReadError {
    ghost from_gives = { λ _ error. error ≡ Memory };

    fn from(_error: AllocError) -> Self {
        ReadError::Memory
    }
}

/// A place from which files are read.
pub trait Library {
    /// All its files, where it tells them: a path's file is the first of that path.
    ghost files: { Self → Option (List File) };

    /// How often it failed.
    ghost faults: { Self → ℕ };

    /// How often it had no file at a path.
    ghost misses: { Self → ℕ };

    /// The bytes of the file at a path.
    fn read(&mut self, path: &[u8]) -> Result<Vec<u8>, ReadError>
        ensures files { files self.new ≡ files self.old }
        ensures faults { faults self.old ≤ faults self.new }
        ensures misses { misses self.old ≤ misses self.new }

        // No answer is invented.
        ensures failed { IsErrOf result ReadError.Failed
            → Rises (faults self.old) (faults self.new) }
        ensures missing { IsErrOf result ReadError.Missing
            → Rises (misses self.old) (misses self.new) }

        // Where the files are told, the answer is theirs.
        ensures found { IfSome (files self.old) (λ all.
            IfOk result (λ bytes. file_at all path.now ≡ Some bytes.items)) }
        ensures absent { IfSome (files self.old) (λ all.
            IsErrOf result ReadError.Missing → file_at all path.now ≡ None) };
}
