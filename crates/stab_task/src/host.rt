//! Where a program's input comes from.

ghost use Rattle.std.specs.Prelude.{◌≡◌, ◌≢◌, List, ℕ, Option, Some, None, IfErr, IfOk, IfSome};
ghost use Rattle.std.specs.IoError.{error_kind};

use std::io::{self, Read};
use std::rt::Files;

/// What a program reads from: its standard input, and files by their names.
pub trait Host {
    /// The standard input.
    type Standard: Read + Drop;

    /// A file that was opened.
    type File: Read + Drop;

    // The bytes of the standard input, and those of the file of a name, where the host tells them.
    ghost standard_bytes: { Self → Option (List ℕ) };

    ghost file_bytes: { Self → List ℕ → Option (List ℕ) };

    /// The standard input.
    fn standard(&self) -> Self::Standard
        ensures { IfSome (standard_bytes self.now) (λ bytes.
            Self.Standard.remaining result ≡ Some bytes) };

    /// Opens the file of a name.
    fn open(&self, path: &str) -> io::Result<Self::File>
        ensures { IfOk result (λ file. IfSome (file_bytes self.now path.now) (λ bytes.
            Self.File.remaining file ≡ Some bytes)) };
}

/// The system that a program runs on. It does not tell what its files hold.
#[derive(Drop)]
pub struct System<'r, R> {
    /// The runtime of the program.
    rt: &'r R,
}

impl<'r, R> System<'r, R> {
    /// The system of this runtime.
    pub fn new(rt: &'r R) -> System<'r, R> {
        System { rt }
    }
}

impl<R: Files + Input> Host for System<'_, R> {
    type Standard = R::Reader;

    type File = R::File;

    ghost standard_bytes = { λ _. None };

    ghost file_bytes = { λ _ _. None };

    fn standard(&self) -> R::Reader {
        self.rt.reader()
    }

    fn open(&self, path: &str) -> io::Result<R::File> {
        std::fs::open(self.rt, path)
    }
}
