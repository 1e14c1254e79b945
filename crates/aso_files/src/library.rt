use crate::count::count;
use aso_disk::{Library, Trouble};
use std::alloc::Global;
use std::fs;
use std::io::ErrorKind;
use std::rt::Files;

/// The greatest size of a text, in bytes.
const LONGEST: usize = 4_294_967_295;

/// Texts that are files, each under its path. It tells no proof what they hold.
#[derive(Drop)]
pub struct FolderLibrary<'a, R: Files + Alloc<A = Global>> {
    rt: &'a R,
    faults: u64,
}

impl<'a, R: Files + Alloc<A = Global>> FolderLibrary<'a, R> {
    ghost use Rattle.std.specs.Prelude.{◌≡◌, IsOk, IfOk};

    /// The files that the program reaches by their paths.
    pub fn open(rt: &'a R) -> Result<FolderLibrary<'a, R>, Trouble>
        ensures ok { IsOk result }
        ensures faults { IfOk result (λ library. ⟦<FolderLibrary<'a, R> as Library>⟧.faults library ≡ 0) }
    {
        Ok(FolderLibrary { rt, faults: 0 })
    }
}

impl<'a, R: Files + Alloc<A = Global>> Library for FolderLibrary<'a, R> {
    ghost use Rattle.std.specs.Prelude.{⊤, None};

    ghost texts = { λ library. None };

    ghost faults = { λ library. library.faults };

    ghost same = { λ first second. ⊤ };

    ghost same_refl = { λ library. tt };

    ghost same_trans = { λ first second third p q. tt };

    /// A path that names no file has no text. A folder, a path through a file or with a NUL byte, and a file past the
    /// longest text are failures.
    fn text(&mut self, name: &str) -> Result<Option<Vec<u8>>, Trouble> {
        match fs::read(self.rt, name) {
            Ok(text) if text.len() <= LONGEST => Ok(Some(text)),
            Err(error) if error.kind() == ErrorKind::NotFound => Ok(None),
            Err(error) if error.kind() == ErrorKind::OutOfMemory => Err(Trouble::NoMemory),
            _ => {
                let failed = count(&mut self.faults);
                Err(Trouble::from(failed))
            }
        }
    }
}
