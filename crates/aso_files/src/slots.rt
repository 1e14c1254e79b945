use crate::count::count;
use aso_disk::{Failed, Slots, Trouble, Writes};
use std::fs::{File, OpenOptions};
use std::io::{ErrorKind, Write};
use std::os::unix::fs::FileExt;
use std::rt::Files;
use std::{fs, io};

/// The bytes of a catalog, and of the piece of zeros that one is made of.
const SIZE: u64 = 262_144;

const PIECE: u64 = 4096;

/// A device in a file. It tells no proof what it holds.
#[derive(Drop)]
pub struct FileSlots {
    file: File,
    size: u64,
    faults: u64,
    writes: Writes,
}

impl FileSlots {
    ghost use Rattle.std.specs.Prelude.{◌≡◌, [], None, IfOk};

    /// Opens the file of a catalog. A missing one is made whole first: its 262,144 zero bytes are written under the name
    /// with `.new` behind it and synced, the file is renamed, and its folder is synced. An error leaves no device, so no
    /// count tells of it.
    pub fn open<R: Files<File = File> + AllocGlobal>(
        rt: &R,
        path: &str,
    ) -> Result<FileSlots, Trouble>
        ensures faults { IfOk result (λ slots. ⟦<FileSlots as Slots>⟧.faults slots ≡ 0) }
        ensures begun { IfOk result (λ slots. ⟦<FileSlots as Slots>⟧.writes slots ≡ []) }
        ensures untold { IfOk result (λ slots. ⟦<FileSlots as Slots>⟧.seen slots ≡ None) }
    {
        let file = match opened(rt, path) {
            Ok(file) => file,
            Err(error) => {
                if error.kind() != ErrorKind::NotFound {
                    return Err(Trouble::Failed);
                }
                make(rt, path)?
            }
        };
        let Ok(metadata) = file.metadata() else {
            return Err(Trouble::Failed);
        };
        Ok(FileSlots {
            file,
            size: metadata.len(),
            faults: 0,
            writes: Writes::new(),
        })
    }
}

fn opened<R: Files<File = File>>(rt: &R, path: &str) -> io::Result<File> {
    OpenOptions::new().read(true).write(true).open(rt, path)
}

// Makes a missing catalog, and opens it.
fn make<R: Files<File = File> + AllocGlobal>(rt: &R, path: &str) -> Result<File, Trouble> {
    let fresh = format!(in rt.alloc(); "{path}.new")?;
    let folder = match path.rsplit_once('/') {
        Some(("", _)) => "/",
        Some((folder, _)) => folder,
        None => ".",
    };
    match make_whole(rt, path, fresh.as_str(), folder) {
        Ok(file) => Ok(file),
        Err(_) => Err(Trouble::Failed),
    }
}

fn make_whole<R: Files<File = File>>(
    rt: &R,
    path: &str,
    fresh: &str,
    folder: &str,
) -> io::Result<File> {
    let mut file = fs::create(rt, fresh)?;
    for _ in 0..SIZE / PIECE {
        file.write_all(&[0; 4096])?;
    }
    file.sync_all()?;
    fs::rename(rt, fresh, path)?;
    fs::open(rt, folder)?.sync_all()?;
    opened(rt, path)
}

impl Slots for FileSlots {
    ghost use Rattle.std.specs.Prelude.{⊤, None};

    ghost extent = { λ slots. slots.size };

    ghost seen = { λ slots. None };

    ghost moment = { λ slots. 0 };

    ghost left = { λ slots k image. ⊥ };

    ghost writes = { λ slots. slots.writes.begun };

    ghost faults = { λ slots. slots.faults };

    ghost same = { λ first second. ⊤ };

    ghost seen_left = { λ slots bytes is. Prim.cc };

    ghost fixed = { λ slots bytes is. Prim.cc };

    ghost same_refl = { λ slots. tt };

    ghost same_trans = { λ first second third p q. tt };

    fn size(&mut self) -> Result<u64, Failed> {
        Ok(self.size)
    }

    fn read(&mut self, at: u64, into: &mut [u8]) -> Result<(), Failed> {
        match self.file.read_exact_at(into, at) {
            Ok(()) => Ok(()),
            Err(_) => Err(count(&mut self.faults)),
        }
    }

    fn write(&mut self, at: u64, bytes: &[u8]) -> Result<(), Failed> {
        self.writes.begin(at, bytes);
        match self.file.write_all_at(bytes, at) {
            Ok(()) => Ok(()),
            Err(_) => Err(count(&mut self.faults)),
        }
    }

    fn sync(&mut self) -> Result<(), Failed> {
        match self.file.sync_all() {
            Ok(()) => Ok(()),
            Err(_) => Err(count(&mut self.faults)),
        }
    }
}
