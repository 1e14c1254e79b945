//! The program `aso`: its words, the files that they name and the standard output, handed to the top call.
#![tactic(auto)]

ghost use Rattle.std.specs.Prelude.{◌≡◌, ◌⊎◌};
ghost use Rattle.aso_disk.specs.Causes.{Rose};

use aso_disk::{MemSlots, Sink, Trouble};
use aso_files::{FileSlots, FolderLibrary, RealSink};
use aso_num::Status;
use aso_top::{Asked, asked_command, run};
use std::alloc::AllocError;
use std::io::ErrorKind;
use std::process::ExitCode;
use std::rt::Files;
use std::{env, fs};

// The words behind the program's name. Words of which one is no text are no command, as no words are.
fn words(rt: &HostRuntime) -> Result<Vec<String>, AllocError> {
    match env::args(rt) {
        Ok(mut words) => {
            let _program = words.next();
            words.collect(rt.alloc())
        }
        Err(error) if error.kind() == ErrorKind::OutOfMemory => Err(AllocError),
        Err(_) => Ok(Vec::new(rt.alloc())),
    }
}

// Puts a line, and gives its status or the sink's.
fn put_line<K: Sink>(out: &mut K, status: Status, line: &[u8]) -> Status
    requires { (status ≡ Status.Disk) ⊎ (status ≡ Status.NoMemory) }
    ensures sink { result ≡ Status.Sink → Rose (K.faults out.old) (K.faults out.new) }
    ensures status { (result ≡ Status.Sink) ⊎ (result ≡ Status.NoMemory) ⊎ (result ≡ status) }
{
    match out.put(line) {
        Ok(()) => status,
        Err(Trouble::Failed) => Status::Sink,
        Err(Trouble::NoMemory) => Status::NoMemory,
    }
}

// The line for a device that could not be opened.
fn unopened<K: Sink>(out: &mut K, trouble: Trouble) -> Status
    ensures sink { result ≡ Status.Sink → Rose (K.faults out.old) (K.faults out.new) }
{
    match trouble {
        Trouble::Failed => put_line(out, Status::Disk, b"ERROR 0 301 disk fault\n"),
        Trouble::NoMemory => put_line(out, Status::NoMemory, b"ERROR 0 401 no memory\n"),
    }
}

// The catalog of a folder, which is made first where it is missing and wanted.
fn catalog(rt: &HostRuntime, dir: &str, is_made: bool) -> Result<FileSlots, Trouble> {
    if is_made {
        match fs::create_dir(rt, dir) {
            Ok(()) => {}
            Err(error) if error.kind() == ErrorKind::AlreadyExists => {}
            Err(_) => return Err(Trouble::Failed),
        }
    }
    let path = format!(in rt.alloc(); "{dir}/catalog")?;
    FileSlots::open(rt, path.as_str())
}

// Runs a command over the catalog of a folder.
fn run_in<K: Sink>(
    rt: &HostRuntime,
    words: &[String],
    dir: &str,
    is_made: bool,
    library: &mut FolderLibrary<HostRuntime>,
    out: &mut K,
) -> Status {
    match catalog(rt, dir, is_made) {
        Ok(mut slots) => run(rt.alloc(), words, &mut slots, library, out),
        Err(trouble) => unopened(out, trouble),
    }
}

// Runs a command that has no catalog, over an empty device.
fn run_alone<K: Sink>(
    rt: &HostRuntime,
    words: &[String],
    library: &mut FolderLibrary<HostRuntime>,
    out: &mut K,
) -> Status {
    let alloc = rt.alloc();
    match MemSlots::new(alloc, Vec::new(alloc), 0, Vec::new(alloc)) {
        Ok(mut slots) => run(alloc, words, &mut slots, library, out),
        Err(_) => unopened(out, Trouble::NoMemory),
    }
}

fn main(rt: HostRuntime) -> ExitCode {
    let Ok(mut out) = RealSink::standard(&rt) else {
        unreachable!()
    };
    let Ok(mut library) = FolderLibrary::open(&rt) else {
        unreachable!()
    };
    let status = match words(&rt) {
        Ok(words) => match asked_command(&words) {
            Some(Asked::Create { dir, .. }) => {
                run_in(&rt, &words, dir, true, &mut library, &mut out)
            }
            Some(Asked::Run { dir, .. }) => {
                run_in(&rt, &words, dir, false, &mut library, &mut out)
            }
            _ => run_alone(&rt, &words, &mut library, &mut out),
        },
        Err(_) => unopened(&mut out, Trouble::NoMemory),
    };
    ExitCode::from(status.code())
}
