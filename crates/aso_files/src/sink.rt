use crate::count::count;
use aso_disk::{Sink, Trouble};
use std::fs;
use std::fs::File;
use std::io::Write;
use std::rt::Files;

/// Output to the standard output, or to a file. It tells no proof what was put.
#[derive(Drop)]
pub struct RealSink<'a, R: Print> {
    target: Target<'a, R>,
    faults: u64,
}

#[derive(Drop)]
enum Target<'a, R: Print> {
    Standard(&'a R),
    File(File),
}

impl<'a, R: Print> RealSink<'a, R> {
    ghost use Rattle.std.specs.Prelude.{◌≡◌, IsOk, IfOk};

    /// The standard output.
    pub fn standard(rt: &'a R) -> Result<RealSink<'a, R>, Trouble>
        ensures ok { IsOk result }
        ensures faults { IfOk result (λ sink. ⟦<RealSink<'a, R> as Sink>⟧.faults sink ≡ 0) }
    {
        Ok(RealSink {
            target: Target::Standard(rt),
            faults: 0,
        })
    }
}

impl<'a, R: Print + Files<File = File>> RealSink<'a, R> {
    ghost use Rattle.std.specs.Prelude.{◌≡◌, None, IfOk};

    /// A file, which is made empty first, or made where it is missing. An error leaves no sink, so no count tells of it.
    pub fn file(rt: &'a R, path: &str) -> Result<RealSink<'a, R>, Trouble>
        ensures faults { IfOk result (λ sink. ⟦<RealSink<'a, R> as Sink>⟧.faults sink ≡ 0) }
        ensures untold { IfOk result (λ sink. ⟦<RealSink<'a, R> as Sink>⟧.written sink ≡ None) }
    {
        match fs::create(rt, path) {
            Ok(file) => Ok(RealSink {
                target: Target::File(file),
                faults: 0,
            }),
            Err(_) => Err(Trouble::Failed),
        }
    }
}

impl<'a, R: Print> Sink for RealSink<'a, R> {
    ghost use Rattle.std.specs.Prelude.{⊤, None};

    ghost written = { λ sink. None };

    ghost faults = { λ sink. sink.faults };

    ghost same = { λ first second. ⊤ };

    ghost same_refl = { λ sink. tt };

    ghost same_trans = { λ first second third p q. tt };

    fn put(&mut self, bytes: &[u8]) -> Result<(), Trouble> {
        let put = match &mut self.target {
            Target::Standard(rt) => rt.write_all(bytes),
            Target::File(file) => file.write_all(bytes),
        };
        match put {
            Ok(()) => Ok(()),
            Err(_) => {
                let failed = count(&mut self.faults);
                Err(Trouble::from(failed))
            }
        }
    }
}
