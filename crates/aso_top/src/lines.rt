// Lines of the program.
ghost use Rattle.std.specs.Prelude.{◌≡◌, IfOk};
ghost use Rattle.aso_top.specs.Lines.{no_text_line};

use aso_cellnames::put_shown;
use aso_memory::NoMemory;
use std::alloc::Global;

pub const LIBRARY_FAULT: &[u8] = b"ERROR 0 304 library fault\n";

pub const NO_MEMORY: &[u8] = b"ERROR 0 401 no memory\n";

/// The line for a text that isn't there.
pub fn no_text(alloc: Global, name: &str) -> Result<Vec<u8>, NoMemory>
    ensures { IfOk result (λ line. line.items ≡ no_text_line name.now) }
{
    let mut line = Vec::from_slice(alloc, b"ERROR 0 206 no such text: ")?;
    put_shown(&mut line, name.as_bytes())?;
    line.push(b'\n')?;
    Ok(line)
}
