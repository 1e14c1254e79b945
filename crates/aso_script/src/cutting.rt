// The lines of a script.
ghost use Rattle.std.specs.Prelude.{◌≡◌, ◌≤◌, ◌<◌, length, map, IfOk};
ghost use Rattle.aso_script.specs.Script.{script_lines};
ghost use Rattle.aso_script.specs.Lines.{first_len, line};

use aso_memory::NoMemory;
use std::alloc::Global;

/// A line of a script and the byte at which it begins, counted from 0. It ends with its LF, which only a last line may
/// lack.
#[derive(Clone, Copy, Debug)]
pub struct Line<'a> {
    pub at: usize,
    pub bytes: &'a [u8],
}

// How many bytes the first line has.
fn first_len(text: &[u8]) -> usize
    ensures value { result ≡ first_len text.now }
    ensures within { result ≤ length text.now }
    ensures some { 0 < length text.now → 0 < result }
{
    for (i, b) in text.iter().enumerate() {
        if *b == b'\n' {
            return i + 1;
        }
    }
    text.len()
}

/// The lines of a script's text, in order. An empty text has none.
pub fn cut_lines(alloc: Global, text: &[u8]) -> Result<Vec<Line<'_>>, NoMemory>
    ensures { IfOk result (λ v. map line v.items ≡ script_lines text.now) }
{
    let mut lines = Vec::new(alloc);
    let mut at = 0;
    let mut rest = text;
    while !rest.is_empty() {
        let (bytes, next) = rest.split_at(first_len(rest));
        lines.push(Line { at, bytes })?;
        at += bytes.len();
        rest = next;
    }
    Ok(lines)
}
