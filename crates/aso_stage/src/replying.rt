// The replies to statements.
ghost use Rattle.std.specs.Prelude.{◌≡◌, ◌++◌, IfOk, IsErrOf, codes};
ghost use Rattle.std.specs.Fmt.{decimal};
ghost use Rattle.std.specs.String.{string_bytes};
ghost use Rattle.aso_disk.specs.Causes.{HasCause};
ghost use Rattle.aso_disk.specs.Texts.{Puts};
ghost use Rattle.aso_spec.specs.Grid.{end_line, error_line, grid_head};
ghost use Rattle.aso_machine.specs.Machine.{doubt_text, ok_line};

use aso_disk::{Sink, Trouble};
use itoa::Buffer;
use std::alloc::{AllocError, Global};
use std::fmt::Write;

/// The reply to an accepted commit.
pub fn ok_line(alloc: Global, number: u64, commit: u64) -> Result<String, AllocError>
    ensures { IfOk result (λ line. string_bytes line ≡ ok_line number commit) }
{
    let mut line = String::from_str(alloc, "OK ")?;
    write!(line, "{number}")?;
    line.push_str(" commit ")?;
    write!(line, "{commit}")?;
    line.push('\n')?;
    Ok(line)
}

/// The reply of a refusal or a fault, with its number and text.
pub fn error_line(alloc: Global, number: u64, text: &[u8]) -> Result<Vec<u8>, AllocError>
    ensures { IfOk result (λ line. line.items ≡ error_line number text.now) }
{
    let head = format!(in alloc; "ERROR {number} ")?;
    let mut line = Vec::from_slice(alloc, head.as_bytes())?;
    line.extend_from_slice(text)?;
    line.push(b'\n')?;
    Ok(line)
}

// What is said of a commit that is in doubt.
fn doubt_text(alloc: Global, commit: u64) -> Result<String, AllocError>
    ensures { IfOk result (λ text. string_bytes text ≡ doubt_text commit) }
{
    format!(in alloc; "302 disk fault: commit {commit} in doubt")
}

/// The reply to a commit that is in doubt.
pub fn doubt_line(alloc: Global, number: u64, commit: u64) -> Result<Vec<u8>, AllocError>
    ensures { IfOk result (λ line. line.items ≡ error_line number (doubt_text commit)) }
{
    let text = doubt_text(alloc, commit)?;
    error_line(alloc, number, text.as_bytes())
}

// The line above a grid.
#[tactic(auto, unfolding(aso_spec::specs::Grid::grid_head))]
fn grid_head(
    alloc: Global,
    number: u64,
    commit: u64,
    rows: u32,
    columns: u32,
) -> Result<String, AllocError>
    ensures { IfOk result (λ line. string_bytes line ≡ grid_head number commit rows columns) }
{
    let mut line = String::from_str(alloc, "GRID ")?;
    write!(line, "{number}")?;
    line.push_str(" commit ")?;
    write!(line, "{commit}")?;
    line.push_str(" rows ")?;
    write!(line, "{rows}")?;
    line.push_str(" columns ")?;
    write!(line, "{columns}")?;
    line.push('\n')?;
    Ok(line)
}

/// The reply to a query: its head and its grid.
pub fn grid_reply(
    alloc: Global,
    number: u64,
    commit: u64,
    rows: u32,
    columns: u32,
    grid: &[u8],
) -> Result<Vec<u8>, AllocError>
    ensures { IfOk result (λ reply. reply.items ≡ grid_head number commit rows columns ++ grid.now) }
{
    let head = grid_head(alloc, number, commit, rows, columns)?;
    let mut reply = Vec::from_slice(alloc, head.as_bytes())?;
    reply.extend_from_slice(grid)?;
    Ok(reply)
}

// Puts two pieces.
fn put_pair<K: Sink>(out: &mut K, first: &[u8], second: &[u8]) -> Result<(), Trouble>
    ensures written { Puts (K.written out.old) (K.written out.new) (first.now ++ second.now) result }
    ensures cause { HasCause (K.faults out.old) (K.faults out.new) (IsErrOf result Trouble.Failed) }
{
    match out.put(first) {
        Ok(()) => out.put(second),
        Err(trouble) => Err(trouble),
    }
}

// Puts a number between two texts, with three puts and no memory of its own.
fn put_numbered<K: Sink>(out: &mut K, front: &[u8], number: u64, back: &[u8]) -> Result<(), Trouble>
    ensures written { Puts (K.written out.old) (K.written out.new) (front.now ++ (decimal number ++ back.now)) result }
    ensures cause { HasCause (K.faults out.old) (K.faults out.new) (IsErrOf result Trouble.Failed) }
{
    let mut digits = Buffer::new();
    let digits = digits.format(number).as_bytes();
    match out.put(front) {
        Ok(()) => put_pair(out, digits, back),
        Err(trouble) => Err(trouble),
    }
}

/// Puts the line at the end of a run of so many statements. It takes no memory of its own.
#[tactic(auto, unfolding(aso_spec::specs::Grid::end_line))]
pub fn put_end<K: Sink>(out: &mut K, statements: u64) -> Result<(), Trouble>
    ensures written { Puts (K.written out.old) (K.written out.new) (end_line statements) result }
    ensures cause { HasCause (K.faults out.old) (K.faults out.new) (IsErrOf result Trouble.Failed) }
{
    put_numbered(out, b"END ", statements, b"\n")
}

/// Puts the reply to a statement for which there is no memory. It takes none of its own.
pub fn put_no_memory<K: Sink>(out: &mut K, number: u64) -> Result<(), Trouble>
    ensures written { Puts (K.written out.old) (K.written out.new) (error_line number (codes "401 no memory")) result }
    ensures cause { HasCause (K.faults out.old) (K.faults out.new) (IsErrOf result Trouble.Failed) }
{
    put_numbered(out, b"ERROR ", number, b" 401 no memory\n")
}
