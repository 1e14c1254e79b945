// What a line of a script says.
ghost use Rattle.std.specs.Prelude.{◌≡◌, length, take, true, IfOk};
ghost use Rattle.aso_machine.specs.Lines.{IsLongestFront, IsRead, begins, is_ended, is_of_query, query_text};
ghost use Rattle.aso_machine.specs.Verdicts.{reading};

use aso_mdx::{Query, SyntaxFault, read};
use aso_memory::NoMemory;
use aso_script::{Addition, read_addition};
use std::alloc::Global;

/// What a line of a script says.
#[derive(Debug, Drop)]
pub enum Reading<'a> {
    /// An amount is added to a cell.
    Adds(Addition<'a>),
    /// A grid is asked.
    Asks(Query),
    /// Neither; the line is at fault at this byte of it, counted from 0.
    Faulty { at: usize },
}

// The first bytes are the word, in letters of any case.
fn begins(line: &[u8], word: &[u8]) -> bool
    ensures { result ≡ begins word.now line.now }
{
    line.len() >= word.len() && line[..word.len()].eq_ignore_ascii_case(word)
}

fn is_of_query(line: &[u8]) -> bool
    ensures { result ≡ is_of_query line.now }
{
    begins(line, b"select") || begins(line, b"with")
}

// The line without the semicolon and the LF at its end, or without the LF where it lacks the semicolon.
fn query_text(line: &[u8]) -> &[u8]
    ensures { result.now ≡ query_text line.now }
{
    match line.strip_suffix(b";\n") {
        Some(text) => text,
        None => match line.strip_suffix(b"\n") {
            Some(text) => text,
            None => line,
        },
    }
}

// The longest front that is UTF-8.
fn longest_front(text: &[u8]) -> &str
    ensures front { IsLongestFront text.now (length result.now) }
    ensures is { result.now ≡ take (length result.now) text.now }
{
    match str::from_utf8(text) {
        Ok(front) => front,
        Err(fault) => match str::from_utf8(&text[..fault.valid_up_to()]) {
            Ok(front) => front,
            Err(_) => unreachable!(),
        },
    }
}

// What a line of a query says.
fn read_query<'a>(alloc: Global, line: &[u8]) -> Result<Reading<'a>, NoMemory>
    requires { is_of_query line.now ≡ true }
    ensures { IfOk result (λ r. IsRead line.now (reading r)) }
{
    let text = query_text(line);
    let front = longest_front(text);
    match read(alloc, front) {
        Ok(query) => {
            if line.ends_with(b";\n") && front.len() == text.len() {
                Ok(Reading::Asks(query))
            } else {
                Ok(Reading::Faulty { at: front.len() })
            }
        }
        Err(SyntaxFault::Syntax { at }) => Ok(Reading::Faulty { at }),
        Err(SyntaxFault::NoMemory(e)) => Err(e),
    }
}

/// What a line says. It is a query's where its first bytes are `select` or `with`, in letters of any case: then a text of the query
/// grammar, a semicolon and LF, and the fault of any other is where its text stops being a query's. Every other line adds an amount
/// to a cell, or is at fault at its first byte. It takes time in proportion to the line.
pub fn read_line<'a>(alloc: Global, line: &'a [u8]) -> Result<Reading<'a>, NoMemory>
    ensures { IfOk result (λ r. IsRead line.now (reading r)) }
{
    if is_of_query(line) {
        return read_query(alloc, line);
    }
    match read_addition(alloc, line)? {
        Some(addition) => Ok(Reading::Adds(addition)),
        None => Ok(Reading::Faulty { at: 0 }),
    }
}
