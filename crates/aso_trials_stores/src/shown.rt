// Texts as they are shown: line by line, or on one line.
use std::alloc::AllocError;
use std::fmt::Write;

// A longer line is shown by its front and its length.
const LONGEST_LINE: usize = 400;

const FRONT: usize = 60;

fn put_front(line: &str, out: &mut String) -> Result<(), AllocError> {
    for letter in line.chars().take(FRONT) {
        out.push(letter)?;
    }
    let size = line.len();
    write!(out, ".. ({size} bytes)")
}

fn put_line(line: &str, out: &mut String) -> Result<(), AllocError> {
    out.push_str("  ")?;
    if line.len() <= LONGEST_LINE {
        out.push_str(line)?;
    } else {
        put_front(line, out)?;
    }
    out.push('\n')
}

/// The lines of a text, and whether the last one lacks its end.
pub fn put_lines(text: &str, out: &mut String) -> Result<(), AllocError> {
    for part in text.split_inclusive('\n') {
        match part.strip_suffix('\n') {
            Some(line) => put_line(line, out)?,
            None => {
                put_line(part, out)?;
                out.push_str("  (no line end)\n")?;
            }
        }
    }
    Ok(())
}

/// A text on one line.
pub fn put_escaped(text: &str, out: &mut String) -> Result<(), AllocError> {
    for letter in text.chars() {
        match letter {
            '\n' => out.push_str("\\n")?,
            '\t' => out.push_str("\\t")?,
            _ => out.push(letter)?,
        }
    }
    Ok(())
}
