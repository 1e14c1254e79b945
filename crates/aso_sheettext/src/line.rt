ghost use Rattle.std.specs.Prelude.{◌≡◌, ◌≤◌, ◌<◌, ◌==◌, [], ◌∷◌, ◌++◌, length, drop, MatchOption, if◌then◌else◌};
ghost use Rattle.std.specs.List.{position_or_len};
ghost use Rattle.std.specs.Str.{is_utf8};
ghost use Rattle.aso_sheettext.specs.Lines.{is_said, without_return, lines_from};
ghost use Rattle.aso_sheettext.specs.Texts.{line};

/// A line without its end, and the byte at which it begins.
#[derive(Clone, Copy, Debug)]
pub(crate) struct TextLine<'a> {
    pub at: usize,
    pub bytes: &'a [u8],
}

/// The lines of a text from one byte on.
#[derive(Clone, Copy, Debug)]
pub(crate) struct Lines<'a> {
    pub text: &'a [u8],
    pub at: usize,
}

// How many bytes stand before the first LF.
fn until_end(text: &[u8]) -> usize
    ensures value { result ≡ position_or_len (λ b. b == 10) text.now }
    ensures within { result ≤ length text.now }
{
    for (i, b) in text.iter().enumerate() {
        if *b == b'\n' {
            return i;
        }
    }
    text.len()
}

fn without_return(piece: &[u8]) -> &[u8]
    ensures { result.now ≡ without_return piece.now }
{
    match piece {
        [before @ .., b'\r'] => before,
        _ => piece,
    }
}

fn is_text(bytes: &[u8]) -> bool
    ensures { result ≡ is_utf8 bytes.now }
{
    match str::from_utf8(bytes) {
        Ok(_) => true,
        Err(_) => false,
    }
}

fn is_said(line: &[u8]) -> bool
    ensures { result ≡ is_said line.now }
{
    match line {
        [] => false,
        [b'#', ..] => !is_text(line),
        _ => true,
    }
}

impl<'a> Lines<'a> {
    // The next line, whatever stands in it.
    fn next_piece(&mut self) -> Option<TextLine<'a>>
        requires { self.old.at ≤ length self.old.text.now }
        ensures same { self.new.text ≡ self.old.text }
        ensures within { self.new.at ≤ length self.new.text.now }
        ensures pieces { MatchOption result (lines_from self.old.at (drop self.old.at self.old.text.now) ≡ []) (λ l. (self.old.at < self.new.at) × (lines_from self.old.at (drop self.old.at self.old.text.now) ≡ (if is_said l.bytes.now then line l ∷ [] else []) ++ lines_from self.new.at (drop self.new.at self.old.text.now))) }
    {
        let at = self.at;
        let rest = &self.text[at..];
        if rest.is_empty() {
            return None;
        }
        let size = until_end(rest);
        if size == rest.len() {
            self.at = self.text.len();
            Some(TextLine { at, bytes: rest })
        } else {
            self.at = at + size + 1;
            Some(TextLine {
                at,
                bytes: without_return(&rest[..size]),
            })
        }
    }

    /// The next line that isn't passed over.
    pub(crate) fn next_line(&mut self) -> Option<TextLine<'a>>
        requires { self.old.at ≤ length self.old.text.now }
        ensures same { self.new.text ≡ self.old.text }
        ensures within { self.new.at ≤ length self.new.text.now }
        ensures lines { MatchOption result (lines_from self.old.at (drop self.old.at self.old.text.now) ≡ []) (λ l. (self.old.at < self.new.at) × (lines_from self.old.at (drop self.old.at self.old.text.now) ≡ line l ∷ lines_from self.new.at (drop self.new.at self.old.text.now))) }
    {
        while let Some(line) = self.next_piece() {
            if is_said(line.bytes) {
                return Some(line);
            }
        }
        None
    }
}
