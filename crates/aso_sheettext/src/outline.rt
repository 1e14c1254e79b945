ghost use Rattle.std.specs.Prelude.{◌≡◌, IfOk, IfErr, nat_le};
ghost use Rattle.aso_sheettext.specs.Sheet.{Outline, Database, OneMember};
ghost use Rattle.aso_sheettext.specs.Texts.{outline, member as the_member, part as the_part};
ghost use Rattle.aso_sheettext.specs.Reading.{outline_with, most_after, TakesPart, TakesLine};
ghost use Rattle.aso_sheettext.specs.Held.{outline_so_far, outline_start};
ghost use Rattle.aso_sheettext.specs.Faults.{TextSaysOutline, IsOutlineFault};
ghost use Rattle.aso_sheettext.specs.Answer.{HasFault};

use crate::fault::SheetFault;
use crate::line::Lines;
use crate::part::part_of;
use crate::text::{MemberText, OutlineText, PartText};
use aso_memory::NoMemory;
use std::alloc::Global;

/// An outline as far as its lines are read: whether its database was named, and the depth of its last member.
#[derive(Debug, Drop)]
pub(crate) struct OutlineReading<'a> {
    pub named: bool,
    pub last: Option<usize>,
    pub outline: OutlineText<'a>,
}

// Whether a member may be so deep behind the last one.
fn may_follow(last: Option<usize>, depth: usize) -> bool
    ensures { result ≡ nat_le depth (most_after last) }
{
    match last {
        None => depth == 0,
        Some(last) => depth == 0 || depth - 1 <= last,
    }
}

impl<'a> OutlineReading<'a> {
    pub(crate) fn new(alloc: Global) -> OutlineReading<'a>
        ensures { outline_so_far result ≡ outline_start }
    {
        OutlineReading {
            named: false,
            last: None,
            outline: OutlineText {
                app: "Sample",
                db: "Basic",
                members: Vec::new(alloc),
            },
        }
    }

    pub(crate) fn name(&mut self, app: &'a str, db: &'a str) -> bool
        ensures { TakesPart outline_with (outline_so_far self.old) (Database app.now db.now) result (outline_so_far self.new) }
    {
        if self.named || self.last.is_some() {
            return false;
        }
        self.named = true;
        self.outline.app = app;
        self.outline.db = db;
        true
    }

    pub(crate) fn add(&mut self, member: MemberText<'a>) -> Result<bool, NoMemory>
        ensures { IfOk result (λ taken. TakesPart outline_with (outline_so_far self.old) (OneMember (the_member member.entry)) taken (outline_so_far self.new)) }
    {
        if !may_follow(self.last, member.depth) {
            return Ok(false);
        }
        self.outline.members.push(member)?;
        self.last = Some(member.depth);
        Ok(true)
    }

    /// Takes one more part where it can come, and tells whether it can.
    pub(crate) fn take(&mut self, part: PartText<'a>) -> Result<bool, NoMemory>
        ensures { IfOk result (λ taken. TakesPart outline_with (outline_so_far self.old) (the_part part.entry) taken (outline_so_far self.new)) }
    {
        match part {
            PartText::Database { app, db } => Ok(self.name(app, db)),
            PartText::Member(member) => self.add(member),
            PartText::Cell(_cell) => Ok(false),
            PartText::Columns(_names) => Ok(false),
            PartText::Rows(_names) => Ok(false),
        }
    }

    fn read_line(&mut self, alloc: Global, line: &'a [u8]) -> Result<bool, NoMemory>
        ensures { IfOk result (λ taken. TakesLine outline_with (outline_so_far self.old) line.now taken (outline_so_far self.new)) }
    {
        let Ok(line) = str::from_utf8(line) else {
            return Ok(false);
        };
        match part_of(alloc, line) {
            Ok(Some(part)) => self.take(part),
            Ok(None) => Ok(false),
            Err(fault) => Err(fault),
        }
    }
}

/// The outline that a text says: its database and the members of its dimensions, as docs/FORMATS.md has them for sheets. Where
/// it says none, the answer is the place of the first faulty line. It takes time in proportion to the text.
pub fn read_outline<'a>(alloc: Global, text: &'a [u8]) -> Result<OutlineText<'a>, SheetFault>
    ensures found { IfOk result (λ o. TextSaysOutline text.now (outline o)) }
    ensures only { IfOk result (λ o. (other : Outline) → TextSaysOutline text.now other → other ≡ outline o) }
    ensures fault { IfErr result (HasFault (IsOutlineFault text.now)) }
    ensures none { IfErr result (HasFault (λ at. (other : Outline) → TextSaysOutline text.now other → ⊥)) }
{
    let mut reading = OutlineReading::new(alloc);
    let mut lines = Lines { text, at: 0 };
    while let Some(line) = lines.next_line() {
        if !reading.read_line(alloc, line.bytes)? {
            return Err(SheetFault::Line { at: line.at });
        }
    }
    Ok(reading.outline)
}
