// The kinds of cases.
use crate::outlines::outline_of;
use crate::stop::Stop;
use crate::{blocks, bytes, calls, files, layouts};
use aso_cellfile::Steps;
use aso_trials_cases::CaseFault;
use serde_json::Value;
use std::rt::Files;
use std::sync::ledger::Ledger;

/// What cases try.
#[derive(Clone, Copy, Debug)]
pub enum Kind {
    /// The choices of a view.
    View,
    /// The key of classes.
    Key,
    /// The key of classes at a coarser view.
    Roll,
    /// The classes of a member.
    Range,
    /// The bytes of a block.
    Block,
    /// The bytes of a cell file.
    Bytes,
    /// A cell file that is read again.
    File,
    /// A cell file with other bytes in it.
    Changes,
    /// A cell file that is cut short.
    Cuts,
    /// A shelf whose calls fail.
    Calls,
}

fn layout_told<R: Files + AllocGlobal>(
    rt: &R,
    kind: Kind,
    case: &Value,
) -> Result<String, CaseFault> {
    let outline = outline_of(rt, case)?;
    match kind {
        Kind::View => layouts::view_told(rt.alloc(), &outline, case),
        Kind::Key => layouts::key_told(rt.alloc(), &outline, case),
        Kind::Roll => layouts::roll_told(rt.alloc(), &outline, case),
        _ => layouts::range_told(rt.alloc(), &outline, case),
    }
}

/// What a case gives: a line behind its title, or some below it.
pub fn told<L: Ledger, R: Files + AllocGlobal>(
    rt: &R,
    kind: Kind,
    case: &Value,
    steps: &mut Steps<L>,
) -> Result<String, Stop> {
    let alloc = rt.alloc();
    match kind {
        Kind::View | Kind::Key | Kind::Roll | Kind::Range => Ok(layout_told(rt, kind, case)?),
        Kind::Block => blocks::told(alloc, case, steps),
        Kind::Bytes => bytes::told(alloc, case),
        Kind::File => files::file_told(alloc, case, steps),
        Kind::Changes => Ok(bytes::changes_told(alloc, case, steps)?),
        Kind::Cuts => Ok(bytes::cuts_told(alloc, case, steps)?),
        Kind::Calls => Ok(calls::told(alloc, case, steps)?),
    }
}
