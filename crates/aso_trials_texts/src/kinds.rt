// The kinds of texts.
use crate::{evals, formulas, scripts, sets, sheets};
use aso_trials_cases::CaseFault;
use std::alloc::Global;

/// What a text is read as.
#[derive(Clone, Copy, Debug)]
pub enum Kind {
    /// A sheet, which is evaluated.
    Eval,
    Sheet,
    /// An outline of lines.
    Outline,
    Set,
    Query,
    Formula,
    /// A line of a script, as an addition to a cell.
    Addition,
    /// A script, as its lines.
    Script,
}

/// What a text of a kind gives: its parts, or what is wrong with it.
pub fn told(alloc: Global, kind: Kind, text: &[u8]) -> Result<String, CaseFault> {
    match kind {
        Kind::Eval => evals::told(alloc, text),
        Kind::Sheet => sheets::sheet_told(alloc, text),
        Kind::Outline => sheets::outline_told(alloc, text),
        Kind::Set => sets::set_told(alloc, text),
        Kind::Query => sets::query_told(alloc, text),
        Kind::Formula => formulas::told(alloc, text),
        Kind::Addition => scripts::addition_told(alloc, text),
        Kind::Script => scripts::lines_told(alloc, text),
    }
}
