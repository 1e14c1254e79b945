ghost use Rattle.std.specs.Prelude.{◌≡◌, false, IfOk, IfErr, OnOk};
ghost use Rattle.aso_token.specs.Cutting.{cut};
ghost use Rattle.aso_outline.specs.declared.draft.Expr.{Expr as Formula};
ghost use Rattle.aso_formula.specs.Formula.{SpellsFormula};
ghost use Rattle.aso_formula.specs.Answer.{HasFault, IsRefusal, IsRight, IsWrong, Judges, Reads};

use crate::fault::FormulaFault;
use crate::places::{first_unknown, foreign_fault, unknown_fault};
use crate::reading::parse_tokens;
use aso_memory::NoMemory;
use aso_outline::{Expr, Outline};
use aso_token::{Cut, Stop, cut_text};
use std::alloc::Global;

/// The formula that the tokens of a text spell, or the byte at fault.
fn parse_cut(alloc: Global, _text: &str, text_cut: &Cut<'_>) -> Result<Expr, FormulaFault>
    requires { text_cut.now ≡ cut false _text.now }
    ensures found { IfOk result (λ e. SpellsFormula _text.now e) }
    ensures only { (e : Formula) → SpellsFormula _text.now e → Reads result e }
    ensures fault { IfErr result (HasFault _text.now) }
{
    match parse_tokens(alloc, text_cut.placed.items()) {
        Ok(formula) => {
            if text_cut.whole {
                Ok(formula)
            } else {
                Err(FormulaFault::Syntax { at: text_cut.stop })
            }
        }
        Err(Stop::At(rest)) => Err(FormulaFault::Syntax {
            at: text_cut.start(rest.len()),
        }),
        Err(Stop::NoMemory) => Err(FormulaFault::NoMemory(NoMemory)),
    }
}

/// The formula that a text spells: members in brackets and numbers with at most four decimals, put together by
/// `+`, `-`, `*`, `/`, parentheses and crossings of members, as docs/FORMATS.md says. Where it spells none, the answer is
/// `Syntax` with the byte at fault; no member is looked up. It takes time in proportion to the text, whatever nests in it.
pub fn parse(alloc: Global, text: &str) -> Result<Expr, FormulaFault>
    ensures found { IfOk result (λ e. SpellsFormula text.now e) }
    ensures only { (e : Formula) → SpellsFormula text.now e → Reads result e }
    ensures fault { IfErr result (HasFault text.now) }
    ensures one_value { (e f : Formula) → SpellsFormula text.now e → SpellsFormula text.now f → e ≡ f }
{
    let text_cut = cut_text(alloc, false, text)?;
    parse_cut(alloc, text, &text_cut)
}

/// What is wrong with a formula that the text spells.
fn check(
    alloc: Global,
    outline: &Outline,
    dim: u32,
    _text: &str,
    text_cut: &Cut<'_>,
    formula: &Expr,
) -> Result<(), FormulaFault>
    requires cut { text_cut.now ≡ cut false _text.now }
    requires spelled { SpellsFormula _text.now formula.now }
    ensures right { OnOk result (IsRight outline.now dim _text.now formula.now) }
    ensures wrong { IfErr result (IsWrong outline.now dim _text.now formula.now) }
{
    let tokens = text_cut.placed.items();
    if let Some(placed) = first_unknown(outline, tokens) {
        return Err(unknown_fault(alloc, outline, placed));
    }
    match outline.first_foreign(alloc, dim, formula) {
        Ok(Some(atom)) => Err(foreign_fault(alloc, tokens, atom)),
        Ok(None) => Ok(()),
        Err(e) => Err(FormulaFault::NoMemory(e)),
    }
}

/// The formula in a base dimension of an outline that a text spells, as [`parse`] has it. Each name in it is that of a member, and
/// each atom names one member of the dimension and at most one stored member of each other dimension. Else the answer is the first of
/// these: `Syntax`, as from `parse`; `Unknown` with the first name in the text that no member has; `Foreign` with the byte of
/// the first atom that breaks this. It takes time in proportion to the text and the dimensions.
pub fn read(alloc: Global, outline: &Outline, dim: u32, text: &str) -> Result<Expr, FormulaFault>
    ensures found { IfOk result (λ e. SpellsFormula text.now e) }
    ensures judged { (e : Formula) → SpellsFormula text.now e → Judges outline.now dim text.now e result }
    ensures refused { IfErr result (IsRefusal outline.now dim text.now) }
{
    let text_cut = cut_text(alloc, false, text)?;
    let formula = parse_cut(alloc, text, &text_cut)?;
    check(alloc, outline, dim, text, &text_cut, &formula)?;
    Ok(formula)
}
