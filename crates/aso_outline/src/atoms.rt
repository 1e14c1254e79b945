// The atoms of a formula, in one list.
ghost use Rattle.std.specs.Prelude.{◌≡◌, ◌++◌, ◌∷◌, [], map, IfOk, OnOk};
ghost use Rattle.aso_outline.specs.Atoms.{atoms};

use crate::draft::Expr;
use aso_num::{NoMemory, Text};
use std::alloc::Global;

/// Adds the names in each pair of brackets, from left to right.
#[tactic(auto, using(crate::proofs::AtomSteps::atoms_neg, crate::proofs::AtomSteps::atoms_bin))]
fn push_atoms<'a>(formula: &'a Expr, all: &mut Vec<&'a [Text]>) -> Result<(), NoMemory>
    ensures { OnOk result (map (λ a. a.now) all.new.items ≡ map (λ a. a.now) all.old.items ++ atoms formula.now) }
{
    match formula {
        Expr::Num(_) => Ok(()),
        Expr::Cell(names) => {
            all.push(names.items())?;
            Ok(())
        }
        Expr::Neg(operand) => push_atoms(operand.get(), all),
        Expr::Bin { left, right, .. } => {
            push_atoms(left.get(), all)?;
            push_atoms(right.get(), all)?;
            Ok(())
        }
    }
}

/// The atoms of a formula from left to right: the names in each pair of brackets, or those that a crossing puts together.
pub fn atoms_of<'a>(alloc: Global, formula: &'a Expr) -> Result<Vec<&'a [Text]>, NoMemory>
    ensures { IfOk result (λ v. map (λ a. a.now) v.items ≡ atoms formula.now) }
{
    let mut all = Vec::new(alloc);
    push_atoms(formula, &mut all)?;
    Ok(all)
}
