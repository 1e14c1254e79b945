// A query's own members, each beside those before it.
ghost use Rattle.std.specs.Prelude.{◌≡◌, ◌<◌, [], true, length, List, Some, IfOk, IfErr, IfSome, OnOk};
ghost use Rattle.std.specs.List.{list_all, position};
ghost use Rattle.aso_outline.specs.declared.draft.ExtraMember.{ExtraMember as Member};
ghost use Rattle.aso_outline.specs.Atoms.{atoms};
ghost use Rattle.aso_outline.specs.Members.{same_name};
ghost use Rattle.aso_outline.specs.Rules.{is_atom};
ghost use Rattle.aso_formula.specs.Formula.{SpellsFormula};
ghost use Rattle.aso_query.specs.declared.refusal.QueryRefusal.TheVariants.{Dimension as WrongDimension, Formula as WrongFormula};
ghost use Rattle.aso_query.specs.Faults.{HasRefusal};
ghost use Rattle.aso_query.specs.Owns.{AreTaken, IsNext, IsOwnRefusal, IsOwnsRefusal, base_named as base_named_of, dim_of, part as part_of, written_as};

use crate::refusal::{AskFault, QueryRefusal};
use aso_axes::copied;
use aso_formula::{FormulaFault, read};
use aso_mdx::Own;
use aso_outline::{DraftDim, Expr, Extra, ExtraFault, ExtraMember, Outline};
use std::alloc::Global;

fn is_named(dim: &DraftDim, name: &str) -> bool
    ensures { result ≡ same_name name.now dim.now.name }
{
    name == dim.name.as_str()
}

fn place_of(dims: &[DraftDim], name: &str) -> Option<usize>
    ensures value { result ≡ position (λ d. same_name name.now d.name) dims.now }
    ensures within { IfSome result (λ k. k < length dims.now) }
{
    dims.iter().position(|dim| is_named(dim, name))
}

/// The base dimension of a name. There are few of them.
fn base_named(outline: &Outline, name: &str) -> Option<u32>
    ensures value { result ≡ base_named_of outline.now name.now }
    ensures within { IfSome result (λ d. d < length outline.now.dims) }
{
    outline.keeps_counts();
    match place_of(outline.draft().dims.items(), name) {
        Some(place) => Some(place as u32),
        None => None,
    }
}

/// A part of a member's path.
fn part(own: &Own, at: usize) -> &str
    ensures { result.now ≡ part_of own.now at }
{
    match own.path.items().get(at) {
        Some(part) => part.as_str(),
        None => "",
    }
}

fn wrong_dimension(alloc: Global, name: &str) -> AskFault
    ensures { HasRefusal (λ r. r ≡ WrongDimension name.now) result }
{
    match copied(alloc, name) {
        Ok(name) => AskFault::Refused(QueryRefusal::Dimension { name }),
        Err(e) => AskFault::NoMemory(e),
    }
}

fn wrong_formula(alloc: Global, name: &str, at: usize) -> AskFault
    ensures { HasRefusal (λ r. r ≡ WrongFormula name.now at) result }
{
    match copied(alloc, name) {
        Ok(name) => AskFault::Refused(QueryRefusal::Formula { name, at }),
        Err(e) => AskFault::NoMemory(e),
    }
}

/// The formula that a member's text spells in its dimension.
fn formula_of(alloc: Global, outline: &Outline, dim: u32, own: &Own) -> Result<Expr, AskFault>
    requires { dim_of outline.now own.now ≡ Some dim }
    ensures spelled { IfOk result (λ e. SpellsFormula own.now.formula e) }
    ensures right { IfOk result (λ e. list_all (is_atom outline.now dim) (atoms e) ≡ true) }
    ensures refused { (before : List Member) → IfErr result (HasRefusal (IsOwnRefusal outline.now before own.now)) }
{
    match read(alloc, outline, dim, own.formula.as_str()) {
        Ok(formula) => Ok(formula),
        Err(FormulaFault::Syntax { at }) => Err(wrong_formula(alloc, part(own, 1), at)),
        Err(FormulaFault::Unknown { name, .. }) => {
            Err(AskFault::Refused(QueryRefusal::UnknownMember { name }))
        }
        Err(FormulaFault::Foreign { at }) => Err(wrong_formula(alloc, part(own, 1), at)),
        Err(FormulaFault::NoMemory(e)) => Err(AskFault::NoMemory(e)),
    }
}

/// Puts a member whose formula is right behind those before it.
fn put(
    alloc: Global,
    outline: &Outline,
    own: &Own,
    member: ExtraMember,
    extra: &mut Extra,
) -> Result<(), AskFault>
    requires dim { dim_of outline.now own.now ≡ Some member.dim }
    requires within { member.dim < length outline.now.dims }
    requires spelled { SpellsFormula own.now.formula member.formula }
    requires right { list_all (is_atom outline.now member.dim) (atoms member.formula) ≡ true }
    requires is { written_as own.now member }
    ensures next { OnOk result (IsNext outline.now extra.old.members.items own.now extra.new.members.items) }
    ensures refused { IfErr result (HasRefusal (IsOwnRefusal outline.now extra.old.members.items own.now)) }
{
    match outline.extend(alloc, extra, member) {
        Ok(()) => Ok(()),
        Err(ExtraFault::InUse) => Err(wrong_formula(alloc, part(own, 1), 0)),
        Err(ExtraFault::Ranks) => Err(wrong_formula(alloc, part(own, 1), 0)),
        Err(ExtraFault::NoMemory(e)) => Err(AskFault::NoMemory(e)),
        Err(ExtraFault::Unknown { .. }) => unreachable!(),
        Err(ExtraFault::Foreign { .. }) => unreachable!(),
    }
}

/// Takes a member beside those before it.
fn take(alloc: Global, outline: &Outline, own: &Own, extra: &mut Extra) -> Result<(), AskFault>
    ensures next { OnOk result (IsNext outline.now extra.old.members.items own.now extra.new.members.items) }
    ensures refused { IfErr result (HasRefusal (IsOwnRefusal outline.now extra.old.members.items own.now)) }
{
    let Some(dim) = base_named(outline, part(own, 0)) else {
        return Err(wrong_dimension(alloc, part(own, 0)));
    };
    let formula = formula_of(alloc, outline, dim, own)?;
    let name = copied(alloc, part(own, 1))?;
    let member = ExtraMember {
        name,
        dim,
        formula,
        solve: own.solve,
    };
    put(alloc, outline, own, member, extra)
}

/// The members of a query's own, in their order.
pub fn take_all(alloc: Global, outline: &Outline, own: &[Own]) -> Result<Extra, AskFault>
    ensures taken { IfOk result (λ extra. AreTaken outline.now [] own.now extra.members.items) }
    ensures refused { IfErr result (HasRefusal (IsOwnsRefusal outline.now [] own.now)) }
{
    let mut extra = Extra::new(alloc);
    for member in own {
        take(alloc, outline, member, &mut extra)?;
    }
    Ok(extra)
}
