// Members that a query defines beside those of the outline.
ghost use Rattle.std.specs.Prelude.{◌≡◌, ◌<◌, ◌≤◌, ◌^◌, ◌∷◌, ◌++◌, [], true, length, max, is_none, map, OnOk, OnErr, IfOk, IfErr};
ghost use Rattle.std.specs.Option.{option_map};
ghost use Rattle.std.specs.List.{list_all, list_any, find as first};
ghost use Rattle.aso_tree.specs.Trees.{greatest};
ghost use Rattle.aso_outline.specs.Atoms.{atoms};
ghost use Rattle.aso_outline.specs.Extend.{IsAtomFault, IsExtraFault, IsForeign, IsOwn, first_foreign, first_unknown, is_used, own_rank};
ghost use Rattle.aso_outline.specs.Members.{find, same_name, seats};
ghost use Rattle.aso_outline.specs.Named.{Finds};
ghost use Rattle.aso_outline.specs.Ranks.{own_operands, rank_of};
ghost use Rattle.aso_outline.specs.Rules.{is_atom};
ghost use Rattle.aso_outline.specs.Small.{HasTrees};

use crate::atoms::atoms_of;
use crate::draft::{Draft, Expr, Extra, ExtraMember};
use crate::formulas::is_atom;
use crate::needs::push_operands;
use crate::outline::Outline;
use crate::seat::Seat;
use crate::table::NameTable;
use aso_num::{NoMemory, Text};
use std::alloc::Global;
use thiserror::Error;

/// Why a query's own member is not taken.
#[derive(Debug, Drop, Error)]
pub enum ExtraFault {
    /// The first name of the formula that no member of the outline has.
    #[error("no member {name:?}")]
    Unknown { name: Text },
    /// The first atom that a formula of the dimension can't have, counted from 0.
    #[error("atom {atom} is not one of the dimension")]
    Foreign { atom: u32 },
    /// A member of the outline or of the query has the name.
    #[error("the name is in use")]
    InUse,
    /// Its rank is past 64.
    #[error("its rank is past 64")]
    Ranks,
    /// No memory was left.
    #[error("no memory")]
    NoMemory(NoMemory),
}

impl From<NoMemory> for ExtraFault {
    ghost use Rattle.std.specs.Prelude.{◌≡◌};
    ghost use Rattle.aso_outline.specs.declared.extend.ExtraFault.TheVariants.{NoMemory as OutOfMemory};

    ghost from_gives = { λ e t. t ≡ OutOfMemory e };

    fn from(e: NoMemory) -> ExtraFault {
        ExtraFault::NoMemory(e)
    }
}

impl Extra {
    ghost use Rattle.std.specs.Prelude.{◌≡◌, []};

    /// No member yet. It keeps the allocator, by which it grows.
    pub fn new(alloc: Global) -> Extra
        ensures { result.members.items ≡ [] }
    {
        Extra {
            members: Vec::new(alloc),
        }
    }
}

fn larger(a: u32, b: u32) -> u32
    ensures { result ≡ max a b }
{
    if a < b { b } else { a }
}

fn is_named(member: &ExtraMember, name: &str) -> bool
    ensures { result ≡ same_name name.now member.now.name }
{
    name == member.name.as_str()
}

/// One of the members has the name.
fn any_named(members: &[ExtraMember], name: &str) -> bool
    ensures { result ≡ list_any (λ m. same_name name.now m.name) members.now }
{
    members.iter().any(|member| is_named(member, name))
}

/// The first of the names that no member has.
fn unknown_in<'a>(outline: &Outline, names: &'a [Text]) -> Option<&'a Text>
    ensures { option_map (λ n. n.now) result ≡ first (λ name. is_none (find outline.now name)) names.now }
{
    names
        .iter()
        .find(|name| outline.find(name.as_str()).is_none())
}

/// The first name of the atoms that no member has.
fn first_unknown<'a>(outline: &Outline, all: &[&'a [Text]]) -> Option<&'a Text>
    ensures { option_map (λ n. n.now) result ≡ first_unknown outline.now (map (λ a. a.now) all.now) }
{
    for names in all {
        let found = unknown_in(outline, names);
        if found.is_some() {
            return found;
        }
    }
    None
}

/// The first atom that isn't one of a formula in the dimension.
fn first_foreign(
    alloc: Global,
    draft: &Draft,
    table: &[Seat],
    names: &NameTable,
    dim: u32,
    all: &[&[Text]],
) -> Result<Option<usize>, NoMemory>
    requires is { table.now ≡ seats draft.now }
    requires finds { Finds draft.now names.now }
    requires trees { HasTrees draft.now }
    requires few { length draft.now.dims < 2 ^ 32 }
    ensures { IfOk result (λ r. r ≡ first_foreign draft.now dim (map (λ a. a.now) all.now)) }
{
    let mut found = Vec::new(alloc);
    for at in 0..all.len() {
        let is_right = is_atom(draft, table, names, dim, all[at], &mut found)?;
        if !is_right {
            return Ok(Some(at));
        }
    }
    Ok(None)
}

/// The first of the atoms that isn't one of a formula in the dimension of the outline.
fn foreign_in(
    alloc: Global,
    outline: &Outline,
    dim: u32,
    all: &[&[Text]],
) -> Result<Option<usize>, NoMemory>
    ensures { IfOk result (λ r. r ≡ first_foreign outline.now dim (map (λ a. a.now) all.now)) }
{
    let draft = outline.sound_draft();
    first_foreign(
        alloc,
        draft,
        outline.tables().seats.as_slice(),
        outline.names(),
        dim,
        all,
    )
}

/// The greatest rank of some members; 0 where there is none.
fn greatest_rank(outline: &Outline, members: &[usize]) -> u32
    ensures value { result ≡ greatest (map (rank_of outline.now) members.now) }
    ensures bound { result ≤ 64 }
{
    let mut most = 0;
    for member in members {
        most = larger(most, outline.rank_at(*member));
    }
    most
}

/// The name stands for a member of the outline, or for one of the query's.
fn is_used(outline: &Outline, others: &[ExtraMember], name: &str) -> bool
    ensures { result ≡ is_used outline.now others.now name.now }
{
    outline.find(name).is_some() || any_named(others, name)
}

/// Why the atoms of its formula are wrong.
fn check_atoms(alloc: Global, outline: &Outline, member: &ExtraMember) -> Result<(), ExtraFault>
    ensures right { OnOk result (list_all (is_atom outline.now member.now.dim) (atoms member.now.formula) ≡ true) }
    ensures wrong { IfErr result (IsAtomFault outline.now member.now) }
{
    let all = atoms_of(alloc, &member.formula)?;
    if let Some(name) = first_unknown(outline, all.as_slice()) {
        let name = Text::of(String::from_str(alloc, name.as_str()).map_err(NoMemory::from)?);
        return Err(ExtraFault::Unknown { name });
    }
    let foreign = foreign_in(alloc, outline, member.dim, all.as_slice())?;
    match foreign {
        Some(atom) => Err(foreign_fault(atom)),
        None => Ok(()),
    }
}

/// An atom past the greatest number is past all memory.
fn foreign_fault(atom: usize) -> ExtraFault
    ensures { IsForeign atom result }
{
    match u32::try_from(atom) {
        Ok(atom) => ExtraFault::Foreign { atom },
        Err(_) => ExtraFault::NoMemory(NoMemory),
    }
}

/// Why it can't stand beside the outline and the others.
fn check(
    alloc: Global,
    outline: &Outline,
    others: &[ExtraMember],
    member: &ExtraMember,
) -> Result<(), ExtraFault>
    requires { member.now.dim < length outline.now.dims }
    ensures right { OnOk result (IsOwn outline.now others.now member.now) }
    ensures wrong { IfErr result (IsExtraFault outline.now others.now member.now) }
{
    check_atoms(alloc, outline, member)?;
    if is_used(outline, others, member.name.as_str()) {
        return Err(ExtraFault::InUse);
    }
    if outline.own_rank(alloc, member)? > 64 {
        return Err(ExtraFault::Ranks);
    }
    Ok(())
}

fn push_member(extra: &mut Extra, member: ExtraMember) -> Result<(), NoMemory>
    ensures taken { OnOk result (extra.new.members.items ≡ extra.old.members.items ++ member ∷ []) }
    ensures unchanged { OnErr result (extra.new.members.items ≡ extra.old.members.items) }
{
    extra.members.push(member)?;
    Ok(())
}

impl Outline {
    ghost use Rattle.std.specs.Prelude.{◌≡◌, ◌<◌, ◌≤◌, ◌∷◌, ◌++◌, [], ℕ, length, OnOk, OnErr, IfOk, IfErr};
    ghost use Rattle.aso_outline.specs.Atoms.{atoms};
    ghost use Rattle.aso_outline.specs.Extend.{AreOwn, IsExtraFault, IsOwn, first_foreign, own_rank};
    ghost use Rattle.aso_outline.specs.Ranks.{rank_of};

    /// The rank of a member; 0 where there is no member.
    fn rank_at(&self, m: usize) -> u32
        ensures value { result ≡ rank_of self.now m }
        ensures bound { result ≤ 64 }
    {
        if m < self.members() as usize {
            self.rank(m as u32)
        } else {
            self.keeps_ranks();
            0
        }
    }

    /// The first atom of a formula, counted from 0, that isn't one of a formula in the base dimension.
    pub fn first_foreign(
        &self,
        alloc: Global,
        dim: u32,
        formula: &Expr,
    ) -> Result<Option<usize>, NoMemory>
        ensures { IfOk result (λ r. r ≡ first_foreign self.now dim (atoms formula.now)) }
    {
        let all = atoms_of(alloc, formula)?;
        foreign_in(alloc, self, dim, all.as_slice())
    }

    /// The rank of a query's own member: one more than the greatest rank of the members of its dimension that its formula names.
    pub fn own_rank(&self, alloc: Global, member: &ExtraMember) -> Result<u32, NoMemory>
        ensures value { IfOk result (λ r. r ≡ own_rank self.now member.now.dim (atoms member.now.formula)) }
        ensures bound { IfOk result (λ r. r ≤ 65) }
    {
        let mut operands = Vec::new(alloc);
        push_operands(
            self.sound_draft(),
            self.tables().seats.as_slice(),
            self.names(),
            member.dim,
            &member.formula,
            &mut operands,
        )?;
        Ok(greatest_rank(self, operands.as_slice()) + 1)
    }

    /// Takes a member of a query's own: its number follows those of the outline and of the members that were taken before. Its
    /// formula names members of the outline alone, and keeps the rule on formulas. Else it tells the first unknown name, the first
    /// atom that the dimension can't have, that the name is in use, or that its rank is past 64, in this order; the members
    /// that were taken stay as they were.
    pub fn extend(
        &self,
        alloc: Global,
        extra: &mut Extra,
        member: ExtraMember,
    ) -> Result<(), ExtraFault>
        requires { member.dim < length self.now.dims }
        ensures taken { OnOk result (extra.new.members.items ≡ extra.old.members.items ++ member ∷ []) }
        ensures accepted { OnOk result (IsOwn self.now extra.old.members.items member) }
        ensures keeps { AreOwn self.now extra.old.members.items → OnOk result (AreOwn self.now extra.new.members.items) }
        ensures refused { IfErr result (IsExtraFault self.now extra.old.members.items member) }
        ensures unchanged { OnErr result (extra.new.members.items ≡ extra.old.members.items) }
    {
        check(alloc, self, extra.members.as_slice(), &member)?;
        match push_member(extra, member) {
            Ok(()) => Ok(()),
            Err(e) => Err(ExtraFault::NoMemory(e)),
        }
    }
}
