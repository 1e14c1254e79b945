// The outline that lines say, as a draft.
ghost use Rattle.std.specs.Prelude.{◌≡◌, ◌+◌, ◌<◌, ◌≤◌, ◌^◌, ℕ, ◌==◌, if◌then◌else◌, length, map, drop, IfOk, OnOk};
ghost use Rattle.std.specs.List.{prefix_len};
ghost use Rattle.aso_tree.specs.Trees.{places_of};
ghost use Rattle.aso_spec.specs.Drafts.{dims_of as dims_said, draft_dim, draft_member, member_of};
ghost use Rattle.aso_sheettext.specs.Texts.{outline};
ghost use Rattle.aso_outtext.specs.Drafts.{draft_of};
ghost use Rattle.aso_outtext.specs.Tables.{is_deeper, last_in, line_of, parent_by};

use aso_memory::NoMemory;
use aso_num::{List, Text};
use aso_outline::{Aggregate, Draft, DraftDim, DraftHier, DraftMember, Op};
use aso_sheettext::{MemberText, OutlineText};
use std::alloc::Global;

fn text_of(alloc: Global, name: &str) -> Result<Text, NoMemory>
    ensures { IfOk result (λ t. t ≡ name.now) }
{
    Ok(Text::of(String::from_str(alloc, name)?))
}

// A member that is added to its parent.
fn draft_member(alloc: Global, parent: u32, name: &str) -> Result<DraftMember, NoMemory>
    ensures { IfOk result (λ m. m ≡ draft_member parent name.now) }
{
    Ok(DraftMember {
        name: text_of(alloc, name)?,
        parent,
        shared: false,
        label_only: false,
        op: Op::Plus,
        solve: None,
        formula: None,
        carries: List::of(Vec::new(alloc)),
    })
}

// The parent of a line, by the last place at each depth.
fn parent_of(last: &[u32], depth: usize) -> u32
    ensures { result ≡ parent_by last.now depth }
{
    if depth == 0 {
        return u32::MAX;
    }
    match last.get(depth - 1) {
        Some(place) => *place,
        None => 0,
    }
}

// Lengthens the table until it has the depth.
fn lengthen(last: &mut Vec<u32>, depth: usize) -> Result<(), NoMemory>
    ensures has { OnOk result (depth < length last.new.items) }
    ensures same { OnOk result ((e : ℕ) → last_in last.new.items e ≡ last_in last.old.items e) }
{
    while last.len() <= depth {
        last.push(0)?;
    }
    Ok(())
}

// Makes a place the last one at a depth.
fn note(last: &mut Vec<u32>, depth: usize, place: u32) -> Result<(), NoMemory>
    ensures { OnOk result ((e : ℕ) → last_in last.new.items e ≡ (if depth == e then place else last_in last.old.items e)) }
{
    lengthen(last, depth)?;
    last[depth] = place;
    Ok(())
}

// The members of a dimension's lines, in their order. The table grows by a line's depth at most, which has as many dots.
fn tree_of(alloc: Global, lines: &[MemberText]) -> Result<Vec<DraftMember>, NoMemory>
    requires few { length lines.now < 2 ^ 32 }
    ensures { IfOk result (λ v. v.items ≡ map (member_of (map line_of lines.now)) (places_of (map line_of lines.now))) }
{
    let mut members = Vec::new(alloc);
    let mut last = Vec::new(alloc);
    for (i, line) in lines.iter().enumerate() {
        let parent = parent_of(&last, line.depth);
        members.push(draft_member(alloc, parent, line.name)?)?;
        note(&mut last, line.depth, i as u32)?;
    }
    Ok(members)
}

// A base dimension with one stored hierarchy.
fn dim_of(alloc: Global, lines: &[MemberText]) -> Result<DraftDim, NoMemory>
    requires some { 0 < length lines.now }
    requires few { length lines.now < 2 ^ 32 }
    ensures { IfOk result (λ d. d ≡ draft_dim (map line_of lines.now)) }
{
    let mut hiers = Vec::new(alloc);
    hiers.push(DraftHier {
        dynamic: false,
        members: List::of(tree_of(alloc, lines)?),
    })?;
    Ok(DraftDim {
        name: text_of(alloc, lines[0].name)?,
        aggregate: Aggregate::All,
        hiers: List::of(hiers),
    })
}

// How many lines there are before the next dimension's own.
fn deeper_len(lines: &[MemberText]) -> usize
    ensures value { result ≡ prefix_len is_deeper (map line_of lines.now) }
    ensures within { result ≤ length lines.now }
{
    for (i, line) in lines.iter().enumerate() {
        if line.depth == 0 {
            return i;
        }
    }
    lines.len()
}

// How many lines the first dimension has.
fn dim_len(lines: &[MemberText]) -> usize
    requires { 0 < length lines.now }
    ensures value { result ≡ 1 + prefix_len is_deeper (map line_of (drop 1 lines.now)) }
    ensures within { result ≤ length lines.now }
{
    1 + deeper_len(&lines[1..])
}

// The dimensions that lines say.
fn dims_of(alloc: Global, members: &[MemberText]) -> Result<Vec<DraftDim>, NoMemory>
    requires few { length members.now < 2 ^ 32 }
    ensures { IfOk result (λ v. v.items ≡ map draft_dim (dims_said (map line_of members.now))) }
{
    let mut dims = Vec::new(alloc);
    let mut at = 0;
    while at < members.len() {
        let rest = &members[at..];
        let count = dim_len(rest);
        dims.push(dim_of(alloc, &rest[..count])?)?;
        at += count;
    }
    Ok(dims)
}

/// The draft of the outline that lines say: a base dimension for each line of depth 0, with one stored hierarchy. It takes time in
/// proportion to the text.
pub fn draft_of(alloc: Global, said: &OutlineText) -> Result<Draft, NoMemory>
    ensures { IfOk result (λ d. d ≡ draft_of (outline said.now)) }
{
    // So many lines are past all memory.
    if said.members.len() > u32::MAX as usize {
        return Err(NoMemory);
    }
    let dims = dims_of(alloc, &said.members)?;
    Ok(Draft {
        app: text_of(alloc, said.app)?,
        db: text_of(alloc, said.db)?,
        dims: List::of(dims),
        attrs: List::of(Vec::new(alloc)),
    })
}
