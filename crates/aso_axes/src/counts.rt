// How many tuples a set has. They are counted before they are made.
ghost use Rattle.std.specs.Prelude.{◌≡◌, ◌+◌, ◌*◌, length, map, IfOk};
ghost use Rattle.std.specs.List.{flat_map};
ghost use Rattle.aso_axes.specs.Answers.{counted};
ghost use Rattle.aso_axes.specs.Members.{IsNumbered};
ghost use Rattle.aso_axes.specs.Sets.{crossed, given_rows, rows_of};

use crate::given::given;
use crate::names::member_at;
use crate::part::Part;
use aso_mdx::SetText;
use aso_memory::NoMemory;
use aso_num::Text;
use aso_outline::{ExtraMember, Outline};
use std::alloc::Global;

fn given_count(
    alloc: Global,
    outline: &Outline,
    own: &[ExtraMember],
    part: Part,
    path: &[Text],
) -> Result<u64, NoMemory>
    requires { IsNumbered outline.now own.now }
    ensures { IfOk result (λ n. n ≡ counted (length (given_rows outline.now own.now part path.now))) }
{
    let members = given(alloc, outline, part, member_at(outline, own, path))?;
    Ok(members.len() as u64)
}

fn plus(a: u64, b: u64) -> u64
    ensures { result ≡ counted (a + b) }
{
    a.saturating_add(b)
}

fn times(a: u64, b: u64) -> u64
    ensures { result ≡ counted (a * b) }
{
    a.saturating_mul(b)
}

#[cycle(counts)]
fn count_items(
    alloc: Global,
    outline: &Outline,
    own: &[ExtraMember],
    items: &[SetText],
) -> Result<u64, NoMemory>
    requires { IsNumbered outline.now own.now }
    ensures { IfOk result (λ n. n ≡ counted (length (flat_map (rows_of outline.now own.now) items.now))) }
{
    let mut count = 0;
    for item in items {
        count = plus(count, count_rows(alloc, outline, own, item)?);
    }
    Ok(count)
}

/// How many tuples a set has, or 2^64 - 1 where it has more.
#[cycle(counts)]
#[tactic(auto, using(crate::proofs::SetSteps::rows_braced, crate::proofs::SetSteps::rows_member, crate::proofs::SetSteps::rows_tuple, crate::proofs::SetSteps::rows_children, crate::proofs::SetSteps::rows_members, crate::proofs::SetSteps::rows_descendants, crate::proofs::SetSteps::rows_leaves, crate::proofs::SetSteps::rows_crossjoin, crate::proofs::CountLemmas::times_counted, crate::proofs::CountLemmas::long_crossed))]
pub fn count_rows(
    alloc: Global,
    outline: &Outline,
    own: &[ExtraMember],
    set: &SetText,
) -> Result<u64, NoMemory>
    requires { IsNumbered outline.now own.now }
    ensures { IfOk result (λ n. n ≡ counted (length (rows_of outline.now own.now set.now))) }
{
    match set {
        SetText::Braced(items) => count_items(alloc, outline, own, items.as_slice()),
        SetText::Member(path) => given_count(alloc, outline, own, Part::Itself, path.items()),
        SetText::Tuple(_) => Ok(1),
        SetText::Children(path) => given_count(alloc, outline, own, Part::Children, path.items()),
        SetText::Members(path) => given_count(alloc, outline, own, Part::Members, path.items()),
        SetText::Descendants(path) => {
            given_count(alloc, outline, own, Part::Descendants, path.items())
        }
        SetText::Leaves(path) => given_count(alloc, outline, own, Part::Leaves, path.items()),
        SetText::Crossjoin(left, right) => {
            let left = count_rows(alloc, outline, own, left.get())?;
            let right = count_rows(alloc, outline, own, right.get())?;
            Ok(times(left, right))
        }
    }
}
