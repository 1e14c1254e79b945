// Sets.
ghost use Rattle.std.specs.Prelude.{Ok, IfOk, IfErr};
ghost use Rattle.aso_token.specs.Reads.{Answers, FaultIn, finished, Gives, tokens_of};
ghost use Rattle.aso_mdx.specs.declared.query.SetText.{SetText as Set};
ghost use Rattle.aso_mdx.specs.Grammar.{SetTokens};
ghost use Rattle.aso_mdx.specs.Shapes.{shape_of};
ghost use Rattle.aso_mdx.specs.Reading.{read_listed, read_path, read_tuple_rest, read_applied, read_dotted, read_leaf, read_braces_rest, read_crossing_rest, read_nested};

use crate::query::SetText;
use crate::shape::{Shape, applied};
use crate::tokens::{
    after_crossjoin, after_dot, after_function, after_method, after_open_set, close_set, comma,
    later_part, part,
};
use aso_num::{List, Text};
use aso_token::{Placed, Stop, after_comma, after_open, close};
use sqlite_items::{Boxed, Items};
use std::alloc::Global;

/// How many braces and crossings may nest.
pub const MOST_NESTED: usize = 32;

/// A member's parts.
pub fn path<'s, 'a>(
    alloc: Global,
    tokens: &'s [Placed<'a>],
) -> Result<(List<Text>, &'s [Placed<'a>]), Stop<'s, 'a>>
    ensures { Gives (λ x. (x.0, tokens_of x.1.now)) result (read_path (tokens_of tokens.now)) }
{
    let (first, mut rest) = part(alloc, tokens)?;
    let mut parts = Vec::new(alloc);
    parts.push(first)?;
    while let Some(after) = after_dot(rest) {
        let (next, further) = later_part(alloc, after)?;
        parts.push(next)?;
        rest = further;
    }
    Ok((List::of(parts), rest))
}

/// Members with commas between them.
pub fn members<'s, 'a>(
    alloc: Global,
    tokens: &'s [Placed<'a>],
) -> Result<(List<List<Text>>, &'s [Placed<'a>]), Stop<'s, 'a>>
    ensures { Gives (λ x. (x.0, tokens_of x.1.now)) result (read_listed read_path (tokens_of tokens.now)) }
{
    let (first, mut rest) = path(alloc, tokens)?;
    let mut all = Vec::new(alloc);
    all.push(first)?;
    while let Some(after) = after_comma(rest) {
        let (next, further) = path(alloc, after)?;
        all.push(next)?;
        rest = further;
    }
    Ok((List::of(all), rest))
}

// A tuple behind the parenthesis that opens it.
fn tuple<'s, 'a>(
    alloc: Global,
    tokens: &'s [Placed<'a>],
) -> Result<(SetText, &'s [Placed<'a>]), Stop<'s, 'a>>
    ensures { Gives (λ x. (x.0, tokens_of x.1.now)) result (read_tuple_rest (tokens_of tokens.now)) }
{
    let (all, rest) = members(alloc, tokens)?;
    let rest = close(rest)?;
    Ok((SetText::Tuple(all), rest))
}

// A function's member behind the parenthesis that opens it.
fn called<'s, 'a>(
    alloc: Global,
    shape: Shape,
    tokens: &'s [Placed<'a>],
) -> Result<(SetText, &'s [Placed<'a>]), Stop<'s, 'a>>
    ensures { Gives (λ x. (x.0, tokens_of x.1.now)) result (read_applied (shape_of shape) (tokens_of tokens.now)) }
{
    let (member, rest) = path(alloc, tokens)?;
    let rest = close(rest)?;
    Ok((applied(shape, member), rest))
}

// A member, or a member and a method behind its last dot.
fn dotted<'s, 'a>(
    alloc: Global,
    tokens: &'s [Placed<'a>],
) -> Result<(SetText, &'s [Placed<'a>]), Stop<'s, 'a>>
    ensures { Gives (λ x. (x.0, tokens_of x.1.now)) result (read_dotted (tokens_of tokens.now)) }
{
    let (first, mut rest) = part(alloc, tokens)?;
    let mut parts = Vec::new(alloc);
    parts.push(first)?;
    while let Some(after) = after_dot(rest) {
        if let Some((shape, left)) = after_method(after) {
            return Ok((applied(shape, List::of(parts)), left));
        }
        let (next, further) = later_part(alloc, after)?;
        parts.push(next)?;
        rest = further;
    }
    Ok((SetText::Member(List::of(parts)), rest))
}

// A set that holds no other.
fn leaf<'s, 'a>(
    alloc: Global,
    tokens: &'s [Placed<'a>],
) -> Result<(SetText, &'s [Placed<'a>]), Stop<'s, 'a>>
    ensures { Gives (λ x. (x.0, tokens_of x.1.now)) result (read_leaf (tokens_of tokens.now)) }
{
    if let Some(rest) = after_open(tokens) {
        return tuple(alloc, rest);
    }
    if let Some((shape, rest)) = after_function(tokens) {
        return called(alloc, shape, rest);
    }
    dotted(alloc, tokens)
}

// Sets behind the brace that opens them.
#[cycle(sets)]
fn braced<'s, 'a>(
    alloc: Global,
    nested: usize,
    tokens: &'s [Placed<'a>],
) -> Result<(SetText, &'s [Placed<'a>]), Stop<'s, 'a>>
    ensures { Gives (λ x. (x.0, tokens_of x.1.now)) result (read_braces_rest (read_nested nested) (tokens_of tokens.now)) }
{
    let (all, rest) = items(alloc, nested, tokens)?;
    let rest = close_set(rest)?;
    Ok((SetText::Braced(all), rest))
}

#[cycle(sets)]
fn items<'s, 'a>(
    alloc: Global,
    nested: usize,
    tokens: &'s [Placed<'a>],
) -> Result<(Items<SetText>, &'s [Placed<'a>]), Stop<'s, 'a>>
    ensures { Gives (λ x. (x.0, tokens_of x.1.now)) result (read_listed (read_nested nested) (tokens_of tokens.now)) }
{
    let (first, mut rest) = set(alloc, nested, tokens)?;
    let mut all = Vec::new(alloc);
    all.push(first)?;
    while let Some(after) = after_comma(rest) {
        let (next, further) = set(alloc, nested, after)?;
        all.push(next)?;
        rest = further;
    }
    Ok((Items::from_vec(all), rest))
}

// Two sets behind a crossing's parenthesis.
#[cycle(sets)]
fn crossed<'s, 'a>(
    alloc: Global,
    nested: usize,
    tokens: &'s [Placed<'a>],
) -> Result<(SetText, &'s [Placed<'a>]), Stop<'s, 'a>>
    ensures { Gives (λ x. (x.0, tokens_of x.1.now)) result (read_crossing_rest (read_nested nested) (tokens_of tokens.now)) }
{
    let (left, rest) = set(alloc, nested, tokens)?;
    let rest = comma(rest)?;
    let (right, rest) = set(alloc, nested, rest)?;
    let rest = close(rest)?;
    let crossed = SetText::Crossjoin(Boxed::new(alloc, left)?, Boxed::new(alloc, right)?);
    Ok((crossed, rest))
}

/// A set in which at most so many braces and crossings nest.
#[cycle(sets)]
pub fn set<'s, 'a>(
    alloc: Global,
    nested: usize,
    tokens: &'s [Placed<'a>],
) -> Result<(SetText, &'s [Placed<'a>]), Stop<'s, 'a>>
    ensures { Gives (λ x. (x.0, tokens_of x.1.now)) result (read_nested nested (tokens_of tokens.now)) }
{
    if nested == 0 {
        return leaf(alloc, tokens);
    }
    if let Some(rest) = after_open_set(tokens) {
        return braced(alloc, nested - 1, rest);
    }
    if let Some(rest) = after_crossjoin(tokens) {
        return crossed(alloc, nested - 1, rest);
    }
    leaf(alloc, tokens)
}

fn whole<'s, 'a>(alloc: Global, tokens: &'s [Placed<'a>]) -> Result<SetText, Stop<'s, 'a>>
    ensures { Answers result (finished (read_nested 32 (tokens_of tokens.now))) }
{
    let (set, rest) = set(alloc, MOST_NESTED, tokens)?;
    match rest {
        [] => Ok(set),
        [..] => Err(Stop::At(rest)),
    }
}

/// The set that these tokens write, or what is left from the fault on.
pub fn set_tokens<'s, 'a>(alloc: Global, tokens: &'s [Placed<'a>]) -> Result<SetText, Stop<'s, 'a>>
    ensures found { IfOk result (λ s. SetTokens (tokens_of tokens.now) s) }
    ensures only { (s : Set) → SetTokens (tokens_of tokens.now) s → Answers result (Ok s) }
    ensures fault { IfErr result (FaultIn SetTokens (tokens_of tokens.now)) }
{
    whole(alloc, tokens)
}
