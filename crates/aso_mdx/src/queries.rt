// Queries.
ghost use Rattle.std.specs.Prelude.{◌≡◌, ◌∷◌, [], Ok, IfOk, IfErr, codes, unwrap_or};
ghost use Rattle.aso_token.specs.Reads.{Answers, FaultIn, finished, Gives, tokens_of, read_maybe, passes};
ghost use Rattle.aso_token.specs.Marks.{comma as comma_mark};
ghost use Rattle.aso_token.specs.Words.{key};
ghost use Rattle.aso_mdx.specs.declared.query.Query.{Query as AQuery};
ghost use Rattle.aso_mdx.specs.Grammar.{QueryTokens};
ghost use Rattle.aso_mdx.specs.Reading.{read_filtered, read_axis_set, read_axis, read_solve, read_own_path, read_formula, read_own, read_own_list, read_owns, read_bracketed, read_plain, read_base, read_paths, read_place, read_slicer, read_columns, read_rows, read_source, read_query};

use crate::names::{
    begins_cut_name, begins_pointless, name, plain_name, pointless, quoted, solve_order, two_names,
};
use crate::query::{Axis, Own, Query, SetText};
use crate::sets::{MOST_NESTED, members, path, set};
use crate::tokens::{
    begins_comma, begins_non_empty, begins_open, begins_word, comma, dot, equals, later_part, open,
    part, word,
};
use aso_num::{List, Text};
use aso_token::{Placed, Stop, close};
use std::alloc::{AllocError, Global};

const MOST_OWN: usize = 16;

const COMMON_SOLVE_ORDER: u8 = 20;

fn filtered<'s, 'a>(
    alloc: Global,
    tokens: &'s [Placed<'a>],
) -> Result<((bool, SetText), &'s [Placed<'a>]), Stop<'s, 'a>>
    ensures { Gives (λ x. (x.0, tokens_of x.1.now)) result (read_filtered (tokens_of tokens.now)) }
{
    let rest = word(tokens, b"non")?;
    let rest = word(rest, b"empty")?;
    let (set, rest) = set(alloc, MOST_NESTED, rest)?;
    Ok(((true, set), rest))
}

// A set, and whether the words that leave out what is missing stand before it.
fn axis_set<'s, 'a>(
    alloc: Global,
    tokens: &'s [Placed<'a>],
) -> Result<((bool, SetText), &'s [Placed<'a>]), Stop<'s, 'a>>
    ensures { Gives (λ x. (x.0, tokens_of x.1.now)) result (read_axis_set (tokens_of tokens.now)) }
{
    if begins_non_empty(tokens) {
        return filtered(alloc, tokens);
    }
    let (set, rest) = set(alloc, MOST_NESTED, tokens)?;
    Ok(((false, set), rest))
}

#[tactic(auto, unfolding(crate::specs::Reading::read_axis))]
fn axis<'s, 'a>(
    alloc: Global,
    side: &[u8],
    tokens: &'s [Placed<'a>],
) -> Result<(Axis, &'s [Placed<'a>]), Stop<'s, 'a>>
    ensures { Gives (λ x. (x.0, tokens_of x.1.now)) result (read_axis side.now (tokens_of tokens.now)) }
{
    let ((non_empty, set), rest) = axis_set(alloc, tokens)?;
    let rest = word(rest, b"on")?;
    let rest = word(rest, side)?;
    Ok((Axis { non_empty, set }, rest))
}

fn solve<'s, 'a>(tokens: &'s [Placed<'a>]) -> Result<(u8, &'s [Placed<'a>]), Stop<'s, 'a>>
    ensures { Gives (λ x. (x.0, tokens_of x.1.now)) result (read_solve (tokens_of tokens.now)) }
{
    let rest = comma(tokens)?;
    let rest = word(rest, b"solve_order")?;
    let rest = equals(rest)?;
    let (order, rest) = solve_order(rest)?;
    Ok((order, rest))
}

// A solve order or none.
fn maybe_solve<'s, 'a>(
    tokens: &'s [Placed<'a>],
) -> Result<(Option<u8>, &'s [Placed<'a>]), Stop<'s, 'a>>
    ensures { Gives (λ x. (x.0, tokens_of x.1.now)) result (read_maybe (passes comma_mark) read_solve (tokens_of tokens.now)) }
{
    if begins_comma(tokens) {
        let (order, rest) = solve(tokens)?;
        return Ok((Some(order), rest));
    }
    Ok((None, tokens))
}

// An own member's dimension and name.
fn own_path<'s, 'a>(
    alloc: Global,
    tokens: &'s [Placed<'a>],
) -> Result<((Text, Text), &'s [Placed<'a>]), Stop<'s, 'a>>
    ensures { Gives (λ x. (x.0, tokens_of x.1.now)) result (read_own_path (tokens_of tokens.now)) }
{
    let rest = word(tokens, b"member")?;
    let (dimension, rest) = part(alloc, rest)?;
    let rest = dot(rest)?;
    let (name, rest) = later_part(alloc, rest)?;
    Ok(((dimension, name), rest))
}

fn formula<'s, 'a>(
    alloc: Global,
    tokens: &'s [Placed<'a>],
) -> Result<(Text, &'s [Placed<'a>]), Stop<'s, 'a>>
    ensures { Gives (λ x. (x.0, tokens_of x.1.now)) result (read_formula (tokens_of tokens.now)) }
{
    let rest = word(tokens, b"as")?;
    let (formula, rest) = quoted(alloc, rest)?;
    Ok((formula, rest))
}

fn two(alloc: Global, first: Text, second: Text) -> Result<List<Text>, AllocError>
    ensures { IfOk result (λ l. l ≡ first ∷ second ∷ []) }
{
    let mut parts = Vec::new(alloc);
    parts.push(first)?;
    parts.push(second)?;
    Ok(List::of(parts))
}

#[tactic(auto, unfolding(crate::specs::Reading::read_own))]
fn own<'s, 'a>(
    alloc: Global,
    tokens: &'s [Placed<'a>],
) -> Result<(Own, &'s [Placed<'a>]), Stop<'s, 'a>>
    ensures { Gives (λ x. (x.0, tokens_of x.1.now)) result (read_own (tokens_of tokens.now)) }
{
    let ((dimension, name), rest) = own_path(alloc, tokens)?;
    let (formula, rest) = formula(alloc, rest)?;
    let (order, rest) = maybe_solve(rest)?;
    let own = Own {
        path: two(alloc, dimension, name)?,
        formula,
        solve: order.unwrap_or(COMMON_SOLVE_ORDER),
    };
    Ok((own, rest))
}

// At least one own member, and no more than there may be.
fn own_list<'s, 'a>(
    alloc: Global,
    tokens: &'s [Placed<'a>],
) -> Result<(List<Own>, &'s [Placed<'a>]), Stop<'s, 'a>>
    ensures { Gives (λ x. (x.0, tokens_of x.1.now)) result (read_own_list (tokens_of tokens.now)) }
{
    let (first, mut rest) = own(alloc, tokens)?;
    let mut all = Vec::new(alloc);
    all.push(first)?;
    let mut left = MOST_OWN - 1;
    while left > 0 {
        if !begins_word(rest, b"member") {
            return Ok((List::of(all), rest));
        }
        let (next, further) = own(alloc, rest)?;
        all.push(next)?;
        rest = further;
        left -= 1;
    }
    Ok((List::of(all), rest))
}

#[tactic(auto, unfolding(crate::specs::Reading::read_owns))]
fn owns<'s, 'a>(
    alloc: Global,
    tokens: &'s [Placed<'a>],
) -> Result<(List<Own>, &'s [Placed<'a>]), Stop<'s, 'a>>
    ensures { Gives (λ x. (x.0, tokens_of x.1.now)) result (read_owns (tokens_of tokens.now)) }
{
    let rest = word(tokens, b"with")?;
    let (all, rest) = own_list(alloc, rest)?;
    Ok((all, rest))
}

fn maybe_owns<'s, 'a>(
    alloc: Global,
    tokens: &'s [Placed<'a>],
) -> Result<(Option<List<Own>>, &'s [Placed<'a>]), Stop<'s, 'a>>
    ensures { Gives (λ x. (x.0, tokens_of x.1.now)) result (read_maybe (passes (key (codes "with"))) read_owns (tokens_of tokens.now)) }
{
    if begins_word(tokens, b"with") {
        let (all, rest) = owns(alloc, tokens)?;
        return Ok((Some(all), rest));
    }
    Ok((None, tokens))
}

fn bracketed<'s, 'a>(
    alloc: Global,
    tokens: &'s [Placed<'a>],
) -> Result<((Text, Text), &'s [Placed<'a>]), Stop<'s, 'a>>
    ensures { Gives (λ x. (x.0, tokens_of x.1.now)) result (read_bracketed (tokens_of tokens.now)) }
{
    let (app, rest) = pointless(alloc, tokens)?;
    let rest = dot(rest)?;
    let (db, rest) = name(alloc, rest)?;
    Ok(((app, db), rest))
}

fn plain<'s, 'a>(
    alloc: Global,
    tokens: &'s [Placed<'a>],
) -> Result<((Text, Text), &'s [Placed<'a>]), Stop<'s, 'a>>
    ensures { Gives (λ x. (x.0, tokens_of x.1.now)) result (read_plain (tokens_of tokens.now)) }
{
    let (app, rest) = plain_name(alloc, tokens)?;
    let rest = dot(rest)?;
    let (db, rest) = plain_name(alloc, rest)?;
    Ok(((app, db), rest))
}

// The two names of a database.
#[tactic(auto, unfolding(crate::specs::Reading::read_base))]
fn base<'s, 'a>(
    alloc: Global,
    tokens: &'s [Placed<'a>],
) -> Result<((Text, Text), &'s [Placed<'a>]), Stop<'s, 'a>>
    ensures { Gives (λ x. (x.0, tokens_of x.1.now)) result (read_base (tokens_of tokens.now)) }
{
    if begins_cut_name(tokens) {
        return two_names(alloc, tokens);
    }
    if begins_pointless(tokens) {
        return bracketed(alloc, tokens);
    }
    plain(alloc, tokens)
}

#[tactic(auto, unfolding(crate::specs::Reading::read_paths))]
fn paths<'s, 'a>(
    alloc: Global,
    tokens: &'s [Placed<'a>],
) -> Result<(List<List<Text>>, &'s [Placed<'a>]), Stop<'s, 'a>>
    ensures { Gives (λ x. (x.0, tokens_of x.1.now)) result (read_paths (tokens_of tokens.now)) }
{
    let rest = open(tokens)?;
    let (all, rest) = members(alloc, rest)?;
    let rest = close(rest)?;
    Ok((all, rest))
}

fn one(alloc: Global, member: List<Text>) -> Result<List<List<Text>>, AllocError>
    ensures { IfOk result (λ l. l ≡ member ∷ []) }
{
    let mut all = Vec::new(alloc);
    all.push(member)?;
    Ok(List::of(all))
}

// Members in parentheses, or one without them.
fn place<'s, 'a>(
    alloc: Global,
    tokens: &'s [Placed<'a>],
) -> Result<(List<List<Text>>, &'s [Placed<'a>]), Stop<'s, 'a>>
    ensures { Gives (λ x. (x.0, tokens_of x.1.now)) result (read_place (tokens_of tokens.now)) }
{
    if begins_open(tokens) {
        return paths(alloc, tokens);
    }
    let (member, rest) = path(alloc, tokens)?;
    Ok((one(alloc, member)?, rest))
}

#[tactic(auto, unfolding(crate::specs::Reading::read_slicer))]
fn slicer<'s, 'a>(
    alloc: Global,
    tokens: &'s [Placed<'a>],
) -> Result<(List<List<Text>>, &'s [Placed<'a>]), Stop<'s, 'a>>
    ensures { Gives (λ x. (x.0, tokens_of x.1.now)) result (read_slicer (tokens_of tokens.now)) }
{
    let rest = word(tokens, b"where")?;
    let (members, rest) = place(alloc, rest)?;
    Ok((members, rest))
}

fn maybe_slicer<'s, 'a>(
    alloc: Global,
    tokens: &'s [Placed<'a>],
) -> Result<(Option<List<List<Text>>>, &'s [Placed<'a>]), Stop<'s, 'a>>
    ensures { Gives (λ x. (x.0, tokens_of x.1.now)) result (read_maybe (passes (key (codes "where"))) read_slicer (tokens_of tokens.now)) }
{
    if begins_word(tokens, b"where") {
        let (members, rest) = slicer(alloc, tokens)?;
        return Ok((Some(members), rest));
    }
    Ok((None, tokens))
}

fn columns<'s, 'a>(
    alloc: Global,
    tokens: &'s [Placed<'a>],
) -> Result<(Axis, &'s [Placed<'a>]), Stop<'s, 'a>>
    ensures { Gives (λ x. (x.0, tokens_of x.1.now)) result (read_columns (tokens_of tokens.now)) }
{
    let rest = word(tokens, b"select")?;
    let (axis, rest) = axis(alloc, b"columns", rest)?;
    Ok((axis, rest))
}

fn rows<'s, 'a>(
    alloc: Global,
    tokens: &'s [Placed<'a>],
) -> Result<(Axis, &'s [Placed<'a>]), Stop<'s, 'a>>
    ensures { Gives (λ x. (x.0, tokens_of x.1.now)) result (read_rows (tokens_of tokens.now)) }
{
    let rest = comma(tokens)?;
    let (axis, rest) = axis(alloc, b"rows", rest)?;
    Ok((axis, rest))
}

fn maybe_rows<'s, 'a>(
    alloc: Global,
    tokens: &'s [Placed<'a>],
) -> Result<(Option<Axis>, &'s [Placed<'a>]), Stop<'s, 'a>>
    ensures { Gives (λ x. (x.0, tokens_of x.1.now)) result (read_maybe (passes comma_mark) read_rows (tokens_of tokens.now)) }
{
    if begins_comma(tokens) {
        let (axis, rest) = rows(alloc, tokens)?;
        return Ok((Some(axis), rest));
    }
    Ok((None, tokens))
}

fn source<'s, 'a>(
    alloc: Global,
    tokens: &'s [Placed<'a>],
) -> Result<((Text, Text), &'s [Placed<'a>]), Stop<'s, 'a>>
    ensures { Gives (λ x. (x.0, tokens_of x.1.now)) result (read_source (tokens_of tokens.now)) }
{
    let rest = word(tokens, b"from")?;
    let (names, rest) = base(alloc, rest)?;
    Ok((names, rest))
}

fn all_or_none<T: Drop>(alloc: Global, all: Option<List<T>>) -> List<T>
    ensures { result ≡ unwrap_or all [] }
{
    match all {
        Some(all) => all,
        None => List::of(Vec::new(alloc)),
    }
}

#[tactic(auto, unfolding(crate::specs::Reading::read_query))]
fn query<'s, 'a>(
    alloc: Global,
    tokens: &'s [Placed<'a>],
) -> Result<(Query, &'s [Placed<'a>]), Stop<'s, 'a>>
    ensures { Gives (λ x. (x.0, tokens_of x.1.now)) result (read_query (tokens_of tokens.now)) }
{
    let (own, rest) = maybe_owns(alloc, tokens)?;
    let (columns, rest) = columns(alloc, rest)?;
    let (rows, rest) = maybe_rows(alloc, rest)?;
    let ((app, db), rest) = source(alloc, rest)?;
    let (slicer, rest) = maybe_slicer(alloc, rest)?;
    let query = Query {
        own: all_or_none(alloc, own),
        columns,
        rows,
        app,
        db,
        slicer: all_or_none(alloc, slicer),
    };
    Ok((query, rest))
}

fn whole<'s, 'a>(alloc: Global, tokens: &'s [Placed<'a>]) -> Result<Query, Stop<'s, 'a>>
    ensures { Answers result (finished (read_query (tokens_of tokens.now))) }
{
    let (query, rest) = query(alloc, tokens)?;
    match rest {
        [] => Ok(query),
        [..] => Err(Stop::At(rest)),
    }
}

/// The query that these tokens write, or what is left from the fault on.
pub fn query_tokens<'s, 'a>(alloc: Global, tokens: &'s [Placed<'a>]) -> Result<Query, Stop<'s, 'a>>
    ensures found { IfOk result (λ q. QueryTokens (tokens_of tokens.now) q) }
    ensures only { (q : AQuery) → QueryTokens (tokens_of tokens.now) q → Answers result (Ok q) }
    ensures fault { IfErr result (FaultIn QueryTokens (tokens_of tokens.now)) }
{
    whole(alloc, tokens)
}
