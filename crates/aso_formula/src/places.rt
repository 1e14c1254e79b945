// Where the names and the atoms of a formula stand in its text.
ghost use Rattle.std.specs.Prelude.{◌≡◌, ◌<◌, ◌++◌, true, false, length, slice_get, IfOk, IfSome, OnOk};
ghost use Rattle.std.specs.Option.{option_map};
ghost use Rattle.std.specs.List.{find as first};
ghost use Rattle.aso_token.specs.Marks.{comma, name};
ghost use Rattle.aso_token.specs.Reads.{begins, passes, tokens_of};
ghost use Rattle.aso_formula.specs.Places.{begin_of, begins_in, is_unknown};
ghost use Rattle.aso_formula.specs.Found.{IsNameOf, IsPlaceAt};

use crate::fault::FormulaFault;
use crate::reading::copied;
use aso_memory::NoMemory;
use aso_outline::Outline;
use aso_token::{Mark, Placed, Token};
use std::alloc::Global;

fn is_unknown(outline: &Outline, placed: &Placed<'_>) -> bool
    ensures { result ≡ is_unknown outline.now placed.now }
{
    match &placed.token {
        Token::Name(piece) => outline.find(piece.as_str()).is_none(),
        _ => false,
    }
}

/// The first of the tokens that is a name which no member has.
pub fn first_unknown<'s, 'a>(outline: &Outline, tokens: &'s [Placed<'a>]) -> Option<&'s Placed<'a>>
    ensures value { option_map (λ p. p.now) result ≡ first (is_unknown outline.now) tokens.now }
    ensures unknown { IfSome result (λ p. is_unknown outline.now p.now ≡ true) }
{
    tokens.iter().find(|placed| is_unknown(outline, placed))
}

/// The fault at a name.
pub fn unknown_fault(alloc: Global, _outline: &Outline, placed: &Placed<'_>) -> FormulaFault
    requires { is_unknown _outline.now placed.now ≡ true }
    ensures { IsNameOf placed.now result }
{
    let Token::Name(piece) = &placed.token else {
        unreachable!()
    };
    match copied(alloc, piece) {
        Ok(name) => FormulaFault::Unknown {
            name,
            at: placed.at,
        },
        Err(_) => FormulaFault::NoMemory(NoMemory),
    }
}

fn is_name(placed: &Placed<'_>) -> bool
    ensures { result ≡ passes name placed.now.token }
{
    matches!(&placed.token, Token::Name(_))
}

fn is_comma(placed: &Placed<'_>) -> bool
    ensures { result ≡ passes comma placed.now.token }
{
    matches!(&placed.token, Token::Mark(Mark::Comma))
}

fn begins_with_comma(tokens: &[Placed<'_>]) -> bool
    ensures { result ≡ begins (passes comma) (tokens_of tokens.now) }
{
    match tokens {
        [first, ..] => is_comma(first),
        [] => false,
    }
}

/// Adds the place of an atom that begins here.
fn push_begin(
    after_comma: bool,
    before: usize,
    placed: &Placed<'_>,
    rest: &[Placed<'_>],
    places: &mut Vec<usize>,
) -> Result<(), NoMemory>
    ensures { OnOk result (places.new.items ≡ places.old.items ++ begin_of after_comma before placed.now rest.now) }
{
    if !is_name(placed) || after_comma {
        return Ok(());
    }
    if begins_with_comma(rest) {
        places.push(before)?;
    } else {
        places.push(placed.at)?;
    }
    Ok(())
}

/// The places at which atoms begin among the tokens of a text.
fn atom_places(alloc: Global, tokens: &[Placed<'_>]) -> Result<Vec<usize>, NoMemory>
    ensures { IfOk result (λ v. v.items ≡ begins_in false 0 tokens.now) }
{
    let mut places = Vec::new(alloc);
    let mut after_comma = false;
    let mut before = 0;
    let mut rest = tokens;
    while let [first, behind @ ..] = rest {
        push_begin(after_comma, before, first, behind, &mut places)?;
        after_comma = is_comma(first);
        before = first.at;
        rest = behind;
    }
    Ok(places)
}

/// The fault at an atom, counted from 0.
pub fn foreign_fault(alloc: Global, tokens: &[Placed<'_>], atom: usize) -> FormulaFault
    requires { atom < length (begins_in false 0 tokens.now) }
    ensures { IsPlaceAt (begins_in false 0 tokens.now) atom result }
{
    match atom_places(alloc, tokens) {
        Ok(places) => FormulaFault::Foreign { at: places[atom] },
        Err(e) => FormulaFault::NoMemory(e),
    }
}
