// The names of members as they are written.
ghost use Rattle.std.specs.Prelude.{◌≡◌, map, not, is_none, unwrap_or};
ghost use Rattle.std.specs.Option.{option_map};
ghost use Rattle.std.specs.List.{find as first};
ghost use Rattle.aso_axes.specs.Members.{IsNumbered, member_named as member_named_by, same_dim as same_dims};
ghost use Rattle.aso_axes.specs.Sets.{dim_at as dim_named, dim_of_name as dim_of_named, first_unknown as first_unknown_of, last_part as last_part_of, member_at as member_named_at, member_of_name as member_of_named, strange_part as strange_part_of, told as told_of};

use crate::members::{dim_of, member_named, same_dim};
use aso_num::Text;
use aso_outline::{DimRef, ExtraMember, Outline};

fn is_unknown(outline: &Outline, own: &[ExtraMember], name: &str) -> bool
    requires { IsNumbered outline.now own.now }
    ensures { result ≡ is_none (member_named_by outline.now own.now name.now) }
{
    member_named(outline, own, name).is_none()
}

/// The first of some names that no member has.
fn unknown_in<'a>(outline: &Outline, own: &[ExtraMember], names: &'a [Text]) -> Option<&'a Text>
    requires { IsNumbered outline.now own.now }
    ensures { option_map (λ n. n.now) result ≡ first (λ name. is_none (member_named_by outline.now own.now name)) names.now }
{
    names
        .iter()
        .find(|name| is_unknown(outline, own, name.as_str()))
}

/// The first name of some members that no member has.
pub fn first_unknown<'a>(
    outline: &Outline,
    own: &[ExtraMember],
    paths: &[&'a [Text]],
) -> Option<&'a Text>
    requires { IsNumbered outline.now own.now }
    ensures { option_map (λ n. n.now) result ≡ first_unknown_of outline.now own.now (map (λ a. a.now) paths.now) }
{
    for path in paths {
        let found = unknown_in(outline, own, path);
        if found.is_some() {
            return found;
        }
    }
    None
}

fn last_part(path: &[Text]) -> &str
    ensures { result.now ≡ last_part_of path.now }
{
    match path.get(path.len().saturating_sub(1)) {
        Some(part) => part.as_str(),
        None => "",
    }
}

fn member_of_name(outline: &Outline, own: &[ExtraMember], name: &str) -> u32
    requires { IsNumbered outline.now own.now }
    ensures { result ≡ member_of_named outline.now own.now name.now }
{
    match member_named(outline, own, name) {
        Some(n) => n,
        None => 0,
    }
}

/// The member that some parts name: the last.
pub fn member_at(outline: &Outline, own: &[ExtraMember], path: &[Text]) -> u32
    requires { IsNumbered outline.now own.now }
    ensures { result ≡ member_named_at outline.now own.now path.now }
{
    member_of_name(outline, own, last_part(path))
}

/// The dimension of the member that some parts name.
pub fn dim_at(outline: &Outline, own: &[ExtraMember], path: &[Text]) -> DimRef
    requires { IsNumbered outline.now own.now }
    ensures { result ≡ dim_named outline.now own.now path.now }
{
    dim_of(outline, own, member_at(outline, own, path))
}

fn is_strange(outline: &Outline, own: &[ExtraMember], dim: DimRef, name: &str) -> bool
    requires { IsNumbered outline.now own.now }
    ensures { result ≡ not (same_dims (dim_of_named outline.now own.now name.now) dim) }
{
    !same_dim(
        dim_of(outline, own, member_of_name(outline, own, name)),
        dim,
    )
}

/// The first part that is of another dimension than the last.
pub fn strange_part<'a>(
    outline: &Outline,
    own: &[ExtraMember],
    path: &'a [Text],
) -> Option<&'a Text>
    requires { IsNumbered outline.now own.now }
    ensures { option_map (λ n. n.now) result ≡ strange_part_of outline.now own.now path.now }
{
    let dim = dim_at(outline, own, path);
    path.iter()
        .find(|name| is_strange(outline, own, dim, name.as_str()))
}

/// The name that is told of a member: that part, or else its own.
pub fn told<'a>(outline: &Outline, own: &[ExtraMember], path: &'a [Text]) -> &'a str
    requires { IsNumbered outline.now own.now }
    ensures { result.now ≡ told_of outline.now own.now path.now }
{
    match strange_part(outline, own, path) {
        Some(part) => part.as_str(),
        None => last_part(path),
    }
}
