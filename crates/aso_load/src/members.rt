// The member that a field names.
ghost use Rattle.std.specs.Prelude.{◌≡◌, ◌<◌, ◌++◌, length, OnOk, IfOk, string_bytes};
ghost use Rattle.aso_outline.specs.Members.{dim_of, find, seats};
ghost use Rattle.aso_load.specs.Fields.{leaf_in, replaced, told_member};

use crate::told::Told;
use aso_num::{NoMemory, Text};
use aso_outline::{Outline, Seat};

/// The base dimension of a member.
pub fn dim_of(seat: Seat) -> u32
    ensures { result ≡ dim_of seat }
{
    match seat {
        Seat::Whole { dim } => dim,
        Seat::Inner { dim, .. } => dim,
        Seat::Carried { attr, .. } => attr,
    }
}

/// What the first pair of a text replaces it by.
pub fn replaced<'a>(pairs: &'a [(Text, Text)], text: &'a str) -> &'a str
    ensures { result.now ≡ replaced pairs.now text.now }
{
    for pair in pairs {
        if pair.0.as_str() == text {
            return pair.1.as_str();
        }
    }
    text
}

// The data leaf that a member is, if it is one of the dimension.
fn leaf_in(outline: &Outline, dim: u32, m: u32) -> Option<u32>
    requires { m < length (seats outline.now) }
    ensures { result ≡ leaf_in outline.now dim m }
{
    let seat = outline.seat(m);
    if outline.is_data_leaf(seat) && dim_of(seat) == dim {
        outline.leaf_of(m)
    } else {
        None
    }
}

fn told_named(outline: &Outline, dim: u32, name: &str) -> Told
    ensures { result ≡ told_member outline.now dim (find outline.now name.now) }
{
    match outline.find(name) {
        Some(m) => match leaf_in(outline, dim, m) {
            Some(leaf) => Told::Leaf { dim, leaf },
            None => Told::Fault { reason: 4 },
        },
        None => Told::Fault { reason: 3 },
    }
}

fn join(prefix: &str, text: &str, suffix: &str, joined: &mut String) -> Result<(), NoMemory>
    ensures { OnOk result (string_bytes joined.new ≡ prefix.now ++ (text.now ++ suffix.now)) }
{
    joined.clear();
    joined.push_str(prefix)?;
    joined.push_str(text)?;
    joined.push_str(suffix)?;
    Ok(())
}

/// The data leaf of a dimension that a text names with its prefix and suffix, or why it names none. The memory for the joined name is lent.
pub fn told_member(
    outline: &Outline,
    dim: u32,
    prefix: &str,
    suffix: &str,
    text: &str,
    joined: &mut String,
) -> Result<Told, NoMemory>
    ensures { IfOk result (λ t. t ≡ told_member outline.now dim (find outline.now (prefix.now ++ (text.now ++ suffix.now)))) }
{
    if prefix.is_empty() && suffix.is_empty() {
        return Ok(told_named(outline, dim, text));
    }
    join(prefix, text, suffix, joined)?;
    Ok(told_named(outline, dim, joined.as_str()))
}
