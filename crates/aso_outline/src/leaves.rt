// Data leaves, and the bits that their ordinals take.
ghost use Rattle.std.specs.Prelude.{◌≡◌, ◌<◌, ◌≤◌, ◌^◌, ◌*◌, length, nat_le, nat_lt};
ghost use Rattle.std.specs.List.{filter};
ghost use Rattle.aso_tree.specs.Trees.{IsTree, places_of};
ghost use Rattle.aso_outline.specs.Members.{data_leaves, dim_at, parents_of, tree};
ghost use Rattle.aso_outline.specs.Rules.{bits_for, has_data_leaf, key_bits, unless};
ghost use Rattle.aso_outline.specs.Leaves.{is_data_place};
ghost use Rattle.aso_outline.specs.Small.{HasTrees};

use crate::draft::{Draft, DraftMember};
use crate::seat::Seat;
use crate::trees::sound_tree;
use aso_tree::is_leaf;

/// A leaf without a formula.
pub fn is_data_place(members: &[DraftMember], place: u32) -> bool
    requires short { length members.now < 2 ^ 32 }
    requires tree { IsTree (parents_of members.now) }
    requires within { place < length members.now }
    ensures { result ≡ is_data_place members.now place }
{
    is_leaf(members, place) && members[place as usize].formula.is_none()
}

/// Some member of the tree is a leaf without a formula.
fn any_data_place(members: &[DraftMember]) -> bool
    requires short { length members.now < 2 ^ 32 }
    requires tree { IsTree (parents_of members.now) }
    ensures { result ≡ nat_lt 0 (length (filter (is_data_place members.now) (places_of members.now))) }
{
    for place in 0..members.len() as u32 {
        if is_data_place(members, place) {
            return true;
        }
    }
    false
}

/// How many members of the tree are leaves without a formula.
fn data_places(members: &[DraftMember]) -> u32
    requires short { length members.now < 2 ^ 32 }
    requires tree { IsTree (parents_of members.now) }
    ensures { result ≡ length (filter (is_data_place members.now) (places_of members.now)) }
{
    let mut count = 0;
    for place in 0..members.len() as u32 {
        if is_data_place(members, place) {
            count += 1;
        }
    }
    count
}

/// The dimension has a data leaf.
pub fn has_data_leaf(draft: &Draft, dim: u32) -> bool
    requires { HasTrees draft.now }
    ensures { result ≡ has_data_leaf (dim_at draft.now dim) }
{
    any_data_place(sound_tree(
        draft,
        Seat::Inner {
            dim,
            hier: 0,
            at: 0,
        },
    ))
}

/// How many data leaves the dimension has.
fn data_leaf_count(draft: &Draft, dim: u32) -> u32
    requires { HasTrees draft.now }
    ensures { result ≡ length (data_leaves (dim_at draft.now dim)) }
{
    data_places(sound_tree(
        draft,
        Seat::Inner {
            dim,
            hier: 0,
            at: 0,
        },
    ))
}

/// The power of two of this exponent is less than the count.
fn is_power_below(bit: u32, count: u32) -> bool
    requires { bit < 32 }
    ensures { result ≡ nat_lt (2 ^ bit) count }
{
    (1u64 << bit) < u64::from(count)
}

/// The least number of bits that writes `count - 1`.
fn bits_for(count: u32) -> u32
    ensures value { result ≡ bits_for count }
    ensures bound { result ≤ 32 }
{
    let mut bits = 0;
    for bit in 0..32u32 {
        if is_power_below(bit, count) {
            bits += 1;
        }
    }
    bits
}

/// O12: the first member, where the data leaves need more than 128 key bits.
pub fn least_past_key(draft: &Draft) -> Option<u32>
    requires trees { HasTrees draft.now }
    requires short { length draft.now.dims < 2 ^ 32 }
    ensures { result ≡ unless (nat_le (key_bits draft.now) 128) }
{
    let mut bits: u64 = 0;
    for dim in 0..draft.dims.items().len() as u32 {
        bits += u64::from(bits_for(data_leaf_count(draft, dim)));
    }
    if bits <= 128 { None } else { Some(0) }
}
