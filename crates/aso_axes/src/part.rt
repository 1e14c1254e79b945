/// What of a member a set has.
#[derive(Clone, Copy, Debug, PartialEq, Eq)]
pub enum Part {
    Itself,
    Children,
    Members,
    Descendants,
    Leaves,
}

/// What a set is read for. An axis may have any member, a region stored members of base dimensions.
#[derive(Clone, Copy, Debug, PartialEq, Eq)]
pub enum Purpose {
    Axis,
    Region,
}
