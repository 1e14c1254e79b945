// Which fields an object may have.

/// What an object of an outline text is.
#[derive(Clone, Copy, Debug, PartialEq, Eq)]
pub enum Object {
    Outline,
    Dimension,
    Hierarchy,
    Attribute,
    Member,
}
