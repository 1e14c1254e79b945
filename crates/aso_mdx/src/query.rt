use aso_num::{List, Text};
use sqlite_items::{Boxed, Items};

/// A set as it is written. A member is the list of its parts, the member itself the last of them.
#[derive(Debug, Drop)]
pub enum SetText {
    /// At least one item, in braces.
    Braced(Items<SetText>),
    Member(List<Text>),
    /// At least one member, in parentheses.
    Tuple(List<List<Text>>),
    Children(List<Text>),
    Members(List<Text>),
    Descendants(List<Text>),
    Leaves(List<Text>),
    Crossjoin(Boxed<SetText>, Boxed<SetText>),
}

/// A member of the query's own: its dimension and its name, the text of its formula, and its solve order, 0 to 127.
#[derive(Debug, Drop)]
pub struct Own {
    pub path: List<Text>,
    pub formula: Text,
    pub solve: u8,
}

/// An axis, and whether it leaves out what is all missing.
#[derive(Debug, Drop)]
pub struct Axis {
    pub non_empty: bool,
    pub set: SetText,
}

/// A query as it is written, of at most 16 members of its own. Without a slicer that list is empty.
#[derive(Debug, Drop)]
pub struct Query {
    pub own: List<Own>,
    pub columns: Axis,
    pub rows: Option<Axis>,
    pub app: Text,
    pub db: Text,
    pub slicer: List<List<Text>>,
}
