// An outline as a JSON text writes it: a draft that has the texts of its formulas.
use crate::parts::Parts;
use aso_num::Text;
use aso_outline::{Aggregate, Op};

/// What a hierarchy is.
#[derive(Clone, Copy, Debug, PartialEq, Eq)]
pub enum Kind {
    Stored,
    Dynamic,
}

/// A member. Its parent is a place in the same tree.
#[derive(Debug, Drop)]
pub struct WrittenMember {
    pub name: Text,
    pub parent: u32,
    pub shared: bool,
    pub label_only: bool,
    pub op: Op,
    pub solve: Option<u8>,
    pub formula: Option<Text>,
    pub carries: Parts<Text>,
}

/// The members of a tree in preorder.
#[derive(Debug, Drop)]
pub struct WrittenTree {
    pub members: Parts<WrittenMember>,
}

#[derive(Debug, Drop)]
pub struct WrittenHier {
    pub kind: Kind,
    pub root: WrittenTree,
}

/// A base dimension.
#[derive(Debug, Drop)]
pub struct WrittenDim {
    pub name: Text,
    pub aggregate: Aggregate,
    pub hiers: Parts<WrittenHier>,
}

/// An attribute dimension.
#[derive(Debug, Drop)]
pub struct WrittenAttr {
    pub name: Text,
    pub base: Text,
    pub root: WrittenTree,
}

#[derive(Debug, Drop)]
pub struct Written {
    pub app: Text,
    pub db: Text,
    pub dims: Parts<WrittenDim>,
    pub attrs: Parts<WrittenAttr>,
}
