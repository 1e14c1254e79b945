use aso_num::Amount;

/// A member of an outline: how many dots stand before its name, 0 at a dimension's own.
#[derive(Clone, Copy, Debug)]
pub struct MemberText<'a> {
    pub depth: usize,
    pub name: &'a str,
}

/// A cell's members in the order of its line, and its amount in units of 1/10000.
#[derive(Debug, Drop)]
pub struct CellText<'a> {
    pub names: Vec<&'a str>,
    pub amount: Amount,
}

/// An outline: its database's two names, and its members in preorder.
#[derive(Debug, Drop)]
pub struct OutlineText<'a> {
    pub app: &'a str,
    pub db: &'a str,
    pub members: Vec<MemberText<'a>>,
}

/// A sheet: its outline, and its cells and axes in the order of the text.
#[derive(Debug, Drop)]
pub struct SheetText<'a> {
    pub outline: OutlineText<'a>,
    pub cells: Vec<CellText<'a>>,
    pub columns: Vec<&'a str>,
    pub rows: Vec<&'a str>,
}

/// What one line says.
#[derive(Debug, Drop)]
pub(crate) enum PartText<'a> {
    Database { app: &'a str, db: &'a str },
    Member(MemberText<'a>),
    Cell(CellText<'a>),
    Columns(Vec<&'a str>),
    Rows(Vec<&'a str>),
}
