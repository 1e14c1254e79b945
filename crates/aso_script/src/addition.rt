use crate::name::{Name, WrittenAmount};
use aso_num::List;

/// An amount that is added to the cell that 1 to 64 members name, borrowed from the line that spells it.
#[derive(Debug, Drop)]
pub struct Addition<'a> {
    pub app: Name<'a>,
    pub db: Name<'a>,
    pub names: List<Name<'a>>,
    pub amount: WrittenAmount<'a>,
}
