use aso_num::Amount;

/// A record without its leaves: how many it has, and its amount.
#[derive(Clone, Copy, Debug, PartialEq, Eq)]
pub struct Row {
    pub leaves: usize,
    pub amount: Amount,
}
