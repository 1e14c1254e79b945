use aso_num::Amount;

/// What a field comes to under its column.
#[derive(Clone, Copy, Debug, PartialEq, Eq)]
pub enum Told {
    /// Nothing: its column is passed over, or it has no amount.
    Nothing,
    /// Why its record is rejected.
    Fault { reason: u8 },
    /// A data leaf, by its ordinal, of a base dimension.
    Leaf { dim: u32, leaf: u32 },
    /// An amount.
    Amount(Amount),
}
