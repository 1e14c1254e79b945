// Which fields an object of a rules file may have.

/// What an object of a rules file is.
#[derive(Clone, Copy, Debug, PartialEq, Eq)]
pub enum Fields {
    OfFile,
    OfDimension,
    OfAmounts,
    OfIgnored,
}
