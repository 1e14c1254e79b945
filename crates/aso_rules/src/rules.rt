use aso_num::{List, Text};

/// What a field of a record is.
#[derive(Debug, Drop)]
pub enum Column {
    /// Nothing.
    Ignore,
    /// The name of a data leaf of this base dimension, once it was replaced and has its prefix and suffix.
    Dimension {
        dim: u32,
        prefix: Text,
        suffix: Text,
        /// What is replaced, and by what; the first pair counts.
        replace: List<(Text, Text)>,
    },
    /// An amount, at the data leaves of these member numbers and those that the record and `Rules::fixed` name.
    Amounts {
        members: List<u32>,
    },
}

/// How the records of a data file are read.
#[derive(Debug, Drop)]
pub struct Rules {
    /// The byte between two fields.
    pub delimiter: u8,
    /// How many records are passed over first.
    pub header_records: u32,
    /// One for each field of a record.
    pub columns: List<Column>,
    /// The member numbers of data leaves at which every amount stands.
    pub fixed: List<u32>,
}
