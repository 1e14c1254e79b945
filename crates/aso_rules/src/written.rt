use aso_num::{List, Text};

/// A column as a rules file has it, before an outline is asked.
#[derive(Debug, Drop)]
pub enum WrittenColumn {
    Ignored,
    Dimension {
        name: Text,
        prefix: Text,
        suffix: Text,
        replace: List<(Text, Text)>,
    },
    Amounts {
        names: List<Text>,
    },
}
