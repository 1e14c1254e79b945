/// What a line of a script comes to, before anything is published.
#[derive(Debug, Drop)]
pub enum Verdict {
    /// It is refused, with this number and text.
    Refused {
        text: Vec<u8>,
    },
    /// It is answered by a grid of so many rows and columns, whose lines are the text.
    Grid {
        rows: u32,
        columns: u32,
        text: Vec<u8>,
    },
    /// The amount, in units of 1/10000, is to be added to the cell of these leaves: one leaf ordinal per base dimension,
    /// in outline order.
    Commit {
        key: Vec<u32>,
        amount: i128,
    },
}
