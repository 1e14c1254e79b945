/// How the amounts of one key are combined.
#[derive(Clone, Copy, Debug, PartialEq, Eq)]
pub enum Kind {
    /// By their sum.
    Sum,
    /// By the last of them.
    Last,
}
