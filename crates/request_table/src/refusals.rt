//! Why no request begins.

/// Why no request begins, in the order in which the causes are tested. Own rule.
#[derive(Clone, Copy, Debug, PartialEq, Eq)]
pub enum BeginRefused {
    /// The file's number isn't below the table's number of files.
    UnknownFile,
    /// The table was closed.
    Closed,
    /// The file was closed.
    FileClosed,
    /// Each number is spent.
    AllSpent,
    /// No number is free: each one that isn't spent is under way.
    AllUnderWay,
}
