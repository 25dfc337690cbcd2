//! What serves a test.

/// What the rows of a test are read from: one of the table's indexes, by its place from 0 in order of creation; the column's own
/// values (Fast Projection); or nothing, where no row can be true.
#[derive(Clone, Copy, Debug, PartialEq, Eq)]
pub enum Server {
    Index { place: u32 },
    Fp,
    Nothing,
}
