//! Tests of the Low Fast index over pages in memory, by its public calls: rows that come in pieces beside plain lists, the limit of
//! distinct values, borders of chunks, pages that lack or name none.
#![tactic(auto)]

#[cfg(test)]
mod hostile;
#[cfg(test)]
mod rows;
#[cfg(test)]
mod sides;
