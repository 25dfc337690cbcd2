//! Tests of columns of cells, of rows, of codes and of numberings, by the public calls of `iq_cells` and `iq_numbering`.
#![tactic(auto)]

#[cfg(test)]
mod checks;
#[cfg(test)]
mod columns;
#[cfg(test)]
mod fields;
#[cfg(test)]
mod made;
#[cfg(test)]
mod numbers;
#[cfg(test)]
mod rows;
