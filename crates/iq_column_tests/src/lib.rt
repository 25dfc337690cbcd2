//! Tests of the layers of columns, by their public calls alone: bitmaps beside plain lists of bits, and tables over pages in
//! memory.
#![tactic(auto)]

#[cfg(test)]
mod bad_pages;
#[cfg(test)]
mod bitmaps;
#[cfg(test)]
mod calls;
#[cfg(test)]
mod checks;
#[cfg(test)]
mod lists;
#[cfg(test)]
mod tables;
