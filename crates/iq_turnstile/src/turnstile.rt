//! The turnstile, and the passes that take turns at it.
ghost use Rattle.std.specs.Prelude.{◌≡◌, ◌<◌};

use crate::rule::Turns;
use crate::shared::Shared;
use crate::view::{About, View};
use atomic_table::{Seat, Table};
use std::alloc::Global;

/// One state, which passes take turns at.
#[derive(Drop)]
pub struct Turnstile<S: Shared> {
    pub(crate) table: Table<Option<S>, View<S, S::Note>, About<S>, Turns, Global>,
    pub(crate) parts: u32,
    ghost words: { table.shared.table_id.words ≡ 2 },
    ghost slots: { table.shared.table_id.slots ≡ 1 },
    ghost all: { table.shared.key.parts ≡ parts },
    ghost some: { 0 < parts },
}

/// The right to take turns, with some of the parts of all such rights. It keeps no bytes of its note. A pass that is dropped
/// keeps its parts for ever, so that `close` can't give the state back.
#[derive(Drop)]
pub struct Pass<S: Shared> {
    pub(crate) seat: Seat<Option<S>, View<S, S::Note>>,
    pub(crate) parts: u32,
}

/// There was no memory. The value comes back.
#[derive(Drop)]
pub struct Kept<T> {
    pub value: T,
}

/// A pass is missing. The turnstile comes back with the passes that were handed in.
#[derive(Drop)]
pub struct Returned<S: Shared> {
    pub turnstile: Turnstile<S>,
    pub passes: Vec<Pass<S>>,
}
