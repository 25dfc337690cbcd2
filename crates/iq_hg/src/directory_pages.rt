//! Pages of the directory.
//!
//! | bytes of a page | meaning |
//! |---|---|
//! | 0 to 3 | how many leaves it names |
//! | 4 on | for each leaf the cell and the row of its first entry, and its page |
//! | then | zero |
ghost use Rattle.std.specs.Prelude.{◌≡◌, ◌≢◌, ◌≤◌, ◌+◌, List, length, take, drop, IfOk, IfSome, IfNone};
ghost use Rattle.iq_base.specs.Cells.{width};
ghost use Rattle.iq_hg.specs.declared.places.Place.{Place};
ghost use Rattle.iq_hg.specs.Places.{IsPlace, BeginsAsPlaces, place_bytes};

use crate::places::Place;
use iq_base::{Kind, NoMemory, Page, width};
use iq_hg_leaves::{number_at, read_entry};
use std::alloc::Global;

/// Reads a place, where the bytes are one.
pub(crate) fn read_place(kind: Kind, page: &Page, at: usize) -> Option<Place>
    requires { at + (width kind + 8) ≤ 1008 }
    ensures place { IfSome result (λ place. IsPlace kind place) }
    ensures bytes { IfSome result (λ place. take (width kind + 8) (drop at page.now) ≡ place_bytes kind place) }
    ensures bad { IfNone result ((place : Place) → IsPlace kind place → take (width kind + 8) (drop at page.now) ≢ place_bytes kind place) }
{
    let cell = width(kind);
    let page_number = number_at(page, at + (cell + 4));
    match read_entry(kind, page, at) {
        Some(first) => Some(Place {
            first,
            page: page_number,
        }),
        None => None,
    }
}

/// Reads the places of a page of the directory, or answers nothing where it doesn't begin as one. The bytes behind the places may be any.
pub(crate) fn read_places(
    alloc: Global,
    kind: Kind,
    page: &Page,
) -> Result<Option<Vec<Place>>, NoMemory>
    ensures places { IfOk result (λ read. IfSome read (λ places. BeginsAsPlaces kind page.now places.items)) }
    ensures bad { IfOk result (λ read. IfNone read ((places : List Place) → ¬ (BeginsAsPlaces kind page.now places))) }
{
    let count = number_at(page, 0) as usize;
    let wide = width(kind) + 8;
    if count > 1004 / wide {
        return Ok(None);
    }
    let mut places = Vec::with_capacity(alloc, count)?;
    for i in 0..count {
        match read_place(kind, page, 4 + i * wide) {
            Some(place) => places.push(place)?,
            None => return Ok(None),
        }
    }
    Ok(Some(places))
}
