//! The columns that a query answers, by their places.
ghost use Rattle.std.specs.Prelude.{◌≡◌, ◌≢◌, ◌<◌, ◌⊎◌, ℕ, length, slice_index, None, Some, [], ◌∷◌, IfOk, OnOk, IfErr};
ghost use Rattle.std.specs.List.{AllByRecursion, filter_map};
ghost use Rattle.iq_history.specs.Placed.{IsPlacedRefusal};
ghost use Rattle.iq_statements.specs.Checks.{first_found};
ghost use Rattle.iq_statements.specs.Named.{item_column, no_column};
ghost use Rattle.iq_query.specs.Simple.{IsColumnItem, IsSimpleList};
ghost use Rattle.iq_query.specs.Calls.{item_place, places_of, AreWithin};

use iq_ast::Item;
use iq_base::{Column, NoMemory, Refusal};
use iq_database::column_place;
use std::alloc::Global;

/// The places of the columns that a query answers: all for `*`, none for the number of rows; or the first name that is no column.
pub(crate) fn places(
    alloc: Global,
    columns: &[Column],
    items: &[Item],
) -> Result<Vec<usize>, Refusal>
    requires { IsSimpleList items.now }
    ensures places { IfOk result (λ places. places.items ≡ places_of columns.now items.now) }
    ensures within { IfOk result (λ places. AreWithin (length columns.now) places.items) }
    ensures granted { OnOk result (first_found (no_column columns.now) (filter_map item_column items.now) ≡ None) }
    ensures placed { IfErr result (λ e. (n : ℕ) → IsPlacedRefusal n e) }
    ensures cause { IfErr result (λ e. (e ≡ Refusal.NoMemory) ⊎ (first_found (no_column columns.now) (filter_map item_column items.now) ≡ Some e)) }
{
    if items.is_empty() {
        return Ok(all_places(alloc, columns)?);
    }
    match items {
        [Item::CountAll] => Ok(Vec::new(alloc)),
        _ => named_places(alloc, columns, items),
    }
}

/// The places of all columns, by their names.
fn all_places(alloc: Global, columns: &[Column]) -> Result<Vec<usize>, NoMemory>
    ensures places { IfOk result (λ places. places.items ≡ places_of columns.now []) }
    ensures within { IfOk result (λ places. AreWithin (length columns.now) places.items) }
{
    let mut places = Vec::new(alloc);
    for column in columns {
        if let Some(place) = column_place(columns, &column.name) {
            places.push(place)?;
        }
    }
    Ok(places)
}

/// The places of the columns that the members of a list name, or the first name that is no column.
fn named_places(alloc: Global, columns: &[Column], items: &[Item]) -> Result<Vec<usize>, Refusal>
    requires { AllByRecursion IsColumnItem items.now }
    ensures places { IfOk result (λ places. places.items ≡ filter_map (item_place columns.now) items.now) }
    ensures within { IfOk result (λ places. AreWithin (length columns.now) places.items) }
    ensures granted { OnOk result (first_found (no_column columns.now) (filter_map item_column items.now) ≡ None) }
    ensures placed { IfErr result (λ e. (n : ℕ) → IsPlacedRefusal n e) }
    ensures cause { IfErr result (λ e. (e ≡ Refusal.NoMemory) ⊎ (first_found (no_column columns.now) (filter_map item_column items.now) ≡ Some e)) }
{
    let mut places = Vec::new(alloc);
    for item in items {
        places.push(place_in(columns, item)?)?;
    }
    Ok(places)
}

/// The place of the column that a member names.
fn place_in(columns: &[Column], item: &Item) -> Result<usize, Refusal>
    requires { IsColumnItem item.now }
    ensures place { IfOk result (λ place. item_place columns.now item.now ≡ Some place) }
    ensures within { IfOk result (λ place. place < length columns.now) }
    ensures placed { IfErr result (λ e. (n : ℕ) → IsPlacedRefusal n e) }
    ensures cause { IfErr result (λ e. first_found (no_column columns.now) (filter_map item_column (item.now ∷ [])) ≡ Some e) }
{
    match item {
        Item::Plain(name) => match column_place(columns, name) {
            None => Err(Refusal::NoColumn { name: name.again() }),
            Some(place) => Ok(place),
        },
        Item::CountAll | Item::Count(_) | Item::Sum(_) | Item::Min(_) | Item::Max(_) => {
            unreachable!()
        }
    }
}
