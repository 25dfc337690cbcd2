//! Laws of opening, for layers above that keep what was opened. Each is the contract of a function that does nothing.
ghost use Rattle.std.specs.Prelude.{◌≡◌, ℕ, Bool, List, length, map, Ok};
ghost use Rattle.iq_descriptors.specs.Parts.{table_at};
ghost use Rattle.iq_descriptors.specs.Stored.{tables_behind};
ghost use Rattle.iq_opening.specs.Tables.{Format};
ghost use Rattle.iq_opening.specs.Steps.{tables_steps};
ghost use Rattle.iq_opening.specs.Walk.{walked};
ghost use Rattle.iq_opening.specs.Laws.{SameWhere, SameReach};

/// Lists of blocks that are the same where heads of descriptors reach have the same tables there, with the same pages in each object,
/// and reach the same.
pub fn tables_stand_on_what_they_reach()
    ensures { (all now : List (List ℕ)) (format : Format) (body : ℕ) (before heads : List ℕ)
        (first reached : List Bool) → length first ≡ length all
        → walked all first (tables_steps all format body before heads) ≡ Ok reached
        → SameWhere reached all now
        → SameReach format body before heads first reached all now }
{}

/// The tables that heads lead to, where no step is at fault, are those that are read by these heads, in order.
pub fn what_opens_is_read_by_its_heads()
    ensures { (all : List (List ℕ)) (format : Format) (body : ℕ) (before heads : List ℕ)
        (first reached : List Bool) → length first ≡ length all
        → walked all first (tables_steps all format body before heads) ≡ Ok reached
        → tables_behind all before heads ≡ Ok (map (table_at all) heads) }
{}
