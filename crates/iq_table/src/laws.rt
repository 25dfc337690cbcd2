//! What a table stands for, as laws: functions that do nothing, whose contract is the law.
ghost use Rattle.std.specs.Prelude.{◌≡◌, ◌<◌, ◌/◌, ◌*◌, ◌+◌, ℕ, List, Bool, Option};
ghost use Rattle.iq_base.specs.declared.values.Value.{Value};
ghost use Rattle.iq_base.specs.declared.descriptors.Descriptor.{Descriptor};
ghost use Rattle.iq_pages.specs.Pages.{Pages};
ghost use Rattle.iq_table.specs.Table.{TableStands, SameOwnObjects, SameObjectsAt};

/// Nothing: what a table stands for depends on the pages of its own objects alone, whose numbers divided by 256 are its place.
pub fn stands_by_its_own_objects()
    ensures { (told told' : ℕ → Option Pages) (place : ℕ) (parts : Descriptor) (rows : List (List Value)) (alive : List Bool) → SameOwnObjects place told told' → TableStands told place parts rows alive → TableStands told' place parts rows alive }
{}

/// Nothing: a table stands for the same rows at each place at which its objects have the same pages.
pub fn stands_at_another_place()
    ensures { (told told' : ℕ → Option Pages) (place place' : ℕ) (parts : Descriptor) (rows : List (List Value)) (alive : List Bool) → SameObjectsAt place told place' told' → TableStands told place parts rows alive → TableStands told' place' parts rows alive }
{}
