//! Laws of descriptors, for layers above that keep heads. Each is the contract of a function that does nothing.
ghost use Rattle.std.specs.Prelude.{◌≡◌, ℕ, List};
ghost use Rattle.iq_base.specs.declared.descriptors.Descriptor.{Descriptor};
ghost use Rattle.iq_catalog.specs.Storable.{IsStorable};
ghost use Rattle.iq_block_map.specs.Laws.{SameOn};
ghost use Rattle.iq_block_map.specs.Writing.{SameBeside};
ghost use Rattle.iq_descriptors.specs.Parts.{table_at};
ghost use Rattle.iq_descriptors.specs.Stored.{Describes};
ghost use Rattle.iq_descriptors.specs.Laws.{KeepsDescriptors, KeepsObjects};

/// Lists of blocks that are the same where a descriptor stands have the same descriptor there.
pub fn a_descriptor_stands_on_its_blocks()
    ensures { (all now : List (List ℕ)) (head : ℕ) (table : Descriptor) (blocks : List ℕ)
        → Describes all head table blocks → SameOn blocks all now → Describes now head table blocks }
{}

/// A call that writes in some places alone leaves each descriptor and each object of pages that has no block there.
pub fn what_is_apart_stays()
    ensures descriptors { (places : List ℕ) (all now : List (List ℕ)) → SameBeside places all now
        → KeepsDescriptors places all now }
    ensures objects { (places : List ℕ) (all now : List (List ℕ)) → SameBeside places all now
        → KeepsObjects places all now }
{}

/// A descriptor is what its blocks say, and may be stored.
pub fn a_descriptor_is_what_its_blocks_say()
    ensures said { (all : List (List ℕ)) (head : ℕ) (table : Descriptor) (blocks : List ℕ)
        → Describes all head table blocks → table ≡ table_at all head }
    ensures storable { (all : List (List ℕ)) (head : ℕ) (table : Descriptor) (blocks : List ℕ)
        → Describes all head table blocks → IsStorable table }
{}
