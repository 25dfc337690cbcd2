//! Laws of roots, for layers above that publish one after the other. Each is the contract of a function that does nothing.
ghost use Rattle.std.specs.Prelude.{◌≡◌, ◌+◌, ◌≤◌, ℕ, List, length};
ghost use Rattle.iq_root.specs.declared.root.Root.{Root};
ghost use Rattle.iq_root.specs.Roots.{newest};
ghost use Rattle.iq_root.specs.Publishing.{published, Follows, IsStale, SameRoots};
ghost use Rattle.iq_root.specs.Formatting.{empty_root, formatted};

/// Which root is the newest, and whether the slot of the next is stale, depends on blocks 0 to 3 alone.
pub fn roots_stand_on_four_blocks()
    ensures newest { (all now : List (List ℕ)) → SameRoots all now → newest now ≡ newest all }
    ensures stale { (all now : List (List ℕ)) (last root : Root) → SameRoots all now
        → IsStale all last root → IsStale now last root }
{}

/// Once a root is published, the body in the slot of the next one is stale: it is that of the root before.
pub fn a_published_root_leaves_the_next_slot_stale()
    ensures { (all : List (List ℕ)) (last root next : Root) → Follows all last root
        → next.generation ≡ root.generation + 1 → IsStale (published root all) root next }
{}

/// In an empty store the body in the slot of the next root is stale: its generation is 0.
pub fn an_empty_store_has_a_stale_slot()
    ensures { (count : ℕ) (all : List (List ℕ)) (next : Root) → 4 ≤ length all
        → next.generation ≡ 2 → IsStale (formatted count all) (empty_root 1 count) next }
{}
