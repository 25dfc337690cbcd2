//! Laws for layers above, which keep references and open objects beside one another. Each is the contract of a function that does
//! nothing. What a call took is `taken_of` the blocks that might be taken before it and after it, and it wrote no other (`HasPut`).
ghost use Rattle.iq_base.specs.declared.sizes.TheConstants.{MOST_PAGES};
ghost use Rattle.std.specs.Prelude.{◌≡◌, ◌≤◌, ◌++◌, ℕ, false, List, Ok};
ghost use Rattle.std.specs.List.{All};
ghost use Rattle.iq_base.specs.declared.refs.Ref.{Ref};
ghost use Rattle.iq_block_map.specs.Objects.{blocks_of, contents};
ghost use Rattle.iq_block_map.specs.Laws.{SameObject};
ghost use Rattle.iq_block_map.specs.Takers.{taken_of};
ghost use Rattle.iq_block_map.specs.Writing.{holds, SameBeside};
ghost use Rattle.iq_objects.specs.Open.{Held, Stands};

/// An object that reaches none of the blocks that may be taken, as an older version's, reads after any call as before, and still
/// reaches none of those that may be taken.
pub fn what_may_not_be_taken_stays()
    ensures same { (before after : List ℕ) (all now : List (List ℕ)) (object : Ref) (blocks : List ℕ)
        → before ≡ taken_of before after ++ after → SameBeside (taken_of before after) all now
        → object.pages ≤ MOST_PAGES → blocks_of all object ≡ Ok blocks
        → All (λ b. holds before b ≡ false) blocks → SameObject all now object }
    ensures apart { (before after : List ℕ) (blocks : List ℕ) → before ≡ taken_of before after ++ after
        → All (λ b. holds before b ≡ false) blocks → All (λ b. holds after b ≡ false) blocks }
{}

/// An opened object stands after any call on another, and its pages hold what they held.
pub fn an_opened_object_stands_beside_others()
    ensures stands { (before after : List ℕ) (o : Held) (all now : List (List ℕ))
        → before ≡ taken_of before after ++ after → SameBeside (taken_of before after) all now
        → Stands before o all → Stands after o now }
    ensures content { (before after : List ℕ) (o : Held) (all now : List (List ℕ))
        → before ≡ taken_of before after ++ after → SameBeside (taken_of before after) all now
        → Stands before o all → contents now (Ok o.pages) ≡ contents all (Ok o.pages) }
{}
