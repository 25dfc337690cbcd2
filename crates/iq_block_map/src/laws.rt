//! Laws of objects, for layers above that keep references. Each is the contract of a function that does nothing.
ghost use Rattle.iq_base.specs.declared.sizes.TheConstants.{MOST_PAGES};
ghost use Rattle.std.specs.Prelude.{◌≡◌, ◌+◌, ◌≤◌, ◌<◌, ◌++◌, ℕ, true, false, List, Ok, Some, length, slice_index};
ghost use Rattle.std.specs.List.{All};
ghost use Rattle.iq_base.specs.declared.refs.Ref.{Ref};
ghost use Rattle.iq_block_map.specs.Objects.{top_of, leaves_of, blocks_of, addresses_of, address_of, contents};
ghost use Rattle.iq_outside.specs.Devices.{block_of};
ghost use Rattle.iq_block_map.specs.Maps.{is_address};
ghost use Rattle.iq_block_map.specs.Writing.{holds};
ghost use Rattle.iq_block_map.specs.Editing.{AreApart, edited, new_blocks, fresh};
ghost use Rattle.iq_block_map.specs.Laws.{SameOn, SameObject, ReachesParts, rewritten, times};

/// Lists of blocks that are the same where an object reaches have the same object: its maps, its blocks and its pages.
pub fn an_object_stands_on_what_it_reaches()
    ensures { (all now : List (List ℕ)) (object : Ref) (blocks : List ℕ) → object.pages ≤ MOST_PAGES
        → blocks_of all object ≡ Ok blocks → SameOn blocks all now → SameObject all now object }
{}

/// The block of a page is the one in its place in the list of an object's pages.
pub fn a_page_is_where_the_list_says()
    ensures { (all : List (List ℕ)) (object : Ref) (xs : List ℕ) (n : ℕ) → object.pages ≤ MOST_PAGES
        → addresses_of all object ≡ Ok xs → n < object.pages → address_of all object n ≡ Ok (slice_index xs n) }
{}

/// Blocks that aren't among those that an object reaches are apart from it.
pub fn what_is_not_reached_is_apart()
    ensures { (all : List (List ℕ)) (object : Ref) (blocks left : List ℕ) → object.pages ≤ MOST_PAGES
        → blocks_of all object ≡ Ok blocks → All (λ b. holds left b ≡ false) blocks → AreApart all object left }
{}

/// The pages in a list of blocks stay where these blocks stay.
pub fn pages_stand_on_their_blocks()
    ensures { (all now : List (List ℕ)) (xs : List ℕ)
        → All (λ b. block_of now b ≡ block_of all b) xs → contents now (Ok xs) ≡ contents all (Ok xs) }
{}

/// Where the blocks of an object's pages are edited, its pages are those with the pages in the new blocks. So one who wrote pages
/// into blocks of their own, and then makes the maps by one `remap`, knows the pages of the new object.
pub fn pages_change_with_their_blocks()
    ensures { (all : List (List ℕ)) (xs added : List ℕ) (changed : List (ℕ × ℕ))
        (ps pages more : List (List ℕ)) → contents all (Ok xs) ≡ Some ps
        → contents all (Ok (new_blocks changed)) ≡ Some pages
        → contents all (Ok added) ≡ Some more
        → contents all (Ok (edited xs changed added)) ≡ Some (rewritten ps changed pages ++ more) }
{}

/// What an object reaches is its topmost map, where it has more than one, its leaves, and its pages.
pub fn an_object_reaches_its_maps_and_pages()
    ensures { (all : List (List ℕ)) (object : Ref) (ls xs : List ℕ) → leaves_of all object ≡ Ok ls
        → addresses_of all object ≡ Ok xs → ReachesParts all object ls xs }
{}

/// Of two lists of blocks, each with its fresh ones of the other: what is lost is what is fresh the other way round. So the maps
/// that are dropped by a remap are the fresh ones of the old object beside the new one.
pub fn what_is_fresh_replaces_what_is_lost()
    ensures { (old new : List ℕ) (b : ℕ) → All (λ x. 1 ≤ x) old → All (λ x. 1 ≤ x) new
        → times b new + times b (fresh new old) ≡ times b old + times b (fresh old new) }
{}

/// The leaves and pages of an object are blocks behind the roots.
pub fn objects_are_behind_the_roots()
    ensures leaves { (all : List (List ℕ)) (object : Ref) (ls : List ℕ)
        → (1 ≤ object.pages → 4 ≤ object.root) → leaves_of all object ≡ Ok ls → All (λ b. 4 ≤ b) ls }
    ensures pages { (all : List (List ℕ)) (object : Ref) (xs : List ℕ)
        → addresses_of all object ≡ Ok xs → All (λ b. is_address (length all) b ≡ true) xs }
{}
