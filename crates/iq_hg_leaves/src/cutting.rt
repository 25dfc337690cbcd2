//! Cutting entries into even parts.
ghost use Rattle.std.specs.Prelude.{◌≡◌, ◌<◌, ◌≤◌, ◌-◌};
ghost use Rattle.iq_hg_leaves.specs.Cuts.{IsCuttable};
ghost use Rattle.iq_hg_leaves.specs.Leaves.{half};

/// Into how many parts of at most q entries n are cut.
pub fn part_count(n: usize, q: usize) -> usize
    requires some { 0 < n }
    requires room { 0 < q }
    ensures cut { IsCuttable q result result n }
    ensures some { 0 < result }
{
    n.div_ceil(q)
}

/// How many entries the next of some parts gets, of the rest of the entries.
pub fn next_part(rest: usize, left: usize, q: usize, parts: usize) -> usize
    requires cuttable { IsCuttable q parts left rest }
    requires some { 0 < left }
    ensures most { result ≤ q }
    ensures some { 0 < result }
    ensures within { result ≤ rest }
    ensures least { 2 ≤ parts → half q ≤ result }
    ensures rest { IsCuttable q parts (left - 1) (rest - result) }
    ensures last { left ≡ 1 → result ≡ rest }
{
    rest / left
}
