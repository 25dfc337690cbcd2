//! What commits reach and drop.
ghost use Rattle.std.specs.Prelude.{◌≡◌, ◌==◌, ◌+◌, ◌-◌, ◌<◌, ◌^◌, IfOk};
ghost use Rattle.iq_world.specs.Space.{reach_of, dropped, dropped_after};

use crate::lists::without;
use crate::worlds::Reach;
use iq_base::NoMemory;
use std::alloc::Global;

/// The blocks that a commit reaches, none where it isn't kept.
pub fn reach_of(kept: &[Reach], commit: u64) -> &[u32]
    ensures { result.now ≡ reach_of kept.now commit }
{
    for reach in kept {
        if reach.commit == commit {
            return reach.blocks.as_slice();
        }
    }
    &[]
}

/// The blocks dropped at a commit.
fn dropped(alloc: Global, kept: &[Reach], commit: u64) -> Result<Vec<u32>, NoMemory>
    requires { 0 < commit }
    ensures { IfOk result (λ v. v.items ≡ dropped kept.now commit) }
{
    without(alloc, reach_of(kept, commit - 1), reach_of(kept, commit))
}

/// The blocks dropped at the commits after one and up to another.
pub fn dropped_between(
    alloc: Global,
    kept: &[Reach],
    from: u64,
    to: u64,
) -> Result<Vec<u32>, NoMemory>
    ensures { IfOk result (λ v. v.items ≡ dropped_after kept.now from (to - from)) }
{
    let mut all = Vec::new(alloc);
    for commit in from..to {
        let more = dropped(alloc, kept, commit + 1)?;
        all.extend_from_slice(more.as_slice())?;
    }
    Ok(all)
}
