//! The floor of a node and the horizon of all.
ghost use Rattle.std.specs.Prelude.{◌≡◌};
ghost use Rattle.iq_floors.specs.Floors.{least, floor, horizon, IsLeast};

/// The least of a number and those of a list.
fn least(first: u64, others: &[u64]) -> u64
    ensures value { result ≡ least first others.now }
    ensures is_least { IsLeast result first others.now }
{
    let mut low = first;
    for other in others {
        low = low.min(*other);
    }
    low
}

/// A node's floor: the least of its position and the snapshots of its running transactions. It needs no commit before that.
/// It takes one step a snapshot.
pub fn floor(position: u64, snapshots: &[u64]) -> u64
    ensures value { result ≡ floor position snapshots.now }
    ensures is_least { IsLeast result position snapshots.now }
{
    least(position, snapshots)
}

/// The horizon: the least of the coordinator's floor and the taken floors of the other nodes that count. No node needs a commit
/// before it. It takes one step a node.
pub fn horizon(own: u64, taken: &[u64]) -> u64
    ensures value { result ≡ horizon own taken.now }
    ensures is_least { IsLeast result own taken.now }
{
    least(own, taken)
}
