//! Publishing a root behind a closed gate.
ghost use Rattle.std.specs.Prelude.{◌≡◌, ◌⊎◌, ◌≤◌, ℕ, List, Some, length, OnOk, IfErr};
ghost use Rattle.iq_outside.specs.DeviceCalls.{KeepsPast, IsSettled};
ghost use Rattle.iq_root.specs.Roots.{newest};
ghost use Rattle.iq_root.specs.Stops.{SameButSlot, LeavesOnly, LeftButSlot};
ghost use Rattle.iq_root.specs.Publishing.{slot_of, published, Follows, HasLastOrNew, IsStale, IsGateWhole, RootsAreSafe};
ghost use Rattle.iq_root.specs.Causes.{HasFault};

use crate::pages::{body_page, gate_page};
use crate::steps::keep;
use crate::{Root, RootFault};
use iq_block_store::{BODY, GATE};
use iq_outside::Device;

/// Publishes a root in the slot of its generation: closes the gate, writes the body, opens the gate, and syncs after each. The
/// first sync also keeps what was written before, so that no gate opens on pages that a stop could lose. It takes no memory.
pub fn publish<D: Device>(disk: &mut D, root: &Root) -> Result<(), RootFault>
    requires { (all : List (List ℕ)) → D.blocks disk.old ≡ Some all → 4 ≤ length all }

    // At Ok the root is the newest, and a stop leaves it so.
    ensures ok { OnOk result ((all : List (List ℕ)) → D.blocks disk.old ≡ Some all
        → D.blocks disk.new ≡ Some (published root.now all)) }
    ensures newest { OnOk result ((all : List (List ℕ)) (last : _) → D.blocks disk.old ≡ Some all
        → Follows all last root.now → newest (published root.now all) ≡ Some root.now) }
    ensures settled { OnOk result (IsSettled D.Device disk.new) }

    // A stop at any moment leaves the last root or the new one, and so does an error.
    ensures any_moment { (all : List (List ℕ)) (last : _) → D.blocks disk.old ≡ Some all
        → Follows all last root.now → RootsAreSafe D.Device all last root.now disk.old disk.new
        → LeavesOnly D.Device disk.old disk.new (HasLastOrNew all last root.now) }
    ensures halted { (all after : List (List ℕ)) (last : _) → D.blocks disk.old ≡ Some all
        → Follows all last root.now → D.blocks disk.new ≡ Some after
        → IsStale all last root.now ⊎ IsGateWhole all root.now after
        → HasLastOrNew all last root.now after }

    // Blocks outside the slot stay.
    ensures others { (all : List (List ℕ)) → D.blocks disk.old ≡ Some all
        → (after : List (List ℕ)) × (D.blocks disk.new ≡ Some after)
        × SameButSlot (slot_of root.now) all after }
    ensures left { LeavesOnly D.Device disk.old disk.new
        (LeftButSlot D.Device (slot_of root.now) disk.old) }
    ensures past { KeepsPast D.Device disk.old disk.new }

    // An error has its cause.
    ensures cause { IfErr result (λ e. HasFault e (D.faults disk.old) (D.faults disk.new)) }
    ensures later { D.faults disk.old ≤ D.faults disk.new }
{
    let slot = (root.generation % 2) as u32;
    let body = body_page(root);
    keep(disk, 2 * slot + 1, GATE, &gate_page(0))?;
    keep(disk, 2 * slot, BODY, &body)?;
    keep(disk, 2 * slot + 1, GATE, &gate_page(root.generation))
}
