//! What a stop leaves of a block.
ghost use Rattle.std.specs.Prelude.{◌≡◌, ◌≤◌, ◌++◌, length, drop};
ghost use Rattle.iq_outside.specs.Picks.{picked};

use crate::Block;

/// What a stop leaves of each block that was written since the last sync that succeeded.
#[derive(Clone, Copy, Debug, PartialEq, Eq)]
pub enum Pick {
    /// Its old bytes.
    Old,
    /// Its new bytes.
    New,
    /// The first 512 new, and the others old.
    Torn,
}

impl Pick {
    /// What this pick leaves of a block.
    pub fn of(self, now: &Block, old: &Block) -> Block
        ensures { result ≡ picked self now.now old.now }
    {
        match self {
            Pick::Old => *old,
            Pick::New => *now,
            Pick::Torn => {
                let mut torn = *old;
                put_front(now.split_at(512).0, &mut torn);
                torn
            }
        }
    }
}

/// Writes over the front of some bytes.
fn put_front(front: &[u8], bytes: &mut [u8])
    requires { length front.now ≤ length bytes.old }
    ensures { bytes.new ≡ front.now ++ drop (length front.now) bytes.old }
{
    bytes[..front.len()].copy_from_slice(front);
}
