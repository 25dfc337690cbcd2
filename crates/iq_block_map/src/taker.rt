//! Where blocks to write in come from.
ghost use Rattle.std.specs.Prelude.{ℕ, List};
ghost use Rattle.iq_block_map.specs.Takers.{Takes};

/// Gives blocks that may be written.
pub trait Taker {
    /// The blocks that may yet come, in the order in which they do.
    ghost left: { Self → List ℕ };

    /// The next block, or none where none is left.
    fn take(&mut self) -> Option<u32>
        ensures { Takes result (left self.old) (left self.new) };
}
