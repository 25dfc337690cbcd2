//! What names an object of pages in a store.
ghost use Rattle.std.specs.Prelude.{◌≡◌};

/// An object of pages: the block of its topmost map, and how many pages it has. Without pages the root is 0.
#[derive(Clone, Copy, Debug, PartialEq, Eq)]
pub struct Ref {
    pub root: u32,
    pub pages: u32,
}
