//! A list with room that was made before.
ghost use Rattle.std.specs.Prelude.{◌≡◌, ◌≤◌, ◌<◌, ◌+◌, ◌↔◌, [], ◌∷◌, ◌++◌, length, take, drop, slice_set, IsTrue, IfOk, OnOk, OnErr};
ghost use Rattle.iq_roomed.specs.Rooms.{Becomes};

use iq_base::NoMemory;
use std::alloc::Global;
use std::marker::Model;

/// A list, and how many more items can be put without memory.
#[derive(Debug, Drop)]
pub struct Roomed<T> {
    items: Vec<T>,
}

impl<T> Model for Roomed<T> {
    ghost use Rattle.std.specs.Prelude.{◌-◌, vec_len};
    ghost use Rattle.std.specs.Vec.{vec_capacity};
    ghost use Rattle.iq_roomed.specs.Rooms.{Room, room_code};

    ghost Value = { Room T };

    ghost coded = { room_code T.code };

    ghost view = { λ r. record { items = r.items.items; room = vec_capacity r.items - vec_len r.items } };
}

impl<T> Roomed<T> {
    /// No item, and no room. It takes no memory.
    pub fn new(alloc: Global) -> Roomed<T>
        ensures { result.items ≡ [] }
    {
        Roomed {
            items: Vec::new(alloc),
        }
    }

    /// No item, and room for so many.
    pub fn with_room(alloc: Global, n: usize) -> Result<Roomed<T>, NoMemory>
        ensures empty { IfOk result (λ r. r.items ≡ []) }
        ensures room { IfOk result (λ r. n ≤ r.room) }
    {
        Ok(Roomed {
            items: Vec::with_capacity(alloc, n)?,
        })
    }

    /// The items in order.
    pub fn as_slice(&self) -> &[T]
        ensures { result.now ≡ self.now.items }
    {
        self.items.as_slice()
    }

    /// How many items there are.
    pub fn len(&self) -> usize
        ensures { result ≡ length self.now.items }
    {
        self.items.len()
    }

    /// Whether there is no item.
    pub fn is_empty(&self) -> bool
        ensures { IsTrue result ↔ (self.now.items ≡ []) }
    {
        self.items.is_empty()
    }

    /// How many more items can be put without memory.
    pub fn room(&self) -> usize
        ensures { result ≡ self.now.room }
    {
        self.items.capacity() - self.items.len()
    }

    /// Makes room for `n` items more. The list is as before where memory is wanting, which is so only where the room is too small.
    pub fn reserve(&mut self, n: usize) -> Result<(), NoMemory>
        ensures ok { OnOk result (n ≤ self.new.room) }
        ensures same { Becomes self.old self.old.items self.new }
        ensures err { OnErr result (self.new ≡ self.old) }
        ensures cause { OnErr result (self.old.room < n) }
    {
        self.items.reserve(n)?;
        Ok(())
    }
}

impl<T: Drop> Roomed<T> {
    /// Puts an item at the end, into room that was made before. It takes no memory.
    pub fn push(&mut self, item: T)
        requires { 0 < self.old.room }
        ensures { Becomes self.old (self.old.items ++ item ∷ []) self.new }
    {
        self.items.push(item).unwrap();
    }

    /// Keeps the first `n` items. It takes no memory.
    pub fn truncate(&mut self, n: usize)
        ensures { Becomes self.old (take n self.old.items) self.new }
    {
        self.items.truncate(n);
    }

    /// Leaves out the first `n` items. It takes no memory, and moves the others.
    pub fn drop_front(&mut self, n: usize)
        requires { n ≤ length self.old.items }
        ensures { Becomes self.old (drop n self.old.items) self.new }
    {
        let left = self.items.len() - n;
        self.items.rotate_left(n);
        self.items.truncate(left);
    }

    /// Puts an item in place of the one at a place.
    pub fn set(&mut self, at: usize, item: T)
        requires { at < length self.old.items }
        ensures { Becomes self.old (slice_set self.old.items at item) self.new }
    {
        self.items[at] = item;
    }
}
