//! The table of locks.
ghost use Rattle.std.specs.Prelude.{◌≡◌, ◌≢◌, ◌≤◌, ◌<◌, ◌+◌, ◌++◌, ◌⊎◌, [], Bool, length, take, filter, find, not, IfOk, OnOk, OnErr, IfErr, IfSome, None, Some};
ghost use Rattle.std.specs.Option.{option_copied};
ghost use Rattle.iq_locks.specs.Locked.{Written, same_name, has_name, not_held, held_at, holder_from, latest_of, with_latest, locked_refusal, later_refusal, first_of, lock_refusal, wanted, holding, IsUnlocked, Writes};
ghost use Rattle.iq_roomed.specs.Rooms.{Becomes};

use iq_base::{Name, NoMemory, Refusal};
use iq_roomed::Roomed;
use std::alloc::Global;
use std::marker::Model;

/// How many names a session can hold.
pub const MOST_HELD: usize = 64;

/// A name, and the commit that last wrote it.
#[derive(Debug, Drop)]
struct LatestCommit {
    name: Name,
    commit: u64,
}

impl Model for LatestCommit {
    ghost use Rattle.iq_locks.specs.Locked.{Written};

    ghost Value = { Written };

    ghost view = { λ it. record { name = it.name; commit = it.commit } };
}

/// The names that sessions hold, with room for 64 of each, and the commit that last wrote each name.
#[derive(Debug, Drop)]
pub struct LockTable {
    held: Vec<Roomed<Name>>,
    wrote: Roomed<LatestCommit>,
}

impl Model for LockTable {
    ghost use Rattle.std.specs.Prelude.{◌≤◌, ◌<◌, ◌+◌, ◌^◌, length, map, All};
    ghost use Rattle.iq_base.specs.Shorts.{Name};
    ghost use Rattle.iq_roomed.specs.Rooms.{Room};
    ghost use Rattle.iq_locks.specs.Locked.{LockState};

    ghost Value = { LockState };

    ghost view = { λ t. record {
      held = map (λ (r : Room Name). r.items) t.held.items;
      wrote = t.wrote.items;
      room = t.wrote.room;
    } };

    ghost invariant = { λ t. All (λ (r : Room Name). 64 ≤ length r.items + r.room) t.held.items × (length t.held.items < 2 ^ 32) };
}

impl LockTable {
    /// A table of so many sessions, none of which holds a name. It takes the room for all names that they will hold.
    pub fn unlocked(alloc: Global, sessions: u32) -> Result<LockTable, NoMemory>
        ensures { IfOk result (λ t. IsUnlocked sessions t) }
    {
        let mut held = Vec::with_capacity(alloc, sessions as usize)?;
        for _ in 0..sessions {
            held.push(Roomed::with_room(alloc, MOST_HELD)?)?;
        }
        Ok(LockTable {
            held,
            wrote: Roomed::new(alloc),
        })
    }

    /// How many sessions there are.
    pub fn sessions(&self) -> u32
        ensures { result ≡ length self.now.held }
    {
        self.held.len() as u32
    }

    /// How many more names can be written without memory.
    pub fn room(&self) -> usize
        ensures { result ≡ self.now.room }
    {
        self.wrote.room()
    }

    /// The names that a session holds, in the order in which it got them.
    pub fn held(&self, s: u32) -> &[Name]
        requires { s < length self.now.held }
        ensures { result.now ≡ held_at s self.now.held }
    {
        self.held[s as usize].as_slice()
    }

    /// The commit that last wrote a name, 0 where none did. It looks at each name that was written.
    pub fn latest(&self, name: &Name) -> u64
        ensures { result ≡ latest_of name.now self.now.wrote }
    {
        match row_of(self.wrote.as_slice(), name) {
            None => 0,
            Some(row) => row.commit,
        }
    }

    /// What refuses names to a session: the first of them that another session holds, and only where there is none the first that
    /// was written past the snapshot. Names that it holds already aren't refused.
    pub fn refusal(&self, names: &[Name], s: u32, snapshot: u64) -> Option<Refusal>
        requires { s < length self.now.held }
        ensures { result ≡ lock_refusal self.now.held self.now.wrote s snapshot (wanted self.now s names.now) }
    {
        match self.locked_refusal(names, s) {
            Some(refusal) => Some(refusal),
            None => self.later_refusal(names, s, snapshot),
        }
    }

    /// The first name that another session holds.
    fn locked_refusal(&self, names: &[Name], s: u32) -> Option<Refusal>
        requires { s < length self.now.held }
        ensures { result ≡ first_of (locked_refusal self.now.held s) (wanted self.now s names.now) }
    {
        for name in names {
            if has_name(self.held(s), name) {
                continue;
            }
            if let Some(session) = self.holder(name, s) {
                return Some(Refusal::Locked {
                    table: name.again(),
                    session,
                });
            }
        }
        None
    }

    /// The first name that was written past the snapshot.
    fn later_refusal(&self, names: &[Name], s: u32, snapshot: u64) -> Option<Refusal>
        requires { s < length self.now.held }
        ensures { result ≡ first_of (later_refusal self.now.wrote snapshot) (wanted self.now s names.now) }
    {
        for name in names {
            if has_name(self.held(s), name) {
                continue;
            }
            let commit = self.latest(name);
            if snapshot < commit {
                return Some(Refusal::Later {
                    table: name.again(),
                    commit,
                });
            }
        }
        None
    }

    /// The first session but the one that asks that holds a name.
    fn holder(&self, name: &Name, asks: u32) -> Option<u32>
        ensures { result ≡ holder_from 0 self.now.held asks name.now }
    {
        for (place, names) in self.held.iter().enumerate() {
            let place = place as u32;
            if place == asks {
                continue;
            }
            if has_name(names.as_slice(), name) {
                return Some(place);
            }
        }
        None
    }

    /// A session gets the names that it doesn't hold, behind those that it holds; or nothing changes. It takes no memory.
    pub fn acquire(&mut self, names: &[Name], s: u32, snapshot: u64) -> Result<(), Refusal>
        requires session { s < length self.old.held }
        requires few { length (held_at s self.old.held) + length (wanted self.old s names.now) ≤ 64 }
        ensures ok { OnOk result (self.new ≡ holding s (held_at s self.old.held ++ wanted self.old s names.now) self.old) }
        ensures granted { OnOk result (lock_refusal self.old.held self.old.wrote s snapshot (wanted self.old s names.now) ≡ None) }
        ensures err { IfErr result (λ cause. lock_refusal self.old.held self.old.wrote s snapshot (wanted self.old s names.now) ≡ Some cause) }
        ensures unchanged { OnErr result (self.new ≡ self.old) }
    {
        if let Some(refusal) = self.refusal(names, s, snapshot) {
            return Err(refusal);
        }
        hold(&mut self.held[s as usize], names);
        Ok(())
    }

    /// A session keeps the first `n` names that it holds, and gives back the others. It takes no memory.
    pub fn keep(&mut self, s: u32, n: usize)
        requires { s < length self.old.held }
        ensures { self.new ≡ holding s (take n (held_at s self.old.held)) self.old }
    {
        self.held[s as usize].truncate(n);
    }

    /// A session gives back all names that it holds. It takes no memory.
    pub fn drop_all(&mut self, s: u32)
        requires { s < length self.old.held }
        ensures { self.new ≡ holding s [] self.old }
    {
        self.keep(s, 0);
    }

    /// Makes room for `n` names more whose latest commit is written. Nothing that contracts see but the room changes.
    pub fn name_room(&mut self, n: usize) -> Result<(), NoMemory>
        ensures ok { OnOk result (n ≤ self.new.room) }
        ensures held { self.new.held ≡ self.old.held }
        ensures wrote { self.new.wrote ≡ self.old.wrote }
        ensures room { self.old.room ≤ self.new.room }
        ensures err { OnErr result (self.new ≡ self.old) }
    {
        self.wrote.reserve(n)
    }

    /// A commit is the last that wrote a name. It takes no memory: a name that no commit wrote before takes a place of the room.
    pub fn wrote(&mut self, name: &Name, commit: u64)
        requires { 0 < self.old.room }
        ensures written { Writes name.now commit self.old self.new }
        ensures room { self.old.room ≤ self.new.room + 1 }
    {
        put_latest(
            &mut self.wrote,
            LatestCommit {
                name: name.again(),
                commit,
            },
        );
    }
}

/// Puts a row in place of the one of its name, or behind all rows.
fn put_latest(wrote: &mut Roomed<LatestCommit>, row: LatestCommit)
    requires { 0 < wrote.old.room }
    ensures { Becomes wrote.old (with_latest row.name row.commit wrote.old.items) wrote.new }
{
    for at in 0..wrote.len() {
        let other = &wrote.as_slice()[at];
        if other.name == row.name {
            wrote.set(at, row);
            return;
        }
    }
    wrote.push(row);
}

/// Whether a list has a name.
fn has_name(names: &[Name], name: &Name) -> bool
    ensures { result ≡ has_name names.now name.now }
{
    names.iter().any(|n| n == name)
}

/// Puts the names that a list hasn't at its end.
fn hold(held: &mut Roomed<Name>, names: &[Name])
    requires { length (not_held held.old.items names.now) ≤ held.old.room }
    ensures { Becomes held.old (held.old.items ++ not_held held.old.items names.now) held.new }
{
    let before = held.len();
    for name in names {
        let (old, _) = held.as_slice().split_at(before);
        if !has_name(old, name) {
            held.push(name.again());
        }
    }
}

/// The row of a name, if it has one.
fn row_of<'a>(wrote: &'a [LatestCommit], name: &Name) -> Option<&'a LatestCommit>
    ensures { option_copied result ≡ find (λ (row : Written). same_name row.name name.now) wrote.now }
{
    wrote.iter().find(|row| &row.name == name)
}
