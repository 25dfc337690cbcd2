//! Names that a session gets, and names that its commit wrote, in the table of locks.
ghost use Rattle.std.specs.Prelude.{◌≡◌, ◌≤◌, ◌<◌, ◌+◌, ◌++◌, length, None, Some, OnOk, OnErr, IfErr};
ghost use Rattle.std.specs.Option.{option_copied};
ghost use Rattle.iq_base.specs.Locks.{catalog_name, table_locks};
ghost use Rattle.iq_locks.specs.Locked.{held_at, holding, lock_refusal, wanted};
ghost use Rattle.iq_replay.specs.State.{has_name};
ghost use Rattle.iq_sessions.specs.Table.{WritesAll};

use iq_base::{Locks, Name, Refusal};
use iq_locks::LockTable;

/// The name under which the list of tables is locked.
pub(crate) fn catalog() -> Name
    ensures { result ≡ catalog_name }
{
    Name::of("catalog").unwrap()
}

/// Whether a list has a name.
pub(crate) fn has_name(names: &[Name], name: &Name) -> bool
    ensures { result ≡ has_name names.now name.now }
{
    names.iter().any(|n| n == name)
}

/// A session gets the names that it doesn't hold, or nothing changes.
pub(crate) fn acquire(
    locks: &mut LockTable,
    names: &Locks,
    s: u32,
    snapshot: u64,
) -> Result<(), Refusal>
    requires session { s < length locks.old.held }
    requires few { length (held_at s locks.old.held) + length (wanted locks.old s names.now) ≤ 64 }
    ensures ok { OnOk result (locks.new ≡ holding s (held_at s locks.old.held ++ wanted locks.old s names.now) locks.old) }
    ensures granted { OnOk result (lock_refusal locks.old.held locks.old.wrote s snapshot (wanted locks.old s names.now) ≡ None) }
    ensures err { IfErr result (λ cause. lock_refusal locks.old.held locks.old.wrote s snapshot (wanted locks.old s names.now) ≡ Some cause) }
    ensures unchanged { OnErr result (locks.new ≡ locks.old) }
{
    match names.parts() {
        (false, None) => locks.acquire(&[], s, snapshot),
        (true, None) => locks.acquire(&[catalog()], s, snapshot),
        (false, Some(table)) => locks.acquire(&[table.again()], s, snapshot),
        (true, Some(table)) => locks.acquire(&[catalog(), table.again()], s, snapshot),
    }
}

/// A commit wrote the names that a session holds, and one that it created.
pub(crate) fn write_names(locks: &mut LockTable, s: u32, created: Option<&Name>, c: u64)
    requires session { s < length locks.old.held }
    requires room { length (held_at s locks.old.held ++ table_locks (option_copied created)) ≤ locks.old.room }
    ensures wrote { WritesAll (held_at s locks.old.held ++ table_locks (option_copied created.entry)) c locks.old.wrote locks.new.wrote }
    ensures held { locks.new.held ≡ locks.old.held }
    ensures room { locks.old.room ≤ locks.new.room + length (held_at s locks.old.held ++ table_locks (option_copied created.entry)) }
{
    write_held(locks, s, c);
    if let Some(name) = created {
        locks.wrote(name, c);
    }
}

/// A commit wrote the names that a session holds.
fn write_held(locks: &mut LockTable, s: u32, c: u64)
    requires session { s < length locks.old.held }
    requires room { length (held_at s locks.old.held) ≤ locks.old.room }
    ensures wrote { WritesAll (held_at s locks.old.held) c locks.old.wrote locks.new.wrote }
    ensures held { locks.new.held ≡ locks.old.held }
    ensures room { locks.old.room ≤ locks.new.room + length (held_at s locks.old.held) }
{
    let count = locks.held(s).len();
    for i in 0..count {
        let name = locks.held(s)[i].again();
        locks.wrote(&name, c);
    }
}
