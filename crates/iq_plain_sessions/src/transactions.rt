//! Transactions: what they see, what they hold, and their savepoints.
ghost use Rattle.std.specs.Prelude.{◌≡◌, ◌∷◌, ◌++◌, ◌≤◌, [], IfOk, OnOk, is_some, length, drop};
ghost use Rattle.iq_base.specs.Locks.{catalog_name};
ghost use Rattle.iq_conditions.specs.Servers.{same_name};
ghost use Rattle.iq_statements.specs.Statements.{HasMeaning};
ghost use Rattle.iq_plain_tables.specs.Plain.{HasFewParts};
ghost use Rattle.iq_replay.specs.State.{has_some};
ghost use Rattle.iq_replay.specs.Refusals.{save_named};
ghost use Rattle.iq_replay.specs.Changes.{begin_work, begin_run, holds_more, work_after, saves_as, saves_from, back_to, release_to, sees, seen_at};

use iq_ast::{Statement, Write};
use iq_base::{Listed, Locks, Name, NoMemory};
use iq_plain_tables::{PlainTable, PlainTables, copied_tables, tables_after};
use std::alloc::Global;
use std::marker::Model;

/// A savepoint, and the tables as they were.
#[derive(Debug, Drop)]
pub struct PlainSave {
    name: Name,
    seen: PlainTables,
}

impl Model for PlainSave {
    ghost use Rattle.iq_replay.specs.State.{Save};

    ghost Value = { Save };

    ghost view = { λ it. record { name = it.name; seen = it.seen } };
}

/// The tables as a transaction sees them, the names that it holds, and the names that it created.
#[derive(Debug, Drop)]
pub struct PlainWork {
    seen: PlainTables,
    held: Listed<Name>,
    created: Listed<Name>,
}

impl Model for PlainWork {
    ghost use Rattle.iq_replay.specs.State.{Work};

    ghost Value = { Work };

    ghost view = { λ it. record { seen = it.seen; held = it.held; created = it.created } };
}

impl PlainSave {
    /// Whether this is its name.
    pub fn is_named(&self, name: &Name) -> bool
        ensures { result ≡ same_name self.now.name name.now }
    {
        self.name == *name
    }
}

impl PlainWork {
    /// The work of a transaction that begins.
    pub fn begun(alloc: Global, tables: &[PlainTable]) -> Result<PlainWork, NoMemory>
        ensures { IfOk result (λ work. work ≡ begin_work tables.now) }
    {
        Ok(PlainWork {
            seen: copied_tables(alloc, tables)?,
            held: Listed::new(alloc),
            created: Listed::new(alloc),
        })
    }

    /// The same work once more.
    pub fn copied(&self, alloc: Global) -> Result<PlainWork, NoMemory>
        ensures { IfOk result (λ copy. copy ≡ self.now) }
    {
        Ok(PlainWork {
            seen: copied_tables(alloc, self.seen.as_slice())?,
            held: copied_names(alloc, self.held.as_slice())?,
            created: copied_names(alloc, self.created.as_slice())?,
        })
    }

    /// The tables as they are seen.
    pub fn seen(&self) -> &[PlainTable]
        ensures { result.now ≡ self.now.seen }
    {
        self.seen.as_slice()
    }

    /// The names that are held.
    pub fn held(&self) -> &[Name]
        ensures { result.now ≡ self.now.held }
    {
        self.held.as_slice()
    }

    /// The names that were created.
    pub fn created(&self) -> &[Name]
        ensures { result.now ≡ self.now.created }
    {
        self.created.as_slice()
    }

    /// What a statement leaves.
    fn after(&self, alloc: Global, statement: &Statement) -> Result<PlainWork, NoMemory>
        requires meaning { HasMeaning statement.now }
        requires few { HasFewParts statement.now }
        ensures { IfOk result (λ after. after ≡ work_after statement.now self.now) }
    {
        let mut created = copied_names(alloc, self.created.as_slice())?;
        if let Statement::Write(Write::CreateTable { name, .. }) = statement {
            created.push(name.again())?;
        }
        Ok(PlainWork {
            seen: tables_after(alloc, statement, self.seen.as_slice())?,
            held: copied_names(alloc, self.held.as_slice())?,
            created,
        })
    }

    /// The same work over other tables.
    fn over(&self, alloc: Global, tables: &[PlainTable]) -> Result<PlainWork, NoMemory>
        ensures { IfOk result (λ work. work ≡ sees tables.now self.now) }
    {
        Ok(PlainWork {
            seen: copied_tables(alloc, tables)?,
            held: copied_names(alloc, self.held.as_slice())?,
            created: copied_names(alloc, self.created.as_slice())?,
        })
    }
}

/// A running transaction.
#[derive(Debug, Drop)]
pub struct PlainTransaction {
    own: bool,
    snapshot: u64,
    start: PlainWork,
    now: PlainWork,
    saves: Vec<PlainSave>,
}

impl Model for PlainTransaction {
    ghost use Rattle.iq_replay.specs.State.{Run};

    ghost Value = { Run };

    ghost view = { λ it. record {
      own = it.own;
      snapshot = it.snapshot;
      start = it.start;
      now = it.now;
      saves = it.saves.items;
    } };
}

impl PlainTransaction {
    /// A transaction with a snapshot of these tables.
    pub fn begun(
        alloc: Global,
        own: bool,
        snapshot: u64,
        tables: &[PlainTable],
    ) -> Result<PlainTransaction, NoMemory>
        ensures { IfOk result (λ run. run ≡ begin_run own snapshot tables.now) }
    {
        Ok(PlainTransaction {
            own,
            snapshot,
            start: PlainWork::begun(alloc, tables)?,
            now: PlainWork::begun(alloc, tables)?,
            saves: Vec::new(alloc),
        })
    }

    /// Whether it is the line's own.
    pub fn is_own(&self) -> bool
        ensures { result ≡ self.entry.now.own }
    {
        self.own
    }

    /// Its snapshot.
    pub fn snapshot(&self) -> u64
        ensures { result ≡ self.entry.now.snapshot }
    {
        self.snapshot
    }

    /// Its work as its line began.
    pub fn start(&self) -> &PlainWork
        ensures { result.now ≡ self.entry.now.start }
    {
        &self.start
    }

    /// Its work.
    pub fn work(&self) -> &PlainWork
        ensures { result.now ≡ self.entry.now.now }
    {
        &self.now
    }

    /// Whether it holds a name.
    pub fn holds_some(&self) -> bool
        ensures { result ≡ has_some self.entry.now.now.held }
    {
        !self.now.held.is_empty()
    }

    /// Its savepoints, the newest first.
    pub fn saves(&self) -> &[PlainSave]
        ensures { result.now ≡ self.entry.now.saves }
    {
        self.saves.as_slice()
    }

    /// Whether a savepoint of this name stands.
    pub fn has_save(&self, name: &Name) -> bool
        ensures { result ≡ is_some (save_named self.entry.now.saves name.now) }
    {
        has_save(self.saves.as_slice(), name)
    }

    /// Holds names more.
    pub fn hold(&mut self, names: &Locks) -> Result<(), NoMemory>
        ensures { OnOk result (self.new ≡ holds_more names.now self.old) }
    {
        let (locks_catalog, table) = names.parts();
        if locks_catalog {
            self.now.held.push(catalog())?;
        }
        if let Some(name) = table {
            self.now.held.push(name.again())?;
        }
        Ok(())
    }

    /// Takes the effect of a statement.
    pub fn take(&mut self, alloc: Global, statement: &Statement) -> Result<(), NoMemory>
        requires meaning { HasMeaning statement.now }
        requires few { HasFewParts statement.now }
        ensures { OnOk result (self.new ≡ record (self.old) { now = work_after statement.now self.old.now }) }
    {
        self.now = self.now.after(alloc, statement)?;
        Ok(())
    }

    /// The work now is what the next line begins with.
    pub fn keep(&mut self, alloc: Global) -> Result<(), NoMemory>
        ensures { OnOk result (self.new ≡ record (self.old) { start = self.old.now }) }
    {
        self.start = self.now.copied(alloc)?;
        Ok(())
    }

    /// The work is as the line began.
    pub fn undo(&mut self, alloc: Global) -> Result<(), NoMemory>
        ensures { OnOk result (self.new ≡ record (self.old) { now = self.old.start }) }
    {
        self.now = self.start.copied(alloc)?;
        Ok(())
    }

    /// Keeps a savepoint.
    pub fn save(&mut self, alloc: Global, name: &Name) -> Result<(), NoMemory>
        ensures { OnOk result (self.new ≡ saves_as name.now self.old) }
    {
        let save = PlainSave {
            name: name.again(),
            seen: copied_tables(alloc, self.now.seen())?,
        };
        self.saves.insert(0, save)?;
        Ok(())
    }

    /// Sees the tables of a savepoint, which stays; those that are newer go. What is held stays.
    pub fn go_back(&mut self, alloc: Global, name: &Name) -> Result<(), NoMemory>
        ensures { OnOk result (self.new ≡ back_to name.now self.old) }
    {
        let newer = newer_saves(self.saves.as_slice(), name);
        let kept = self.saves.split_off(newer)?;
        let work = work_at(alloc, &self.now, kept.as_slice())?;
        self.start = work.copied(alloc)?;
        self.now = work;
        self.saves = kept;
        Ok(())
    }

    /// Forgets a savepoint, and those that are newer.
    pub fn release(&mut self, name: &Name) -> Result<(), NoMemory>
        ensures { OnOk result (self.new ≡ release_to name.now self.old) }
    {
        let newer = newer_saves(self.saves.as_slice(), name);
        let mut kept = self.saves.split_off(newer)?;
        if !kept.is_empty() {
            kept.remove(0);
        }
        self.saves = kept;
        Ok(())
    }
}

/// Whether there is a savepoint of a name.
fn has_save(saves: &[PlainSave], name: &Name) -> bool
    ensures { result ≡ is_some (save_named saves.now name.now) }
{
    for save in saves {
        if save.is_named(name) {
            return true;
        }
    }
    false
}

/// How many savepoints are newer than the newest of a name.
fn newer_saves(saves: &[PlainSave], name: &Name) -> usize
    ensures kept { drop result saves.now ≡ saves_from name.now saves.now }
    ensures within { result ≤ length saves.now }
{
    for (i, save) in saves.iter().enumerate() {
        if save.is_named(name) {
            return i;
        }
    }
    saves.len()
}

/// A transaction's work over the tables of the newest of some savepoints, or as it is where there is none.
fn work_at(alloc: Global, work: &PlainWork, saves: &[PlainSave]) -> Result<PlainWork, NoMemory>
    ensures { IfOk result (λ at. at ≡ sees (seen_at saves.now work.now.seen) work.now) }
{
    match saves.first() {
        None => work.copied(alloc),
        Some(save) => work.over(alloc, save.seen.as_slice()),
    }
}

/// The name under which the list of tables is locked.
pub fn catalog() -> Name
    ensures { result ≡ catalog_name }
{
    Name::of("catalog").unwrap()
}

/// The same names once more.
pub fn copied_names(alloc: Global, names: &[Name]) -> Result<Listed<Name>, NoMemory>
    ensures { IfOk result (λ copies. copies ≡ names.now) }
{
    let mut copies = Listed::new(alloc);
    for name in names {
        copies.push(name.again())?;
    }
    Ok(copies)
}
