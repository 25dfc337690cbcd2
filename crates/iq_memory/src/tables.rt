//! Tables in memory, and the statements that run over them.
ghost use Rattle.std.specs.Prelude.{◌≡◌, ◌⊎◌, ℕ, length, [], OnOk, IfOk, IfErr};
ghost use Rattle.iq_history.specs.Placed.{IsPlacedRefusal};
ghost use Rattle.iq_ast.specs.declared.statements.Write.TheVariants as writes;
ghost use Rattle.iq_statements.specs.Named.{write_checks, query_checks};
ghost use Rattle.iq_statements.specs.Answers.{answer};
ghost use Rattle.iq_memory.specs.Props.{plain_prop};
ghost use Rattle.iq_query.specs.Simple.{IsSimple};
ghost use Rattle.iq_write.specs.Simple.{IsSimpleWrite, ArePlain};

use crate::table_pages::TablePages;
use iq_ast::{Select, Write};
use iq_base::{Descriptor, Listed, Name, NoMemory, Refusal, Row, Schema};
use iq_database::{before, place_of};
use iq_model::Answer;
use iq_query::select;
use iq_write::{check, write};
use std::alloc::Global;

/// The tables of a database, in the order of their names, with their pages.
#[derive(Drop)]
pub struct MemoryTables {
    parts: Vec<Descriptor>,
    pages: TablePages,
    ghost plain: { ArePlain parts.items } by { plain_prop parts.items },
}

impl MemoryTables {
    ghost use Rattle.iq_memory.specs.Holding.{Hold, OfHeld, AreGranted, IsCause, HasWritten};

    /// No table.
    pub fn new(alloc: Global) -> Result<MemoryTables, NoMemory>
        ensures { IfOk result (λ tables. Hold tables []) }
    {
        Ok(MemoryTables {
            parts: Vec::new(alloc),
            pages: TablePages::new(alloc)?,
        })
    }

    /// Tests what a write names and the values that it gives: the first refusal that holds, or want of memory.
    pub fn check(&self, alloc: Global, statement: &Write) -> Result<(), Refusal>
        requires simple { IsSimpleWrite statement.now }
        ensures granted { OnOk result (AreGranted self.now (write_checks statement.now)) }
        ensures placed { IfErr result (λ e. (n : ℕ) → IsPlacedRefusal n e) }
        ensures cause { IfErr result (IsCause self.now (write_checks statement.now)) }
    {
        check(alloc, self.parts.as_slice(), statement)
    }

    /// Lets a write take effect, and answers how many rows it put in; or answers what refuses it, and leaves each table as it was.
    pub fn write(&mut self, alloc: Global, statement: &Write) -> Result<u32, Refusal>
        requires simple { IsSimpleWrite statement.now }
        ensures { HasWritten statement.now self.old self.new result }
    {
        match statement {
            Write::CreateTable { name, schema } => self.create(alloc, name, schema, statement),
            Write::DropTable { name } => self.remove(alloc, name, statement),
            Write::Insert { table, rows } => self.insert(alloc, table, rows, statement),
            Write::CreateIndex { .. }
            | Write::DropIndex { .. }
            | Write::Load { .. }
            | Write::Delete { .. }
            | Write::Update { .. } => unreachable!(),
        }
    }

    /// Puts a table without rows among the tables.
    fn create(
        &mut self,
        alloc: Global,
        name: &Name,
        schema: &Schema,
        statement: &Write,
    ) -> Result<u32, Refusal>
        requires is { statement.now ≡ writes.CreateTable name.now schema.now }
        requires simple { IsSimpleWrite statement.now }
        ensures { HasWritten statement.now self.old self.new result }
    {
        let _ = schema;
        let place = before(self.parts.as_slice(), name);
        match write(alloc, &mut self.parts, statement, &mut self.pages) {
            Err(cause) => Err(sure(cause)),
            Ok(written) => {
                self.pages.come(alloc, place);
                Ok(written.rows)
            }
        }
    }

    /// Takes a table with its pages from among the tables.
    fn remove(&mut self, alloc: Global, name: &Name, statement: &Write) -> Result<u32, Refusal>
        requires is { statement.now ≡ writes.DropTable name.now }
        ensures { HasWritten statement.now self.old self.new result }
    {
        let Some(place) = place_of(self.parts.as_slice(), name) else {
            return Err(Refusal::NoTable { name: name.again() });
        };
        match write(alloc, &mut self.parts, statement, &mut self.pages) {
            Err(cause) => Err(sure(cause)),
            Ok(written) => {
                self.pages.go(alloc, place);
                Ok(written.rows)
            }
        }
    }

    /// Puts rows behind those of a table. It copies the table's pages first, so that these are as before wherever it fails.
    fn insert(
        &mut self,
        alloc: Global,
        name: &Name,
        rows: &Listed<Row>,
        statement: &Write,
    ) -> Result<u32, Refusal>
        requires is { statement.now ≡ writes.Insert name.now rows.now }
        requires simple { IsSimpleWrite statement.now }
        ensures { HasWritten statement.now self.old self.new result }
    {
        let Some(place) = place_of(self.parts.as_slice(), name) else {
            return Err(Refusal::NoTable { name: name.again() });
        };
        let kept = self.pages.tables[place].copied()?;
        match write(alloc, &mut self.parts, statement, &mut self.pages) {
            Ok(written) => Ok(written.rows),
            Err(cause) => {
                self.pages.tables[place] = kept;
                Err(sure(cause))
            }
        }
    }

    /// What a query answers, or what refuses it. The tables stay as they are.
    pub fn select(&mut self, alloc: Global, statement: &Select) -> Result<Answer, Refusal>
        requires simple { IsSimple statement.now }
        ensures granted { OnOk result (AreGranted self.old (query_checks statement.now)) }
        ensures answer { IfOk result (λ told. OfHeld self.old (λ db. told ≡ answer statement.now db)) }
        ensures unchanged { OfHeld self.old (Hold self.new) }
        ensures placed { IfErr result (λ e. (n : ℕ) → IsPlacedRefusal n e) }
        ensures cause { IfErr result (IsCause self.old (query_checks statement.now)) }
    {
        match select(alloc, self.parts.as_slice(), statement, &mut self.pages) {
            Ok(told) => Ok(told),
            Err(cause) => Err(sure(cause)),
        }
    }
}

/// What refuses a statement over pages that refuse for want of memory alone.
fn sure(cause: Refusal) -> Refusal
    ensures placed { ((n : ℕ) → IsPlacedRefusal n cause) → (n : ℕ) → IsPlacedRefusal n result }
    ensures same { (result ≡ cause) ⊎ (result ≡ Refusal.NoMemory) }
    ensures fault { (x y : ℕ) → cause ≡ Refusal.StoreFault x y → result ≡ Refusal.NoMemory }
    ensures page { (object n : ℕ) → cause ≡ Refusal.BadPage object n → result ≡ Refusal.NoMemory }
{
    match cause {
        Refusal::StoreFault { .. } | Refusal::BadPage { .. } => Refusal::NoMemory,
        other => other,
    }
}
