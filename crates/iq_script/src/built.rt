//! Which statements the program runs today.
ghost use Rattle.std.specs.Prelude.{◌≡◌, ◌↔◌, ◌≤◌, IsTrue, length};
ghost use Rattle.std.specs.List.{AllByRecursion};
ghost use Rattle.iq_ast.specs.Built as forms;
ghost use Rattle.iq_ast.specs.Words.{IsName};
ghost use Rattle.iq_model.specs.Scripts.{IsRunnableLine, IsPlainDeed, HasFewDeedTuples};
ghost use Rattle.iq_script.specs.Built.{IsBuilt, IsBuiltWrite};

use iq_ast::{Cond, Item, Select, Statement, Write};
use iq_base::{Column, Listed, Name, Row};
use iq_model::{Deed, Line};
use iq_tokens::is_name;

/// The most columns of a table.
const MOST_COLUMNS: usize = 32;

/// The most tuples of an INSERT.
const MOST_TUPLES: usize = 16_777_216;

fn is_a_name(name: &Name) -> bool
    ensures { IsTrue result ↔ IsName name.now }
{
    is_name(name.as_str().as_bytes())
}

fn is_plain(item: &Item) -> bool
    ensures { IsTrue result ↔ forms.IsPlain item.now }
{
    match item {
        Item::Plain(_) => true,
        Item::CountAll | Item::Count(_) | Item::Sum(_) | Item::Min(_) | Item::Max(_) => false,
    }
}

fn are_plain(mut items: &[Item]) -> bool
    ensures { IsTrue result ↔ AllByRecursion forms.IsPlain items.entry.now }
{
    'items: while let [first, rest @ ..] = items {
        if is_plain(first) {
            items = rest;
            continue;
        }
        return false;
    }
    true
}

fn are_items(items: &[Item]) -> bool
    ensures { IsTrue result ↔ forms.AreItems items.now }
{
    match items {
        [] => true,
        [Item::CountAll, rest @ ..] => rest.is_empty(),
        [first, rest @ ..] => is_plain(first) && are_plain(rest),
    }
}

fn is_one_test(cond: &Option<Cond>) -> bool
    ensures { IsTrue result ↔ forms.IsOneTest cond.now }
{
    match cond {
        None | Some(Cond::Test(_)) => true,
        Some(Cond::Not(_) | Cond::And(_) | Cond::Or(_)) => false,
    }
}

fn is_plain_select(select: &Select) -> bool
    ensures { IsTrue result ↔ forms.IsPlainSelect select.now }
{
    are_items(select.items.as_slice())
        && !select.explain
        && is_one_test(&select.cond)
        && select.group.is_empty()
        && select.order.is_empty()
}

fn is_create(name: &Name, columns: &[Column]) -> bool
    ensures { IsTrue result ↔ (IsName name.now × (length columns.now ≤ 32)) }
{
    is_a_name(name) && columns.len() <= MOST_COLUMNS
}

fn is_insert(table: &Name, rows: &Listed<Row>) -> bool
    ensures { IsTrue result ↔ IsBuiltWrite (Write.Insert table.now rows.now) }
{
    is_a_name(table) && rows.len() <= MOST_TUPLES
}

fn is_built_write(write: &Write) -> bool
    ensures { IsTrue result ↔ IsBuiltWrite write.now }
{
    match write {
        Write::CreateTable { name, schema } => is_create(name, schema.columns.as_slice()),
        Write::DropTable { name } => is_a_name(name),
        Write::Insert { table, rows } => is_insert(table, rows),
        Write::CreateIndex { .. }
        | Write::DropIndex { .. }
        | Write::Load { .. }
        | Write::Delete { .. }
        | Write::Update { .. } => false,
    }
}

/// Whether the program runs a statement today: a CREATE TABLE, a DROP TABLE, an INSERT, or a SELECT of columns by their names, of `*` or of
/// COUNT(*) alone, with one test at most, without groups or an order.
pub fn is_built(statement: &Statement) -> bool
    ensures { IsTrue result ↔ IsBuilt statement.now }
{
    match statement {
        Statement::Write(write) => is_built_write(write),
        Statement::Select(select) => is_plain_select(select),
        Statement::Begin
        | Statement::Commit
        | Statement::Rollback
        | Statement::Savepoint(_)
        | Statement::BackTo(_)
        | Statement::Release(_)
        | Statement::Sync => false,
    }
}

fn is_built_deed(deed: &Deed) -> bool
    ensures { IsTrue result ↔ (IsPlainDeed deed.now × HasFewDeedTuples deed.now) }
{
    match deed {
        Deed::Statement(statement) => is_built(statement),
        Deed::Step(_) => false,
    }
}

/// Whether the program runs a line today: a statement of the first session that is run.
pub fn is_run(line: &Line) -> bool
    ensures { IsTrue result ↔ IsRunnableLine line.now }
{
    line.session == Some(0) && is_built_deed(&line.deed)
}
