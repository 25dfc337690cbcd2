//! Statements.
ghost use Rattle.std.specs.Prelude.{◌≡◌, OnOk};
ghost use Rattle.iq_ast.specs.declared.statements.Write.TheVariants as write;
ghost use Rattle.iq_token_text.specs.Texts.{with_tokens};
ghost use Rattle.iq_print.specs.Words.{where_words, items_words, group_words, order_words, select_words, write_words, statement_words};

use crate::conditions::push_cond;
use crate::lists::push_listed;
use crate::parts::{index_mark, push_explain, push_indexed};
use iq_ast::{Change, Cond, Item, Order, Select, Statement, Write};
use iq_base::{Column, IndexKind, Name, Row};
use iq_token_text::TokenText;
use iq_tokens::Mark;
use std::alloc::AllocError;

/// A statement.
pub(crate) fn push_statement(out: &mut TokenText, statement: &Statement) -> Result<(), AllocError>
    ensures { OnOk result (out.new ≡ with_tokens out.old (statement_words statement.now)) }
{
    match statement {
        Statement::Write(write) => push_write(out, write),
        Statement::Select(select) => push_select(out, select),
        Statement::Begin => {
            out.mark(Mark::Begin)?;
            out.mark(Mark::Transaction)
        }
        Statement::Commit => out.mark(Mark::Commit),
        Statement::Rollback => out.mark(Mark::Rollback),
        Statement::Savepoint(name) => {
            out.mark(Mark::Savepoint)?;
            out.name(name)
        }
        Statement::BackTo(name) => {
            out.mark(Mark::Rollback)?;
            out.mark(Mark::To)?;
            out.mark(Mark::Savepoint)?;
            out.name(name)
        }
        Statement::Release(name) => {
            out.mark(Mark::Release)?;
            out.mark(Mark::Savepoint)?;
            out.name(name)
        }
        Statement::Sync => out.mark(Mark::Sync),
    }
}

fn push_write(out: &mut TokenText, write: &Write) -> Result<(), AllocError>
    ensures { OnOk result (out.new ≡ with_tokens out.old (write_words write.now)) }
{
    match write {
        Write::CreateTable { name, schema } => push_create(out, name, schema.columns.as_slice()),
        Write::DropTable { name } => {
            out.mark(Mark::Drop)?;
            out.mark(Mark::Table)?;
            out.name(name)
        }
        Write::CreateIndex {
            name,
            kind,
            table,
            column,
            second,
        } => push_create_index(out, name, *kind, table, column, second),
        Write::DropIndex { table, name } => {
            out.mark(Mark::Drop)?;
            out.mark(Mark::Index)?;
            out.name(table)?;
            out.mark(Mark::Dot)?;
            out.name(name)
        }
        Write::Insert { table, rows } => push_insert(out, table, rows.as_slice()),
        Write::Load { table, rows, .. } => {
            out.mark(Mark::Load)?;
            out.mark(Mark::Table)?;
            out.name(table)?;
            out.mark(Mark::Rows)?;
            out.number(i64::from(*rows))
        }
        Write::Delete { table, cond } => {
            out.mark(Mark::Delete)?;
            out.mark(Mark::From)?;
            out.name(table)?;
            push_where(out, cond)
        }
        Write::Update {
            table,
            changes,
            cond,
        } => push_update(out, table, changes.as_slice(), cond),
    }
}

fn push_create(out: &mut TokenText, name: &Name, columns: &[Column]) -> Result<(), AllocError>
    ensures { OnOk result (out.new ≡ with_tokens out.old (write_words (write.CreateTable name.now (record { columns = columns.now })))) }
{
    out.mark(Mark::Create)?;
    out.mark(Mark::Table)?;
    out.name(name)?;
    out.mark(Mark::Open)?;
    push_listed(out, columns)?;
    out.mark(Mark::Close)
}

fn push_create_index(
    out: &mut TokenText,
    name: &Name,
    kind: IndexKind,
    table: &Name,
    column: &Name,
    second: &Option<Name>,
) -> Result<(), AllocError>
    ensures { OnOk result (out.new ≡ with_tokens out.old (write_words (write.CreateIndex name.now kind table.now column.now second.now))) }
{
    out.mark(Mark::Create)?;
    out.mark(index_mark(kind))?;
    out.mark(Mark::Index)?;
    out.name(name)?;
    out.mark(Mark::On)?;
    out.name(table)?;
    out.mark(Mark::Open)?;
    push_indexed(out, column, second)?;
    out.mark(Mark::Close)
}

fn push_insert(out: &mut TokenText, table: &Name, rows: &[Row]) -> Result<(), AllocError>
    ensures { OnOk result (out.new ≡ with_tokens out.old (write_words (write.Insert table.now rows.now))) }
{
    out.mark(Mark::Insert)?;
    out.mark(Mark::Into)?;
    out.name(table)?;
    out.mark(Mark::Values)?;
    push_listed(out, rows)
}

fn push_update(
    out: &mut TokenText,
    table: &Name,
    changes: &[Change],
    cond: &Option<Cond>,
) -> Result<(), AllocError>
    ensures { OnOk result (out.new ≡ with_tokens out.old (write_words (write.Update table.now changes.now cond.now))) }
{
    out.mark(Mark::Update)?;
    out.name(table)?;
    out.mark(Mark::Set)?;
    push_listed(out, changes)?;
    push_where(out, cond)
}

fn push_select(out: &mut TokenText, select: &Select) -> Result<(), AllocError>
    ensures { OnOk result (out.new ≡ with_tokens out.old (select_words select.now)) }
{
    push_explain(out, select.explain)?;
    out.mark(Mark::Select)?;
    push_items(out, select.items.as_slice())?;
    out.mark(Mark::From)?;
    out.name(&select.table)?;
    push_where(out, &select.cond)?;
    push_group(out, select.group.as_slice())?;
    push_order(out, select.order.as_slice())
}

fn push_where(out: &mut TokenText, cond: &Option<Cond>) -> Result<(), AllocError>
    ensures { OnOk result (out.new ≡ with_tokens out.old (where_words cond.now)) }
{
    match cond {
        None => Ok(()),
        Some(cond) => {
            out.mark(Mark::Where)?;
            push_cond(out, cond)
        }
    }
}

fn push_items(out: &mut TokenText, items: &[Item]) -> Result<(), AllocError>
    ensures { OnOk result (out.new ≡ with_tokens out.old (items_words items.now)) }
{
    match items {
        [] => out.mark(Mark::Star),
        _ => push_listed(out, items),
    }
}

fn push_group(out: &mut TokenText, names: &[Name]) -> Result<(), AllocError>
    ensures { OnOk result (out.new ≡ with_tokens out.old (group_words names.now)) }
{
    match names {
        [] => Ok(()),
        _ => {
            out.mark(Mark::Group)?;
            out.mark(Mark::By)?;
            push_listed(out, names)
        }
    }
}

fn push_order(out: &mut TokenText, orders: &[Order]) -> Result<(), AllocError>
    ensures { OnOk result (out.new ≡ with_tokens out.old (order_words orders.now)) }
{
    match orders {
        [] => Ok(()),
        _ => {
            out.mark(Mark::Order)?;
            out.mark(Mark::By)?;
            push_listed(out, orders)
        }
    }
}
