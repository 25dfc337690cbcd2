//! The statement or the directive under way.
ghost use Rattle.std.specs.Prelude.{◌≡◌, IfOk, [], true, false};
ghost use Rattle.iq_base.specs.declared.schemas.Column.{Column as TheColumn};
ghost use Rattle.iq_ast.specs.declared.statements.Order.{Order as TheOrder};
ghost use Rattle.iq_grammar.specs.Draft as spec;
ghost use Rattle.iq_grammar.specs.Draft.{Puts};
ghost use Rattle.iq_grammar.specs.Statements.{statement_of, where_of};
ghost use Rattle.iq_grammar.specs.Directives.{directive_of, the_node};

use crate::directives::Directive;
use crate::grammar::{Aggregate, Form, Order as DirectiveOrder, Role};
use iq_ast::{Change, Cond, Item, Op, Order, Select, Statement, Test, Write};
use iq_base::{Column, IndexKind, Kind, Listed, Name, NoMemory, NodeKind, Schema, Value};
use iq_tokens::Lexeme;
use sqlite_items::{Boxed, Items};
use std::alloc::Global;
use std::collections::LinkedList;

/// The most columns of a table.
pub const MOST_COLUMNS: usize = 32;

/// The greatest length of a VARCHAR.
pub const MOST_LENGTH: usize = 255;

/// The most rows of a LOAD.
pub const MOST_ROWS: usize = 1_000_000;

/// The greatest number of a step.
pub const MOST_NUMBER: usize = 4_294_967_295;

/// How deep brackets and NOT may nest in a condition.
pub const MOST_DEPTH: usize = 64;

/// Conditions under way since the innermost bracket: the members of AND and of OR so far, how many NOTs stand before the next,
/// and how deep the bracket is.
#[derive(Drop)]
pub struct Level {
    pub ands: Items<Cond>,
    pub ors: Items<Cond>,
    pub nots: usize,
    pub base: usize,
}

/// What the tokens so far say.
#[derive(Drop)]
pub struct Draft {
    pub form: Form,
    pub directive: DirectiveOrder,
    pub explain: bool,
    pub table: Name,
    pub name: Name,
    pub index: IndexKind,
    pub first: Name,
    pub second: Option<Name>,
    pub columns: Listed<Column>,
    pub row: Listed<Value>,
    pub rows: Listed<Listed<Value>>,
    pub count: u32,
    pub changed: Name,
    pub changes: Listed<Change>,
    pub items: Listed<Item>,
    pub aggregate: Aggregate,
    pub group: Listed<Name>,
    pub order: Listed<Order>,
    pub column: Name,
    pub op: Op,
    pub negated: bool,
    pub low: Value,
    pub level: Level,
    pub outer: LinkedList<Level>,
}

fn nothing() -> Name
    ensures { result ≡ [] }
{
    match Name::of("") {
        Some(name) => name,
        None => unreachable!(),
    }
}

fn name_in(lexeme: &Lexeme<'_>) -> Option<Name>
    ensures { result ≡ spec.name_in lexeme.now }
{
    match lexeme {
        Lexeme::Name(name) => Some(name.again()),
        _ => None,
    }
}

fn number_in(lexeme: &Lexeme<'_>) -> Option<i64>
    ensures { result ≡ spec.number_in lexeme.now }
{
    match lexeme {
        Lexeme::Number(number) => Some(*number),
        _ => None,
    }
}

fn value_in(lexeme: &Lexeme<'_>) -> Option<Value>
    ensures { result ≡ spec.value_in lexeme.now }
{
    match lexeme {
        Lexeme::Mark(_) => Some(Value::Null),
        Lexeme::Number(number) => Some(Value::Int(*number)),
        Lexeme::Text(text) => Some(Value::Text(text.value())),
        Lexeme::Name(_) => None,
    }
}

fn has_column(columns: &Listed<Column>, name: &Name) -> bool
    ensures { result ≡ spec.has_column columns.now name.now }
{
    columns.as_slice().iter().any(|column| column.name == *name)
}

fn length_in(number: i64) -> Option<u8>
    ensures { result ≡ spec.length_in number }
{
    if 0 < number && number <= MOST_LENGTH as i64 {
        Some(number as u8)
    } else {
        None
    }
}

fn count_in(number: i64) -> Option<u32>
    ensures { result ≡ spec.count_in number }
{
    if 0 < number && number <= MOST_ROWS as i64 {
        Some(number as u32)
    } else {
        None
    }
}

/// Gives the last column the kind.
#[tactic(auto, using(crate::proofs::Lists::change_last_end))]
fn set_kind(alloc: Global, columns: &mut Listed<Column>, kind: Kind) -> Result<(), NoMemory>
    ensures { IfOk result (λ _. columns.new ≡ spec.change_last (λ (c : TheColumn). record c { kind = kind }) columns.old) }
{
    let mut items = std::mem::replace(columns, Listed::new(alloc)).into_vec();
    if let Some(column) = items.pop() {
        items.push(Column { kind, ..column })?;
    }
    *columns = Listed::from_vec(items);
    Ok(())
}

/// Makes the last column one in which NULL may not stand.
#[tactic(auto, using(crate::proofs::Lists::change_last_end))]
fn forbid_null(alloc: Global, columns: &mut Listed<Column>) -> Result<(), NoMemory>
    ensures { IfOk result (λ _. columns.new ≡ spec.change_last (λ (c : TheColumn). record c { null = false }) columns.old) }
{
    let mut items = std::mem::replace(columns, Listed::new(alloc)).into_vec();
    if let Some(column) = items.pop() {
        items.push(Column {
            null: false,
            ..column
        })?;
    }
    *columns = Listed::from_vec(items);
    Ok(())
}

/// Reverses the last order.
#[tactic(auto, using(crate::proofs::Lists::change_last_end))]
fn descend(alloc: Global, order: &mut Listed<Order>) -> Result<(), NoMemory>
    ensures { IfOk result (λ _. order.new ≡ spec.change_last (λ (o : TheOrder). record o { desc = true }) order.old) }
{
    let mut items = std::mem::replace(order, Listed::new(alloc)).into_vec();
    if let Some(last) = items.pop() {
        items.push(Order { desc: true, ..last })?;
    }
    *order = Listed::from_vec(items);
    Ok(())
}

fn step_number_in(number: i64) -> Option<u32>
    ensures { result ≡ spec.step_number_in number }
{
    if 0 <= number && number <= MOST_NUMBER as i64 {
        Some(number as u32)
    } else {
        None
    }
}

fn has_change(changes: &Listed<Change>, name: &Name) -> bool
    ensures { result ≡ spec.has_change changes.now name.now }
{
    changes
        .as_slice()
        .iter()
        .any(|change| change.column == *name)
}

fn item_of(aggregate: Aggregate, name: Name) -> Item
    ensures { result ≡ spec.item_of aggregate name }
{
    match aggregate {
        Aggregate::Count => Item::Count(name),
        Aggregate::Sum => Item::Sum(name),
        Aggregate::Min => Item::Min(name),
        Aggregate::Max => Item::Max(name),
    }
}

fn not_times(alloc: Global, times: usize, cond: Cond) -> Result<Cond, NoMemory>
    ensures { IfOk result (λ c. c ≡ spec.not_times times cond) }
{
    let mut cond = cond;
    for i in 0..times {
        cond = Cond::Not(Boxed::new(alloc, cond)?);
    }
    Ok(cond)
}

fn and_of(members: Items<Cond>) -> Result<Cond, NoMemory>
    ensures { IfOk result (λ c. c ≡ spec.and_of members) }
{
    let mut members = members;
    match members.pop() {
        None => Ok(Cond::And(members)),
        Some(last) => {
            if members.is_empty() {
                return Ok(last);
            }
            members.push(last)?;
            Ok(Cond::And(members))
        }
    }
}

fn or_of(members: Items<Cond>) -> Result<Cond, NoMemory>
    ensures { IfOk result (λ c. c ≡ spec.or_of members) }
{
    let mut members = members;
    match members.pop() {
        None => Ok(Cond::Or(members)),
        Some(last) => {
            if members.is_empty() {
                return Ok(last);
            }
            members.push(last)?;
            Ok(Cond::Or(members))
        }
    }
}

fn node(name: Name, kind: NodeKind) -> Directive
    ensures { result ≡ the_node name kind }
{
    Directive::Node { name, kind }
}

impl Level {
    fn new(alloc: Global) -> Level
        ensures { result ≡ spec.no_level }
    {
        Level {
            ands: Items::new(alloc),
            ors: Items::new(alloc),
            nots: 0,
            base: 0,
        }
    }

    fn is_deep(&self) -> bool
        ensures { result ≡ spec.is_deep self.now }
    {
        self.base >= MOST_DEPTH || self.nots >= MOST_DEPTH - self.base
    }

    fn add(&mut self, alloc: Global, cond: Cond) -> Result<(), NoMemory>
        ensures { IfOk result (λ _. self.new ≡ spec.with_cond self.old cond) }
    {
        self.ands.push(not_times(alloc, self.nots, cond)?)?;
        self.nots = 0;
        Ok(())
    }

    fn turn(&mut self, alloc: Global) -> Result<(), NoMemory>
        ensures { IfOk result (λ _. self.new ≡ spec.turned self.old) }
    {
        let ands = std::mem::replace(&mut self.ands, Items::new(alloc));
        self.ors.push(and_of(ands)?)?;
        Ok(())
    }

    fn condition(self) -> Result<Option<Cond>, NoMemory>
        ensures { IfOk result (λ c. c ≡ where_of self.ands self) }
    {
        if self.ands.is_empty() {
            return Ok(None);
        }
        Ok(Some(self.whole()?))
    }

    fn whole(self) -> Result<Cond, NoMemory>
        ensures { IfOk result (λ c. c ≡ spec.whole self) }
    {
        let Level {
            ands,
            mut ors,
            nots: _,
            base: _,
        } = self;
        ors.push(and_of(ands)?)?;
        or_of(ors)
    }
}

impl Draft {
    /// A draft of nothing.
    pub fn new(alloc: Global) -> Draft
        ensures { result ≡ spec.empty }
    {
        Draft {
            form: Form::Sync,
            directive: DirectiveOrder::Space,
            explain: false,
            table: nothing(),
            name: nothing(),
            index: IndexKind::Lf,
            first: nothing(),
            second: None,
            columns: Listed::new(alloc),
            row: Listed::new(alloc),
            rows: Listed::new(alloc),
            count: 0,
            changed: nothing(),
            changes: Listed::new(alloc),
            items: Listed::new(alloc),
            aggregate: Aggregate::Count,
            group: Listed::new(alloc),
            order: Listed::new(alloc),
            column: nothing(),
            op: Op::Eq,
            negated: false,
            low: Value::Null,
            level: Level::new(alloc),
            outer: LinkedList::new(alloc),
        }
    }

    fn test(&mut self, alloc: Global, test: Test) -> Result<(), NoMemory>
        ensures { IfOk result (λ _. self.new ≡ spec.with_test self.old test) }
    {
        self.level.add(alloc, Cond::Test(test))
    }

    /// Adds what the token says in its role, if it obeys the rules.
    #[tactic(auto, unfolding(crate::specs::Draft::put))]
    pub fn put(&mut self, alloc: Global, role: Role, lexeme: &Lexeme<'_>) -> Result<bool, NoMemory>
        ensures { IfOk result (λ obeys. Puts (spec.put self.old role lexeme.now) obeys self.new) }
    {
        match role {
            Role::Skip => {}
            Role::Form(form) => self.form = form,
            Role::Order(order) => self.directive = order,
            Role::Number => {
                let Some(number) = number_in(lexeme) else {
                    return Ok(false);
                };
                let Some(count) = step_number_in(number) else {
                    return Ok(false);
                };
                self.count = count;
            }
            Role::Explain => self.explain = true,
            Role::Table => {
                let Some(name) = name_in(lexeme) else {
                    return Ok(false)
                };
                self.table = name;
            }
            Role::Name => {
                let Some(name) = name_in(lexeme) else {
                    return Ok(false)
                };
                self.name = name;
            }
            Role::Index(kind) => {
                self.form = Form::CreateIndex;
                self.index = kind;
            }
            Role::Indexed => {
                let Some(name) = name_in(lexeme) else {
                    return Ok(false)
                };
                self.first = name;
            }
            Role::Second => {
                let Some(name) = name_in(lexeme) else {
                    return Ok(false)
                };
                if self.first == name {
                    return Ok(false);
                }
                self.second = Some(name);
            }
            Role::Column => {
                let Some(name) = name_in(lexeme) else {
                    return Ok(false)
                };
                if self.columns.len() >= MOST_COLUMNS || has_column(&self.columns, &name) {
                    return Ok(false);
                }
                self.columns.push(Column {
                    name,
                    kind: Kind::Int,
                    null: true,
                })?;
            }
            Role::Kind(kind) => set_kind(alloc, &mut self.columns, kind)?,
            Role::Length => {
                let Some(number) = number_in(lexeme) else {
                    return Ok(false)
                };
                let Some(length) = length_in(number) else {
                    return Ok(false)
                };
                set_kind(alloc, &mut self.columns, Kind::Varchar(length))?;
            }
            Role::NotNull => forbid_null(alloc, &mut self.columns)?,
            Role::Value | Role::Member => {
                let Some(value) = value_in(lexeme) else {
                    return Ok(false)
                };
                self.row.push(value)?;
            }
            Role::Row => {
                let row = std::mem::replace(&mut self.row, Listed::new(alloc));
                self.rows.push(row)?;
            }
            Role::Rows => {
                let Some(number) = number_in(lexeme) else {
                    return Ok(false);
                };
                let Some(count) = count_in(number) else {
                    return Ok(false);
                };
                self.count = count;
            }
            Role::Changed => {
                let Some(name) = name_in(lexeme) else {
                    return Ok(false)
                };
                if has_change(&self.changes, &name) {
                    return Ok(false);
                }
                self.changed = name;
            }
            Role::NewValue => {
                let Some(value) = value_in(lexeme) else {
                    return Ok(false)
                };
                let change = Change {
                    column: self.changed.again(),
                    value,
                };
                self.changes.push(change)?;
            }
            Role::Item => {
                let Some(name) = name_in(lexeme) else {
                    return Ok(false)
                };
                self.items.push(Item::Plain(name))?;
            }
            Role::CountAll => self.items.push(Item::CountAll)?,
            Role::Aggregate(aggregate) => self.aggregate = aggregate,
            Role::Aggregated => {
                let Some(name) = name_in(lexeme) else {
                    return Ok(false)
                };
                self.items.push(item_of(self.aggregate, name))?;
            }
            Role::Grouped => {
                let Some(name) = name_in(lexeme) else {
                    return Ok(false)
                };
                self.group.push(name)?;
            }
            Role::Ordered => {
                let Some(column) = name_in(lexeme) else {
                    return Ok(false)
                };
                self.order.push(Order {
                    column,
                    desc: false,
                })?;
            }
            Role::Descending => descend(alloc, &mut self.order)?,
            Role::Negate => {
                if self.level.is_deep() {
                    return Ok(false);
                }
                self.level.nots += 1;
            }
            Role::Opened => {
                if self.level.is_deep() {
                    return Ok(false);
                }
                let inner = Level {
                    base: self.level.base + self.level.nots + 1,
                    ..Level::new(alloc)
                };
                let level = std::mem::replace(&mut self.level, inner);
                self.outer.push_front(level)?;
            }
            Role::Closed => {
                let Some(level) = self.outer.pop_front() else {
                    return Ok(false)
                };
                let inner = std::mem::replace(&mut self.level, level);
                self.level.add(alloc, inner.whole()?)?;
            }
            Role::OrNext => self.level.turn(alloc)?,
            Role::Tested => {
                let Some(name) = name_in(lexeme) else {
                    return Ok(false)
                };
                self.column = name;
                self.negated = false;
                self.row = Listed::new(alloc);
            }
            Role::Compare(op) => self.op = op,
            Role::Compared => {
                let Some(value) = value_in(lexeme) else {
                    return Ok(false)
                };
                let test = Test::Compare {
                    column: self.column.again(),
                    op: self.op,
                    value,
                };
                self.test(alloc, test)?;
            }
            Role::ComparedColumn => {
                let Some(right) = name_in(lexeme) else {
                    return Ok(false)
                };
                let test = Test::Columns {
                    left: self.column.again(),
                    op: self.op,
                    right,
                };
                self.test(alloc, test)?;
            }
            Role::Outside => self.negated = true,
            Role::Low => {
                let Some(value) = value_in(lexeme) else {
                    return Ok(false)
                };
                self.low = value;
            }
            Role::High => {
                let Some(high) = value_in(lexeme) else {
                    return Ok(false)
                };
                let test = Test::Between {
                    column: self.column.again(),
                    negated: self.negated,
                    low: self.low.again(),
                    high,
                };
                self.test(alloc, test)?;
            }
            Role::OneOf => {
                let values = std::mem::replace(&mut self.row, Listed::new(alloc));
                let test = Test::OneOf {
                    column: self.column.again(),
                    negated: self.negated,
                    values,
                };
                self.test(alloc, test)?;
            }
            Role::IsNull => {
                let test = Test::Null {
                    column: self.column.again(),
                    negated: self.negated,
                };
                self.test(alloc, test)?;
            }
        }
        Ok(true)
    }

    /// The directive that the draft is.
    #[tactic(auto, unfolding(crate::specs::Directives::directive_of))]
    pub fn direct(self) -> Directive
        ensures { result ≡ directive_of self }
    {
        let Draft {
            directive,
            name,
            table,
            count,
            ..
        } = self;
        match directive {
            DirectiveOrder::Coordinator => node(name, NodeKind::Coordinator),
            DirectiveOrder::Writer => node(name, NodeKind::Writer),
            DirectiveOrder::Reader => node(name, NodeKind::Reader),
            DirectiveOrder::Session => Directive::Session { name, node: table },
            DirectiveOrder::Apply => Directive::Apply(name),
            DirectiveOrder::Report => Directive::Report(name),
            DirectiveOrder::Lose => Directive::Lose(count),
            DirectiveOrder::Take => Directive::Take(count),
            DirectiveOrder::Restart => Directive::Restart(name),
            DirectiveOrder::Exclude => Directive::Exclude(name),
            DirectiveOrder::Include => Directive::Include(name),
            DirectiveOrder::Space => Directive::Space,
            DirectiveOrder::Versions => Directive::Versions,
        }
    }

    /// The statement that the draft is.
    #[tactic(auto, unfolding(crate::specs::Statements::statement_of))]
    pub fn finish(self, alloc: Global) -> Result<Statement, NoMemory>
        ensures { IfOk result (λ s. s ≡ statement_of self) }
    {
        let Draft {
            form,
            explain,
            table,
            name,
            index,
            first,
            second,
            columns,
            rows,
            count,
            changes,
            items,
            group,
            order,
            level,
            ..
        } = self;
        Ok(match form {
            Form::CreateTable => Statement::Write(Write::CreateTable {
                name: table,
                schema: Schema { columns },
            }),
            Form::DropTable => Statement::Write(Write::DropTable { name: table }),
            Form::CreateIndex => Statement::Write(Write::CreateIndex {
                name,
                kind: index,
                table,
                column: first,
                second,
            }),
            Form::DropIndex => Statement::Write(Write::DropIndex { table, name }),
            Form::Insert => Statement::Write(Write::Insert { table, rows }),
            Form::Load => Statement::Write(Write::Load {
                table,
                rows: count,
                text: Listed::new(alloc),
            }),
            Form::Delete => Statement::Write(Write::Delete {
                table,
                cond: level.condition()?,
            }),
            Form::Update => Statement::Write(Write::Update {
                table,
                changes,
                cond: level.condition()?,
            }),
            Form::Select => Statement::Select(Select {
                explain,
                items,
                table,
                cond: level.condition()?,
                group,
                order,
            }),
            Form::Begin => Statement::Begin,
            Form::Commit => Statement::Commit,
            Form::Rollback => Statement::Rollback,
            Form::Savepoint => Statement::Savepoint(name),
            Form::BackTo => Statement::BackTo(name),
            Form::Release => Statement::Release(name),
            Form::Sync => Statement::Sync,
        })
    }
}
