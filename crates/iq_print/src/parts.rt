//! The parts of statements.
ghost use Rattle.std.specs.Prelude.{◌≡◌, [], ◌∷◌, OnOk};
ghost use Rattle.iq_tokens.specs.declared.tokens.Mark.TheVariants.{Open, Close};
ghost use Rattle.iq_spelling.specs.Lists.{word, maybe_not};
ghost use Rattle.iq_spelling.specs.Lists as lists;
ghost use Rattle.iq_spelling.specs.Texts.{kind_words, explain_words};
ghost use Rattle.iq_spelling.specs.Texts as texts;
ghost use Rattle.iq_token_text.specs.Texts.{with_tokens};
ghost use Rattle.iq_print.specs.Words.{nullness_words, indexed_words, way_words};

use crate::lists::{Spelled, push_listed};
use iq_ast::{Change, Item, Order};
use iq_base::{Column, IndexKind, Kind, Listed, Name, Value};
use iq_token_text::TokenText;
use iq_tokens::Mark;
use std::alloc::AllocError;

impl Spelled for Value {
    ghost use Rattle.iq_print.specs.Conditions.{value_words};

    ghost words = { value_words };

    fn spell(&self, out: &mut TokenText) -> Result<(), AllocError> {
        match self {
            Value::Null => out.mark(Mark::Null),
            Value::Int(number) => out.number(*number),
            Value::Text(text) => out.text(text),
        }
    }
}

impl Spelled for Name {
    ghost use Rattle.iq_print.specs.Words.{name_words};

    ghost words = { name_words };

    fn spell(&self, out: &mut TokenText) -> Result<(), AllocError> {
        out.name(self)
    }
}

impl Spelled for Column {
    ghost use Rattle.iq_print.specs.Words.{column_words};

    ghost words = { column_words };

    fn spell(&self, out: &mut TokenText) -> Result<(), AllocError> {
        out.name(&self.name)?;
        push_kind(out, self.kind)?;
        push_nullness(out, self.null)
    }
}

impl Spelled for Listed<Value> {
    ghost use Rattle.iq_print.specs.Words.{tuple_words};

    ghost words = { tuple_words };

    fn spell(&self, out: &mut TokenText) -> Result<(), AllocError> {
        out.mark(Mark::Open)?;
        push_listed(out, self.as_slice())?;
        out.mark(Mark::Close)
    }
}

impl Spelled for Change {
    ghost use Rattle.iq_print.specs.Words.{change_words};

    ghost words = { change_words };

    fn spell(&self, out: &mut TokenText) -> Result<(), AllocError> {
        out.name(&self.column)?;
        out.mark(Mark::Equal)?;
        self.value.spell(out)
    }
}

impl Spelled for Item {
    ghost use Rattle.iq_spelling.specs.Texts.{item_words};

    ghost words = { item_words };

    fn spell(&self, out: &mut TokenText) -> Result<(), AllocError> {
        match self {
            Item::Plain(name) => out.name(name),
            Item::CountAll => {
                out.mark(Mark::Count)?;
                out.mark(Mark::Open)?;
                out.mark(Mark::Star)?;
                out.mark(Mark::Close)
            }
            Item::Count(name) => push_call(out, Mark::Count, name),
            Item::Sum(name) => push_call(out, Mark::Sum, name),
            Item::Min(name) => push_call(out, Mark::Min, name),
            Item::Max(name) => push_call(out, Mark::Max, name),
        }
    }
}

impl Spelled for Order {
    ghost use Rattle.iq_print.specs.Words.{ordered_words};

    ghost words = { ordered_words };

    fn spell(&self, out: &mut TokenText) -> Result<(), AllocError> {
        out.name(&self.column)?;
        push_way(out, self.desc)
    }
}

fn push_call(out: &mut TokenText, aggregate: Mark, name: &Name) -> Result<(), AllocError>
    ensures { OnOk result (out.new ≡ with_tokens out.old (word aggregate ∷ word Open ∷ lists.name name.now ∷ word Close ∷ [])) }
{
    out.mark(aggregate)?;
    out.mark(Mark::Open)?;
    out.name(name)?;
    out.mark(Mark::Close)
}

fn push_kind(out: &mut TokenText, kind: Kind) -> Result<(), AllocError>
    ensures { OnOk result (out.new ≡ with_tokens out.old (kind_words kind)) }
{
    match kind {
        Kind::Int => out.mark(Mark::Int),
        Kind::Big => out.mark(Mark::Bigint),
        Kind::Varchar(length) => {
            out.mark(Mark::Varchar)?;
            out.mark(Mark::Open)?;
            out.number(i64::from(length))?;
            out.mark(Mark::Close)
        }
    }
}

fn push_nullness(out: &mut TokenText, null: bool) -> Result<(), AllocError>
    ensures { OnOk result (out.new ≡ with_tokens out.old (nullness_words null)) }
{
    if null {
        return Ok(());
    }
    out.mark(Mark::Not)?;
    out.mark(Mark::Null)
}

fn push_way(out: &mut TokenText, desc: bool) -> Result<(), AllocError>
    ensures { OnOk result (out.new ≡ with_tokens out.old (way_words desc)) }
{
    if desc {
        return out.mark(Mark::Desc);
    }
    Ok(())
}

/// NOT, where a test is negated.
pub(crate) fn push_not(out: &mut TokenText, negated: bool) -> Result<(), AllocError>
    ensures { OnOk result (out.new ≡ with_tokens out.old (maybe_not negated)) }
{
    if negated {
        return out.mark(Mark::Not);
    }
    Ok(())
}

/// EXPLAIN, where the plan is asked for.
pub(crate) fn push_explain(out: &mut TokenText, explain: bool) -> Result<(), AllocError>
    ensures { OnOk result (out.new ≡ with_tokens out.old (explain_words explain)) }
{
    if explain {
        return out.mark(Mark::Explain);
    }
    Ok(())
}

/// The one column of an index, or both.
pub(crate) fn push_indexed(
    out: &mut TokenText,
    column: &Name,
    second: &Option<Name>,
) -> Result<(), AllocError>
    ensures { OnOk result (out.new ≡ with_tokens out.old (indexed_words column.now second.now)) }
{
    out.name(column)?;
    if let Some(name) = second {
        out.mark(Mark::Comma)?;
        out.name(name)?;
    }
    Ok(())
}

/// The mark of a kind of index.
pub(crate) fn index_mark(kind: IndexKind) -> Mark
    ensures { result ≡ texts.index_mark kind }
{
    match kind {
        IndexKind::Lf => Mark::Lf,
        IndexKind::Hg => Mark::Hg,
        IndexKind::Hng => Mark::Hng,
        IndexKind::Cmp => Mark::Cmp,
    }
}
