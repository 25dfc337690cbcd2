//! Conditions.
ghost use Rattle.std.specs.Prelude.{◌≡◌, OnOk, map};
ghost use Rattle.iq_spelling.specs.Conditions as spelling;
ghost use Rattle.iq_token_text.specs.Texts.{with_tokens};
ghost use Rattle.iq_print.specs.Conditions.{test_words, cond_words, spelled, words_in, joined};

use crate::lists::{Spelled, push_listed};
use crate::parts::push_not;
use iq_ast::{Cond, Op, Test};
use iq_token_text::TokenText;
use iq_tokens::Mark;
use std::alloc::AllocError;

/// A condition without brackets round it.
#[cycle(conditions)]
pub(crate) fn push_cond(out: &mut TokenText, cond: &Cond) -> Result<(), AllocError>
    ensures { OnOk result (out.new ≡ with_tokens out.old (cond_words cond.now)) }
{
    match cond {
        Cond::Test(test) => push_test(out, test),
        Cond::Not(inner) => {
            out.mark(Mark::Not)?;
            push_within(out, 0, inner.get())
        }
        Cond::And(members) => push_joined(out, Mark::And, 0, members.as_slice()),
        Cond::Or(members) => push_joined(out, Mark::Or, 1, members.as_slice()),
    }
}

/// Members with a mark between each two, and brackets round each that binds more loosely than may stand there.
#[cycle(conditions)]
fn push_joined(
    out: &mut TokenText,
    mark: Mark,
    most: u8,
    members: &[Cond],
) -> Result<(), AllocError>
    ensures { OnOk result (out.new ≡ with_tokens out.old (joined mark most (map spelled members.now))) }
{
    let [first, rest @ ..] = members else {
        return Ok(());
    };
    push_within(out, most, first)?;
    for member in rest {
        out.mark(mark)?;
        push_within(out, most, member)?;
    }
    Ok(())
}

/// A condition, with brackets round it if it binds more loosely than may stand there.
#[cycle(conditions)]
fn push_within(out: &mut TokenText, most: u8, cond: &Cond) -> Result<(), AllocError>
    ensures { OnOk result (out.new ≡ with_tokens out.old (words_in most (spelled cond.now))) }
{
    if most < looseness(cond) {
        out.mark(Mark::Open)?;
        push_cond(out, cond)?;
        return out.mark(Mark::Close);
    }
    push_cond(out, cond)
}

/// How loosely a condition binds: a test and NOT 0, AND 1, OR 2.
fn looseness(cond: &Cond) -> u8
    ensures { result ≡ (spelled cond.now).loose }
{
    match cond {
        Cond::Test(_) | Cond::Not(_) => 0,
        Cond::And(_) => 1,
        Cond::Or(_) => 2,
    }
}

/// A test of one row.
fn push_test(out: &mut TokenText, test: &Test) -> Result<(), AllocError>
    ensures { OnOk result (out.new ≡ with_tokens out.old (test_words test.now)) }
{
    match test {
        Test::Compare { column, op, value } => {
            out.name(column)?;
            out.mark(op_mark(*op))?;
            value.spell(out)
        }
        Test::Columns { left, op, right } => {
            out.name(left)?;
            out.mark(op_mark(*op))?;
            out.name(right)
        }
        Test::Between {
            column,
            negated,
            low,
            high,
        } => {
            out.name(column)?;
            push_not(out, *negated)?;
            out.mark(Mark::Between)?;
            low.spell(out)?;
            out.mark(Mark::And)?;
            high.spell(out)
        }
        Test::OneOf {
            column,
            negated,
            values,
        } => {
            out.name(column)?;
            push_not(out, *negated)?;
            out.mark(Mark::In)?;
            out.mark(Mark::Open)?;
            push_listed(out, values.as_slice())?;
            out.mark(Mark::Close)
        }
        Test::Null { column, negated } => {
            out.name(column)?;
            out.mark(Mark::Is)?;
            push_not(out, *negated)?;
            out.mark(Mark::Null)
        }
    }
}

/// The mark of an operator.
fn op_mark(op: Op) -> Mark
    ensures { result ≡ spelling.op_mark op }
{
    match op {
        Op::Eq => Mark::Equal,
        Op::Ne => Mark::Differs,
        Op::Lt => Mark::Less,
        Op::Le => Mark::AtMost,
        Op::Gt => Mark::More,
        Op::Ge => Mark::AtLeast,
    }
}
