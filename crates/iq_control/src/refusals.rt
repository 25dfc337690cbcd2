//! What refuses a line before its statement's own tests.
ghost use Rattle.std.specs.Prelude.{◌≡◌, List, Some, None};
ghost use Rattle.std.specs.Option.{option_or, option_map, option_copied};
ghost use Rattle.iq_base.specs.Shorts.{Name};
ghost use Rattle.iq_statements.specs.Statements.{is_ddl};
ghost use Rattle.iq_replay.specs.Refusals.{lost_refusal, excluded_refusal, transaction_refusal, before_line, reader_refusal, full_saves, no_save};
ghost use Rattle.iq_sessions.specs.Kept.{standing_of, run_of};
ghost use Rattle.iq_sessions.specs.declared.session.Transaction.{Transaction as KeptTransaction};

use crate::nodes::ControlNode;
use iq_ast::{Statement, Write};
use iq_base::{Name, Refusal};
use iq_sessions::{MOST_SAVEPOINTS, Transaction, TransactionState};

/// The first refusal of a session's line that is found before its statement's own tests: a lost transaction, an excluded node, the
/// transaction's state, a write on a reader.
pub(crate) fn first(
    node: &ControlNode,
    state: &TransactionState,
    statement: &Statement,
) -> Option<Refusal>
    ensures { (names : List Name) → result
        ≡ option_or (lost_refusal (Some node.now) (standing_of state.now names))
        (option_or (excluded_refusal node.now)
        (option_or (transaction_refusal (before_line (standing_of state.now names)) statement.now) (reader_refusal (Some node.now) statement.now))) }
{
    if let Some(cause) = lost(node, state) {
        return Some(cause);
    }
    if let Some(cause) = node.excluded_refusal() {
        return Some(cause);
    }
    if let Some(cause) = of_transaction(before(state), statement) {
        return Some(cause);
    }
    node.reader_refusal(statement)
}

/// The refusal of a transaction that was lost.
fn lost(node: &ControlNode, state: &TransactionState) -> Option<Refusal>
    ensures { (names : List Name) → result ≡ lost_refusal (Some node.now) (standing_of state.now names) }
{
    match state {
        TransactionState::Lost => Some(Refusal::Lost {
            incarnation: node.incarnation(),
        }),
        TransactionState::Idle | TransactionState::Running(_) => None,
    }
}

/// The transaction that a session had before its line.
fn before(state: &TransactionState) -> Option<&Transaction>
    ensures { (names : List Name) → option_map (λ (t : KeptTransaction). run_of t names) (option_copied result) ≡ before_line (standing_of state.now names) }
{
    match state {
        TransactionState::Idle | TransactionState::Lost => None,
        TransactionState::Running(transaction) => {
            if transaction.own {
                None
            } else {
                Some(transaction)
            }
        }
    }
}

/// What a statement asks of the transaction that its session had.
fn of_transaction(before: Option<&Transaction>, statement: &Statement) -> Option<Refusal>
    ensures { (names : List Name) → result ≡ transaction_refusal (option_map (λ (t : KeptTransaction). run_of t names) (option_copied before.entry)) statement.now }
{
    match statement {
        Statement::Write(write) => {
            if before.is_some() && is_ddl(write) {
                return Some(Refusal::DdlInTransaction);
            }
            None
        }
        Statement::Select(_) => None,
        Statement::Begin | Statement::Sync => {
            if before.is_some() {
                return Some(Refusal::InTransaction);
            }
            None
        }
        Statement::Commit | Statement::Rollback => {
            if before.is_none() {
                return Some(Refusal::NoTransaction);
            }
            None
        }
        Statement::Savepoint(_) => full(before),
        Statement::BackTo(name) | Statement::Release(name) => unknown(before, name),
    }
}

/// What SAVEPOINT asks: fewer stand than can.
#[tactic(auto, using(crate::proofs::Named::full_names))]
fn full(before: Option<&Transaction>) -> Option<Refusal>
    ensures { (names : List Name) → result ≡ full_saves (option_map (λ (t : KeptTransaction). run_of t names) (option_copied before.entry)) }
{
    match before {
        None => Some(Refusal::NoTransaction),
        Some(transaction) => {
            if transaction.saves.len() >= MOST_SAVEPOINTS {
                return Some(Refusal::TooManySavepoints);
            }
            None
        }
    }
}

/// What ROLLBACK TO and RELEASE ask: one of the name stands.
#[tactic(auto, using(crate::proofs::Named::named_names))]
fn unknown(before: Option<&Transaction>, name: &Name) -> Option<Refusal>
    ensures { (names : List Name) → result ≡ no_save (option_map (λ (t : KeptTransaction). run_of t names) (option_copied before.entry)) name.now }
{
    match before {
        None => Some(Refusal::NoTransaction),
        Some(transaction) => {
            if transaction.saves.has(name) {
                return None;
            }
            Some(Refusal::NoSavepoint { name: name.again() })
        }
    }
}

/// Whether a write changes schemas or indexes.
fn is_ddl(write: &Write) -> bool
    ensures { result ≡ is_ddl write.now }
{
    match write {
        Write::CreateTable { .. }
        | Write::DropTable { .. }
        | Write::CreateIndex { .. }
        | Write::DropIndex { .. } => true,
        Write::Insert { .. } | Write::Load { .. } | Write::Delete { .. } | Write::Update { .. } =>
            false,
    }
}
