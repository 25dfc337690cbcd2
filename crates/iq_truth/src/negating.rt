//! NOT, carried into a test.
ghost use Rattle.std.specs.Prelude.{◌≡◌, List, ℕ};
ghost use Rattle.iq_base.specs.declared.values.Value.{Value};
ghost use Rattle.iq_truth.specs.Truths.{truth_not};
ghost use Rattle.iq_truth.specs.Tests.{test_truth, negated, negated_op};

use iq_ast::{Op, Test};

/// The operator that holds where the other doesn't: `=` and `<>`, `<` and `>=`, `>` and `<=` change places.
pub fn negated_op(op: Op) -> Op
    ensures { result ≡ negated_op op }
{
    match op {
        Op::Eq => Op::Ne,
        Op::Ne => Op::Eq,
        Op::Lt => Op::Ge,
        Op::Le => Op::Gt,
        Op::Gt => Op::Le,
        Op::Ge => Op::Lt,
    }
}

/// The test that is true where this one is false, false where it is true, and unknown where it is. It takes no memory.
pub fn negated(test: Test) -> Test
    ensures is { result ≡ negated test }
    ensures truth { (of : List ℕ → Value) → test_truth of result ≡ truth_not (test_truth of test) }
{
    match test {
        Test::Compare { column, op, value } => Test::Compare {
            column,
            op: negated_op(op),
            value,
        },
        Test::Columns { left, op, right } => Test::Columns {
            left,
            op: negated_op(op),
            right,
        },
        Test::Between {
            column,
            negated,
            low,
            high,
        } => Test::Between {
            column,
            negated: !negated,
            low,
            high,
        },
        Test::OneOf {
            column,
            negated,
            values,
        } => Test::OneOf {
            column,
            negated: !negated,
            values,
        },
        Test::Null { column, negated } => Test::Null {
            column,
            negated: !negated,
        },
    }
}
