//! The rows of a Low Fast index on the sides of tests.
use crate::rows::{cells, empty, put, value};
use iq_ast::{Op, Test};
use iq_base::{Kind, Name, Value};
use iq_pages::MemoryPages;
use iq_truth::{Side, truth_on};
use std::process::Abort;
use std::test::Fail;

/// How many distinct values there are.
const VALUES: u32 = 9;

#[test]
fn rows_on_a_side_are_those_of_plain_lists(rt: HostRuntime) -> Result<(), Fail> {
    let alloc = rt.alloc();
    let mut store = MemoryPages::new(alloc, Vec::new(alloc));
    let mut lf = empty(Kind::Int);
    let values = cells(alloc, 0, 8070, VALUES)?;
    assert!(rt; put(&rt, alloc, &mut lf, &mut store, &values).is_ok());
    for op in [Op::Eq, Op::Ne, Op::Lt, Op::Le, Op::Gt, Op::Ge] {
        let Some(column) = Name::of("c") else {
            return Err("no name")?;
        };
        let test = Test::Compare {
            column,
            op,
            value: Value::Int(4),
        };
        for side in [Side::True, Side::False] {
            assert!(rt; !side.has(truth_on(&test, &Value::Null)) && lf.has_room(0));
            let rows = lf.find(alloc, &mut store, &test, side)?;
            assert_eq!(rt; rows.len(), 8070);
            assert!(rt;
                (0..rows.len()).all(|i| {
                    rows.get(i) == side.has(truth_on(&test, &value(i, VALUES)))
                })
            );
        }
    }
    Ok(())
}
