//! What is put is what is read, whatever form its bytes have.
use iq_base::{Text, Value};
use iq_literals::{Tuples, Values};
use std::alloc::Global;
use std::test::Fail;

/// Numbers at the ends of each form.
const NUMBERS: [i64; 8] = [0, 252, 253, 255, 256, -1, i64::MIN, i64::MAX];

/// Some values of each form.
fn of_each_form(alloc: Global) -> Result<Values, Fail> {
    let mut values = Values::new(alloc);
    values.push(&Value::Null)?;
    for number in NUMBERS {
        values.push(&Value::Int(number))?;
    }
    values.push(&text("")?)?;
    values.push(&text("Zoë")?)?;
    Ok(values)
}

fn text(letters: &str) -> Result<Value, Fail> {
    Ok(Value::Text(Text::of(letters).ok_or("too long")?))
}

#[test]
fn values_are_printed_as_they_were_put(rt: HostRuntime) -> Result<(), Fail> {
    let mut values = of_each_form(rt.alloc())?;
    assert_eq!(rt; values.len(), 11);
    assert!(rt; !values.is_empty());
    let said = format!(in rt.alloc(); "{values:?}")?;
    let wanted =
        "Listed { items: [Null, Int(0), Int(252), Int(253), Int(255), Int(256), Int(-1), Int(-9223372036854775808), Int(9223372036854775807), Text(), Text(Zoë)] }";
    assert_eq!(rt; said.as_str(), wanted);
    values.clear();
    let said = format!(in rt.alloc(); "{values:?}")?;
    assert_eq!(rt; said.as_str(), "Listed { items: [] }");
    Ok(())
}

#[test]
fn rows_of_many_bytes_stand_beside_rows_of_none(rt: HostRuntime) -> Result<(), Fail> {
    let mut wide = Values::new(rt.alloc());
    for _ in 0..100 {
        wide.push(&text("mux")?)?;
    }
    let mut rows = Tuples::new(rt.alloc());
    assert!(rt; rows.is_empty());
    rows.push(&of_each_form(rt.alloc())?)?;
    rows.push(&wide)?;
    rows.push(&Values::new(rt.alloc()))?;
    let mut last = Values::new(rt.alloc());
    last.push(&Value::Int(7))?;
    rows.push(&last)?;
    assert_eq!(rt; rows.len(), 4);
    let unpacked = rows.unpacked(rt.alloc())?;
    let said = format!(in rt.alloc(); "{rows:?}")?;
    let other = format!(in rt.alloc(); "{unpacked:?}")?;
    assert_eq!(rt; said.as_str(), other.as_str());
    let lengths = [11, 100, 0, 1];
    assert_eq!(rt; unpacked.len(), 4);
    for (i, row) in unpacked.as_slice().iter().enumerate() {
        assert_eq!(rt; row.len(), lengths[i], "row {i}");
    }
    Ok(())
}

#[test]
fn a_hundred_thousand_rows_of_a_small_number(rt: HostRuntime) -> Result<(), Fail> {
    let mut row = Values::new(rt.alloc());
    row.push(&Value::Int(1))?;
    let mut rows = Tuples::new(rt.alloc());
    for _ in 0..100_000 {
        rows.push(&row)?;
    }
    let mut rest = rows.cursor();
    for _ in 0..100_000 {
        let mut row = rest.next().ok_or("a row is gone")?;
        assert_eq!(rt; row.next(), Some(Value::Int(1)));
        assert!(rt; row.next().is_none());
    }
    assert!(rt; rest.next().is_none());
    Ok(())
}
