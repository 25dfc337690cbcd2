//! Statements as large as the grammar allows.
use crate::printed::printed;
use std::test::Fail;

#[test]
fn sixty_four_brackets_and_nots_are_printed(rt: HostRuntime) -> Result<(), Fail> {
    let mut text = String::from_str(rt.alloc(), "DELETE FROM t WHERE ")?;
    for _ in 0..32 {
        text.push_str("NOT (x = 1 AND ")?;
    }
    text.push_str("y = 2")?;
    for _ in 0..32 {
        text.push_str(")")?;
    }
    assert_eq!(rt; printed(rt.alloc(), text.as_str())?, text);
    Ok(())
}

#[test]
fn thirty_two_columns_and_a_text_of_255_quotes_are_printed(rt: HostRuntime) -> Result<(), Fail> {
    let mut columns = String::from_str(rt.alloc(), "CREATE TABLE t (c0 INT")?;
    for i in 1..32 {
        write!(columns, ", c{i} VARCHAR({i}) NOT NULL")?;
    }
    columns.push_str(")")?;
    assert_eq!(rt; printed(rt.alloc(), columns.as_str())?, columns);
    let mut quotes = String::from_str(rt.alloc(), "INSERT INTO t VALUES ('")?;
    for _ in 0..255 {
        quotes.push_str("''")?;
    }
    quotes.push_str("')")?;
    assert_eq!(rt; printed(rt.alloc(), quotes.as_str())?, quotes);
    Ok(())
}
