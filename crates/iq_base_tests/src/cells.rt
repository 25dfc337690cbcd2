//! Cells beside bytes that were written down by hand.
use iq_base::{BadCell, Kind, Text, Value, cell_get, cell_put, is_of, width};
use std::test::Fail;

fn text(text: &str) -> Result<Value, Fail> {
    Ok(Value::Text(Text::of(text).ok_or("too long")?))
}

#[test]
fn cells_have_the_bytes_of_the_format(rt: HostRuntime) -> Result<(), Fail> {
    let rows: [(Kind, Value, &[u8]); 7] = [
        (Kind::Int, Value::Int(5), &[1, 5, 0, 0, 0]),
        (Kind::Int, Value::Int(-2), &[1, 254, 255, 255, 255]),
        (Kind::Int, Value::Null, &[0, 0, 0, 0, 0]),
        (
            Kind::Big,
            Value::Int(-1),
            &[1, 255, 255, 255, 255, 255, 255, 255, 255],
        ),
        (Kind::Big, Value::Int(258), &[1, 2, 1, 0, 0, 0, 0, 0, 0]),
        (Kind::Varchar(4), text("né")?, &[1, 3, 110, 195, 169, 0]),
        (Kind::Varchar(0), Value::Null, &[0, 0]),
    ];
    for (kind, value, bytes) in &rows {
        let mut buffer = [9; 9];
        let size = width(*kind);
        assert!(rt; size <= 9 && is_of(*kind, value), "{value:?}");
        let cell = &mut buffer[..size];
        cell_put(*kind, value, cell);
        assert_eq!(rt; &*cell, *bytes, "{value:?}");
        assert_eq!(rt; cell_get(*kind, cell), Ok(value.again()), "{value:?}");
    }
    Ok(())
}

#[test]
fn other_bytes_are_no_cell(rt: HostRuntime) {
    let rows: [(Kind, &[u8]); 7] = [
        (Kind::Int, &[2, 0, 0, 0, 0]),
        (Kind::Int, &[0, 0, 0, 0, 1]),
        (Kind::Big, &[0, 1, 0, 0, 0, 0, 0, 0, 0]),
        (Kind::Varchar(2), &[1, 3, 97, 97]),
        (Kind::Varchar(2), &[1, 1, 97, 97]),
        (Kind::Varchar(2), &[1, 1, 255, 0]),
        (Kind::Varchar(2), &[0, 1, 0, 0]),
    ];
    for (kind, bytes) in &rows {
        assert_eq!(rt; bytes.len(), width(*kind));
        assert_eq!(rt; cell_get(*kind, bytes), Err(BadCell), "{bytes:?}");
    }
}
