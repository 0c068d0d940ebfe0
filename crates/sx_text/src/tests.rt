// Records, words and numbers with answers known beforehand.
use crate::*;
use std::alloc::Global;
use std::test::Fail;
use sx_lists::Copied;
use sx_values::{Column, Columns, Kind, Name, Numbers, Row, Schema, Text, Value};

// An Int column `id`, which is the key, and a Text column `note`, which may be Null.
fn notes(alloc: Global) -> Result<Schema, Fail> {
    let mut columns = Columns::new(alloc);
    columns.push(Column {
        name: Name::new(alloc, b"id")?,
        kind: Kind::Int,
        nullable: false,
    })?;
    columns.push(Column {
        name: Name::new(alloc, b"note")?,
        kind: Kind::Text,
        nullable: true,
    })?;
    let mut key = Numbers::new(alloc);
    key.push(0)?;
    Ok(Schema::new(alloc, columns, key)?)
}

fn note(alloc: Global, id: i64, text: &[u8]) -> Result<Row, Fail> {
    let mut row = Row::new(alloc);
    row.push(Value::Int(id))?;
    row.push(Value::Text(Text::new(alloc, text)?))?;
    Ok(row)
}

#[test]
fn rows_are_read(rt: HostRuntime) -> Result<(), Fail> {
    let alloc = rt.alloc();
    let schema = notes(alloc)?;
    assert_eq!(rt;
        row_of(alloc, &schema, b"-5,hello")?,
        note(alloc, -5, b"hello")?
    );
    assert_eq!(rt;
        row_of(alloc, &schema, b"\"7\",\"a \"\"b\"\", c\"")?,
        note(alloc, 7, b"a \"b\", c")?
    );
    assert_eq!(rt;
        row_of(alloc, &schema, b"0,NULL")?.at(2),
        Some(&Value::Null)
    );
    assert_eq!(rt; row_of(alloc, &schema, b"").err(), Some(FieldFault::Width));
    assert_eq!(rt;
        row_of(alloc, &schema, b"1,a,b").err(),
        Some(FieldFault::Width)
    );
    assert_eq!(rt;
        row_of(alloc, &schema, b"-0,a").err(),
        Some(FieldFault::Value { column: 1 })
    );
    Ok(())
}

#[test]
fn keys_are_read_and_printed(rt: HostRuntime) -> Result<(), Fail> {
    let alloc = rt.alloc();
    let schema = notes(alloc)?;
    let key = key_of_text(alloc, &schema, b"9223372036854775807")?;
    assert_eq!(rt; key.at(1), Some(&Value::Int(9223372036854775807)));
    assert_eq!(rt;
        text_of_key(alloc, &key)?.as_slice(),
        b"9223372036854775807".as_slice()
    );
    assert_eq!(rt;
        key_of_text(alloc, &schema, b"9223372036854775808").err(),
        Some(FieldFault::Value { column: 1 })
    );
    Ok(())
}

#[test]
fn rows_are_printed(rt: HostRuntime) -> Result<(), Fail> {
    let alloc = rt.alloc();
    let row = note(alloc, -9223372036854775808, b"a \"b\", c")?;
    let text = text_of(alloc, &row)?;
    assert_eq!(rt;
        text.as_slice(),
        b"-9223372036854775808,\"a \"\"b\"\", c\"".as_slice()
    );
    let mut line = Vec::from_slice(alloc, b"row t ")?;
    put_record(alloc, &mut line, &[Value::Text(Text::new(alloc, b"")?)])?;
    assert_eq!(rt; line.as_slice(), b"row t \"\"".as_slice());
    Ok(())
}

#[test]
fn words_are_read(rt: HostRuntime) {
    let mut reader = Reader::new(b"p scan 64 x  y");
    assert_eq!(rt; reader.word(), Some(b"p".as_slice()));
    assert_eq!(rt; reader.number(), None);
    assert_eq!(rt; reader.word(), Some(b"scan".as_slice()));
    assert_eq!(rt; reader.number(), Some(64));
    assert_eq!(rt; reader.word(), Some(b"x".as_slice()));
    assert_eq!(rt; reader.word(), None);
    assert_eq!(rt; reader.rest(), b" y".as_slice());
    for (bytes, number) in [
        (
            b"18446744073709551615".as_slice(),
            Some(18446744073709551615),
        ),
        (b"18446744073709551616".as_slice(), None),
        (b"01".as_slice(), None),
        (b"+1".as_slice(), None),
    ] {
        assert_eq!(rt; number_of(bytes), number);
    }
}

#[test]
fn faults_are_copied(rt: HostRuntime) -> Result<(), Fail> {
    for fault in [
        FieldFault::Memory,
        FieldFault::Width,
        FieldFault::Value { column: 2 },
    ] {
        assert_eq!(rt; fault.copy(rt.alloc())?, fault);
    }
    Ok(())
}
