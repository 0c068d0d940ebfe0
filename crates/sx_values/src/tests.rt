// Examples of what the crate answers, whose values come from the rules that it keeps.
ghost use Rattle.std.specs.Prelude.{◌≡◌, ◌≤◌, [], ◌∷◌, All, IfOk, IsTrue, length};
ghost use Rattle.sx_values.specs.declared.schema.Column.{Column as TheColumn};
ghost use Rattle.sx_values.specs.SchemaFaults.{IsDeclarable};

use crate::{
    BadRow, Catalog, CatalogFault, Column, Columns, Key, Kind, Name, NameFault, Names, Numbers,
    Row, Schema, SchemaFault, Text, TextFault, Value,
};
use std::alloc::{AllocError, Global};
use std::process::Abort;
use std::test::Fail;
use sx_lists::{Copied, List, Same};

#[test]
fn texts_are_made(rt: HostRuntime) -> Result<(), Fail> {
    let alloc = rt.alloc();
    let text = Text::new(alloc, b" ~null")?.copy(alloc)?;
    assert_eq!(rt; text.as_bytes(), b" ~null".as_slice());
    let none = Text::new(alloc, b"")?;
    assert_eq!(rt; none.as_bytes(), b"".as_slice());
    let long = vec![in alloc; b'x'; 65]?;
    for (bytes, fault) in [
        (long.as_slice(), TextFault::TooLong { len: 65 }),
        (b"ab\x7f\n".as_slice(), TextFault::BadByte { at: 3 }),
        (b"NULL".as_slice(), TextFault::IsNull),
    ] {
        assert_eq!(rt; Text::new(alloc, bytes).err(), Some(fault));
    }
    Ok(())
}

#[test]
fn names_are_made(rt: HostRuntime) -> Result<(), Fail> {
    let alloc = rt.alloc();
    let name = Name::new(alloc, b"a_9")?.copy(alloc)?;
    assert_eq!(rt; name.as_bytes(), b"a_9".as_slice());
    let long = vec![in alloc; b'x'; 33]?;
    for bytes in [
        b"".as_slice(),
        b"9a".as_slice(),
        b"aB".as_slice(),
        long.as_slice(),
    ] {
        assert_eq!(rt; Name::new(alloc, bytes).err(), Some(NameFault::BadName));
    }
    Ok(())
}

#[test]
fn columns_are_refused(rt: HostRuntime) -> Result<(), Fail> {
    let alloc = rt.alloc();
    let many = keyed(&rt, alloc, columns(alloc, b"abcdefghijklmnopq")?);
    assert!(rt; matches!(many, Err(SchemaFault::TooManyColumns)));
    let twice = keyed(&rt, alloc, columns(alloc, b"abcb")?);
    assert!(rt; matches!(twice, Err(SchemaFault::RepeatedName { .. })));
    let null = keyed(&rt, alloc, columns(alloc, b"aBc")?);
    assert!(rt; matches!(null, Err(SchemaFault::NullableKey { column: 2 })));
    Ok(())
}

#[test]
fn rows_are_admitted(rt: HostRuntime) -> Result<(), Fail> {
    let alloc = rt.alloc();
    let schema = schema(&rt, alloc, b"abCT")?;
    let sound = admitted(alloc, &schema, &["1", "2", "NULL", "x"])?;
    assert_eq!(rt; sound, Ok(()));
    let short = admitted(alloc, &schema, &["x", "2", "3"])?;
    assert_eq!(rt; short, Err(BadRow::Width));
    let unlike = admitted(alloc, &schema, &["1", "2", "3", "4"])?;
    assert_eq!(rt; unlike, Err(BadRow::Kind { column: 4 }));
    let null = admitted(alloc, &schema, &["1", "NULL", "x", "4"])?;
    assert_eq!(rt; null, Err(BadRow::Null { column: 2 }));
    Ok(())
}

#[test]
fn keys_are_admitted(rt: HostRuntime) -> Result<(), Fail> {
    let alloc = rt.alloc();
    let schema = schema(&rt, alloc, b"abCT")?;
    let sound = admitted_key(alloc, &schema, &["1", "2"])?;
    assert_eq!(rt; sound, Ok(()));
    let short = admitted_key(alloc, &schema, &["1"])?;
    assert_eq!(rt; short, Err(BadRow::Width));
    let unlike = admitted_key(alloc, &schema, &["1", "x"])?;
    assert_eq!(rt; unlike, Err(BadRow::Kind { column: 2 }));
    let null = admitted_key(alloc, &schema, &["NULL", "x"])?;
    assert_eq!(rt; null, Err(BadRow::Null { column: 1 }));
    Ok(())
}

#[test]
fn keys_are_not_all_null(rt: HostRuntime) -> Result<(), Fail> {
    let alloc = rt.alloc();
    let wide = widely_keyed(&rt, alloc, columns(alloc, b"ABc")?)?;
    let row = Row::from_values(values(alloc, &["NULL", "NULL", "1"])?);
    assert_eq!(rt; wide.admits(&row), Err(BadRow::AllNull));
    let key = Key::from_values(values(alloc, &["NULL", "NULL"])?);
    assert_eq!(rt; wide.admits_key(&key), Err(BadRow::AllNull));
    Ok(())
}

#[test]
fn keys_are_taken(rt: HostRuntime) -> Result<(), Fail> {
    let alloc = rt.alloc();
    let schema = schema(&rt, alloc, b"abCT")?;
    let row = Row::from_values(values(alloc, &["1", "2", "NULL", "x"])?);
    let key = key_of(alloc, &schema, &row)?.ok_or("not admitted")?;
    assert!(rt; key == Key::from_values(values(alloc, &["1", "2"])?));
    let first = first_values(alloc, &schema, &row)?.ok_or("not admitted")?;
    assert!(rt; first.is_same(&key));
    Ok(())
}

#[test]
fn tables_are_declared(rt: HostRuntime) -> Result<(), Fail> {
    let alloc = rt.alloc();
    let mut catalog = Catalog::new(alloc);
    declare(&rt, alloc, &mut catalog, b'c')?;
    let taken = declare(&rt, alloc, &mut catalog, b'c');
    assert_eq!(rt; taken, Err(CatalogFault::Taken));
    declare(&rt, alloc, &mut catalog, b'd')?;
    assert_eq!(rt; catalog.tables().len(), 2);
    assert!(rt; catalog.schema(&name(alloc, b'd')?).is_some());
    assert!(rt; catalog.copy(alloc)?.is_same(&catalog));
    Ok(())
}

#[test]
fn tables_are_adopted(rt: HostRuntime) -> Result<(), Fail> {
    let alloc = rt.alloc();
    let mut catalog = Catalog::new(alloc);
    catalog.adopt(name(alloc, b'a')?, schema(&rt, alloc, b"abcT")?)?;
    declare(&rt, alloc, &mut catalog, b'c')?;
    assert!(rt; catalog.is_source(&name(alloc, b'c')?));
    assert!(rt; !catalog.is_source(&name(alloc, b'a')?));
    let taken = declare(&rt, alloc, &mut catalog, b'a');
    assert_eq!(rt; taken, Err(CatalogFault::Taken));
    Ok(())
}

#[test]
fn tables_are_indexed(rt: HostRuntime) -> Result<(), Fail> {
    let alloc = rt.alloc();
    let mut catalog = Catalog::new(alloc);
    declare(&rt, alloc, &mut catalog, b'c')?;
    let table = name(alloc, b'c')?;
    catalog.index(&table, names(alloc, b"cb")?)?;
    assert!(rt; catalog.has_index(&table, &names(alloc, b"cb")?));
    let again = catalog.index(&table, names(alloc, b"cb")?);
    assert_eq!(rt; again, Err(CatalogFault::Taken));
    Ok(())
}

#[test]
fn indexes_are_refused(rt: HostRuntime) -> Result<(), Fail> {
    let alloc = rt.alloc();
    let mut catalog = Catalog::new(alloc);
    declare(&rt, alloc, &mut catalog, b'c')?;
    let lacking = catalog.index(&name(alloc, b'c')?, names(alloc, b"bd")?);
    assert_eq!(rt; lacking, Err(CatalogFault::NoColumn));
    let unknown = catalog.index(&name(alloc, b'q')?, names(alloc, b"b")?);
    assert_eq!(rt; unknown, Err(CatalogFault::NoTable));
    Ok(())
}

// What a schema answers to a row of these words.
fn admitted(alloc: Global, schema: &Schema, words: &[&str]) -> Result<Result<(), BadRow>, Fail> {
    Ok(schema.admits(&Row::from_values(values(alloc, words)?)))
}

// What a schema answers to a key of these words.
fn admitted_key(
    alloc: Global,
    schema: &Schema,
    words: &[&str],
) -> Result<Result<(), BadRow>, Fail> {
    Ok(schema.admits_key(&Key::from_values(values(alloc, words)?)))
}

// The key of a row, where it is admitted.
fn key_of(alloc: Global, schema: &Schema, row: &Row) -> Result<Option<Key>, AllocError> {
    match schema.admits(row) {
        Ok(()) => Ok(Some(schema.key_of(alloc, row)?)),
        Err(_) => Ok(None),
    }
}

// The first two values of a row, where it is admitted.
fn first_values(alloc: Global, schema: &Schema, row: &Row) -> Result<Option<Key>, AllocError> {
    let places = first_two(alloc)?;
    if schema.columns().len() < 2 {
        return Ok(None);
    }
    match schema.admits(row) {
        Ok(()) => Ok(Some(schema.project(alloc, row, &places)?)),
        Err(_) => Ok(None),
    }
}

// The words as values.
fn values(alloc: Global, words: &[&str]) -> Result<List<Value>, Fail> {
    let mut values = List::new(alloc);
    for word in words {
        values.push(value(alloc, word)?)?;
    }
    Ok(values)
}

// The value of a word: NULL, a number, or else a text.
fn value(alloc: Global, word: &str) -> Result<Value, Fail> {
    match word.parse::<i64>() {
        Ok(number) => Ok(Value::Int(number)),
        Err(_) if word == "NULL" => Ok(Value::Null),
        Err(_) => Ok(Value::Text(Text::new(alloc, word.as_bytes())?)),
    }
}

// The name of one letter.
fn name(alloc: Global, letter: u8) -> Result<Name, NameFault> {
    Name::new(alloc, &[letter])
}

// Names of one letter each.
fn names(alloc: Global, letters: &[u8]) -> Result<Names, Fail> {
    let mut names = Names::new(alloc);
    for letter in letters {
        names.push(name(alloc, *letter)?)?;
    }
    Ok(names)
}

// Columns named by letters. A capital takes Null, and T and t are texts, the others numbers.
fn columns(alloc: Global, letters: &[u8]) -> Result<Columns, NameFault> {
    let mut columns = Columns::new(alloc);
    for letter in letters {
        let Ok(()) = columns.push(column(alloc, *letter)?) else {
            return Err(NameFault::Memory);
        };
    }
    Ok(columns)
}

fn column(alloc: Global, letter: u8) -> Result<Column, NameFault> {
    let lower = letter.to_ascii_lowercase();
    Ok(Column {
        name: name(alloc, lower)?,
        kind: if lower == b't' { Kind::Text } else { Kind::Int },
        nullable: lower != letter,
    })
}

// The places of the first two columns.
fn first_two(alloc: Global) -> Result<Numbers, AllocError>
    ensures { IfOk result (λ places. places ≡ 0 ∷ 1 ∷ []) }
{
    let mut places = Numbers::new(alloc);
    places.push(0)?;
    places.push(1)?;
    Ok(places)
}

// The schema of a declared table of these columns, of which the first two are the key.
fn keyed(rt: &impl Abort, alloc: Global, columns: Columns) -> Result<Schema, SchemaFault>
    ensures { IfOk result IsDeclarable }
{
    assert!(rt; 2 <= columns.len());
    match first_two(alloc) {
        Ok(key) => Schema::new(alloc, columns, key),
        Err(_) => Err(SchemaFault::Memory),
    }
}

// Such a schema, of columns named by letters.
fn schema(rt: &impl Abort, alloc: Global, letters: &[u8]) -> Result<Schema, Fail> {
    Ok(keyed(rt, alloc, columns(alloc, letters)?)?)
}

// The schema of a new table of these columns, of which the first two are the key.
fn widely_keyed(rt: &impl Abort, alloc: Global, columns: Columns) -> Result<Schema, SchemaFault> {
    assert!(rt; 2 <= columns.len());
    match first_two(alloc) {
        Ok(key) => Schema::wide(alloc, columns, key),
        Err(_) => Err(SchemaFault::Memory),
    }
}

// Declares a table named by a letter, with the columns a, b, c and t.
fn declare(
    rt: &impl Abort,
    alloc: Global,
    catalog: &mut Catalog,
    letter: u8,
) -> Result<(), CatalogFault> {
    let (Ok(table), Ok(columns)) = (name(alloc, letter), columns(alloc, b"abcT")) else {
        return Err(CatalogFault::Memory);
    };
    let Ok(schema) = keyed(rt, alloc, columns) else {
        return Err(CatalogFault::Memory);
    };
    assert!(rt; are_short(schema.columns()));
    catalog.declare(table, schema)
}

// Whether two bytes can be added to each name.
fn are_short(columns: &[Column]) -> bool
    ensures { IsTrue result → All (λ (c : TheColumn). length c.name ≤ 30) columns.now }
{
    columns
        .iter()
        .all(|column| column.name.as_bytes().len() <= 30)
}

#[test]
fn faults_are_copied(rt: HostRuntime) -> Result<(), Fail> {
    let alloc = rt.alloc();
    let long = TextFault::TooLong { len: 65 };
    assert_eq!(rt; long.copy(alloc)?, long);
    let name = NameFault::BadName;
    assert_eq!(rt; name.copy(alloc)?, name);
    let schema = SchemaFault::NullableKey { column: 2 };
    assert!(rt; matches!(schema.copy(alloc)?, SchemaFault::NullableKey { column: 2 }));
    let catalog = CatalogFault::Many;
    assert_eq!(rt; catalog.copy(alloc)?, catalog);
    Ok(())
}

#[test]
fn copies_grow_by_themselves(rt: HostRuntime) -> Result<(), Fail> {
    let alloc = rt.alloc();
    let mut row = Row::new(alloc);
    row.push(Value::Int(7))?;
    let copy = row.copy(alloc)?;
    let mut grown = copy.copy(alloc)?;
    grown.push(Value::Null)?;
    assert!(rt; copy.is_same(&row));
    assert_eq!(rt; grown.len(), 2);
    assert!(rt; matches!(grown.at(1), Some(Value::Int(7))));
    let mut key = Key::new(alloc);
    key.push(Value::Int(7))?;
    let mut longer = key.copy(alloc)?;
    assert!(rt; longer.is_same(&key));
    longer.push(Value::Int(8))?;
    assert_eq!(rt; longer.len(), 2);
    assert!(rt; matches!(longer.at(1), Some(Value::Int(7))));
    Ok(())
}
