//! Printing to writers that fail.
ghost use Rattle.std.specs.Prelude.{◌≡◌, ◌≢◌, [], IfOk};

use gathering::{print_fault, print_fragments, print_row_fault};
use last_step::{PrintFault, print_rows};
use meaning::{Expr, Item, Plan, Row, RowFault, Sequence, TableUse, Text, Value};
use std::alloc::{AllocError, Global};
use std::io::Write;
use std::mem::drop;
use std::process::Abort;
use std::test::Fail;

fn items(alloc: Global, header: &str) -> Result<Sequence<Item>, AllocError>
    ensures { IfOk result (λ list. list ≢ []) }
{
    let item = Item {
        header: Text::new(alloc, header)?,
        expr: Expr::Aggregate(0),
    };
    let mut list = Sequence::new(alloc);
    list.push(item)?;
    Ok(list)
}

/// A plan that has nothing but its items.
fn plan_of(alloc: Global, items: Sequence<Item>) -> Plan
    ensures { result.items ≡ items }
{
    Plan {
        text: Text::from_string(String::new(alloc)),
        fact: TableUse {
            name: Text::from_string(String::new(alloc)),
            columns: Sequence::new(alloc),
        },
        joins: Sequence::new(alloc),
        conjuncts: Sequence::new(alloc),
        keys: Sequence::new(alloc),
        aggs: Sequence::new(alloc),
        having: None,
        items,
        order: Sequence::new(alloc),
        limit: None,
        plain: false,
        distinct: false,
    }
}

fn row(first: Value, others: Vec<Value>) -> Result<Row, AllocError>
    ensures { IfOk result (λ row. row ≢ []) }
{
    let mut values = others;
    values.insert(0, first)?;
    Ok(Sequence::from_vec(values))
}

fn print_one<W: Write>(alloc: Global, header: &str, row: Row, out: &mut W) -> Result<(), PrintFault>
    requires { row ≢ [] }
{
    let items = items(alloc, header)?;
    let plan = plan_of(alloc, items);
    let rows = [row];
    let printed = print_rows(alloc, &plan, &rows, out);
    drop(plan);
    printed
}

fn text_row(alloc: Global, text: &str) -> Result<Row, AllocError>
    ensures { IfOk result (λ row. row ≢ []) }
{
    row(Value::Text(Text::new(alloc, text)?), Vec::new(alloc))
}

fn shown(alloc: Global, text: &str) -> Result<Vec<u8>, Fail> {
    let mut out = Vec::new(alloc);
    print_one(alloc, "c1", text_row(alloc, text)?, &mut out)?;
    Ok(out)
}

fn expect_field(rt: &impl Abort, alloc: Global, text: &str, want: &str) -> Result<(), Fail> {
    let shown = shown(alloc, text)?;
    assert_eq!(rt; shown.as_slice(), want.as_bytes(), "at {text}");
    Ok(())
}

const FIELDS: &[(&str, &str)] = &[
    ("plain", "c1\nplain\n"),
    ("a,b", "c1\n\"a,b\"\n"),
    ("say \"so\"", "c1\n\"say \"\"so\"\"\"\n"),
    ("a\rb", "c1\n\"a\rb\"\n"),
    ("a\nb", "c1\n\"a\nb\"\n"),
    ("", "c1\n\"\"\n"),
    (" ", "c1\n \n"),
    ("\\N", "c1\n\\N\n"),
];

#[test]
fn a_field_is_quoted_where_it_has_to_be(rt: HostRuntime) -> Result<(), Fail> {
    for (text, want) in FIELDS {
        expect_field(&rt, rt.alloc(), text, want)?;
    }
    Ok(())
}

#[test]
fn a_row_has_values_of_each_kind(rt: HostRuntime) -> Result<(), Fail> {
    let mut out = vec![in rt.alloc(); b'>']?;
    let others = vec![in rt.alloc(); Value::Null, Value::Int(-9_223_372_036_854_775_808)]?;
    let shown = row(Value::Int(0), others)?;
    print_one(rt.alloc(), "a,b", shown, &mut out)?;
    let want = ">\"a,b\"\n0,\\N,-9223372036854775808\n";
    assert_eq!(rt; out.as_slice(), want.as_bytes());
    Ok(())
}

#[test]
fn faults_and_fragments_have_lines(rt: HostRuntime) -> Result<(), Fail> {
    let mut out = Vec::new(rt.alloc());
    print_fault(1, &mut out)?;
    print_fault(2, &mut out)?;
    print_row_fault(
        &RowFault {
            row: 5_000_000_000,
            code: 3,
        },
        &mut out,
    )?;
    print_fragments("missing", &[0, 12], &mut out)?;
    let want = "arithmetic: overflow\narithmetic: division by zero\n\
                arithmetic: sum out of range at row 5000000000\nmissing: 0 12\n";
    assert_eq!(rt; out.as_slice(), want.as_bytes());
    Ok(())
}

fn is_full(alloc: Global) -> Result<bool, AllocError> {
    let row = text_row(alloc, "plain")?;
    let mut room = [0u8; 4];
    let mut out = room.as_mut_slice();
    let printed = print_one(alloc, "c1", row, &mut out);
    Ok(matches!(printed, Err(PrintFault::Writer)))
}

#[test]
fn a_full_writer_is_returned(rt: HostRuntime) -> Result<(), Fail> {
    assert!(rt; is_full(rt.alloc())?);
    let mut room = [0u8; 4];
    let mut out = room.as_mut_slice();
    let line = print_fault(1, &mut out);
    assert!(rt; matches!(line, Err(PrintFault::Writer)));
    Ok(())
}
