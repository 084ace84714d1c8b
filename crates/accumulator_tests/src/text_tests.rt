//! The least and the greatest of texts, which are copied.
ghost use Rattle.std.specs.Prelude.{◌≡◌};

use accumulators::{Accumulator, AggFault, MaxAcc, MinAcc};
use meaning::Value;
use short_vectors::twice;
use std::alloc::{AllocError, Global};
use std::mem::drop;
use std::process::Abort;
use vectors::Selection;

fn text_of(alloc: Global, value: Result<Value, AggFault>) -> Result<String, AllocError> {
    match value {
        Ok(Value::Text(text)) => String::from_str(alloc, text.as_str()),
        Ok(_) => String::from_str(alloc, "no text"),
        Err(_) => Err(AllocError),
    }
}

/// What an aggregate of nothing is once a text came twice.
fn text_in<A: Accumulator>(alloc: Global, acc: &mut A, text: &str) -> Result<String, AllocError>
    requires { (A.held acc.old).count ≡ 0 }
{
    let selection = Selection::all(alloc, 2)?;
    acc.update_batch(alloc, &twice(text), &selection)?;
    text_of(alloc, acc.evaluate(alloc))
}

fn least_of(alloc: Global, text: &str) -> Result<String, AllocError> {
    let mut acc = MinAcc::new();
    let least = text_in(alloc, &mut acc, text);
    drop(acc);
    least
}

fn greatest_of(alloc: Global, text: &str) -> Result<String, AllocError> {
    let mut acc = MaxAcc::new();
    let greatest = text_in(alloc, &mut acc, text);
    drop(acc);
    greatest
}

#[test]
fn the_least_text_is_copied(rt: HostRuntime) -> Result<(), AllocError> {
    let shown = least_of(rt.alloc(), "north")?;
    assert_eq!(rt; shown.as_str(), "north");
    Ok(())
}

#[test]
fn the_greatest_text_is_copied(rt: HostRuntime) -> Result<(), AllocError> {
    let shown = greatest_of(rt.alloc(), "north")?;
    assert_eq!(rt; shown.as_str(), "north");
    Ok(())
}
