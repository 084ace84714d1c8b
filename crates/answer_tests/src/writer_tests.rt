//! Whole queries and reports on writers that fail.
use crate::counting::{count, counted, cut};
use coordinator::{Ended, Gather, WholeFault};
use meaning::Cut;
use std::alloc::Global;
use std::mem::drop;
use std::test::Fail;

fn count_to_full(alloc: Global, cut: &Cut) -> Result<(Ended, Gather), WholeFault> {
    let mut room = [0u8; 4];
    let mut out = room.as_mut_slice();
    count(alloc, cut, &mut out)
}

fn is_writer(fault: WholeFault) -> bool {
    matches!(fault, WholeFault::Writer)
}

fn is_returned(alloc: Global, cut: &Cut) -> bool {
    match count_to_full(alloc, cut) {
        Err(fault) => is_writer(fault),
        Ok(counted) => {
            drop(counted);
            false
        }
    }
}

#[test]
fn whole_reports_a_full_writer(rt: HostRuntime) -> Result<(), Fail> {
    let cut = cut(rt.alloc())?;
    assert!(rt; is_returned(rt.alloc(), &cut));
    Ok(())
}

fn refusal_of_print(alloc: Global, gather: &Gather) -> Option<u8> {
    let mut room = [0u8; 4];
    let mut out = room.as_mut_slice();
    match gather.print_report(alloc, &mut out) {
        Ok(_) => None,
        Err(fault) => Some(fault.number()),
    }
}

#[test]
fn a_coordinator_reports_a_full_writer(rt: HostRuntime) -> Result<(), Fail> {
    let gather = counted(rt.alloc())?;
    let refusal = refusal_of_print(rt.alloc(), &gather);
    drop(gather);
    assert_eq!(rt; refusal, Some(12));
    Ok(())
}

fn refusal_of_preview(alloc: Global, gather: &Gather) -> Option<u8> {
    let mut room = [0u8; 4];
    let mut out = room.as_mut_slice();
    match gather.preview(alloc, &mut out) {
        Ok(_) => None,
        Err(fault) => Some(fault.number()),
    }
}

#[test]
fn a_preview_reports_a_full_writer(rt: HostRuntime) -> Result<(), Fail> {
    let gather = counted(rt.alloc())?;
    let refusal = refusal_of_preview(rt.alloc(), &gather);
    drop(gather);
    assert_eq!(rt; refusal, Some(12));
    Ok(())
}
