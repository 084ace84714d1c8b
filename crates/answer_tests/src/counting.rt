//! A query that counts the rows of a table of five, in fragments of two and three.
use coordinator::{Ended, Gather, WholeFault, whole};
use meaning::Cut;
use std::alloc::Global;
use std::io::Write;
use std::test::Fail;

pub fn cut(alloc: Global) -> Result<Cut, Fail> {
    let lengths = vec![in alloc; 2, 3]?;
    Ok(Cut::new(lengths)?)
}

/// Prints the count to this writer.
pub fn count<W: Write>(
    alloc: Global,
    cut: &Cut,
    out: &mut W,
) -> Result<(Ended, Gather), WholeFault> {
    let catalog = b"fact sales\ncol q int\n";
    let csvs = [("sales", b"q\n1\n2\n3\n4\n5\n".as_slice())];
    let query = b"SELECT COUNT(*) FROM sales";
    whole(alloc, catalog, &csvs, query, cut, 1024, out)
}

/// What has taken the answers of both fragments.
pub fn counted(alloc: Global) -> Result<Gather, Fail> {
    let cut = cut(alloc)?;
    let mut out = Vec::new(alloc);
    let (_, gather) = count(alloc, &cut, &mut out)?;
    Ok(gather)
}
