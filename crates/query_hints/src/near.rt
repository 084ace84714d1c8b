//! Which of several names is like another.
use std::alloc::{AllocError, Global};
use std::io;
use std::io::Write;
use strsim::osa_distance;

/// How many letters of a name may be wrong.
fn most_wrong(name: &str) -> usize {
    (name.len() / 3).max(1)
}

/// The name that is most like another, where one is like it.
fn nearest<'a>(
    alloc: Global,
    name: &str,
    names: &[&'a str],
) -> Result<Option<&'a str>, AllocError> {
    let mut least = most_wrong(name);
    let mut found = None;
    for other in names {
        let wrong = osa_distance(alloc, name, other)?;
        if wrong <= least {
            least = wrong.saturating_sub(1);
            found = Some(*other);
        }
    }
    Ok(found)
}

/// Writes names with commas between them.
pub fn put_names<E: Write>(names: &[&str], err: &mut E) -> io::Result<()> {
    for (at, name) in names.iter().enumerate() {
        let comma = if at == 0 { "" } else { ", " };
        write!(err, "{comma}`{name}`")?;
    }
    Ok(())
}

/// Ends a line with the name that is most like another, or with all names.
pub fn put_near<E: Write>(
    alloc: Global,
    name: &str,
    names: &[&str],
    err: &mut E,
) -> io::Result<()> {
    if let Ok(Some(other)) = nearest(alloc, name, names) {
        return writeln!(err, "; did you mean `{other}`?");
    }
    err.write_all(b"; there are: ")?;
    put_names(names, err)?;
    err.write_all(b"\n")
}
