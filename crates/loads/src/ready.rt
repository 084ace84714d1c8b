//! A closed file with its path.
use meaning::Text;

/// A file that has all its bytes, and the path that it is for. It stands under no path yet.
#[derive(Drop)]
pub struct Ready<P> {
    pub path: Text,
    pub file: P,
}
