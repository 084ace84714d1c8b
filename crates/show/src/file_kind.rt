//! Which of the program's files bytes begin as.
ghost use Rattle.std.specs.Prelude.{◌≡◌};
ghost use Rattle.show.specs.Shown.{kind_of};

use partial_codec::{Content, Format, format_in};

/// The files that the program writes.
#[derive(Clone, Copy)]
pub enum FileKind {
    /// Of a fragment or a dimension.
    Table,
    Cut,
    Answer(Format),
    State(Format),
    Journal,
}

/// The kind of file whose magic stands at the front, if there is one.
pub fn kind_of(bytes: &[u8]) -> Option<FileKind>
    ensures { result ≡ kind_of bytes.now }
{
    if bytes.starts_with(b"XCF1") {
        return Some(FileKind::Table);
    }
    if bytes.starts_with(b"XCL1") {
        return Some(FileKind::Cut);
    }
    if bytes.starts_with(b"XGJ1") {
        return Some(FileKind::Journal);
    }
    if let Some(format) = format_in(Content::Answer, bytes) {
        return Some(FileKind::Answer(format));
    }
    match format_in(Content::State, bytes) {
        Some(format) => Some(FileKind::State(format)),
        None => None,
    }
}
