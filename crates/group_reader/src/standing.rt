//! How far a reader came.

use fragment_file::FileFault;

#[derive(Clone, Copy, Drop)]
pub enum Standing {
    /// No row group stands, and there may be more.
    Between,
    /// The row group that came last stands.
    AtGroup,
    /// All row groups came, and the seal was compared.
    AtEnd,
    /// Refused, and from now on again.
    Refused(FileFault),
}
