//! Values with the lengths of their runs.

pub(crate) mod encode;
pub(crate) mod of_cells;
pub(crate) mod size;
