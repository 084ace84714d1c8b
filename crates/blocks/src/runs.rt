//! Values with the lengths of their runs.

pub(crate) mod check;
pub(crate) mod read;
pub(crate) mod seek;
pub(crate) mod view;

pub use view::RunsView;
