//! Fragment, dimension and cut files: columns in row groups of blocks, behind a header and before a
//! seal.
#![tactic(auto)]

mod copying;
mod cut_reading;
mod cut_writing;
mod fault;
mod fields;
mod group_view;
mod groups;
mod header;
mod laws;
mod limits;
mod name;
mod opening;
mod view;
mod writing;
mod writing_groups;
mod writing_header;

pub use copying::{read_column, read_columns};
pub use cut_reading::read_cut;
pub use cut_writing::write_cut;
pub use fault::FileFault;
pub use fields::{flag_of, is_named, type_of};
pub use group_view::GroupView;
pub use groups::{block_of, next_rows};
pub use header::{Header, Slice};
pub use laws::{one_cut, one_file, one_table_slice, rows_are_columns, rows_are_counted};
pub use limits::is_1_to;
pub use name::text_of;
pub use opening::{FRAGMENT_MAGIC, open};
pub use view::{BlockLocation, FragmentView};
pub use writing::write;
