//! The row groups of an opened file.
ghost use Rattle.std.specs.Prelude.{◌≡◌};
ghost use Rattle.scan_select.specs.FileGroups.{all_coming, all_groups, rows_of_all};

use crate::row_groups::RowGroups;
use fragment_file::{FileFault, FragmentView, GroupView, Header};
use std::marker::Model;

/// The row groups of an opened file, one after the other. They can always be had.
#[derive(Drop)]
pub struct FileGroups<'v> {
    view: &'v FragmentView<'v>,
    // The index of the row group that came last.
    at: Option<usize>,
    // How many row groups came.
    next: usize,
}

impl<'v> Model for FileGroups<'v> {
    ghost use Rattle.std.specs.Prelude.{◌<◌, ◌≤◌, length, IfSome, drop, slice_index_or, option_map, []};
    ghost use Rattle.scan_select.specs.FileGroups.{FileGroupsSpec, IsAt};

    ghost Value = { FileGroupsSpec };

    ghost view = { λ g. record {
      file = g.view.now;
      coming = drop g.next g.view.now.groups;
      current = option_map (λ k. slice_index_or g.view.now.groups k []) g.at;
    } };

    ghost invariant = { λ g. IsAt g.view.now.groups g.at };
}

impl<'v> FileGroups<'v> {
    /// Before the first row group.
    pub fn new(view: &'v FragmentView<'v>) -> FileGroups<'v>
        ensures { result ≡ all_groups view.entry.now }
    {
        FileGroups {
            view,
            at: None,
            next: 0,
        }
    }
}

impl<'v> RowGroups for FileGroups<'v> {
    ghost header_of = { λ g. g.file.header };

    ghost is_coming = { λ g c. c ≡ all_coming g.coming };

    ghost rows_left = { λ g. rows_of_all g.coming };

    ghost current = { λ g. g.current };

    fn header(&self) -> &Header {
        self.view.header()
    }

    fn advance(&mut self) -> Result<bool, FileFault> {
        if self.next < self.view.group_count() {
            // No effect at run time. The proof reads from these calls that a row group has a row.
            let (_header, _group) = (self.view.header(), self.view.group(self.next));
            self.at = Some(self.next);
            self.next += 1;
            return Ok(true);
        }
        self.at = None;
        Ok(false)
    }

    fn group(&self) -> Option<GroupView<'_>> {
        let index = self.at?;
        // That the file has a column, so that a row group has a row.
        let _header = self.view.header();
        Some(self.view.group(index))
    }
}
