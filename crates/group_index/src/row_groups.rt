//! The group indexes of rows, listed where they are not all one.
ghost use Rattle.std.specs.Prelude.{◌≡◌};
ghost use Rattle.group_index.specs.RowGroups.{listed};

use aggregate_states::one_group_index;

/// A group index for each of some rows.
#[derive(Drop)]
pub enum RowGroups {
    /// That of a first row, and of so many behind it.
    One { group_index: u32, behind: usize },
    Each(Vec<u32>),
}

/// These group indexes.
pub fn row_groups(group_indexes: Vec<u32>) -> RowGroups
    ensures { listed result ≡ group_indexes.items }
{
    match one_group_index(group_indexes.as_slice()) {
        Some(group_index) => RowGroups::One {
            group_index,
            behind: group_indexes.len() - 1,
        },
        None => RowGroups::Each(group_indexes),
    }
}
