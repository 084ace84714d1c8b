//! The values that a block has for its rows to name.
ghost use Rattle.std.specs.Prelude.{◌≡◌, ◌<◌, false, length, slice_index_or, IfSome, IsNone};
ghost use Rattle.meaning.specs.Order.{value_in};
ghost use Rattle.meaning.specs.declared.value.Value.TheVariants.{Null};
ghost use Rattle.block_predicates.specs.Entries.{AreEntriesOf, has_entries, values_in};

use blocks::{BlockView, DictionaryView, RunsView};
use meaning::ValueRef;

/// The entries of a dictionary, or the values of runs.
#[derive(Drop)]
pub enum Entries<'a> {
    Dictionary(DictionaryView<'a>),
    Runs(RunsView<'a>),
}

/// The entries of a block, where it is of a kind that has such.
pub fn entries_of<'a>(block: &BlockView<'a>) -> Option<Entries<'a>>
    ensures some { IfSome result (λ entries. AreEntriesOf block.now entries) }
    ensures none { IsNone result → has_entries block.now.kind ≡ false }
{
    if let Some(dictionary) = block.dictionary() {
        return Some(Entries::Dictionary(dictionary));
    }
    match block.runs() {
        Some(runs) => Some(Entries::Runs(runs)),
        None => None,
    }
}

impl<'a> Entries<'a> {
    /// How many entries there are.
    pub fn len(&self) -> usize
        ensures { result ≡ length (values_in self.now) }
    {
        match self {
            Entries::Dictionary(dictionary) => dictionary.len(),
            Entries::Runs(runs) => runs.len(),
        }
    }

    fn entry(&self, index: usize) -> ValueRef<'a>
        requires { index < length (values_in self.now) }
        ensures { value_in result ≡ slice_index_or (values_in self.now) index Null }
    {
        match self {
            Entries::Dictionary(dictionary) => dictionary.entry(index),
            Entries::Runs(runs) => runs.value(index),
        }
    }

    /// An entry; NULL behind the last.
    pub fn lane(&self, index: usize) -> ValueRef<'a>
        ensures { value_in result ≡ slice_index_or (values_in self.now) index Null }
    {
        if index < self.len() {
            return self.entry(index);
        }
        ValueRef::Null
    }
}
