//! Conditions that stand on a block: rows are kept by marks of its entries.
ghost use Rattle.std.specs.Prelude.{◌≡◌, ◌+◌, ◌<◌, ◌≤◌, ℕ, true, false, length, take, drop, slice_index_or, filter, if◌then◌else◌, IfOk, IfSome, IsNone};
ghost use Rattle.std.specs.List.{list_any};
ghost use Rattle.meaning.specs.declared.expr.Expr.{Expr as AnExpr};
ghost use Rattle.blocks.specs.declared.kind.Kind.TheVariants as kind_is;
ghost use Rattle.blocks.specs.Block.{nulls_of};
ghost use Rattle.blocks.specs.DictionaryView.{dictionary_in};
ghost use Rattle.pushdown.specs.FactColumn.{StandsOn};
ghost use Rattle.block_predicates.specs.Entries.{has_entries};
ghost use Rattle.block_predicates.specs.Marks.{AreMarksFor, kept_of};
ghost use Rattle.block_predicates.specs.Predicate.{IsPredicateOf, marks_in, predicate_of};

use crate::keeping::{is_any_set, keep_marked, keep_none};
use crate::marks::EntryMarks;
use crate::spreading::is_marked;
use blocks::{BlockView, DictionaryView};
use meaning::Expr;
use std::alloc::{AllocError, Global};
use std::marker::Model;
use vectors::Selection;

#[derive(Drop)]
enum Marks<'a> {
    Owned(EntryMarks),
    Lent(&'a EntryMarks),
}

impl<'a> Marks<'a> {
    fn get(&self) -> &EntryMarks
        ensures { result.now ≡ marks_in self.now }
    {
        match self {
            Marks::Owned(marks) => marks,
            Marks::Lent(marks) => *marks,
        }
    }
}

/// A condition on one column of the fact over a block of that column: rows are kept by what the
/// condition is of the block's entries. Contracts see the block, how many lanes were evaluated, and
/// which rows are kept.
#[derive(Drop)]
pub struct BlockPredicate<'a> {
    marks: Marks<'a>,
    block: BlockView<'a>,
}

impl<'a> Model for BlockPredicate<'a> {
    ghost use Rattle.block_predicates.specs.Predicate.{PredicateSpec, marks_in, predicate_of};

    ghost Value = { PredicateSpec };

    ghost view = { λ p. predicate_of p.block (marks_in p.marks) };
}

/// Whether a row is kept: by the mark of NULL, else by the mark with this number.
#[inline(always)]
fn keeps(block: &BlockView<'_>, marks: &EntryMarks, row: usize, index: usize) -> bool
    requires { row < block.now.rows }
    ensures { result ≡ (if slice_index_or (nulls_of block.now) row false then marks.now.null
        else slice_index_or marks.now.marks.items index false) }
{
    if block.is_null(row) {
        return marks.null;
    }
    is_marked(marks.marks.as_slice(), index)
}

/// Whether a row of a dictionary is kept: by its code.
#[inline(always)]
fn keeps_coded(
    block: &BlockView<'_>,
    dictionary: &DictionaryView<'_>,
    marks: &EntryMarks,
    row: usize,
) -> bool
    requires kind { block.now.kind ≡ kind_is.Dict }
    requires dictionary { dictionary.now ≡ dictionary_in block.now }
    requires within { row < block.now.rows }
    ensures { result ≡ slice_index_or (kept_of block.now marks.now) row false }
{
    keeps(block, marks, row, dictionary.code(row) as usize)
}

/// Whether a row of a block of another kind is kept.
#[inline(always)]
fn keeps_row(block: &BlockView<'_>, marks: &EntryMarks, row: usize) -> bool
    requires kind { ¬ (block.now.kind ≡ kind_is.Dict) }
    requires within { row < block.now.rows }
    ensures { result ≡ slice_index_or (kept_of block.now marks.now) row false }
{
    keeps(block, marks, row, row)
}

fn select_coded(
    block: &BlockView<'_>,
    dictionary: &DictionaryView<'_>,
    marks: &EntryMarks,
    from: usize,
    selection: &mut Selection,
)
    requires kind { block.now.kind ≡ kind_is.Dict }
    requires dictionary { dictionary.now ≡ dictionary_in block.now }
    requires within { from + selection.old.below ≤ block.now.rows }
    ensures { selection.new ≡ record {
      below = selection.old.below;
      list = filter (λ p. slice_index_or (kept_of block.now marks.now) (from + p) false)
          selection.old.list;
    } }
{
    // No effect at run time. The proof reads from these calls that positions ascend below the
    // length, and that a block has few rows.
    let _positions = selection.len();
    let _rows = block.len();
    selection.narrow(|position| keeps_coded(block, dictionary, marks, from + position as usize));
}

/// Whether no row is kept whatever its code: neither NULL nor an entry is marked.
fn keeps_nothing(marks: &EntryMarks) -> bool
    ensures null { result ≡ true → marks.now.null ≡ false }
    ensures entries { result ≡ true → list_any (λ mark. mark) marks.now.marks.items ≡ false }
{
    if marks.null {
        return false;
    }
    !is_any_set(marks.marks.as_slice())
}

/// The same. No code is read where the marks keep no row.
fn select_entries(
    block: &BlockView<'_>,
    dictionary: &DictionaryView<'_>,
    marks: &EntryMarks,
    from: usize,
    selection: &mut Selection,
)
    requires kind { block.now.kind ≡ kind_is.Dict }
    requires dictionary { dictionary.now ≡ dictionary_in block.now }
    requires within { from + selection.old.below ≤ block.now.rows }
    ensures { selection.new ≡ record {
      below = selection.old.below;
      list = filter (λ p. slice_index_or (kept_of block.now marks.now) (from + p) false)
          selection.old.list;
    } }
{
    // No effect at run time. The proof reads from this call that positions ascend below the length.
    let _positions = selection.len();
    if keeps_nothing(marks) {
        keep_none(selection);
        return;
    }
    select_coded(block, dictionary, marks, from, selection);
}

/// So many marks from one on.
fn marks_from(marks: &[bool], from: usize, count: usize) -> &[bool]
    requires { from + count ≤ length marks.now }
    ensures { result.now ≡ take count (drop from marks.now) }
{
    &marks[from..from + count]
}

/// The same of a block without NULL that has a mark for each row.
fn select_marked(block: &BlockView<'_>, marks: &EntryMarks, from: usize, selection: &mut Selection)
    requires kind { ¬ (block.now.kind ≡ kind_is.Dict) }
    requires nullable { block.now.nullable ≡ false }
    requires within { from + selection.old.below ≤ block.now.rows }
    requires long { from + selection.old.below ≤ length marks.now.marks.items }
    ensures { selection.new ≡ record {
      below = selection.old.below;
      list = filter (λ p. slice_index_or (kept_of block.now marks.now) (from + p) false)
          selection.old.list;
    } }
{
    // No effect at run time. The proof reads from this call that positions ascend below the length.
    let _positions = selection.len();
    let mask = marks_from(marks.marks.as_slice(), from, selection.below());
    keep_marked(mask, selection);
}

fn select_rows(block: &BlockView<'_>, marks: &EntryMarks, from: usize, selection: &mut Selection)
    requires kind { ¬ (block.now.kind ≡ kind_is.Dict) }
    requires within { from + selection.old.below ≤ block.now.rows }
    ensures { selection.new ≡ record {
      below = selection.old.below;
      list = filter (λ p. slice_index_or (kept_of block.now marks.now) (from + p) false)
          selection.old.list;
    } }
{
    // No effect at run time. The proof reads from these calls that positions ascend below the
    // length, and that a block has few rows.
    let _positions = selection.len();
    let _rows = block.len();
    if !block.nullable() && from + selection.below() <= marks.marks.len() {
        select_marked(block, marks, from, selection);
    } else {
        selection.narrow(|position| keeps_row(block, marks, from + position as usize));
    }
}

impl<'a> BlockPredicate<'a> {
    /// Evaluates a condition once on the entries of a block of the column that it is on, where it
    /// stands on the block: it names one column of the fact and nothing else, has no arithmetic,
    /// and the block is a dictionary or runs.
    pub fn new(
        alloc: Global,
        conjunct: &Expr,
        block: &BlockView<'a>,
    ) -> Result<Option<BlockPredicate<'a>>, AllocError>
        ensures some { IfOk result (λ found. IfSome found (IsPredicateOf conjunct.now block.now)) }
        ensures none { IfOk result (λ found. IsNone found → (column : ℕ)
            → StandsOn column conjunct.now → has_entries block.now.kind ≡ false) }
    {
        match EntryMarks::new(alloc, conjunct, block)? {
            Some(marks) => Ok(Some(BlockPredicate {
                marks: Marks::Owned(marks),
                block: block.copy(),
            })),
            None => Ok(None),
        }
    }

    /// The same by marks that were made of this block before. Takes no memory.
    pub fn over(marks: &'a EntryMarks, block: &BlockView<'a>) -> BlockPredicate<'a>
        ensures value { result ≡ predicate_of block.now marks.entry.now }
        ensures of { (conjunct : AnExpr) → AreMarksFor conjunct block.now marks.entry.now
            → IsPredicateOf conjunct block.now result }
    {
        BlockPredicate {
            marks: Marks::Lent(marks),
            block: block.copy(),
        }
    }

    /// How many lanes were evaluated: the entries of the dictionary or the runs, one more where the
    /// column is nullable.
    pub fn count(&self) -> usize
        ensures { result ≡ self.now.count }
    {
        self.marks.get().count()
    }

    /// Keeps the positions whose row of the block, counted from row `from`, makes the condition
    /// TRUE. Takes no memory.
    pub fn select(&self, from: usize, selection: &mut Selection)
        requires { from + selection.old.below ≤ self.now.block.rows }
        ensures { selection.new ≡ record {
          below = selection.old.below;
          list = filter (λ p. slice_index_or self.now.kept (from + p) false) selection.old.list;
        } }
    {
        let marks = self.marks.get();
        match self.block.dictionary() {
            Some(dictionary) => select_entries(&self.block, &dictionary, marks, from, selection),
            None => select_rows(&self.block, marks, from, selection),
        }
    }
}
