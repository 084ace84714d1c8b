//! Positions that are kept by a mask.
ghost use Rattle.std.specs.Prelude.{◌≡◌, false, length, slice_index_or, filter};
ghost use Rattle.std.specs.List.{list_all, list_any};

use vectors::Selection;

/// Whether any mark is set. All are looked at, sixteen at a time as it is compiled.
pub fn is_any_set(marks: &[bool]) -> bool
    ensures { result ≡ list_any (λ mark. mark) marks.now }
{
    let mut is_any = false;
    for mark in marks {
        is_any |= *mark;
    }
    is_any
}

/// The same whether all are.
fn are_all_set(marks: &[bool]) -> bool
    ensures { result ≡ list_all (λ mark. mark) marks.now }
{
    let mut are_all = true;
    for mark in marks {
        are_all &= *mark;
    }
    are_all
}

/// Keeps no position.
pub fn keep_none(selection: &mut Selection)
    ensures { selection.new ≡ record {
      below = selection.old.below;
      list = filter (λ _. false) selection.old.list;
    } }
{
    // No effect at run time. The proof reads from this call that positions ascend below the length.
    let _positions = selection.len();
    selection.narrow(|_| false);
}

/// Keeps the positions that the mask marks. Where it marks all of them or none, no position is asked.
pub fn keep_marked(mask: &[bool], selection: &mut Selection)
    requires { length mask.now ≡ selection.old.below }
    ensures { selection.new ≡ record {
      below = selection.old.below;
      list = filter (λ p. slice_index_or mask.now p false) selection.old.list;
    } }
{
    // No effect at run time. The proof reads from this call that positions ascend below the length.
    let _positions = selection.len();
    if are_all_set(mask) {
        return;
    }
    if !is_any_set(mask) {
        keep_none(selection);
        return;
    }
    selection.keep_marked(mask);
}
