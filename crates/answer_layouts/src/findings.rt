//! What is found of groups while they are read, one after the other.
ghost use Rattle.std.specs.Prelude.{◌≡◌, ◌∷◌, ◌++◌, ◌+◌, [], ℕ, List};
ghost use Rattle.meaning.specs.declared.answer.Group.{Group as AGroup};
ghost use Rattle.meaning.specs.declared.plan.Plan.{Plan as APlan};
ghost use Rattle.answer_layouts.specs.Found.{AreFound, HasJudged, HasRows, comes_after};

use crate::buffers::{Buffers, key_buffer};
use crate::checks::{are_sets, are_states_possible, is_before, is_typed_group};
use aggregate_states::Group;
use meaning::{Plan, Row};
use std::alloc::Global;

/// What was found of an answer's groups while they were read. Of a fault's groups, which are none,
/// nothing is amiss.
#[derive(Clone, Copy)]
pub struct Findings {
    /// Whether keys, least and greatest values and the entries of sets have their types.
    pub are_typed: bool,
    /// Whether each key is less than the next, and each entry of a set.
    pub are_in_order: bool,
    /// How many rows the groups have together, if 64 bits can hold the number.
    pub rows: Option<u64>,
    /// Whether each group has a row.
    pub have_rows: bool,
    /// Whether each aggregate can have its state in a group of so many rows.
    pub are_states_possible: bool,
    /// Whether as many integers as were summed can have the sums.
    pub are_sums_possible: bool,
}

/// What was found of the groups so far, but for their sums, and the key of the last.
#[derive(Drop)]
pub struct Judged {
    are_typed: bool,
    are_ascending: bool,
    are_sets: bool,
    rows: Option<u64>,
    have_rows: bool,
    are_states_possible: bool,
    last: Option<Row>,
}

/// Whether a key comes after the last, if there is one.
fn comes_after(last: &Option<Row>, key: &Row) -> bool
    ensures { result ≡ comes_after last.now key.now }
{
    match last {
        Some(last) => is_before(last, key),
        None => true,
    }
}

/// So many rows and more, if 64 bits can hold their number.
fn more_rows(rows: Option<u64>, more: u64) -> Option<u64>
    ensures { (total : ℕ) → HasRows rows total → HasRows result (total + more) }
{
    match rows {
        Some(rows) => rows.checked_add(more),
        None => None,
    }
}

impl Judged {
    /// What is found of no groups.
    pub fn none() -> Judged
        ensures { (plan : APlan) → HasJudged plan [] result }
    {
        Judged {
            are_typed: true,
            are_ascending: true,
            are_sets: true,
            rows: Some(0),
            have_rows: true,
            are_states_possible: true,
            last: None,
        }
    }

    /// What is found of these groups and one more behind them, and the buffers of what is given up
    /// of them.
    pub fn with(self, alloc: Global, plan: &Plan, group: Group) -> (Judged, Buffers)
        ensures { (groups : List AGroup) → HasJudged plan.now groups self
            → HasJudged plan.now (groups ++ group ∷ []) result.0 }
    {
        let aggregates = plan.aggs.as_slice();
        let are_typed = self.are_typed & is_typed_group(plan, &group);
        let are_ascending = self.are_ascending & comes_after(&self.last, group.key());
        let are_sets = self.are_sets & are_sets(group.states());
        let rows = more_rows(self.rows, group.rows());
        let have_rows = self.have_rows & (group.rows() >= 1);
        let are_states_possible = self.are_states_possible
            & are_states_possible(aggregates, group.rows(), group.states());
        let (key, _, states) = group.into_parts();
        let spare = Buffers {
            key: key_buffer(alloc, self.last),
            states: states.into_vec(),
        };
        let judged = Judged {
            are_typed,
            are_ascending,
            are_sets,
            rows,
            have_rows,
            are_states_possible,
            last: Some(key),
        };
        (judged, spare)
    }

    /// What was found, with whether the sums are possible.
    pub fn findings(self, are_sums_possible: bool) -> Findings
        ensures found { (plan : APlan) (groups : List AGroup) → HasJudged plan groups self
            → AreFound plan groups result }
        ensures sums { result.are_sums_possible ≡ are_sums_possible }
    {
        Findings {
            are_typed: self.are_typed,
            are_in_order: self.are_ascending & self.are_sets,
            rows: self.rows,
            have_rows: self.have_rows,
            are_states_possible: self.are_states_possible,
            are_sums_possible,
        }
    }
}
