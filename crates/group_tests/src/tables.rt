//! Tables with a sum for each group, and what they hand out.
ghost use Rattle.std.specs.Prelude.{◌≡◌, ◌≤◌, ◌+◌, ◌∷◌, [], length, map, IfOk};
ghost use Rattle.meaning.specs.declared.plan.AggregateKind.TheVariants.{Sum};
ghost use Rattle.group_keys.specs.Rows.{AreLanesOf};
ghost use Rattle.group_by.specs.Shape.{shape_of};
ghost use Rattle.group_tests.specs.Tables.{HasTaken};

use crate::plans::{ALL, Lists, int_key, plan_with, sums};
use crate::rows::show_row;
use accumulators::Group;
use group_by::GroupTable;
use meaning::{GroupingKey, Plan, Sequence, Text};
use short_vectors::vector_of;
use std::alloc::{AllocError, Global};
use std::fmt::Write;
use vectors::{Selection, Vector};

fn keys_of(alloc: Global, many: usize) -> Result<Sequence<GroupingKey>, AllocError> {
    let mut keys = Sequence::new(alloc);
    for _ in 0..many {
        keys.push(int_key())?;
    }
    Ok(keys)
}

/// One sum by so many keys.
pub fn sum_by(alloc: Global, keys: usize) -> Result<Plan, AllocError>
    ensures { IfOk result (λ plan. map (λ a. a.kind) plan.aggs ≡ Sum ∷ []) }
{
    let name = Text::new(alloc, "t")?;
    let keys = keys_of(alloc, keys)?;
    let aggs = sums(alloc)?;
    let lists = Lists {
        keys,
        aggs,
        items: Sequence::new(alloc),
        order: Sequence::new(alloc),
    };
    Ok(plan_with(alloc, ALL, name, lists, None))
}

/// The table with rows more, by these keys.
pub fn with_rows(
    alloc: Global,
    table: GroupTable,
    keys: &[Vector<'_>],
    arguments: &[Vector<'_>],
    lanes: usize,
) -> Result<GroupTable, AllocError>
    requires kinds { length table.shape.kinds ≡ length arguments.now }
    requires few { table.rows + lanes ≤ 1000000 }
    requires keys { AreLanesOf lanes keys.now }
    requires arguments { AreLanesOf lanes arguments.now }
    ensures { IfOk result (λ t. HasTaken table.shape (table.rows + lanes) table.handed t) }
{
    let selection = Selection::all(alloc, lanes as u32)?;
    let table = table.add(alloc, keys, arguments, &selection)?;
    Ok(table)
}

/// The table of rows with a sum each.
pub fn table_of(
    alloc: Global,
    plan: &Plan,
    keys: &[Vector<'_>],
    list: &[i64],
) -> Result<GroupTable, AllocError>
    requires sum { map (λ a. a.kind) plan.now.aggs ≡ Sum ∷ [] }
    requires few { length list.now ≤ 1000 }
    requires keys { AreLanesOf (length list.now) keys.now }
    ensures { IfOk result (HasTaken (shape_of plan.now) (length list.now) 0) }
{
    let table = GroupTable::new(alloc, plan)?;
    let arguments = [vector_of(alloc, list, list.len())?];
    with_rows(alloc, table, keys, &arguments, list.len())
}

fn show_group(shown: &mut String, group: &Group) -> Result<(), AllocError> {
    show_row(shown, group.key())?;
    write!(shown, "{}", group.rows())?;
    for state in group.states() {
        write!(shown, " {} {}", state.count(), state.sum())?;
    }
    shown.push_str("; ")
}

/// Each group's key, row count and sum.
pub fn shown(alloc: Global, groups: &[Group]) -> Result<String, AllocError> {
    let mut shown = String::new(alloc);
    for group in groups {
        show_group(&mut shown, group)?;
    }
    Ok(shown)
}
