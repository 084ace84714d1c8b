//! The tables that a plan names, from their CSV files.
ghost use Rattle.std.specs.Prelude.{◌≡◌, ◌≢◌, All, IfOk, IfErr, OnOk, Err, true, false};
ghost use Rattle.std.specs.List.{AllZip};
ghost use Rattle.meaning.specs.Catalog.{IsWellFormed};
ghost use Rattle.meaning.specs.VectorLength.{is_vector_length};
ghost use Rattle.planner.specs.DeclaredPlans.{IsDeclaredJoin};
ghost use Rattle.coordinator.specs.Fragment.{IsJoinedFile};
ghost use Rattle.coordinator.specs.Whole.{AreTablesLoaded, IsTablesRefused, files_in, tables_of};
ghost use Rattle.coordinator.specs.declared.fault.WholeFault.TheVariants as fault;

use crate::csvs::{check_csvs, csv_of};
use crate::fault::WholeFault;
use crate::sources::Sources;
use crate::table_files::joined_files;
use columns::Column;
use loader::load_fact;
use meaning::{Catalog, Plan, Sequence, is_vector_length};
use std::alloc::Global;
use std::mem::drop;

/// The fact's fragments, and the file of each joined dimension, in the order of the joins.
#[derive(Drop)]
pub struct Tables {
    pub fragments: Vec<Sequence<Column>>,
    pub dims: Vec<Sequence<u8>>,
}

/// The tables that the plan names: first each CSV file is found, the fact's before the dimensions',
/// then they are loaded in this order.
fn load_tables(
    alloc: Global,
    catalog: &Catalog,
    sources: Sources<'_>,
    plan: &Plan,
) -> Result<Tables, WholeFault>
    requires catalog { IsWellFormed catalog.now }
    requires joins { All (IsDeclaredJoin catalog.now) plan.now.joins }
    ensures loaded { IfOk result
        (λ tables. AreTablesLoaded catalog.now (files_in sources.entry.csvs.now)
        sources.entry.cut.now plan.now tables.fragments.items tables.dims.items) }
    ensures joined { IfOk result
        (λ tables. AllZip (IsJoinedFile catalog.now) plan.now.joins tables.dims.items) }
    ensures refused { IfErr result (λ e. e ≢ fault.Memory
        → tables_of catalog.now (files_in sources.entry.csvs.now) sources.entry.cut.now plan.now
        ≡ Err e) }
{
    let csv = csv_of(sources.csvs, &plan.fact.name)?;
    check_csvs(sources.csvs, plan.joins.as_slice())?;
    let fragments = load_fact(alloc, catalog, csv, sources.cut)?;
    match joined_files(alloc, catalog, sources.csvs, plan.joins.as_slice()) {
        Ok(dims) => Ok(Tables { fragments, dims }),
        Err(e) => {
            drop(fragments);
            Err(e)
        }
    }
}

fn check_vector_len(vector_len: usize) -> Result<(), WholeFault>
    ensures ok { OnOk result (is_vector_length vector_len ≡ true) }
    ensures refused { IfErr result (λ e. (e ≡ WholeFault.VectorLength)
        × (is_vector_length vector_len ≡ false)) }
{
    if !is_vector_length(vector_len) {
        return Err(WholeFault::VectorLength);
    }
    Ok(())
}

/// The tables that the plan names, and the vectors' length judged behind them.
pub fn checked_tables(
    alloc: Global,
    catalog: &Catalog,
    sources: Sources<'_>,
    plan: &Plan,
) -> Result<Tables, WholeFault>
    requires catalog { IsWellFormed catalog.now }
    requires joins { All (IsDeclaredJoin catalog.now) plan.now.joins }
    ensures loaded { IfOk result
        (λ tables. AreTablesLoaded catalog.now (files_in sources.entry.csvs.now)
        sources.entry.cut.now plan.now tables.fragments.items tables.dims.items) }
    ensures joined { IfOk result
        (λ tables. AllZip (IsJoinedFile catalog.now) plan.now.joins tables.dims.items) }
    ensures vectors { OnOk result (is_vector_length sources.entry.vector_len ≡ true) }
    ensures refused { IfErr result
        (IsTablesRefused catalog.now (files_in sources.entry.csvs.now) sources.entry.cut.now
        plan.now sources.entry.vector_len) }
{
    let tables = load_tables(alloc, catalog, sources, plan)?;
    match check_vector_len(sources.vector_len) {
        Ok(()) => Ok(tables),
        Err(e) => {
            drop(tables);
            Err(e)
        }
    }
}
