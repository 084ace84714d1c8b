//! The first table of a folder that a load refuses.
ghost use Rattle.std.specs.Prelude.{◌≡◌, ℕ, All, None, Some, IfErr, OnOk};
ghost use Rattle.folders.specs.Folder.{csv_path};
ghost use Rattle.init.specs.Making.{IsDimensionFit, IsFactFit};
ghost use Rattle.init.specs.Refusing.{IsAskedFor, IsDimensionRefused, IsFactRefused};
ghost use Rattle.load_check.specs.Checking.{AreTablesFit, IsFirstRefused, IsUnfit};

use folders::Folder;
use init::{InitFault, check_dimension, check_fact};
use meaning::{Catalog, Dimension};
use std::alloc::Global;

/// A table that isn't loaded, and why.
#[derive(Drop)]
pub struct Unfit {
    /// The index of the dimension; none where it is the fact.
    pub dimension: Option<usize>,
    pub fault: InitFault,
}

fn check_fact_table<F: Folder>(
    alloc: Global,
    folder: &F,
    directory: &str,
    catalog: &Catalog,
) -> Result<(), Unfit>
    ensures fit { OnOk result (IsFactFit (F.holds folder.now) directory.now catalog.now) }
    ensures table { IfErr result (λ unfit. unfit.dimension ≡ None) }
    ensures refused { IfErr result (λ unfit. IsFactRefused (F.holds folder.now)
        (csv_path directory.now catalog.now.fact.name) catalog.now unfit.fault) }
    ensures unread { IfErr result (λ unfit. IsAskedFor (F.asks folder.now) unfit.fault) }
{
    match check_fact(alloc, folder, directory, catalog) {
        Ok(()) => Ok(()),
        Err(fault) => Err(Unfit {
            dimension: None,
            fault,
        }),
    }
}

fn check_dimension_table<F: Folder>(
    alloc: Global,
    folder: &F,
    directory: &str,
    dimension: &Dimension,
    index: usize,
) -> Result<(), Unfit>
    ensures fit { OnOk result (IsDimensionFit (F.holds folder.now) directory.now dimension.now) }
    ensures table { IfErr result (λ unfit. unfit.dimension ≡ Some index) }
    ensures refused { IfErr result (λ unfit. IsDimensionRefused (F.holds folder.now)
        (csv_path directory.now dimension.now.table.name) dimension.now unfit.fault) }
    ensures unread { IfErr result (λ unfit. IsAskedFor (F.asks folder.now) unfit.fault) }
{
    match check_dimension(alloc, folder, directory, dimension) {
        Ok(()) => Ok(()),
        Err(fault) => Err(Unfit {
            dimension: Some(index),
            fault,
        }),
    }
}

fn check_dimension_tables<F: Folder>(
    alloc: Global,
    folder: &F,
    directory: &str,
    dims: &[Dimension],
) -> Result<(), Unfit>
    ensures fit { OnOk result (All (IsDimensionFit (F.holds folder.now) directory.now) dims.now) }
    ensures refused { IfErr result
        (λ unfit. (index : ℕ) × (unfit.dimension ≡ Some index)
        × IsFirstRefused (F.holds folder.now) directory.now dims.now index unfit.fault) }
    ensures unread { IfErr result (λ unfit. IsAskedFor (F.asks folder.now) unfit.fault) }
{
    for index in 0..dims.len() {
        check_dimension_table(alloc, folder, directory, &dims[index], index)?;
    }
    Ok(())
}

/// Refuses the first table whose file doesn't load: the fact, or else a dimension, in the order of the
/// catalogue.
///
/// # Errors
///
/// Out of memory, or the table with the first fault of its file.
pub fn first_unfit<F: Folder>(
    alloc: Global,
    folder: &F,
    directory: &str,
    catalog: &Catalog,
) -> Result<(), Unfit>
    ensures fit { OnOk result (AreTablesFit (F.holds folder.now) directory.now catalog.now) }
    ensures refused { IfErr result (IsUnfit (F.holds folder.now) directory.now catalog.now) }
    ensures unread { IfErr result (λ unfit. IsAskedFor (F.asks folder.now) unfit.fault) }
{
    check_fact_table(alloc, folder, directory, catalog)?;
    check_dimension_tables(alloc, folder, directory, catalog.dims.as_slice())
}
