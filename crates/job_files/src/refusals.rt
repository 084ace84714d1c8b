//! Files that a job doesn't name.
ghost use Rattle.std.specs.Prelude.{◌≡◌, ◌<◌, ◌==◌, length, slice_get, IfOk};
ghost use Rattle.fragment_file.specs.Fragment.{AreTypedColumns, IsFragment};
ghost use Rattle.meaning.specs.Typing.{same_type};
ghost use Rattle.meaning.specs.Wanting.{GivesIfMemory};
ghost use Rattle.wire.specs.Reading.{same_bytes};
ghost use Rattle.job_files.specs.Files.{HasColumns, has_columns, is_column, is_dimension_of, is_fragment_of};
ghost use Rattle.job_files.specs.Inputs.{header_fault, length_of, table_file_of};

use crate::fault::WorkFault;
use fragment_file::{FragmentView, Header, open};
use meaning::{ColType, Column, ColumnUse, TableUse, Text, is_vector_length};
use partial_codec::{Job, first_row};
use std::alloc::Global;
use std::mem::drop;

/// The length of vectors, if it is one.
pub fn check_length(vector_len: usize) -> Result<usize, WorkFault>
    ensures { result ≡ length_of vector_len }
{
    if !is_vector_length(vector_len) {
        return Err(WorkFault::VectorLength);
    }
    Ok(vector_len)
}

fn are_same(a: &Text, b: &Text) -> bool
    ensures { result ≡ same_bytes a.now b.now }
{
    a.as_str() == b.as_str()
}

fn is_same_type(a: ColType, b: ColType) -> bool
    ensures { result ≡ same_type a b }
{
    match (a, b) {
        (ColType::Int, ColType::Int) => true,
        (ColType::Int, ColType::Text) => false,
        (ColType::Text, ColType::Int) => false,
        (ColType::Text, ColType::Text) => true,
    }
}

/// Whether the column that the plan uses is where the plan has it, with its name and type.
fn has_column(columns: &[Column], used: &ColumnUse) -> bool
    ensures { result ≡ is_column used.now (slice_get columns.now used.now.column) }
{
    match columns.get(used.column) {
        Some(column) => {
            are_same(&column.name, &used.name) && is_same_type(column.col_type, used.col_type)
        }
        None => false,
    }
}

/// Whether each column that the plan uses of a table is where the plan has it.
fn has_all_columns(table: &TableUse, header: &Header) -> bool
    ensures { result ≡ has_columns table.now header.now }
{
    let columns = header.columns.as_slice();
    let used = table.columns.as_slice();
    used.iter().all(|used| has_column(columns, used))
}

fn is_of_load(job: &Job, header: &Header) -> bool
    ensures { result ≡ (header.now.load == job.now.load) }
{
    header.load == job.load()
}

/// Whether the file is that of the job's fragment `k`.
fn is_fragment(job: &Job, k: u32, header: &Header) -> bool
    ensures { result ≡ is_fragment_of job.now k header.now }
{
    let lengths = job.cut().lengths();
    let fragment = k as usize;
    if fragment >= lengths.len() {
        return false;
    }
    is_of_load(job, header)
        && are_same(&header.table, &job.plan().fact.name)
        && header.fragment == k
        && header.first_row == first_row(lengths, fragment)
        && header.rows == lengths[fragment]
}

/// What keeps a file with this header from being that of the job's fragment `k`: that it isn't the one
/// that the job names, else a column that the plan uses and that isn't in its place.
pub fn judge_fragment(job: &Job, k: u32, header: &Header) -> Option<WorkFault>
    ensures { result ≡ header_fault job.now k header.now }
{
    if !is_fragment(job, k, header) {
        return Some(WorkFault::OtherFile);
    }
    if !has_all_columns(&job.plan().fact, header) {
        return Some(WorkFault::OtherColumn);
    }
    None
}

/// Whether the file is that of all rows of the job's dimension.
fn is_dimension(job: &Job, dim: &TableUse, header: &Header) -> bool
    ensures { result ≡ is_dimension_of job.now dim.now header.now }
{
    is_of_load(job, header)
        && are_same(&header.table, &dim.name)
        && header.fragment == 0
        && header.first_row == 0
}

/// The file of a dimension.
///
/// # Errors
///
/// Out of memory; else the first of: a file fault; another file; another column than the plan's.
#[tactic(auto, unfolding(crate::specs::Inputs::table_file_of))]
pub fn open_table<'a>(
    alloc: Global,
    job: &Job,
    dim: &TableUse,
    bytes: &'a [u8],
) -> Result<FragmentView<'a>, WorkFault>
    ensures read { GivesIfMemory WorkFault.Memory (λ v. v) result
        (table_file_of job.now dim.now bytes.now) }
    ensures typed { IfOk result (λ v. AreTypedColumns v) }
    ensures columns { IfOk result (λ v. HasColumns dim.now v.header) }
{
    let view = open(alloc, bytes)?;
    if !is_dimension(job, dim, view.header()) {
        drop(view);
        return Err(WorkFault::OtherFile);
    }
    if !has_all_columns(dim, view.header()) {
        drop(view);
        return Err(WorkFault::OtherColumn);
    }
    Ok(view)
}
