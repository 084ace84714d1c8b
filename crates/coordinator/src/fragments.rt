//! The answers of all fragments of a plan's tables, gathered.
ghost use Rattle.std.specs.Prelude.{◌≡◌, ◌<◌, ◌≤◌, [], ◌∷◌, ◌++◌, ℕ, true, List, length, map, slice_index, Ok, None, IfOk, IfErr, OnOk};
ghost use Rattle.std.specs.List.{range_with_len};
ghost use Rattle.meaning.specs.Limits.{max_rows};
ghost use Rattle.meaning.specs.Said.{Answer as AnAnswer};
ghost use Rattle.meaning.specs.Answer.{own};
ghost use Rattle.meaning.specs.Gather.{joined};
ghost use Rattle.meaning_laws.specs.Laws.{own_answers};
ghost use Rattle.meaning.specs.Cut.{IsCut};
ghost use Rattle.meaning.specs.Catalog.{IsWellFormedTable};
ghost use Rattle.meaning.specs.SoundPlan.{IsSoundPlan};
ghost use Rattle.meaning.specs.Order.{Row};
ghost use Rattle.meaning.specs.VectorLength.{is_vector_length};
ghost use Rattle.fragment_file.specs.Fragment.{table_header};
ghost use Rattle.partial_codec.specs.Answer.{Spells};
ghost use Rattle.job_files.specs.Dimensions.{files_of};
ghost use Rattle.job_files.specs.Inputs.{dimension_files_of, header_fault};
ghost use Rattle.job_files.specs.RowFiles.{AreFilesOfTables};
ghost use Rattle.worker.specs.Opened.{AreOpenedFor, AreOver};
ghost use Rattle.coordinator.specs.Fragment.{AreFragments, AreRowsOfJob, IsFactOf, IsFileable, Opens, job_of};
ghost use Rattle.coordinator.specs.Whole.{HoldsOwnAnswers};

use crate::fault::WholeFault;
use crate::sources::Sources;
use crate::table_files::{LOAD, Rows, file_of};
use crate::tables::Tables;
use columns::Column;
use fragment_file::Slice;
use gathering::{Gather, GatherFault};
use job_files::{WorkFault, lend_files};
use meaning::{Cut, Plan, Sequence, Table};
use partial_codec::{Job, encode};
use std::alloc::{AllocError, Global};
use std::mem::drop;
use worker::{Dimensions, work_over};

fn copy_cut(alloc: Global, cut: &Cut) -> Result<Cut, WholeFault>
    ensures value { IfOk result (λ copy. copy ≡ cut.now) }
    ensures refused { IfErr result (λ e. e ≡ WholeFault.Memory) }
{
    let lengths = Vec::from_slice(alloc, cut.lengths())?;
    match Cut::new(lengths) {
        Ok(copy) => Ok(copy),
        // The lengths of a cut are a cut.
        Err(_) => unreachable!(),
    }
}

/// Want of memory, where nothing else is wrong.
fn want_of_memory(fault: &WorkFault) -> AllocError
    requires { fault.now ≡ WorkFault.Memory }
{
    match fault {
        WorkFault::Memory => AllocError,
        _ => unreachable!(),
    }
}

/// The rows' answer, which is a fragment's own, spelled for the job.
fn answer_bytes(
    alloc: Global,
    job: &Job,
    rows: Rows<'_>,
    dimensions: &Dimensions<'_>,
    vector_len: usize,
) -> Result<Vec<u8>, AllocError>
    requires plan { IsSoundPlan job.now.plan }
    requires rows { IsFileable rows }
    requires named { header_fault job.now rows.slice.fragment
        (table_header 0 rows.table.now rows.slice) ≡ None }
    requires dimensions { AreOpenedFor job.now.plan dimensions.now }
    requires opened { (files : List (List ℕ))
        × (dimension_files_of job.now files ≡ Ok (files_of dimensions.now.tables.items)) }
    requires vectors { is_vector_length vector_len ≡ true }
    ensures spells { IfOk result (λ bytes. (a : AnAnswer) × Spells job.now bytes.items a) }
    ensures own { IfOk result (λ bytes. (all : List Row) (tables : List (List Row))
        → AreRowsOfJob job.now rows.entry all → AreOver job.now tables dimensions.now
        → Spells job.now bytes.items
        (own job.now.plan tables job.now.cut all rows.entry.slice.fragment)) }
{
    let file = file_of(alloc, rows)?;
    match work_over(
        alloc,
        job,
        &file,
        dimensions,
        rows.slice.fragment,
        vector_len,
    ) {
        Ok(answer) => encode(alloc, job, &answer),
        // The files are those that the job names.
        Err(fault) => Err(want_of_memory(&fault)),
    }
}

/// Has the coordinator take the bytes of the rows' answer.
fn answer_one(
    alloc: Global,
    gather: &mut Gather,
    rows: Rows<'_>,
    dimensions: &Dimensions<'_>,
    vector_len: usize,
) -> Result<(), WholeFault>
    requires plan { IsSoundPlan gather.now.job.plan }
    requires rows { IsFileable rows }
    requires named { header_fault gather.now.job rows.slice.fragment
        (table_header 0 rows.table.now rows.slice) ≡ None }
    requires dimensions { AreOpenedFor gather.now.job.plan dimensions.now }
    requires opened { (files : List (List ℕ))
        × (dimension_files_of gather.now.job files ≡ Ok (files_of dimensions.now.tables.items)) }
    requires vectors { is_vector_length vector_len ≡ true }
    ensures same { OnOk result (gather.new.job ≡ gather.old.job) }
    ensures taken { OnOk result
        ((answers : List AnAnswer) (all : List Row) (tables : List (List Row))
        → AreRowsOfJob gather.old.job rows.entry all
        → AreOver gather.old.job tables dimensions.now
        → gather.old.cells ≡ joined gather.old.job.cut answers
        → gather.new.cells ≡ joined gather.old.job.cut
        (answers ++ own gather.old.job.plan tables gather.old.job.cut all rows.entry.slice.fragment
        ∷ [])) }
    ensures refused { IfErr result (λ e. e ≡ WholeFault.Memory) }
{
    let job = gather.job();
    // No effect at run time. The proof reads from this call the limits on a job.
    let _plan = job.plan();
    let bytes = answer_bytes(alloc, job, rows, dimensions, vector_len)?;
    match gather.absorb(alloc, bytes.as_slice()) {
        Ok(_) => Ok(()),
        Err(GatherFault::Memory) => Err(WholeFault::Memory),
        // The bytes are an answer for the job.
        Err(GatherFault::Decode(_)) => unreachable!(),
        Err(GatherFault::OtherJob | GatherFault::Writer) => unreachable!(),
    }
}

/// The fact's fragments, and how many rows a vector has.
#[derive(Clone, Copy)]
struct Facts<'a> {
    table: &'a Table,
    cut: &'a Cut,
    fragments: &'a [Sequence<Column>],
    vector_len: usize,
}

/// Answers for each fragment in turn, over the dimensions of the job.
fn answer_fragments(
    alloc: Global,
    gather: &mut Gather,
    facts: Facts<'_>,
    dimensions: &Dimensions<'_>,
) -> Result<(), WholeFault>
    requires dimensions { AreOpenedFor gather.now.job.plan dimensions.now }
    requires opened { (files : List (List ℕ))
        × (dimension_files_of gather.now.job files ≡ Ok (files_of dimensions.now.tables.items)) }
    requires plan { IsSoundPlan gather.now.job.plan }
    requires load { gather.now.job.load ≡ 0 }
    requires table { IsWellFormedTable facts.table.now }
    requires fact { IsFactOf gather.now.job.plan facts.table.now }
    requires vectors { is_vector_length facts.vector_len ≡ true }
    requires cut { gather.now.job.cut ≡ facts.cut.now }
    requires fragments { (rows : List Row)
        × AreFragments facts.table.now rows facts.cut.now facts.fragments.now }
    requires nothing { gather.now.cells ≡ joined facts.cut.now [] }
    ensures same { OnOk result (gather.new.job ≡ gather.old.job) }
    ensures taken { OnOk result ((rows : List Row) (tables : List (List Row))
        → AreFragments facts.entry.table.now rows facts.entry.cut.now facts.entry.fragments.now
        → AreOver gather.old.job tables dimensions.now
        → gather.new.cells ≡ joined facts.entry.cut.now
        (own_answers gather.old.job.plan tables facts.entry.cut.now rows
        (range_with_len 0 (length facts.entry.cut.now)))) }
    ensures refused { IfErr result (λ e. e ≡ WholeFault.Memory) }
{
    let lengths = facts.cut.lengths();
    let mut first_row = 0;
    for k in 0..lengths.len() {
        let rows = Rows {
            table: facts.table,
            columns: facts.fragments[k].as_slice(),
            slice: Slice {
                fragment: k as u32,
                first_row,
                rows: lengths[k],
            },
        };
        answer_one(alloc, gather, rows, dimensions, facts.vector_len)?;
        first_row += u64::from(lengths[k]);
    }
    Ok(())
}

/// A coordinator that has taken no answer.
fn start(alloc: Global, plan: Plan, cut: &Cut) -> Result<Gather, WholeFault>
    requires plan { IsSoundPlan plan }
    ensures job { IfOk result (λ g. g.job ≡ job_of plan cut.now) }
    ensures cells { IfOk result (λ g. g.cells ≡ joined cut.now []) }
    ensures refused { IfErr result (λ e. e ≡ WholeFault.Memory) }
{
    match copy_cut(alloc, cut) {
        Ok(copy) => Ok(Gather::new(alloc, Job::new(LOAD, plan, copy))?),
        Err(e) => {
            drop(plan);
            Err(e)
        }
    }
}

/// Opens the dimensions, and answers for each fragment in turn over them.
fn answer_over(
    alloc: Global,
    gather: &mut Gather,
    facts: Facts<'_>,
    dims: &[&[u8]],
) -> Result<(), WholeFault>
    requires plan { IsSoundPlan gather.now.job.plan }
    requires load { gather.now.job.load ≡ 0 }
    requires dims { Opens gather.now.job (map (λ d. d.now) dims.now) }
    requires table { IsWellFormedTable facts.table.now }
    requires fact { IsFactOf gather.now.job.plan facts.table.now }
    requires vectors { is_vector_length facts.vector_len ≡ true }
    requires cut { gather.now.job.cut ≡ facts.cut.now }
    requires fragments { (rows : List Row)
        × AreFragments facts.table.now rows facts.cut.now facts.fragments.now }
    requires nothing { gather.now.cells ≡ joined facts.cut.now [] }
    ensures same { OnOk result (gather.new.job ≡ gather.old.job) }
    ensures taken { OnOk result ((rows : List Row) (tables : List (List Row))
        → AreFragments facts.entry.table.now rows facts.entry.cut.now facts.entry.fragments.now
        → AreFilesOfTables tables (map (λ d. d.now) dims.now)
        → gather.new.cells ≡ joined facts.entry.cut.now
        (own_answers gather.old.job.plan tables facts.entry.cut.now rows
        (range_with_len 0 (length facts.entry.cut.now)))) }
    ensures refused { IfErr result (λ e. e ≡ WholeFault.Memory) }
{
    match Dimensions::open(alloc, gather.job(), dims) {
        Ok(dimensions) => {
            let answered = answer_fragments(alloc, gather, facts, &dimensions);
            drop(dimensions);
            answered
        }
        // The files are those that the job names.
        Err(fault) => Err(WholeFault::from(want_of_memory(&fault))),
    }
}

/// A coordinator that has taken just every fragment's own answer.
fn answer_all(
    alloc: Global,
    plan: Plan,
    facts: Facts<'_>,
    dims: &[&[u8]],
) -> Result<Gather, WholeFault>
    requires plan { IsSoundPlan plan }
    requires dims { Opens (job_of plan facts.cut.now) (map (λ d. d.now) dims.now) }
    requires table { IsWellFormedTable facts.table.now }
    requires fact { IsFactOf plan facts.table.now }
    requires vectors { is_vector_length facts.vector_len ≡ true }
    requires fragments { (rows : List Row)
        × AreFragments facts.table.now rows facts.cut.now facts.fragments.now }
    ensures state { IfOk result (λ g. (rows : List Row) (tables : List (List Row))
        → AreFragments facts.entry.table.now rows facts.entry.cut.now facts.entry.fragments.now
        → AreFilesOfTables tables (map (λ d. d.now) dims.now)
        → HoldsOwnAnswers plan rows tables facts.entry.cut.now g) }
    ensures refused { IfErr result (λ e. e ≡ WholeFault.Memory) }
{
    let mut gather = start(alloc, plan, facts.cut)?;
    match answer_over(alloc, &mut gather, facts, dims) {
        Ok(()) => Ok(gather),
        Err(e) => {
            drop(gather);
            Err(e)
        }
    }
}

/// A coordinator that has taken the answers of all fragments of the plan's tables.
pub fn answer_tables(
    alloc: Global,
    plan: Plan,
    fact: &Table,
    tables: &Tables,
    sources: Sources<'_>,
) -> Result<Gather, WholeFault>
    requires plan { IsSoundPlan plan }
    requires dims { Opens (job_of plan sources.cut.now) tables.now.dims.items }
    requires table { IsWellFormedTable fact.now }
    requires fact { IsFactOf plan fact.now }
    requires vectors { is_vector_length sources.vector_len ≡ true }
    requires fragments { (rows : List Row)
        × AreFragments fact.now rows sources.cut.now tables.now.fragments.items }
    ensures state { IfOk result (λ g. (rows : List Row) (dims : List (List Row))
        → AreFragments fact.now rows sources.entry.cut.now tables.now.fragments.items
        → AreFilesOfTables dims tables.now.dims.items
        → HoldsOwnAnswers plan rows dims sources.entry.cut.now g) }
    ensures refused { IfErr result (λ e. e ≡ WholeFault.Memory) }
{
    match lend_files(alloc, &tables.dims) {
        Ok(dims) => {
            let facts = Facts {
                table: fact,
                cut: sources.cut,
                fragments: &tables.fragments,
                vector_len: sources.vector_len,
            };
            answer_all(alloc, plan, facts, &dims)
        }
        Err(_) => {
            drop(plan);
            Err(WholeFault::Memory)
        }
    }
}
