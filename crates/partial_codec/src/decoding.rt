//! The bytes of an answer, read and judged.
ghost use Rattle.std.specs.Prelude.{◌≡◌, ◌≢◌, ◌<◌, ◌*◌, ◌&&◌, nat_lt, length, slice_index, IfOk, IfErr, Some, Ok, List, ℕ};
ghost use Rattle.meaning.specs.Cut.{IsCut, first_row as row_before};
ghost use Rattle.meaning.specs.Fitting as fitting;
ghost use Rattle.meaning.specs.Said.{Answer as AnAnswer};
ghost use Rattle.partial_codec.specs.Answer.{Spells, judged, obstacle};
ghost use Rattle.answer_fields.specs.Fields.{words};
ghost use Rattle.answer_layouts.specs.Found.{AreFoundIn};
ghost use Rattle.partial_codec.specs.Holding.{layout_held_by};
ghost use Rattle.partial_codec.specs.Job.{IsJob};
ghost use Rattle.meaning.specs.Wanting.{GivesIfMemory};
ghost use Rattle.wire.specs.Reading.{Reads, same_bytes};

use crate::check::{are_numbers_possible, is_cut_of, is_query_of};
use crate::job::Job;
use answer_fields::{DecodeFault, JobFields, is_shape_of};
use answer_layouts::{Findings, Layout, take_layout};
use meaning::{Answer, Body};
use packed_groups::PackedGroups;
use std::alloc::Global;
use std::mem::drop;
use wire::{SEAL_BYTES, check_seal, take_bytes};

/// The number of the first row of fragment `k`.
pub fn first_row(lengths: &[u32], k: usize) -> u64
    requires within { k < length lengths.now }
    requires cut { IsCut lengths.now }
    ensures { result ≡ row_before lengths.now k }
{
    let mut first: u64 = 0;
    for i in 0..k {
        first += u64::from(lengths[i]);
    }
    first
}

/// Whether the cut is the job's, and has a fragment `k`.
fn is_fragment_of(job: &Job, fields: &JobFields<'_>, k: u32) -> bool
    requires { length fields.now.cut.now ≡ fields.now.fragments * 4 }
    ensures { result ≡ (same_bytes (words fields.now.fragments fields.now.cut.now) job.now.cut
        && nat_lt k (length job.now.cut)) }
{
    is_cut_of(job, fields) && (k as usize) < job.cut().lengths().len()
}

/// Whether the fragment's rows can give the numbers.
fn are_numbers_of_fragment(job: &Job, k: u32, body: &Body<PackedGroups>, findings: Findings) -> bool
    requires within { k < length job.now.cut }
    requires found { AreFoundIn job.now.plan body.now findings }
    ensures { result ≡ fitting.are_numbers_possible job.now.plan (row_before job.now.cut k)
        (slice_index job.now.cut k) body.now }
{
    let lengths = job.cut().lengths();
    let k = k as usize;
    let rows = u64::from(lengths[k]);
    are_numbers_possible(job.plan(), first_row(lengths, k), rows, body, findings)
}

/// The first thing in which the fields are not those of an answer for the job.
#[tactic(auto, unfolding(crate::specs::Holding::layout_held_by))]
fn check_layout(job: &Job, layout: &Layout<'_>) -> Result<(), DecodeFault>
    requires cut { length layout.now.job.cut.now ≡ layout.now.job.fragments * 4 }
    requires found { AreFoundIn job.now.plan layout.now.body layout.now.findings }
    ensures { Reads (λ _. record { k = layout.now.k; body = layout.now.body }) result
        (layout_held_by job.now layout.now) }
{
    if layout.job.load != job.load() {
        return Err(DecodeFault::OtherLoad);
    }
    if !is_query_of(job, layout.job.text) {
        return Err(DecodeFault::OtherQuery);
    }
    if !is_fragment_of(job, &layout.job, layout.k) {
        return Err(DecodeFault::OtherCut);
    }
    if !is_shape_of(job.plan(), &layout.shape) {
        return Err(DecodeFault::Shape);
    }
    if !layout.findings.are_typed {
        return Err(DecodeFault::Shape);
    }
    if !layout.findings.are_in_order {
        return Err(DecodeFault::UnsortedGroups);
    }
    if !layout.findings.are_sums_possible {
        return Err(DecodeFault::Numbers);
    }
    if !are_numbers_of_fragment(job, layout.k, &layout.body, layout.findings) {
        return Err(DecodeFault::Numbers);
    }
    Ok(())
}

/// The answer, where the fields are those of one for the job.
fn hold_against(job: &Job, layout: Layout<'_>) -> Result<Answer<PackedGroups>, DecodeFault>
    requires cut { length layout.job.cut.now ≡ layout.job.fragments * 4 }
    requires found { AreFoundIn job.now.plan layout.body layout.findings }
    ensures { Reads (λ a. a) result (layout_held_by job.now layout.entry) }
{
    match check_layout(job, &layout) {
        Ok(()) => {
            let Layout { k, body, .. } = layout;
            Ok(Answer { k, body })
        }
        Err(fault) => {
            drop(layout);
            Err(fault)
        }
    }
}

#[tactic(auto, unfolding(crate::specs::Answer::judged))]
fn judge(alloc: Global, job: &Job, bytes: &[u8]) -> Result<Answer<PackedGroups>, DecodeFault>
    ensures exact { GivesIfMemory DecodeFault.Memory (λ a. a) result (judged job.now bytes.now) }
    ensures within_limits { IsJob job.now }
{
    let plan = job.plan();
    let (layout, rest) = take_layout(alloc, plan, bytes)?;
    let (seal, rest) = take_bytes(rest, SEAL_BYTES)?;
    check_seal(bytes, seal, rest)?;
    hold_against(job, layout)
}

/// The answer that the bytes spell for the job, in either format, or the first obstacle.
///
/// The bytes are read from front to back; then come the seal, the job, the shape, the order of the
/// groups and of sets, and the numbers. Memory is taken for no more than the bytes
/// can hold, whatever counts they claim. The groups are packed as they are read.
pub fn decode(alloc: Global, job: &Job, bytes: &[u8]) -> Result<Answer<PackedGroups>, DecodeFault>
    // What is given is spelled so.
    ensures spelled { IfOk result (λ a. Spells job.now bytes.now a) }
    // What is spelled so is given, unless memory runs out.
    ensures complete { (a : AnAnswer) → Spells job.now bytes.now a →
        GivesIfMemory DecodeFault.Memory (λ b. b) result (Ok a) }
    // Which obstacle it is.
    ensures obstacle { IfErr result (λ e. e ≢ DecodeFault.Memory
        → obstacle job.now bytes.now ≡ Some e) }
{
    judge(alloc, job, bytes)
}
