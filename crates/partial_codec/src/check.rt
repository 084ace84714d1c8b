//! What was read, held against the job.
ghost use Rattle.std.specs.Prelude.{◌≡◌, ◌<◌, ◌*◌, ◌&&◌, ◌==◌, ℕ, nat_le, length, not};
ghost use Rattle.answer_fields.specs.Fields.{words};
ghost use Rattle.answer_layouts.specs.Found.{AreFound, AreFoundIn, HasRows};
ghost use Rattle.meaning.specs.Fitting as fitting;
ghost use Rattle.meaning.specs.Group.{certain_keys};
ghost use Rattle.meaning.specs.declared.answer.Body.TheVariants.{Groups};
ghost use Rattle.wire.specs.Reading.{same_bytes};

use crate::job::Job;
use answer_fields::JobFields;
use answer_layouts::Findings;
use byteorder::{ByteOrder, LittleEndian};
use meaning::{Body, Plan, RowFault};
use packed_groups::PackedGroups;

// ---- the job

pub fn is_query_of(job: &Job, text: &str) -> bool
    ensures { result ≡ same_bytes text.now job.now.plan.text }
{
    text == job.plan().text.as_str()
}

/// Whether these are the lengths, in four bytes each.
fn are_words_of(lengths: &[u32], bytes: &[u8]) -> bool
    requires { length bytes.now ≡ length lengths.now * 4 }
    ensures { result ≡ same_bytes (words (length lengths.now) bytes.now) lengths.now }
{
    let mut rest = bytes;
    for length in lengths {
        let (word, behind) = rest.split_at(4);
        if LittleEndian::read_u32(word) != *length {
            return false;
        }
        rest = behind;
    }
    true
}

/// Whether these are the job's fragments, and their lengths.
pub fn is_cut_of(job: &Job, fields: &JobFields<'_>) -> bool
    requires { length fields.now.cut.now ≡ fields.now.fragments * 4 }
    ensures { result ≡ same_bytes (words fields.now.fragments fields.now.cut.now) job.now.cut }
{
    let lengths = job.cut().lengths();
    if fields.fragments as usize != lengths.len() {
        return false;
    }
    are_words_of(lengths, fields.cut)
}

// ---- numbers

/// Whether groups of so many rows together have no more than this.
fn are_rows_within(rows: Option<u64>, limit: u64) -> bool
    ensures { (total : ℕ) → HasRows rows total → result ≡ nat_le total limit }
{
    match rows {
        Some(rows) => rows <= limit,
        None => false,
    }
}

/// Whether there is one group in any case: the query is grouped, and has no keys.
fn has_certain_group(plan: &Plan) -> bool
    ensures { result ≡ (not plan.now.plain && (length plan.now.keys == 0)) }
{
    !plan.plain && plan.keys.len() == 0
}

/// Whether each group has a row, or there is the one group of a grouped query without keys.
fn are_rows_possible(plan: &Plan, groups: &PackedGroups, findings: Findings) -> bool
    requires { AreFound plan.now groups.now findings }
    ensures { result ≡ fitting.are_rows_possible (certain_keys plan.now.plain plan.now.keys)
        groups.now }
{
    if has_certain_group(plan) {
        groups.len() == 1
    } else {
        findings.have_rows
    }
}

/// Whether so many rows can give the groups' numbers.
fn can_rows_give(plan: &Plan, rows: u64, groups: &PackedGroups, findings: Findings) -> bool
    requires { AreFound plan.now groups.now findings }
    ensures { (first : ℕ) → result
        ≡ fitting.are_numbers_possible plan.now first rows (Groups groups.now) }
{
    if !are_rows_within(findings.rows, rows) {
        return false;
    }
    if !are_rows_possible(plan, groups, findings) {
        return false;
    }
    findings.are_states_possible
}

/// Whether one of so many rows, numbered from `first`, can have the fault.
fn is_fault_possible(first: u64, rows: u64, fault: RowFault) -> bool
    ensures { result ≡ fitting.is_fault_possible first rows fault }
{
    (fault.code == 1 || fault.code == 2) && first <= fault.row && fault.row - first < rows
}

/// Whether so many rows, numbered from `first`, can give the numbers.
pub fn are_numbers_possible(
    plan: &Plan,
    first: u64,
    rows: u64,
    body: &Body<PackedGroups>,
    findings: Findings,
) -> bool
    requires { AreFoundIn plan.now body.now findings }
    ensures { result ≡ fitting.are_numbers_possible plan.now first rows body.now }
{
    match body {
        Body::Groups(groups) => can_rows_give(plan, rows, groups, findings),
        Body::Fault(fault) => is_fault_possible(first, rows, *fault),
    }
}
