//! A group held against the plan: its types, the order of its sets, and its numbers.
ghost use Rattle.std.specs.Prelude.{◌≡◌, ◌==◌, is_some, true};
ghost use Rattle.std.specs.Cmp.Lexicographic.{pointwise};
ghost use Rattle.std.specs.List.{list_all};
ghost use Rattle.std.specs.Ordering.{is_lt};
ghost use Rattle.std.specs.Str.{is_utf8};
ghost use Rattle.aggregate_states.specs.Values.{entry, is_spelled};
ghost use Rattle.answer_fields.specs.Keeping as keeping;
ghost use Rattle.meaning.specs.Fitting as fitting;
ghost use Rattle.meaning.specs.Order.{is_ascending, row_cmp, value_cmp, value_in};
ghost use Rattle.meaning.specs.TypeCodes.{type_code};
ghost use Rattle.meaning.specs.Typing as typing;
ghost use Rattle.meaning.specs.declared.value.Value.TheVariants.{Int, Text};

use aggregate_states::{Group, State};
use meaning::{
    Aggregate, AggregateKind, ColType, GroupingKey, MAX_TEXT_BYTES, Plan, Row, Value, ValueRef,
};

// ---- types

fn is_integer_type(col_type: ColType) -> bool
    ensures { result ≡ (type_code col_type == 1) }
{
    match col_type {
        ColType::Int => true,
        ColType::Text => false,
    }
}

fn is_integer_of(col_type: ColType, int: i64) -> bool
    ensures { result ≡ typing.is_of_type col_type (Int int) }
{
    is_integer_type(col_type)
}

fn is_text_of(col_type: ColType, text: &[u8]) -> bool
    requires { is_utf8 text.now ≡ true }
    ensures { result ≡ typing.is_of_type col_type (Text text.now) }
{
    !is_integer_type(col_type) && text.len() <= MAX_TEXT_BYTES
}

fn is_of_type(col_type: ColType, value: &Value) -> bool
    ensures { result ≡ typing.is_of_type col_type value.now }
{
    match value {
        Value::Null => true,
        Value::Int(int) => is_integer_of(col_type, *int),
        Value::Text(text) => is_text_of(col_type, text.as_str().as_bytes()),
    }
}

/// Whether a least or a greatest value has the type.
fn is_extreme(col_type: ColType, value: ValueRef<'_>) -> bool
    requires { is_spelled (value_in value) ≡ true }
    ensures { result ≡ fitting.is_extreme col_type (entry (value_in value.entry)) }
{
    match value {
        ValueRef::Null => true,
        ValueRef::Int(int) => is_integer_of(col_type, int),
        ValueRef::Text(text) => is_text_of(col_type, text),
    }
}

/// Whether an entry of a set has the type. NULL is no entry.
fn is_entry_of(col_type: ColType, value: &Value) -> bool
    ensures { result ≡ fitting.is_entry_of col_type value.now }
{
    match value {
        Value::Null => false,
        Value::Int(int) => is_integer_of(col_type, *int),
        Value::Text(text) => is_text_of(col_type, text.as_str().as_bytes()),
    }
}

fn are_entries_of(col_type: ColType, entries: &[Value]) -> bool
    ensures { result ≡ list_all (fitting.is_entry_of col_type) entries.now }
{
    entries.iter().all(|entry| is_entry_of(col_type, entry))
}

fn is_typed_state(aggregate: &Aggregate, state: &State) -> bool
    ensures { result ≡ keeping.is_typed_state aggregate.now state.now }
{
    is_extreme(aggregate.col_type, state.least())
        && is_extreme(aggregate.col_type, state.greatest())
        && are_entries_of(aggregate.col_type, state.entries())
}

fn are_typed_states(aggregates: &[Aggregate], states: &[State]) -> bool
    ensures { result ≡ pointwise keeping.is_typed_state aggregates.now states.now }
{
    if aggregates.len() != states.len() {
        return false;
    }
    for i in 0..aggregates.len() {
        if !is_typed_state(&aggregates[i], &states[i]) {
            return false;
        }
    }
    true
}

fn is_key_of(keys: &[GroupingKey], values: &[Value]) -> bool
    ensures { result ≡ pointwise (λ k v. typing.is_of_type k.col_type v) keys.now values.now }
{
    if keys.len() != values.len() {
        return false;
    }
    for i in 0..keys.len() {
        if !is_of_type(keys[i].col_type, &values[i]) {
            return false;
        }
    }
    true
}

/// Whether the key, the least and greatest values and the entries have their types.
pub fn is_typed_group(plan: &Plan, group: &Group) -> bool
    ensures { result ≡ keeping.is_typed_group plan.now group.now }
{
    is_key_of(plan.keys.as_slice(), group.key().as_slice())
        && are_typed_states(plan.aggs.as_slice(), group.states())
}

// ---- order

/// Whether a key is less than the next.
pub fn is_before(key: &Row, next: &Row) -> bool
    ensures { result ≡ is_lt (row_cmp key.now next.now) }
{
    key.as_slice().cmp(next.as_slice()).is_lt()
}

/// Whether each entry of a set is less than the next.
pub fn are_sets(states: &[State]) -> bool
    ensures { result ≡ list_all (λ s. is_ascending value_cmp s.entries) states.now }
{
    states.iter().all(|state| state.has_set())
}

// ---- numbers

/// Whether the aggregate can have this state in a group of so many rows.
fn is_possible(kind: AggregateKind, rows: u64, state: &State) -> bool
    ensures { result ≡ fitting.is_possible kind rows state.now }
{
    let count = state.count();
    match kind {
        AggregateKind::CountRows => count == rows,
        AggregateKind::Count | AggregateKind::Sum | AggregateKind::Avg => count <= rows,
        AggregateKind::Min => count <= rows && is_there(state.least()) == (count > 0),
        AggregateKind::Max => count <= rows && is_there(state.greatest()) == (count > 0),
        AggregateKind::CountDistinct | AggregateKind::SumDistinct => {
            state.entries().len() as u64 <= rows
        }
    }
}

fn is_there(value: ValueRef<'_>) -> bool
    ensures { result ≡ is_some (entry (value_in value.entry)) }
{
    !matches!(value, ValueRef::Null)
}

/// Whether each aggregate can have its state in a group of so many rows.
pub fn are_states_possible(aggregates: &[Aggregate], rows: u64, states: &[State]) -> bool
    ensures { result ≡ pointwise (λ a s. fitting.is_possible a.kind rows s) aggregates.now
        states.now }
{
    if aggregates.len() != states.len() {
        return false;
    }
    for i in 0..aggregates.len() {
        if !is_possible(aggregates[i].kind, rows, &states[i]) {
            return false;
        }
    }
    true
}
