//! Plans of the shape that a word spells, as in `int,text/rows,min:text`: keys, and behind a stroke
//! aggregates, of which COUNT(*) is `rows`. `-` is none, and a word with `plain:` before it
//! is of a query without groups.
ghost use Rattle.std.specs.Prelude.{◌≡◌, IfOk, IfSome};
ghost use Rattle.meaning.specs.SoundPlan.{IsWithinLimits};

use meaning::{
    Aggregate, AggregateKind, ColType, Expr, GroupingKey, MAX_AGGREGATES, MAX_KEYS,
    MAX_QUERY_BYTES, Plan, Sequence, TableUse, Text, Value,
};
use std::alloc::{AllocError, Global};

fn type_of(word: &str) -> Option<ColType> {
    match word {
        "int" => Some(ColType::Int),
        "text" => Some(ColType::Text),
        _ => None,
    }
}

fn key_of(word: &str) -> Option<GroupingKey> {
    let col_type = type_of(word)?;
    Some(GroupingKey {
        expr: Expr::Literal(Value::Null),
        col_type,
    })
}

fn kind_of(word: &str) -> Option<AggregateKind> {
    match word {
        "count" => Some(AggregateKind::Count),
        "sum" => Some(AggregateKind::Sum),
        "min" => Some(AggregateKind::Min),
        "max" => Some(AggregateKind::Max),
        "avg" => Some(AggregateKind::Avg),
        "count-distinct" => Some(AggregateKind::CountDistinct),
        "sum-distinct" => Some(AggregateKind::SumDistinct),
        _ => None,
    }
}

fn aggregate(kind: AggregateKind, col_type: ColType) -> Aggregate {
    Aggregate {
        kind,
        argument: Expr::Literal(Value::Null),
        col_type,
    }
}

fn aggregate_of(word: &str) -> Option<Aggregate> {
    if word == "rows" {
        return Some(aggregate(AggregateKind::CountRows, ColType::Int));
    }
    let (kind, col_type) = word.split_once(':')?;
    Some(aggregate(kind_of(kind)?, type_of(col_type)?))
}

fn keys_of(alloc: Global, words: &str) -> Result<Option<Sequence<GroupingKey>>, AllocError> {
    let mut keys = Sequence::new(alloc);
    if words == "-" {
        return Ok(Some(keys));
    }
    for word in words.split(',') {
        let Some(key) = key_of(word) else {
            return Ok(None);
        };
        keys.push(key)?;
    }
    Ok(Some(keys))
}

fn aggregates_of(alloc: Global, words: &str) -> Result<Option<Sequence<Aggregate>>, AllocError> {
    let mut aggregates = Sequence::new(alloc);
    if words == "-" {
        return Ok(Some(aggregates));
    }
    for word in words.split(',') {
        let Some(aggregate) = aggregate_of(word) else {
            return Ok(None);
        };
        aggregates.push(aggregate)?;
    }
    Ok(Some(aggregates))
}

fn plan_with(
    alloc: Global,
    text: Text,
    keys: Sequence<GroupingKey>,
    aggs: Sequence<Aggregate>,
    plain: bool,
) -> Plan
    ensures text { result.text ≡ text }
    ensures keys { result.keys ≡ keys }
    ensures aggregates { result.aggs ≡ aggs }
{
    Plan {
        text,
        fact: TableUse {
            name: Text::from_string(String::new(alloc)),
            columns: Sequence::new(alloc),
        },
        joins: Sequence::new(alloc),
        conjuncts: Sequence::new(alloc),
        keys,
        aggs,
        having: None,
        items: Sequence::new(alloc),
        order: Sequence::new(alloc),
        limit: None,
        plain,
        distinct: false,
    }
}

/// The plan, unless the word spells no shape, or the shape or the text passes a limit.
pub fn shaped_plan(alloc: Global, word: &str, text: &str) -> Result<Option<Plan>, AllocError>
    ensures { IfOk result (λ found. IfSome found IsWithinLimits) }
{
    let (plain, word) = match word.strip_prefix("plain:") {
        Some(shape) => (true, shape),
        None => (false, word),
    };
    let Some((keys, aggregates)) = word.split_once('/') else {
        return Ok(None);
    };
    let (Some(keys), Some(aggs)) = (keys_of(alloc, keys)?, aggregates_of(alloc, aggregates)?) else {
        return Ok(None);
    };
    if keys.len() > MAX_KEYS || aggs.len() > MAX_AGGREGATES || text.len() > MAX_QUERY_BYTES {
        return Ok(None);
    }
    let text = Text::new(alloc, text)?;
    Ok(Some(plan_with(alloc, text, keys, aggs, plain)))
}
