//! The keys of a dimension, of which no two may be equal.
ghost use Rattle.std.specs.Prelude.{◌≡◌, ◌++◌, [], ◌∷◌, List, not, true, false, IfOk};
ghost use Rattle.meaning.specs.declared.value.Value.{Value as AValue};
ghost use Rattle.meaning.specs.Order.{is_null};
ghost use Rattle.meaning.specs.Records.{is_repeated};
ghost use Rattle.loader.specs.Keys.{HoldsKeys};

use meaning::Value;
use std::alloc::{AllocError, Global};
use std::collections::BTreeSet;

/// The keys so far that aren't NULL.
#[derive(Drop)]
pub struct Keys {
    present: BTreeSet<Value>,
}

fn is_null(key: &Value) -> bool
    ensures { result ≡ is_null key.now }
{
    match key {
        Value::Null => true,
        Value::Int(_) | Value::Text(_) => false,
    }
}

impl Keys {
    pub fn new(alloc: Global) -> Keys
        ensures { HoldsKeys result.present [] }
    {
        Keys {
            present: BTreeSet::new(alloc),
        }
    }

    /// Takes a key, and answers whether it is new. Any number of keys may be NULL.
    pub fn insert(&mut self, key: Value) -> Result<bool, AllocError>
        ensures { (seen : List AValue) → HoldsKeys self.old.present seen
            → IfOk result (λ added. (added ≡ not (is_repeated key seen))
            × HoldsKeys self.new.present (seen ++ key ∷ [])) }
    {
        if is_null(&key) {
            return Ok(true);
        }
        Ok(self.present.insert(key)?)
    }
}
