//! What an aggregate's state evaluates to.
ghost use Rattle.std.specs.Prelude.{◌≡◌, ◌≢◌, ◌<◌, ◌≤◌, pos, int_div, length, Ok, Err, IfOk, IfErr};
ghost use Rattle.meaning.specs.declared.value.Value.TheVariants as of_value;
ghost use Rattle.meaning.specs.Aggregate.{sum_value};
ghost use Rattle.meaning.specs.Operators.{sum_out_of_range};
ghost use Rattle.aggregate_states.specs.declared.fault.AggFault.TheVariants.{SumOutOfRange};
ghost use Rattle.aggregate_states.specs.State.{most_entries, IsSumOf};

use crate::fault::AggFault;
use meaning::Value;

/// A count as a value.
pub fn count_value(count: u64) -> Value
    requires { count ≤ most_entries }
    ensures { result ≡ of_value.Int (pos count) }
{
    Value::Int(count as i64)
}

/// How many entries there are, as a value.
pub fn size_value(entries: &[Value]) -> Value
    ensures { result ≡ of_value.Int (pos (length entries.now)) }
{
    Value::Int(entries.len() as i64)
}

/// An exact sum as a value, if 64 bits hold it.
pub fn sum_value(sum: i128) -> Result<Value, AggFault>
    ensures ok { IfOk result (λ v. sum_value sum ≡ Ok v) }
    ensures err { IfErr result (λ f. f ≡ SumOutOfRange) }
    ensures out { IfErr result (λ f. sum_value sum ≡ Err sum_out_of_range) }
{
    match i64::try_from(sum) {
        Ok(int) => Ok(Value::Int(int)),
        Err(_) => Err(AggFault::SumOutOfRange),
    }
}

/// A sum divided by the number of its integers, towards zero.
pub fn average(count: u64, sum: i128) -> Value
    requires some { count ≢ 0 }
    requires few { count ≤ most_entries }
    requires within { IsSumOf count sum }
    ensures { result ≡ of_value.Int (int_div sum (pos count)) }
{
    Value::Int((sum / i128::from(count)) as i64)
}
