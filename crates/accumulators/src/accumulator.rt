//! Aggregates of one list, vector by vector.
ghost use Rattle.std.specs.Prelude.{◌≡◌, ◌≤◌, ◌+◌, length, map, sum, true, All, IsOk, OnOk, OnErr, IfOk, IfErr, Ok, Err};
ghost use Rattle.meaning.specs.declared.plan.AggregateKind.{AggregateKind};
ghost use Rattle.meaning.specs.declared.answer.Statistics.{Statistics};
ghost use Rattle.meaning.specs.Aggregate.{merge, value};
ghost use Rattle.meaning.specs.Operators.{sum_out_of_range};
ghost use Rattle.aggregate_states.specs.declared.fault.AggFault.TheVariants.{SumOutOfRange};
ghost use Rattle.aggregate_states.specs.Entries.{state_of, together};
ghost use Rattle.aggregate_states.specs.Kinds.{has_one_size};
ghost use Rattle.aggregate_states.specs.Laws.{StatesMerge};
ghost use Rattle.aggregate_states.specs.State.{most_entries};
ghost use Rattle.aggregate_states.specs.Values.{is_spelled, selected};
ghost use Rattle.vectors.specs.Vector.{values_of};

use aggregate_states::{AggFault, State};
use meaning::Value;
use std::alloc::{AllocError, Global};
use vectors::{Selection, Vector};

/// The running state of an aggregate over one list of entries.
pub trait Accumulator {
    ghost kind: { Self → AggregateKind };

    ghost held: { Self → Statistics };

    /// Takes the selected values. On an error nothing changes. What keeps no value of its own takes
    /// no memory.
    fn update_batch(
        &mut self,
        alloc: Global,
        lanes: &Vector<'_>,
        selection: &Selection,
    ) -> Result<(), AllocError>
        requires lanes { length (values_of lanes.now) ≡ selection.now.below }
        requires spelled { All (λ v. is_spelled v ≡ true) (values_of lanes.now) }
        requires few { (held self.old).count + length selection.now.list ≤ most_entries }
        ensures kind { kind self.new ≡ kind self.old }
        ensures ok { OnOk result
            (held self.new ≡ merge (held self.old)
            (state_of (kind self.old) (selected (values_of lanes.now) selection.now.list))) }
        ensures err { OnErr result (held self.new ≡ held self.old) }
        ensures roomy { has_one_size (kind self.old) ≡ true → IsOk result };

    /// Takes what an aggregate of this kind keeps of these states. On an error nothing changes.
    /// What keeps no value of its own takes no memory.
    fn merge_batch(&mut self, alloc: Global, states: &[State]) -> Result<(), AllocError>
        requires few { (held self.old).count + sum (map (λ s. s.count) states.now) ≤ most_entries }
        ensures kind { kind self.new ≡ kind self.old }
        ensures ok { OnOk result
            (held self.new ≡ merge (held self.old) (together (kind self.old) states.now)) }
        ensures err { OnErr result (held self.new ≡ held self.old) }
        ensures roomy { has_one_size (kind self.old) ≡ true → IsOk result };

    /// What is known of all entries. What keeps no value of its own takes no memory.
    fn state(&self, alloc: Global) -> Result<State, AllocError>
        ensures ok { IfOk result (λ s. s ≡ held self.now) }
        ensures roomy { has_one_size (kind self.now) ≡ true → IsOk result };

    /// The aggregate itself.
    ///
    /// # Errors
    ///
    /// A sum outside 64 bits; of MIN, MAX and the kinds of DISTINCT, out of memory.
    fn evaluate(&self, alloc: Global) -> Result<Value, AggFault>
        ensures ok { IfOk result (λ v. value (kind self.now) (held self.now) ≡ Ok v) }
        ensures err { IfErr result (λ f. f ≡ SumOutOfRange
            → value (kind self.now) (held self.now) ≡ Err sum_out_of_range) }
        ensures roomy { has_one_size (kind self.now) ≡ true → IfErr result (λ f. f ≡ SumOutOfRange) };

    ghost merges: { (x : Self) → StatesMerge (kind x) };
}
