//! What a posted packet is. A body does nothing: the clause is a theorem on the definitions.
ghost use Rattle.std.specs.Prelude.{◌≡◌, ◌↔◌, ℕ, List, Some, slice_index_or, ◌<◌};
ghost use Rattle.meaning.specs.Said.{Answer};
ghost use Rattle.partial_codec.specs.Answer.{Spells};
ghost use Rattle.partial_codec.specs.Job.{JobSpec, IsJob};
ghost use Rattle.schedules.specs.World.{answer_in};

/// Posted bytes are a packet of the answer that they spell, if they spell one.
pub fn posts_are_answers()
    ensures { (job : JobSpec) (bytes : List ℕ) (a : Answer) → IsJob job
        → ((i : ℕ) → slice_index_or bytes i 0 < 256)
        → (answer_in job bytes ≡ Some a) ↔ Spells job bytes a }
{}
