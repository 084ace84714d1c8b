//! The laws of the formats. A body does nothing: the clause is a theorem on the definitions.
ghost use Rattle.std.specs.Prelude.{◌≡◌, ℕ, List, true};
ghost use Rattle.meaning.specs.Said.{Answer};
ghost use Rattle.meaning.specs.Said.{Cell};
ghost use Rattle.partial_codec.specs.Job.{JobSpec, IsJob};
ghost use Rattle.answer_fields.specs.declared.format.Format.{Format};
ghost use Rattle.answer_fields.specs.Format.{has_kinds, newest};
ghost use Rattle.answer_fields.specs.Shape.{Shape, shape_of};
ghost use Rattle.partial_codec.specs.Spelling.{answer_spelling};
ghost use Rattle.partial_codec.specs.Answer.{Fits, Spells, judged};
ghost use Rattle.partial_codec.specs.State.{FitsState, SpellsState, state_spelling};

/// The newest format has all kinds of aggregates.
pub fn newest_has_all_kinds()
    ensures { (shape : Shape) → has_kinds newest shape ≡ true }
{}

/// Bytes are the spelling of one answer at most, in either format.
pub fn one_answer()
    ensures { (job : JobSpec) (bytes : List ℕ) (a b : Answer) → IsJob job → Spells job bytes a
        → Spells job bytes b → a ≡ b }
{}

/// Each answer that fits a job has a spelling in each format that has its kinds of aggregates, and
/// no other bytes are one.
pub fn one_spelling()
    ensures { (format : Format) (job : JobSpec) (a : Answer)
        → has_kinds format (shape_of job.plan) ≡ true → Fits job a
        → Spells job (answer_spelling format job a) a
        × ((bytes : List ℕ) (spells : Spells job bytes a) → spells.format ≡ format
        → bytes ≡ answer_spelling format job a) }
{}

/// Bytes are the spelling of one list of cells at most, in either format.
pub fn one_state()
    ensures { (job : JobSpec) (bytes : List ℕ) (a b : List Cell) → IsJob job
        → SpellsState job bytes a → SpellsState job bytes b → a ≡ b }
{}

/// Each list of cells that fits a job has a spelling in each format that has its kinds of
/// aggregates, and no other bytes are one.
pub fn one_state_spelling()
    ensures { (format : Format) (job : JobSpec) (cells : List Cell)
        → has_kinds format (shape_of job.plan) ≡ true → FitsState job cells
        → SpellsState job (state_spelling format job cells) cells
        × ((bytes : List ℕ) (spells : SpellsState job bytes cells) → spells.format ≡ format
        → bytes ≡ state_spelling format job cells) }
{}
