//! Lists of expressions, of which one may be wanting.
ghost use Rattle.std.specs.Prelude.{◌≡◌, ◌++◌, ◌∷◌, [], IfOk, Option, List, option_map};
ghost use Rattle.meaning.specs.declared.expr.Arm as plan_arm;
ghost use Rattle.meaning.specs.declared.expr.Expr as plan;
ghost use Rattle.planner_expressions.specs.Translated.{if_all};

use meaning::{Arm, Expr, Sequence};
use std::alloc::AllocError;

/// Puts an expression behind the others, and says whether there was one.
pub fn put(
    part: Result<Option<Expr>, AllocError>,
    out: &mut Sequence<Expr>,
) -> Result<bool, AllocError>
    ensures { (a : Option plan.Expr) → IfOk part (λ x. x ≡ a)
        → IfOk result (λ there. if_all there out.new ≡ option_map (λ y. out.old ++ y ∷ []) a) }
{
    match part {
        Ok(Some(part)) => {
            out.push(part)?;
            Ok(true)
        }
        Ok(None) => Ok(false),
        Err(e) => Err(e),
    }
}

/// Puts an arm behind the others, and says whether there was one.
pub fn put_arm(
    part: Result<Option<Arm>, AllocError>,
    out: &mut Sequence<Arm>,
) -> Result<bool, AllocError>
    ensures { (a : Option plan_arm.Arm) → IfOk part (λ x. x ≡ a)
        → IfOk result (λ there. if_all there out.new ≡ option_map (λ y. out.old ++ y ∷ []) a) }
{
    match part {
        Ok(Some(part)) => {
            out.push(part)?;
            Ok(true)
        }
        Ok(None) => Ok(false),
        Err(e) => Err(e),
    }
}

/// The list, if all of it is there.
pub fn list_if<T: Drop>(
    all: Result<bool, AllocError>,
    list: Sequence<T>,
) -> Result<Option<Sequence<T>>, AllocError>
    ensures { (a : Option (List T)) → IfOk all (λ b. if_all b list ≡ a) → IfOk result (λ x. x ≡ a) }
{
    match all {
        Ok(all) => {
            if all {
                Ok(Some(list))
            } else {
                drop(list);
                Ok(None)
            }
        }
        Err(e) => {
            drop(list);
            Err(e)
        }
    }
}
