//! The hyperperiod after which what runs comes round.
ghost use Rattle.std.specs.Prelude.{◌<◌, IfSome};
ghost use Rattle.run_tree.specs.Plans.{stop_of};
ghost use Rattle.merged_rounds.specs.Laps.{AreTurns, CanComeRound};

use crate::apart::comes_round;
use crate::passes::are_turns;
use crate::searches::turn_of;
use run_tree::Plan;

/// The ticks of a hyperperiod, where what runs comes round after it and there are more ticks up to the end of all rounds.
pub fn hyperperiod_of(plan: &Plan) -> Option<u128>
    ensures can { IfSome result (λ _. CanComeRound plan.now) }
    ensures turns { IfSome result (AreTurns plan.now) }
    ensures within { IfSome result (λ ticks. ticks < stop_of plan.now) }
{
    let turn = turn_of(plan)?;
    if are_turns(plan, turn, turn) && comes_round(plan) {
        Some(turn)
    } else {
        None
    }
}
