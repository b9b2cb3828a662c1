//! Calls as a planner makes them, one by one, on a plan in either state.
ghost use Rattle.std.specs.Prelude.{◌≡◌, ◌≢◌};
ghost use Rattle.engine.specs.Workspaces.{held, SameSlices};
ghost use Rattle.plan.specs.declared.calls.Call.TheVariants.{Fix};
ghost use Rattle.plan.specs.Plans.{draft_plan, fixed_plan, plan_of, opened};
ghost use Rattle.plan.specs.Calls.{take_in, plain_call, plain_filed_call};
ghost use Rattle.plan.specs.Histories.{Follows, FollowsApart};
ghost use Rattle.plan.specs.Law.{Law};

use crate::calls::{Answer, Call, Declined, FiledCall, Reply};
use crate::{AnyPlan, Draft, Fixed, InState};
use amount::filed::Filed;
use amount::measure::{Measure, Scaled};
use amount::spanned::Spanned;
use engine::Workspace;
use network::Wait;

/// Opens a plan over this memory, as a draft.
pub fn open_plan<'a, X: Measure>(n: u32, memory: &'a mut [Wait<Spanned<X>>]) -> AnyPlan<'a, X>
    ensures { plan_of result ≡ opened n memory.old }
{
    InState::Editing(Draft::open(n, memory))
}

// A call that leaves a draft a draft.
fn edit<X: Measure>(draft: &mut Draft<'_, X>, call: &Call<X>) -> Answer<X>
    ensures { (call.now ≢ Fix) → FollowsApart X.scale (draft_plan draft.old) (plain_call X.scale call.now) result (draft_plan draft.new) }
{
    match call {
        Call::Put(wait) => Ok(Reply::Number(draft.put(*wait)?)),
        Call::Retime(i, amount) => {
            draft.retime(*i, *amount)?;
            Ok(Reply::Done)
        }
        Call::DropWait(i) => {
            draft.drop_wait(*i)?;
            Ok(Reply::Done)
        }
        Call::Fix | Call::Reopen | Call::Solve => Err(Declined::Barred),
    }
}

// A call to a draft.
fn on_draft<'a, X: Measure>(mut draft: Draft<'a, X>, call: &Call<X>) -> (AnyPlan<'a, X>, Answer<X>)
    ensures { FollowsApart X.scale (draft_plan draft.entry) (plain_call X.scale call.now) result.1 (plan_of result.0) }
{
    if let Call::Fix = call {
        return (InState::Settled(draft.fix()), Ok(Reply::Done));
    }
    let answer = edit(&mut draft, call);
    (InState::Editing(draft), answer)
}

// A call to a fixed plan.
fn on_fixed<'a, X: Measure>(
    fixed: Fixed<'a, X>,
    call: &Call<X>,
    space: &mut Workspace<'_, X>,
) -> (AnyPlan<'a, X>, Answer<X>)
    ensures rule { Follows X.scale (fixed_plan fixed.entry) (held space.old) (plain_call X.scale call.now) result.1 (plan_of result.0) (held space.new) }
    ensures lent { SameSlices space.old space.new }
{
    let answer = match call {
        Call::Reopen => return (InState::Editing(fixed.reopen()), Ok(Reply::Done)),
        Call::Solve => fixed.solve(space).map(Reply::Shown).map_err(Declined::from),
        Call::Put(_) | Call::Retime(_, _) | Call::DropWait(_) | Call::Fix => Err(Declined::Barred),
    };
    (InState::Settled(fixed), answer)
}

// What is still lent is said by clauses, as in the engine.
/// Makes a call on a plan: the plan after it, and the answer.
pub fn apply<'a, X: Measure>(
    plan: AnyPlan<'a, X>,
    call: &Call<X>,
    space: &mut Workspace<'_, X>,
) -> (AnyPlan<'a, X>, Answer<X>)
    ensures rule { Follows X.scale (plan_of plan.entry) (held space.old) (plain_call X.scale call.now) result.1 (plan_of result.0) (held space.new) }
    ensures law { Law X.scale (plan_of plan.entry) (held space.old) (plain_call X.scale call.now) result.1 (plan_of result.0) (held space.new) }
    ensures lent { SameSlices space.old space.new }
{
    match plan {
        InState::Editing(draft) => on_draft(draft, call),
        InState::Settled(fixed) => on_fixed(fixed, call, space),
    }
}

// A take in on a draft.
fn take_in<X: Filed>(draft: &mut Draft<'_, X>, bytes: &[u8]) -> Answer<X>
    ensures { FollowsApart X.scale (draft_plan draft.old) (take_in X.NUMBER bytes.now) result (draft_plan draft.new) }
{
    Ok(Reply::Came(draft.take_in(bytes)?))
}

/// Makes a call on a plan in a measure that files hold: the plan after it, and the answer.
// Beside `apply`, since a measure that files do not hold has no take in: its calls are another type.
pub fn apply_filed<'a, 'b, X: Filed>(
    plan: AnyPlan<'a, X>,
    call: &FiledCall<'b, X>,
    space: &mut Workspace<'_, X>,
) -> (AnyPlan<'a, X>, Answer<X>)
    ensures rule { Follows X.scale (plan_of plan.entry) (held space.old) (plain_filed_call X.NUMBER X.scale call.now) result.1 (plan_of result.0) (held space.new) }
    ensures law { Law X.scale (plan_of plan.entry) (held space.old) (plain_filed_call X.NUMBER X.scale call.now) result.1 (plan_of result.0) (held space.new) }
    ensures lent { SameSlices space.old space.new }
{
    match call {
        FiledCall::TakeIn(bytes) => match plan {
            InState::Editing(mut draft) => {
                let answer = take_in(&mut draft, bytes);
                (InState::Editing(draft), answer)
            }
            InState::Settled(fixed) => (InState::Settled(fixed), Err(Declined::Barred)),
        },
        FiledCall::Other(call) => apply(plan, call, space),
    }
}
