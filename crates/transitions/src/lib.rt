// What a frame does to the player's transition before anything is shown.
#![tactic(auto)]

ghost use Rattle.std.specs.Prelude.{◌≡◌, ℕ, ◌<◌, Some};
ghost use Rattle.model.specs.Controller.{condition_holds, winner, started_by, is_ended};
ghost use Rattle.transitions.specs.Operators.{compares};
ghost use Rattle.transitions.specs.Step.{StepMade};

use float::widen;
use layout::passed::State;
use layout::{Operator, numbers_at};
use model::Transition;
use model::limits::MAX_PARAMETERS;

// The parameter stands on the left.
fn holds(operator: Operator, p: f32, v: f32) -> bool
    ensures { result ≡ compares operator p v }
{
    match operator {
        Operator::Less => p < v,
        Operator::AtMost => p <= v,
        Operator::Greater => p > v,
        Operator::AtLeast => p >= v,
        Operator::Equal => p == v,
        Operator::Unequal => p != v,
    }
}

// The numbers stand beside the state, since a `State` is its plan's: `uses` reads states without them.
fn condition_holds(
    state: &State<'_>,
    numbers: &[f32],
    parameters: &[f32; MAX_PARAMETERS],
    t: usize,
) -> bool
    requires { t < state.now.here.transitions }
    ensures { result
        ≡ condition_holds state.now.plan.words.now numbers.now parameters.now state.now.here.state t }
{
    let condition = state.condition(t);
    let compared = numbers_at(numbers, state.here, t);
    holds(
        condition.operator,
        parameters[condition.parameter],
        compared.value,
    )
}

// Tries the conditions in the plan's order: the first that holds wins. No `for` or `find`: document 01 asks for a loop that
// yields the winner, or none, by break.
pub fn first_passing(
    state: &State<'_>,
    numbers: &[f32],
    parameters: &[f32; MAX_PARAMETERS],
) -> Option<usize>
    ensures { result
        ≡ winner state.now.plan.words.now numbers.now parameters.now state.now.here.state }
{
    let transitions = state.here.transitions;
    let mut t = 0;
    loop {
        if t >= transitions {
            break None;
        }
        if condition_holds(state, numbers, parameters, t) {
            break Some(t);
        }
        t += 1;
    }
}

// The transition that a winner starts at an instant; a player without one stays idle.
fn started_by(state: &State<'_>, numbers: &[f32], instant: f64, won: Option<usize>) -> Transition
    requires { (t : ℕ) → won ≡ Some t → t < state.now.here.transitions }
    ensures { result
        ≡ started_by state.now.plan.words.now numbers.now instant state.now.here.state won }
{
    let Some(t) = won else {
        return Transition::Idle;
    };
    let taken = numbers_at(numbers, state.here, t);
    Transition::Running {
        start: instant,
        target: state.condition(t).target,
        duration: taken.duration,
    }
}

#[tactic(auto, unfolding(model::specs::Controller::is_ended))]
fn is_ended(instant: f64, start: f64, duration: f32) -> bool
    ensures { result ≡ is_ended instant start duration }
{
    instant >= start + widen(duration)
}

// The player's state and transition after the step.
#[derive(Drop)]
pub struct Stepped {
    pub state: usize,
    pub transition: Transition,
}

// An idle player looks for a start, one in a transition for its end: one of these in a frame.
pub fn step(
    state: &State<'_>,
    numbers: &[f32],
    transition: Transition,
    parameters: &[f32; MAX_PARAMETERS],
    instant: f64,
) -> Stepped
    ensures { StepMade state.now.plan.words.now numbers.now state.now.here.state transition
        parameters.now instant result }
{
    match transition {
        Transition::Idle => {
            let won = first_passing(state, numbers, parameters);
            Stepped {
                state: state.here.state,
                transition: started_by(state, numbers, instant, won),
            }
        }
        Transition::Running {
            start,
            target,
            duration,
        } if is_ended(instant, start, duration) => Stepped {
            state: target,
            transition: Transition::Idle,
        },
        Transition::Running { .. } => Stepped {
            state: state.here.state,
            transition,
        },
    }
}
