// What a figure can use (document 02, Card 3). From the initial state on each state that is met is followed once: its
// transitions mark further states, its conditions and nodes the parameters that they read and the clips that they play.
#![tactic(auto)]

ghost use Rattle.std.specs.Prelude.{◌≡◌, ◌<◌};
ghost use Rattle.model.specs.Plan.{state_count};
ghost use Rattle.model.specs.Uses.{leads_to, node_reads, blends_by, asks_for, reads, node_plays, plays};
ghost use Rattle.model.specs.Promises.{UsesFound};
ghost use Rattle.uses.specs.Marking.{AllMarked, none, first_open, MarksOf};

use layout::Kind;
use layout::passed::{Plan, State};
use model::limits::{MAX_CLIPS, MAX_PARAMETERS, MAX_STATES};
use model::{Refusal, Uses};
use plan::figure;

// A clip node plays its clip, another node reads its parameter.
fn mark_node(state: &State<'_>, i: usize, marks: &mut Uses)
    requires { i < state.now.here.nodes }
    ensures { AllMarked none
        (node_reads state.now.plan.words.now state.now.here.state i)
        (node_plays state.now.plan.words.now state.now.here.state i)
        marks.old marks.new }
{
    let node = state.node(i);
    match node.kind {
        Kind::Clip => marks.clips[node.a] = true,
        _ => marks.parameters[node.parameter] = true,
    }
}

fn mark_nodes(state: &State<'_>, marks: &mut Uses)
    ensures { AllMarked none
        (blends_by state.now.plan.words.now state.now.here.state)
        (plays state.now.plan.words.now state.now.here.state)
        marks.old marks.new }
{
    for i in 0..state.here.nodes {
        mark_node(state, i, marks);
    }
}

// A transition reads its condition's parameter, and leads to its target.
fn mark_transitions(state: &State<'_>, marks: &mut Uses)
    ensures { AllMarked
        (leads_to state.now.plan.words.now state.now.here.state)
        (asks_for state.now.plan.words.now state.now.here.state)
        none marks.old marks.new }
{
    for t in 0..state.here.transitions {
        let condition = state.condition(t);
        marks.parameters[condition.parameter] = true;
        marks.states[condition.target] = true;
    }
}

// All that one state leads to and uses.
fn follow(plan: &Plan<'_>, state: usize, marks: &mut Uses)
    requires { state < state_count plan.now.words.now }
    ensures { AllMarked
        (leads_to plan.now.words.now state)
        (reads plan.now.words.now state)
        (plays plan.now.words.now state)
        marks.old marks.new }
{
    let here = plan.state(state);
    mark_nodes(&here, marks);
    mark_transitions(&here, marks);
}

// The first state that is marked and not yet followed.
fn first_open(states: &[bool; MAX_STATES], followed: &[bool; MAX_STATES]) -> Option<usize>
    ensures { result ≡ first_open states.now followed.now }
{
    states
        .iter()
        .zip(followed)
        .position(|(marked, followed)| *marked & !*followed)
}

// Every state is followed at most once, so there are as many rounds as states at the most.
// `followed` stands beside the marks, since those are what the call promises.
fn marks_of(plan: &Plan<'_>) -> Uses
    ensures { MarksOf plan.now.words.now result }
{
    let mut marks = Uses {
        states: [false; MAX_STATES],
        parameters: [false; MAX_PARAMETERS],
        clips: [false; MAX_CLIPS],
    };
    let mut followed = [false; MAX_STATES];
    marks.states[plan.layout.initial] = true;
    for _ in 0..plan.layout.states {
        let Some(state) = first_open(&marks.states, &followed) else {
            break;
        };
        follow(plan, state, &mut marks);
        followed[state] = true;
    }
    marks
}

// The marks of a figure, or why a start refuses it.
// Not inlined: in one function with what a host is told, the marks are copied once more, in pieces that wait for one
// another.
#[inline(never)]
pub fn uses(plan: &[u16], numbers: &[f32]) -> Result<Uses, Refusal>
    ensures { UsesFound plan.now numbers.now result }
{
    let figure = figure(plan, numbers)?;
    Ok(marks_of(&figure.plan))
}
