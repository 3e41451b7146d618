// The states of a plan.
ghost use Rattle.std.specs.Prelude.{◌≡◌, ◌+◌, ◌*◌, ◌<◌, ◌≤◌};
ghost use Rattle.model.specs.Answers.{values, each};
ghost use Rattle.model.specs.Text.{max_word};
ghost use Rattle.model.specs.Plan.{max_states, max_states_at, max_plan, state_at};
ghost use Rattle.plan.specs.Parts.{CountsOf, check_transition_at, StateChecked, StatesChecked};

use crate::nodes::{MARKS, check_nodes, check_used};
use crate::words::{Counts, word_below, word_up_to, word_within};
use layout::{NODE_WORDS, TRANSITION_WORDS, word};
use model::limits::{MAX_NODES, MAX_TRANSITIONS};
use model::{Answer, Reason, Refusal};

// What the check of all states finds: the word after the last state, and the count of transitions.
#[derive(Clone, Copy)]
pub struct States {
    pub end: usize,
    pub transitions: usize,
}

// The transition whose words begin at `at`.
fn check_transition(plan: &[u16], at: usize, counts: Counts) -> Answer
    requires { at ≤ max_word }
    ensures { values result ≡ check_transition_at plan.now counts at }
{
    word_below(plan, Reason::Transition, at, counts.parameters)?;
    word_up_to(plan, Reason::Transition, at + 1, 5)?;
    word_below(plan, Reason::Transition, at + 2, counts.states)
}

// The first n of those that begin at `from`.
// At a place, like all of the check: words.rt says why.
fn check_transitions(plan: &[u16], from: usize, n: usize, counts: Counts) -> Answer
    requires { from + 3 * n ≤ max_word }
    ensures { values result ≡ each n (λ t. check_transition_at plan.now counts (from + 3 * t)) }
{
    for t in 0..n {
        check_transition(plan, from + TRANSITION_WORDS * t, counts)?;
    }
    Ok(())
}

// The state whose K is the word `at`, with its first clip node's number.
fn check_state(plan: &[u16], at: usize, counts: Counts, clip_node: usize) -> Answer
    requires { (at ≤ max_plan) × (clip_node ≤ max_plan) × CountsOf plan.now counts }
    ensures { StateChecked plan.now at clip_node result }
{
    word_within(plan, Reason::Count, at, 1, MAX_NODES)?;
    let nodes = word(plan, at);
    let mut used = [false; MARKS];
    check_nodes(plan, at, nodes, counts, clip_node, &mut used)?;
    check_used(&used[..nodes - 1], at)?;
    let transitions_at = at + 1 + NODE_WORDS * nodes;
    word_up_to(plan, Reason::Count, transitions_at, MAX_TRANSITIONS)?;
    let n = word(plan, transitions_at);
    check_transitions(plan, transitions_at + 1, n, counts)
}

// All states, the first of which begins at `from`.
// As `Plan::state_layout`, with a check of each state between: a step for both would hand back four numbers at a time.
pub fn check_states(plan: &[u16], from: usize, counts: Counts) -> Result<States, Refusal>
    requires { (from ≤ max_states_at)
        × (from ≡ state_at plan.now 0)
        × CountsOf plan.now counts
        × (counts.states ≤ max_states) }
    ensures { StatesChecked plan.now counts.states result }
{
    let states = counts.states;
    let mut at = from;
    let mut clip_node = 0;
    let mut transitions = 0;
    for s in 0..states {
        check_state(plan, at, counts, clip_node)?;
        // (K + 1) / 2 of its K nodes are clips: model's Laws/Trees has why.
        let nodes = word(plan, at);
        let transitions_at = at + 1 + NODE_WORDS * nodes;
        let n = word(plan, transitions_at);
        clip_node += (nodes + 1) / 2;
        transitions += n;
        at = transitions_at + 1 + TRANSITION_WORDS * n;
    }
    Ok(States {
        end: at,
        transitions,
    })
}
