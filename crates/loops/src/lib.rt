// How many whole loops a clip node's clip has played, and the rest (document 02, Card 7). The player is only read, and
// nothing is synchronised: its clip instance counts as it was handed in.
#![tactic(auto)]

ghost use Rattle.std.specs.Prelude.{◌≡◌, ◌<◌};
ghost use Rattle.model.specs.Numbers.{floor_index};
ghost use Rattle.model.specs.Promises.{LoopsCounted};
ghost use Rattle.loops.specs.Counting.{IndexCounted, CountedAt};

use animation::instance_at;
use blend_tree::sampling::{clip_at, clip_position};
use blend_tree::synchronize::clip_node;
use float::floor_index;
use frames::has_states;
use layout::Kind;
use layout::passed::Figure;
use model::limits::MAX_INSTANCES;
use model::{LoopCount, Player, Reason, Refusal};
use plan::figure;

// Refusal 16: the state or the node is absent, or the node is no clip.
const NO_CLIP_NODE: Refusal = Refusal {
    reason: Reason::ClipNode,
    place: 0,
};

// Refusal 17: the clip is empty or stops.
const NOT_LOOPING: Refusal = Refusal {
    reason: Reason::NotLooping,
    place: 0,
};

// A position's floor as an index.
// By `as`: `try_from` would have an error that nobody can meet, since a usize has 64 bits here.
fn played_index(position: f32) -> usize
    ensures { result ≡ floor_index position }
{
    floor_index(position) as usize
}

// An index in whole loops of so many samples, and the rest.
fn index_counted(samples: usize, index: usize) -> LoopCount
    requires { 0 < samples }
    ensures { IndexCounted samples index result }
{
    LoopCount {
        loops: index / samples,
        rest: index % samples,
    }
}

// Of a figure and a player that pass 1 to 9: refusal 16, then 17, or the count.
fn count_at(
    figure: &Figure<'_>,
    instances: &[f32; MAX_INSTANCES],
    state: usize,
    node: usize,
    time: f32,
) -> Result<LoopCount, Refusal>
    ensures { CountedAt figure.now.plan.words.now figure.now.numbers.now instances.now state node time result }
{
    if state >= figure.plan.layout.states {
        return Err(NO_CLIP_NODE);
    }
    let state = figure.plan.state(state);
    if node >= state.here.nodes {
        return Err(NO_CLIP_NODE);
    }
    let words = state.node(node);
    let Kind::Clip = words.kind else {
        return Err(NO_CLIP_NODE);
    };
    let clip = clip_at(figure, words.a);
    if clip.samples == 0 {
        return Err(NOT_LOOPING);
    }
    if clip.stops {
        return Err(NOT_LOOPING);
    }
    let instance = instance_at(instances, clip_node(&state, node));
    let position = clip_position(clip, instance, time);
    Ok(index_counted(clip.samples, played_index(position)))
}

// State, node and time stay three parameters: the call is README's and C's.
pub fn loops(
    plan: &[u16],
    numbers: &[f32],
    player: Player,
    state: usize,
    node: usize,
    time: f32,
) -> Result<LoopCount, Refusal>
    ensures { LoopsCounted plan.now numbers.now player state node time result }
{
    let figure = figure(plan, numbers)?;
    if !has_states(figure.plan.layout.states, player.state, player.transition) {
        return Err(Reason::State.at(0));
    }
    // A variable, so that a host's player is copied here and not before the check.
    let instances = player.instances;
    count_at(&figure, &instances, state, node, time)
}
