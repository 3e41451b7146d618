// Synchronising: two clips that a node lerps with one another get the rates that let them end together.
ghost use Rattle.std.specs.Prelude.{◌≡◌, true, suc, ◌+◌, ◌<◌, ◌≤◌};
ghost use Rattle.model.specs.Text.{max_word};
ghost use Rattle.model.specs.Plan.{max_clip_nodes, is_clip, clip_node_at};
ghost use Rattle.model.specs.Tree.{target_length, plays_samples, is_touched, node_length, rate_set};
ghost use Rattle.model.specs.Tree.{synchronize_node, synchronize};
ghost use Rattle.blend_tree.specs.Slots.{Slots};

use crate::{SLOTS, StateAt};
use animation::{duration, instance_at, set_instance, set_playback_rate};
use layout::passed::State;
use layout::{Kind, Node, rate};
use model::limits::{MAX_INSTANCES, MAX_PARAMETERS};

// The instance of node i, if it is a clip node.
pub fn clip_node(state: &State<'_>, i: usize) -> usize
    requires { i < state.now.here.nodes }
    ensures { result ≡ clip_node_at state.now.plan.words.now state.now.here.state i }
{
    let mut next = state.here.clip_node;
    for k in 0..i {
        next = next_clip_node(state, k, next);
    }
    next
}

// That of every node, in one pass. A slot of another node is not read. They are bytes in an array of the caller's,
// since copies of them cost more than all else for a state of one node.
// A `for` of two lines, as in `clip_node`: a `scan` of both would put place and step into a closure.
fn clip_slots(state: &State<'_>, slots: &mut [u8; SLOTS])
    ensures { Slots state.now.plan.words.now state.now.here.state slots.new }
{
    let mut next = state.here.clip_node;
    for i in 0..state.here.nodes {
        slots[i] = next as u8;
        next = next_clip_node(state, i, next);
    }
}

// The clip node after node i.
fn next_clip_node(state: &State<'_>, i: usize, clip_node: usize) -> usize
    requires { (i < state.now.here.nodes)
        × (clip_node ≤ max_word)
        × (clip_node ≡ clip_node_at state.now.plan.words.now state.now.here.state i) }
    ensures { (result ≡ clip_node_at state.now.plan.words.now state.now.here.state (suc i))
        × (result ≤ clip_node + 1) }
{
    match state.node(i).kind {
        Kind::Clip => clip_node + 1,
        _ => clip_node,
    }
}

fn target_length(p: f32, length_a: f32, length_b: f32) -> f32
    ensures { result ≡ target_length p length_a length_b }
{
    (1.0 - p) * length_a + p * length_b
}

// Instance n takes a new rate.
fn set_rate(instances: &mut [f32; MAX_INSTANCES], n: usize, time: f32, rate: f32)
    requires { n < max_clip_nodes }
    ensures { instances.new ≡ rate_set time n rate instances.old }
{
    let instance = instance_at(instances, n);
    set_instance(instances, n, set_playback_rate(instance, time, rate));
}

impl<'a> StateAt<'a> {
    // The length of the clip that a clip node names.
    fn node_length(&self, i: usize) -> f32
        requires { (i < self.now.here.nodes)
            × (is_clip self.now.figure.plan.words.now self.now.here.state i ≡ true) }
        ensures { result
            ≡ node_length self.now.figure.plan.words.now self.now.figure.numbers.now
            self.now.here.state i }
    {
        let c = self.node(i).a;
        duration(
            self.figure.plan.sample_count(c),
            rate(self.figure.numbers, c),
        )
    }

    // Whether node i plays a clip that has samples.
    fn plays_samples(&self, i: usize) -> bool
        requires { i < self.now.here.nodes }
        ensures { result ≡ plays_samples self.now.figure.plan.words.now self.now.here.state i }
    {
        let words = self.node(i);
        match words.kind {
            Kind::Clip => self.figure.plan.sample_count(words.a) != 0,
            _ => false,
        }
    }

    // Whether synchronising touches node i.
    fn is_touched(&self, i: usize) -> bool
        requires { i < self.now.here.nodes }
        ensures { result ≡ is_touched self.now.figure.plan.words.now self.now.here.state i }
    {
        let words = self.node(i);
        match words.kind {
            Kind::Lerp => self.plays_samples(words.a) && self.plays_samples(words.b),
            _ => false,
        }
    }

    fn synchronize_node(
        &self,
        parameters: &[f32; MAX_PARAMETERS],
        slots: &[u8; SLOTS],
        i: usize,
        instances: &mut [f32; MAX_INSTANCES],
    )
        requires { Slots self.now.figure.plan.words.now self.now.here.state slots.now
            × (i < self.now.here.nodes) }
        ensures { instances.new
            ≡ synchronize_node self.now.figure.plan.words.now self.now.figure.numbers.now parameters.now
            self.now.time self.now.here.state i instances.old }
    {
        if !self.is_touched(i) {
            return;
        }
        let Node {
            a,
            b,
            parameter,
            ..
        } = self.node(i);
        let length_a = self.node_length(a);
        let length_b = self.node_length(b);
        let target = target_length(parameters[parameter], length_a, length_b);
        set_rate(instances, slots[a] as usize, self.time, length_a / target);
        set_rate(instances, slots[b] as usize, self.time, length_b / target);
    }

    // All its nodes, in order, with its slots, which its poses need too.
    pub fn synchronize(
        &self,
        parameters: &[f32; MAX_PARAMETERS],
        slots: &mut [u8; SLOTS],
        instances: &mut [f32; MAX_INSTANCES],
    )
        ensures { Slots self.now.figure.plan.words.now self.now.here.state slots.new
            × (instances.new
            ≡ synchronize self.now.figure.plan.words.now self.now.figure.numbers.now parameters.now
            self.now.time self.now.here.state instances.old) }
    {
        clip_slots(&self.state(), slots);
        for i in 0..self.here.nodes {
            self.synchronize_node(parameters, slots, i, instances);
        }
    }
}
