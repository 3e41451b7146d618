// A plan that passed its check, with its numbers, and one of its states. That it passed stands in the types.
ghost use Rattle.std.specs.Prelude.{◌≡◌, ◌<◌, length};
ghost use Rattle.model.specs.Plan.{clip_count, sample_count, is_stopping, state_count, numbers_length};
ghost use Rattle.layout.specs.Layout.{state_layout, node_of, condition_of};
ghost use Rattle.layout.specs.Layout.{Laid, InPlan};

use crate::{
    Condition, Kind, Layout, NODE_WORDS, Node, Operator, StateLayout, TRANSITION_NUMBERS,
    TRANSITION_WORDS, sample_count_at, word_there,
};

// The words, which are lent, and what the check found in them.
#[derive(Clone, Copy)]
pub struct Plan<'a> {
    pub words: &'a [u16],
    pub layout: Layout,
    ghost laid: { Laid words.now layout },
}

// With as many numbers as it says it has.
#[derive(Clone, Copy)]
pub struct Figure<'a> {
    pub plan: Plan<'a>,
    pub numbers: &'a [f32],
    ghost whole: { length numbers.now ≡ numbers_length plan.words.now },
}

// One of a plan's states.
#[derive(Clone, Copy)]
pub struct State<'a> {
    pub plan: Plan<'a>,
    pub here: StateLayout,
    ghost place: { InPlan plan.words.now here },
}

impl<'a> Plan<'a> {
    // Of a clip that the plan has.
    pub fn sample_count(&self, c: usize) -> usize
        requires { c < clip_count self.now.words.now }
        ensures { result ≡ sample_count self.now.words.now c }
    {
        word_there(self.words, sample_count_at(self.layout.joints, c))
    }

    // Whether a clip that the plan has stops on its last sample. Its ending stands behind its sample count.
    pub fn is_stopping(&self, c: usize) -> bool
        requires { c < clip_count self.now.words.now }
        ensures { result ≡ is_stopping self.now.words.now c }
    {
        word_there(self.words, sample_count_at(self.layout.joints, c) + 1) == 1
    }

    // Walks over the states before it. Of K nodes (K + 1) / 2 are clips, whatever the tree, so no node is looked at.
    pub fn state_layout(&self, state: usize) -> StateLayout
        requires { state < state_count self.now.words.now }
        ensures { result ≡ state_layout self.now.words.now state }
    {
        let plan = self.words;
        let mut at = self.layout.states_at;
        let mut values_at = self.layout.clips;
        let mut clip_node = 0;
        for s in 0..state {
            let nodes = word_there(plan, at);
            let transitions_at = at + 1 + NODE_WORDS * nodes;
            let transitions = word_there(plan, transitions_at);
            clip_node += (nodes + 1) / 2;
            values_at += TRANSITION_NUMBERS * transitions;
            at = transitions_at + 1 + TRANSITION_WORDS * transitions;
        }
        let nodes = word_there(plan, at);
        let transitions_at = at + 1 + NODE_WORDS * nodes;
        StateLayout {
            state,
            nodes_at: at + 1,
            nodes,
            transitions_at: transitions_at + 1,
            transitions: word_there(plan, transitions_at),
            values_at,
            clip_node,
        }
    }

    pub fn state(&self, state: usize) -> State<'a>
        requires { state < state_count self.now.words.now }
        ensures plan { result.plan ≡ self.now }
        ensures here { result.here ≡ state_layout self.now.words.now state }
    {
        State {
            plan: *self,
            here: self.state_layout(state),
        }
    }
}

impl<'a> State<'a> {
    // Nodes and conditions are read word by word: a trait with their sizes would have each list its fields as well.
    // Of a node that the state has.
    // Word by word, as in `condition`: out of an array's pattern each would have to be widened all the same.
    pub fn node(&self, i: usize) -> Node
        requires { i < self.now.here.nodes }
        ensures { result ≡ node_of self.now.plan.words.now self.now.here.state i }
    {
        let plan = self.plan.words;
        let at = self.here.nodes_at + NODE_WORDS * i;
        Node {
            kind: Kind::from(word_there(plan, at)),
            a: word_there(plan, at + 1),
            b: word_there(plan, at + 2),
            parameter: word_there(plan, at + 3),
        }
    }

    // Of a transition that the state has.
    pub fn condition(&self, t: usize) -> Condition
        requires { t < self.now.here.transitions }
        ensures { result ≡ condition_of self.now.plan.words.now self.now.here.state t }
    {
        let plan = self.plan.words;
        let at = self.here.transitions_at + TRANSITION_WORDS * t;
        Condition {
            parameter: word_there(plan, at),
            operator: Operator::from(word_there(plan, at + 1)),
            target: word_there(plan, at + 2),
        }
    }
}
