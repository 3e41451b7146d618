// Ports blend_tree.rs: synchronising the clips of a tree, and the poses of its nodes for a block of joints.
#![tactic(auto)]

ghost use Rattle.std.specs.Prelude.{◌≡◌, ◌<◌};
ghost use Rattle.layout.specs.Layout.{node_of, InPlan};
ghost use Rattle.blend_tree.specs.Slots.{Slots};

use layout::passed::{Figure, State};
use layout::{Node, StateLayout};
use model::limits::{MAX_INSTANCES, MAX_NODES, MAX_PARAMETERS};

pub mod poses;
pub mod sampling;
pub mod synchronize;

// A state of a figure, at a time.
#[derive(Clone, Copy)]
pub struct StateAt<'a> {
    pub figure: Figure<'a>,
    pub here: StateLayout,
    pub time: f32,
    ghost place: { InPlan figure.plan.words.now here },
}

// What a state's poses come from.
#[derive(Clone, Copy)]
pub struct Source<'a> {
    pub state: StateAt<'a>,
    pub parameters: &'a [f32; MAX_PARAMETERS],
    pub slots: &'a [u8; SLOTS],
    pub instances: &'a [f32; MAX_INSTANCES],
    ghost filled: { Slots state.figure.plan.words.now state.here.state slots.now },
}

// One for each node of a state, and one more.
pub const SLOTS: usize = MAX_NODES + 1;

impl<'a> StateAt<'a> {
    fn state(&self) -> State<'a>
        ensures plan { result.plan ≡ self.now.figure.plan }
        ensures here { result.here ≡ self.now.here }
    {
        State {
            plan: self.figure.plan,
            here: self.here,
        }
    }

    // Of a node that the state has.
    pub fn node(&self, i: usize) -> Node
        requires { i < self.now.here.nodes }
        ensures { result ≡ node_of self.now.figure.plan.words.now self.now.here.state i }
    {
        self.state().node(i)
    }
}
