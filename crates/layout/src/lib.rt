// Where the words and numbers of a plan stand. `passed` has what is read of a plan that passed its check. Beside the check, no other crate adds up places of words; what each one is stands in model's Plan.
// The plan is document 01's row of words, each count before what it counts: so it has places, and no slices of nodes.
#![tactic(auto)]

ghost use Rattle.std.specs.Prelude.{◌≡◌, List, ℕ, ◌+◌, ◌*◌, ◌<◌, ◌≤◌, length, get_or};
ghost use Rattle.std.specs.Float.{nan};
ghost use Rattle.model.specs.Text.{max_word};
ghost use Rattle.model.specs.Plan.{max_joints, max_clips, max_samples, is_root_word, word, joint_count, clip_count, state_count};
ghost use Rattle.model.specs.Plan.{parent_at, parent, sample_count_at, sample_count, is_stopping};
ghost use Rattle.model.specs.Plan.{samples_before, number, Rate};
ghost use Rattle.layout.specs.Kinds.{kind_of, operator_of};
ghost use Rattle.layout.specs.Layout.{layout_of, state_layout, node_of, condition_of, numbers_of};
ghost use Rattle.layout.specs.Layout.{Passes, InPlan, HasTransition};

use model::limits::{
    BYTE_ROOT, MAX_BYTE_ROOT_JOINTS, MAX_CLIPS, MAX_JOINTS, MAX_NODES, MAX_STATES, MAX_TRANSITIONS,
    POSE_FLOATS, ROOT,
};

pub mod passed;

// The header's words, and the first parent.
pub const JOINT_COUNT_AT: usize = 0;

pub const CLIP_COUNT_AT: usize = 1;

pub const PARAMETER_COUNT_AT: usize = 2;

pub const STATE_COUNT_AT: usize = 3;

pub const INITIAL_STATE_AT: usize = 4;

pub const PARENTS_AT: usize = 5;

// Of each clip, node and transition: words, and numbers.
pub const CLIP_WORDS: usize = 2;

pub const NODE_WORDS: usize = 4;

pub const TRANSITION_WORDS: usize = 3;

pub const TRANSITION_NUMBERS: usize = 2;

// Of the longest plan that can pass. A state has two counts before its nodes and its transitions.
pub const MAX_PLAN: usize = PARENTS_AT
    + MAX_JOINTS
    + CLIP_WORDS * MAX_CLIPS
    + MAX_STATES * (2 + NODE_WORDS * MAX_NODES + TRANSITION_WORDS * MAX_TRANSITIONS);

// What the check finds in a plan that passes.
#[derive(Clone, Copy)]
pub struct Layout {
    pub joints: usize,
    pub clips: usize,
    pub states: usize,
    pub initial: usize,
    // The word where the first state begins.
    pub states_at: usize,
    // The number where the first pose begins.
    pub poses_at: usize,
}

// One state of such a plan.
#[derive(Clone, Copy)]
pub struct StateLayout {
    pub state: usize,
    pub nodes_at: usize,
    pub nodes: usize,
    pub transitions_at: usize,
    pub transitions: usize,
    // The number that is its first transition's value.
    pub values_at: usize,
    // The instance of its first clip node: earlier states have those below.
    pub clip_node: usize,
}

// What a node does: it plays a clip, or makes one pose of those of two earlier nodes.
#[derive(Clone, Copy, PartialEq, Eq)]
pub enum Kind {
    Clip,
    Lerp,
    Additive,
}

// By its number in the plan. The check lets none above 2 pass.
impl From<usize> for Kind {
    ghost from_gives = { λ number r. r ≡ kind_of number };

    #[tactic(auto, unfolding(crate::specs::Kinds::kind_of))]
    fn from(number: usize) -> Kind {
        match number {
            0 => Kind::Clip,
            1 => Kind::Lerp,
            _ => Kind::Additive,
        }
    }
}

// A plan has these four words of every node. No enum with data: who knows the kind by a contract (`node_length`,
// `synchronize_node`, `show_joint`) reads them as they stand, and would have to match against kinds that cannot be.
#[derive(Clone, Copy)]
pub struct Node {
    pub kind: Kind,
    pub a: usize,
    pub b: usize,
    pub parameter: usize,
}

// How a condition compares its parameter, on the left, with its value: < <= > >= == !=.
#[derive(Clone, Copy, PartialEq, Eq)]
pub enum Operator {
    Less,
    AtMost,
    Greater,
    AtLeast,
    Equal,
    Unequal,
}

// By its number in the plan. The check lets none above 5 pass.
impl From<usize> for Operator {
    ghost from_gives = { λ number r. r ≡ operator_of number };

    #[tactic(auto, unfolding(crate::specs::Kinds::operator_of))]
    fn from(number: usize) -> Operator {
        match number {
            0 => Operator::Less,
            1 => Operator::AtMost,
            2 => Operator::Greater,
            3 => Operator::AtLeast,
            4 => Operator::Equal,
            _ => Operator::Unequal,
        }
    }
}

#[derive(Clone, Copy)]
pub struct Condition {
    pub parameter: usize,
    pub operator: Operator,
    pub target: usize,
}

// What a transition's condition compares with, and how long the transition takes.
#[derive(Clone, Copy)]
pub struct TransitionNumbers {
    pub value: f32,
    pub duration: f32,
}

// A word, 0 past the end.
// As usize, since places are added up from words; `_ ≤ max_word` in a contract keeps such sums from overflowing.
pub fn word(plan: &[u16], i: usize) -> usize
    ensures { (result ≡ word plan.now i) × (result ≤ max_word) }
{
    usize::from(plan.get(i).copied().unwrap_or(0))
}

// A word that is there, read without a test.
fn word_there(plan: &[u16], at: usize) -> usize
    requires { at < length plan.now }
    ensures { (result ≡ word plan.now at) × (result ≤ max_word) }
{
    plan[at] as usize
}

// Of a joint that the plan has.
pub fn parent(plan: &[u16], j: usize) -> usize
    requires { parent_at j < length plan.now }
    ensures { result ≡ parent plan.now j }
{
    word_there(plan, PARENTS_AT + j)
}

// Whether a word that stands for the parent of one of so many joints says that there is none.
pub fn is_root(joints: usize, parent: usize) -> bool
    ensures { result ≡ is_root_word joints parent }
{
    (parent == ROOT) | ((parent == BYTE_ROOT) & (joints <= MAX_BYTE_ROOT_JOINTS))
}

// Where clip c's sample count stands, behind so many joints' parents. The first state begins where that of one more
// clip would stand.
pub fn sample_count_at(joints: usize, c: usize) -> usize
    requires { (joints ≤ max_word) × (c ≤ max_word) }
    ensures { (plan : List ℕ) → joints ≡ joint_count plan → result ≡ sample_count_at plan c }
{
    PARENTS_AT + joints + CLIP_WORDS * c
}

// How many samples the clips before c have, whose words are there. The check asks too, before it knows that the plan
// passes.
pub fn samples_before(plan: &[u16], joints: usize, c: usize) -> usize
    requires { (joints ≡ joint_count plan.now)
        × (joints ≤ max_word)
        × (c ≤ max_word)
        × (sample_count_at plan.now c ≤ length plan.now) }
    ensures { (result ≡ samples_before plan.now c) × (result ≤ c * max_word) }
{
    let mut sum = 0;
    for k in 0..c {
        sum += word_there(plan, sample_count_at(joints, k));
    }
    sum
}

// A number, NaN past the end.
pub fn number(numbers: &[f32], i: usize) -> f32
    ensures { result ≡ get_or numbers.now i nan }
{
    numbers.get(i).copied().unwrap_or(0.0 / 0.0)
}

// Of clip c, whatever the plan: the numbers begin with the rates.
pub fn rate(numbers: &[f32], c: usize) -> f32
    ensures { (plan : List ℕ) → result ≡ number plan numbers.now (Rate c) }
{
    number(numbers, c)
}

// Of a transition that the state has.
// Two floats of their own: what reads words into a struct does not read these.
// One by one, since nothing asked here says that both are there: `number` gives NaN past the end.
pub fn numbers_at(numbers: &[f32], here: StateLayout, t: usize) -> TransitionNumbers
    requires { HasTransition here t }
    ensures { (plan : List ℕ) → InPlan plan here → result ≡ numbers_of plan numbers.now here.state t }
{
    let at = here.values_at + TRANSITION_NUMBERS * t;
    TransitionNumbers {
        value: number(numbers, at),
        duration: number(numbers, at + 1),
    }
}

// Where a sample's pose of a joint begins. The sample is counted over all clips.
pub fn pose_at(layout: Layout, sample: usize, joint: usize) -> usize
    requires { (layout.joints ≤ max_joints)
        × (layout.poses_at ≤ max_word)
        × (sample < max_clips * max_samples)
        × (joint ≤ max_joints) }
    ensures { result ≡ layout.poses_at + (sample * layout.joints + joint) * 8 }
{
    layout.poses_at + (sample * layout.joints + joint) * POSE_FLOATS
}
