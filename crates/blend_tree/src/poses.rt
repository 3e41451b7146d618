// Poses of a state's nodes, for many joints at once.
ghost use Rattle.std.specs.Prelude.{◌≡◌, ◌<◌, ◌≤◌};
ghost use Rattle.model.specs.Pose.{identity_pose};
ghost use Rattle.model.specs.Tree.{additive};
ghost use Rattle.model.specs.Plan.{clip_count};
ghost use Rattle.model.specs.Clips.{local_time, clip_pose};
ghost use Rattle.lanes.specs.Lanes.{block_size};
ghost use Rattle.blend_tree.specs.Sampling.{pose_between, Sampled};
ghost use Rattle.blend_tree.specs.Blocks.{Filled, FilledFor, InBlock, node_pose_at, state_pose_at};

use crate::sampling::{clip_at, clip_position, clip_samples};
use crate::{Source, StateAt};
use animation::{Position, instance_at, pose_between};
use lanes::{BLANK, Block, Joints, combine_all};
use layout::passed::Figure;
use layout::{Kind, pose_at};
use model::limits::POSE_FLOATS;
use model::{ClipInstance, Pose};
use transform::{concat, identity, lerp};

// What an additive node makes of its inputs' poses: b, weakened towards the identity, on top of a.
fn additive(a: Pose, b: Pose, p: f32) -> Pose
    ensures { result ≡ additive a b p }
{
    concat(a, lerp(identity(), b, p))
}

// The identity in each lane.
fn identity_poses(count: usize, block: &mut Block)
    requires { count ≤ block_size }
    ensures { Filled (λ i. identity_pose) count block.new }
{
    block[..count].fill(identity());
}

// A clip, between two of its samples, whose places are worked out once: with `joint_pose` in each lane some sizes are
// slower by a sixth.
fn sampled_poses(figure: &Figure<'_>, samples: Position, joints: Joints, block: &mut Block)
    requires { Sampled figure.now.numbers.now figure.now.plan.layout samples
        × InBlock figure.now.plan.layout joints }
    ensures { FilledFor joints block.new
        (pose_between figure.now.numbers.now figure.now.plan.layout samples) }
{
    let numbers = figure.numbers;
    let layout = figure.plan.layout;
    let low = pose_at(layout, samples.first, joints.first);
    let high = pose_at(layout, samples.second, joints.first);
    let factor = samples.factor;
    for i in 0..joints.count {
        let at = POSE_FLOATS * i;
        block[i] = pose_between(numbers, low + at, high + at, factor);
    }
}

impl<'a> StateAt<'a> {
    // What an instance of clip c shows: without samples the identity itself, not a lerp of it.
    fn clip_poses(&self, c: usize, instance: ClipInstance, joints: Joints, block: &mut Block)
        requires { (c < clip_count self.now.figure.plan.words.now)
            × InBlock self.now.figure.plan.layout joints }
        ensures { FilledFor joints block.new
            (λ j. clip_pose self.now.figure.plan.words.now self.now.figure.numbers.now
            c j (local_time instance self.now.time)) }
    {
        let clip = clip_at(&self.figure, c);
        if clip.samples == 0 {
            identity_poses(joints.count, block);
            return;
        }
        let position = clip_position(clip, instance, self.time);
        let samples = clip_samples(clip, position);
        sampled_poses(&self.figure, samples, joints, block);
    }
}

impl<'a> Source<'a> {
    // A node's poses come from those of its inputs, which are earlier nodes, down to clips.
    // The inputs are numbers, as in document 01's plan: a tree of boxes would need a heap.
    fn node_poses(&self, joints: Joints, node: usize, block: &mut Block)
        requires { InBlock self.now.state.figure.plan.layout joints
            × (node < self.now.state.here.nodes) }
        ensures { FilledFor joints block.new (node_pose_at self.now node) }
    {
        let words = self.state.node(node);
        if let Kind::Clip = words.kind {
            let instance = instance_at(self.instances, self.slots[node] as usize);
            self.state.clip_poses(words.a, instance, joints, block);
            return;
        }
        let mut other = BLANK;
        self.node_poses(joints, words.a, block);
        self.node_poses(joints, words.b, &mut other);
        let factor = self.parameters[words.parameter];
        if let Kind::Lerp = words.kind {
            combine_all(block, &other, joints.count, move |a, b| lerp(a, b, factor));
        } else {
            combine_all(
                block,
                &other,
                joints.count,
                move |a, b| additive(a, b, factor),
            );
        }
    }

    // The poses of the state: those of its tree's root, which is its last node.
    pub fn state_poses(&self, joints: Joints, block: &mut Block)
        requires { InBlock self.now.state.figure.plan.layout joints }
        ensures { FilledFor joints block.new (state_pose_at self.now) }
    {
        self.node_poses(joints, self.state.here.nodes - 1, block);
    }
}
