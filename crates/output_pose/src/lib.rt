// Steps 2 and 3 of a frame: the state's clips are synchronised, its poses evaluated block by block, and the matrices
// written.
#![tactic(auto)]

ghost use Rattle.std.specs.Prelude.{◌≡◌, true, ◌<◌, IfSome};
ghost use Rattle.model.specs.Plan.{clip_count, state_count};
ghost use Rattle.model.specs.Clips.{local_time, clip_pose};
ghost use Rattle.model.specs.Controller.{is_target_below, transition_factor};
ghost use Rattle.blend_tree.specs.Blocks.{FilledFor, InBlock};
ghost use Rattle.skeleton.specs.Buffer.{HasRoom};
ghost use Rattle.output_pose.specs.Shown.{skeleton_of, shown_pose};
ghost use Rattle.output_pose.specs.Shown.{JointShown, TargetSynchronized, Blended, Shown};

use animation::instance_at;
use blend_tree::sampling::{clip_at, clip_position, clip_samples, joint_pose};
use blend_tree::{SLOTS, Source, StateAt};
use float::{narrow, widen};
use lanes::{BLANK, BLOCK_SIZE, Block, Joints, combine_all};
use layout::passed::Figure;
use model::limits::{MAX_INSTANCES, MAX_PARAMETERS};
use model::{ClipInstance, FrameKind, Pose, Transition};
use skeleton::{calculate_global_poses, calculate_root_pose};
use transform::{identity, lerp};

// What a state's poses are blended towards in a transition, and by what factor.
#[derive(Clone, Copy)]
pub struct Target<'a> {
    pub source: Source<'a>,
    pub factor: f32,
}

// ---- evaluating

// The poses of a row of joints, as they are shown.
pub fn shown_poses(
    source: &Source<'_>,
    target: Option<&Target<'_>>,
    joints: Joints,
    block: &mut Block,
)
    requires { InBlock source.now.state.figure.plan.layout joints
        × IfSome target (λ t. InBlock t.now.source.state.figure.plan.layout joints) }
    ensures { FilledFor joints block.new (shown_pose source.now target.entry) }
{
    source.state_poses(joints, block);
    let Some(target) = target else {
        return;
    };
    let mut other = BLANK;
    target.source.state_poses(joints, &mut other);
    let factor = target.factor;
    combine_all(block, &other, joints.count, move |a, b| lerp(a, b, factor));
}

// All joints, block by block.
fn show_blocks(
    kind: FrameKind,
    source: &Source<'_>,
    target: Option<&Target<'_>>,
    output: &mut [f32],
)
    requires { IfSome target
        (λ t. t.now.source.state.figure.plan.layout ≡ source.now.state.figure.plan.layout)
        × HasRoom source.now.state.figure.plan.words.now output.old }
    ensures { output.new
        ≡ skeleton_of kind source.now.state.figure.plan.words.now
        (shown_pose source.now target.entry) output.old }
{
    let plan = &source.state.figure.plan;
    let total = plan.layout.joints;
    let mut block = BLANK;
    for first in (0..total).step_by(BLOCK_SIZE) {
        let joints = Joints {
            first,
            count: BLOCK_SIZE.min(total - first),
        };
        shown_poses(source, target, joints, &mut block);
        calculate_global_poses(kind, plan, &block, joints, output);
    }
}

// The first joint's pose in a clip.
// Beside `clip_poses`, since clearing a block took longer than this pose (docs/DECISIONS.md, 47).
fn clip_pose(figure: &Figure<'_>, number: usize, instance: ClipInstance, time: f32) -> Pose
    requires { (number < clip_count figure.now.plan.words.now) × (0 < figure.now.plan.layout.joints) }
    ensures { result
        ≡ clip_pose figure.now.plan.words.now figure.now.numbers.now number 0 (local_time instance time) }
{
    let clip = clip_at(figure, number);
    if clip.samples == 0 {
        return identity();
    }
    let position = clip_position(clip, instance, time);
    let samples = clip_samples(clip, position);
    joint_pose(figure.numbers, figure.plan.layout, samples, 0)
}

// A figure of one joint in a state of one clip. It needs no block, and is not synchronised.
pub fn show_joint(
    kind: FrameKind,
    state: &StateAt<'_>,
    instances: &[f32; MAX_INSTANCES],
    output: &mut [f32],
)
    requires { (state.now.figure.plan.layout.joints ≡ 1)
        × (state.now.here.nodes ≡ 1)
        × HasRoom state.now.figure.plan.words.now output.old }
    ensures { JointShown kind state.now.figure.plan.words.now state.now.figure.numbers.now
        state.now.time state.now.here.state
        instances.now output.old output.new }
{
    let number = state.node(0).a;
    let instance = instance_at(instances, state.here.clip_node);
    let pose = clip_pose(&state.figure, number, instance, state.time);
    calculate_root_pose(kind, pose, output);
}

// ---- synchronising

fn transition_factor(instant: f64, start: f64, duration: f32) -> f32
    ensures { result ≡ transition_factor instant start duration }
{
    narrow((instant - start) / widen(duration))
}

// The state that a transition leads to, at the time of the one that it leaves. It is synchronised too.
pub fn synchronize_target<'a>(
    figure: &Figure<'a>,
    time: f32,
    target: usize,
    parameters: &[f32; MAX_PARAMETERS],
    slots: &mut [u8; SLOTS],
    instances: &mut [f32; MAX_INSTANCES],
) -> StateAt<'a>
    requires { target < state_count figure.now.plan.words.now }
    ensures { TargetSynchronized figure.now time target parameters.now slots.new
        instances.old instances.new result }
{
    let here = figure.plan.state_layout(target);
    let there = StateAt {
        figure: *figure,
        here,
        time,
    };
    there.synchronize(parameters, slots, instances);
    there
}

// A state on its way to another. The instances lent are the other's.
fn show_transition(
    kind: FrameKind,
    source: &Source<'_>,
    target: usize,
    factor: f32,
    instances: &mut [f32; MAX_INSTANCES],
    output: &mut [f32],
)
    requires { (target < state_count source.now.state.figure.plan.words.now)
        × HasRoom source.now.state.figure.plan.words.now output.old }
    ensures { Blended kind source.now target factor
        instances.old instances.new output.old output.new }
{
    let parameters = source.parameters;
    let mut slots = [0u8; SLOTS];
    let state = synchronize_target(
        &source.state.figure,
        source.state.time,
        target,
        parameters,
        &mut slots,
        instances,
    );
    let target = Target {
        source: Source {
            state,
            parameters,
            slots: &slots,
            instances,
        },
        factor,
    };
    show_blocks(kind, source, Some(&target), output);
}

// A state and its transition, if one is under way. Then it shows itself by the instances that it had before the
// target's rates were set, as the Rust does.
// The two arrays stay apart: the instances are lent to be changed first, and then shared, in a `Source`.
pub fn show(
    kind: FrameKind,
    state: &StateAt<'_>,
    transition: Transition,
    parameters: &[f32; MAX_PARAMETERS],
    instances: &mut [f32; MAX_INSTANCES],
    instant: f64,
    output: &mut [f32],
)
    requires { (is_target_below (state_count state.now.figure.plan.words.now) transition ≡ true)
        × HasRoom state.now.figure.plan.words.now output.old }
    ensures { Shown kind state.now.figure.plan.words.now state.now.figure.numbers.now
        state.now.time instant state.now.here.state transition
        parameters.now instances.old instances.new
        output.old output.new }
{
    let mut slots = [0u8; SLOTS];
    state.synchronize(parameters, &mut slots, instances);
    match transition {
        Transition::Idle => {
            let source = Source {
                state: *state,
                parameters,
                slots: &slots,
                instances,
            };
            show_blocks(kind, &source, None, output);
        }
        Transition::Running {
            start,
            target,
            duration,
        } => {
            let current = *instances;
            let source = Source {
                state: *state,
                parameters,
                slots: &slots,
                instances: &current,
            };
            let factor = transition_factor(instant, start, duration);
            show_transition(kind, &source, target, factor, instances, output);
        }
    }
}
