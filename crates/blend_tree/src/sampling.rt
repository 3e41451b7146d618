// Where a clip is sampled, and the pose there.
ghost use Rattle.std.specs.Prelude.{◌≡◌, ◌<◌};
ghost use Rattle.model.specs.Plan.{clip_count};
ghost use Rattle.blend_tree.specs.Sampling.{clip_of, Sized, position_at, samples_at, pose_between, Sampled};

use animation::{Position, local_time, pose_between, position_in, sampled_position};
use layout::passed::Figure;
use layout::{Layout, pose_at, rate, samples_before};
use model::{ClipInstance, Pose};

// A clip of a plan: how many samples it has, how many the clips before it have, whether it stops, and its rate.
// `stops` is what `is_stopping` answers: an enum of two endings would only be made of that bool and asked once.
#[derive(Clone, Copy)]
pub struct Clip {
    pub samples: usize,
    pub before: usize,
    pub stops: bool,
    pub rate: f32,
}

// Reading a clip and sampling it are two functions, so that the compiler inlines both wherever they are called.
pub fn clip_at(figure: &Figure<'_>, c: usize) -> Clip
    requires { c < clip_count figure.now.plan.words.now }
    ensures { result ≡ clip_of figure.now.plan.words.now figure.now.numbers.now c }
{
    let plan = &figure.plan;
    Clip {
        samples: plan.sample_count(c),
        before: samples_before(plan.words, plan.layout.joints, c),
        stops: plan.is_stopping(c),
        rate: rate(figure.numbers, c),
    }
}

// Where an instance of a clip is sampled at a time.
pub fn clip_position(clip: Clip, instance: ClipInstance, time: f32) -> f32
    requires { Sized clip }
    ensures { result ≡ position_at clip instance time }
{
    let position = local_time(instance, time) * clip.rate;
    sampled_position(clip.stops, clip.samples, position)
}

// The samples on either side of that position, counted over all clips.
pub fn clip_samples(clip: Clip, position: f32) -> Position
    requires { Sized clip }
    ensures { result ≡ samples_at clip position }
{
    let own = position_in(clip.samples, position);
    Position {
        first: clip.before + own.first,
        second: clip.before + own.second,
        factor: own.factor,
    }
}

// A joint's pose between two such samples.
pub fn joint_pose(numbers: &[f32], layout: Layout, samples: Position, joint: usize) -> Pose
    requires { Sampled numbers.now layout samples × (joint < layout.joints) }
    ensures { result ≡ pose_between numbers.now layout samples joint }
{
    pose_between(
        numbers,
        pose_at(layout, samples.first, joint),
        pose_at(layout, samples.second, joint),
        samples.factor,
    )
}
