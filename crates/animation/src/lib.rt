// Ports animation.rs: a position in a clip, the pose there, and clip instances.
#![tactic(auto)]

ghost use Rattle.std.specs.Prelude.{◌≡◌, suc, ◌+◌, ◌%◌, ◌<◌, ◌≤◌, length};
ghost use Rattle.model.specs.Numbers.{◌/₃₂◌, index_float};
ghost use Rattle.model.specs.Pose.{lerp as lerp_pose};
ghost use Rattle.model.specs.Plan.{max_samples, max_clip_nodes};
ghost use Rattle.model.specs.Clips.{sampled_position, local_time, set_playback_rate, instance_at, set_instance};
ghost use Rattle.animation.specs.Sampling.{position_in, pose_from};

use model::limits::{INSTANCE_FLOATS, MAX_INSTANCES};
use model::{ClipInstance, Pose, Quaternion, Vector3};
use transform::lerp;

// The samples on either side of a position, and how far it is past the first.
#[derive(Clone, Copy)]
pub struct Position {
    pub first: usize,
    pub second: usize,
    pub factor: f32,
}

// The sample after one of n; the first comes after the last.
fn next_sample(sample: u64, n: u64) -> u64
    requires { sample < n }
    ensures { result ≡ suc sample % n }
{
    if sample + 1 == n { 0 } else { sample + 1 }
}

// One division: the ceiling is the floor or the index after it.
// A count and no NonZero: a clip may be without samples, and each use would take the number out again.
pub fn position_in(samples: usize, position: f32) -> Position
    requires { 0 < samples }
    ensures { result ≡ position_in samples position }
{
    let floor = float::floor_index(position);
    let ceiling = float::ceiling_from(position, floor);
    let n = samples as u64;
    let first = floor % n;
    let second = if ceiling == floor {
        first
    } else {
        next_sample(first, n)
    };
    Position {
        first: first as usize,
        second: second as usize,
        factor: position - float::index_to_float(floor),
    }
}

// Where a clip is sampled: a stopping one is held on its last sample. The ending is asked first, so that a looping clip
// pays for that alone. The cast is exact.
// A bool, as the definition of this name takes: an enum of two endings would be turned back into one for it.
pub fn sampled_position(stopping: bool, samples: usize, position: f32) -> f32
    requires { (0 < samples) × (samples ≤ max_samples) }
    ensures { result ≡ sampled_position stopping samples position }
{
    if stopping {
        let last = ((samples - 1) as u64) as f32;
        if position >= last {
            return last;
        }
    }
    position
}

// A clip's length in seconds.
pub fn duration(samples: usize, rate: f32) -> f32
    ensures { result ≡ index_float samples /₃₂ rate }
{
    float::index_to_float(samples as u64) / rate
}

pub fn local_time(i: ClipInstance, time: f32) -> f32
    ensures { result ≡ local_time i time }
{
    (time - i.start) * i.rate + i.offset
}

// The start by its name: `..i` would stand for that one field.
pub fn set_playback_rate(i: ClipInstance, time: f32, rate: f32) -> ClipInstance
    ensures { result ≡ set_playback_rate i time rate }
{
    if i.rate != rate {
        return ClipInstance {
            start: i.start,
            rate,
            offset: local_time(i, time) - (time - i.start) * rate,
        };
    }
    i
}

// Instance n of a player's.
// By place, here and below, since hosts too hold them in one array (model's `Player`): to cut three floats out and
// `unwrap` them as an array is no shorter.
pub fn instance_at(instances: &[f32; MAX_INSTANCES], n: usize) -> ClipInstance
    requires { n < max_clip_nodes }
    ensures { result ≡ instance_at instances.now n }
{
    ClipInstance {
        start: instances[INSTANCE_FLOATS * n],
        rate: instances[INSTANCE_FLOATS * n + 1],
        offset: instances[INSTANCE_FLOATS * n + 2],
    }
}

pub fn set_instance(instances: &mut [f32; MAX_INSTANCES], n: usize, i: ClipInstance)
    requires { n < max_clip_nodes }
    ensures { instances.new ≡ set_instance instances.old n i }
{
    instances[INSTANCE_FLOATS * n] = i.start;
    instances[INSTANCE_FLOATS * n + 1] = i.rate;
    instances[INSTANCE_FLOATS * n + 2] = i.offset;
}

// By place: the pattern of an array of eight would need other names for one of the two x, y and z.
fn pose_from(numbers: &[f32], at: usize) -> Pose
    requires { at + 8 ≤ length numbers.now }
    ensures { result ≡ pose_from numbers.now at }
{
    Pose {
        translation: Vector3 {
            x: numbers[at],
            y: numbers[at + 1],
            z: numbers[at + 2],
        },
        scale: numbers[at + 3],
        rotation: Quaternion {
            w: numbers[at + 4],
            x: numbers[at + 5],
            y: numbers[at + 6],
            z: numbers[at + 7],
        },
    }
}

// Between the poses that two samples have of one joint. Where they stand is known from the position, which is worked
// out once for many joints.
pub fn pose_between(numbers: &[f32], first: usize, second: usize, factor: f32) -> Pose
    requires { (first + 8 ≤ length numbers.now) × (second + 8 ≤ length numbers.now) }
    ensures { result ≡ lerp_pose (pose_from numbers.now first) (pose_from numbers.now second) factor }
{
    lerp(
        pose_from(numbers, first),
        pose_from(numbers, second),
        factor,
    )
}
