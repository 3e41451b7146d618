// A block of joints' poses, which its owner lends, and a loop over its lanes.
#![tactic(auto)]

ghost use Rattle.std.specs.Prelude.{ℕ, ◌<◌, ◌≤◌};
ghost use Rattle.lanes.specs.Lanes.{block_size, lane_at};

use model::{Pose, Quaternion, Vector3};

// Lanes in a block: `block_size` of the definitions.
pub const BLOCK_SIZE: usize = 32;

pub type Block = [Pose; BLOCK_SIZE];

// A block to be filled: zeros, which cost least.
pub const BLANK: Block = [Pose {
    translation: Vector3 {
        x: 0.0,
        y: 0.0,
        z: 0.0,
    },
    scale: 0.0,
    rotation: Quaternion {
        w: 0.0,
        x: 0.0,
        y: 0.0,
        z: 0.0,
    },
}; BLOCK_SIZE];

// A row of joints. Lane i of their block is joint first + i.
// Beside a block and not in it, since two blocks are filled for one row. It has no ghost field: `InBlock` holds it to a
// figure's layout, and a bound of the count alone would take the place of two clauses.
#[derive(Clone, Copy)]
pub struct Joints {
    pub first: usize,
    pub count: usize,
}

// Each of x's first lanes, combined with y's.
// By index: to zip them, both blocks would first be cut to `count`.
pub fn combine_all<F: Fn(Pose, Pose) -> Pose>(x: &mut Block, y: &Block, count: usize, combine: F)
    requires small { count ≤ block_size }
    requires callable { F.IsAlwaysCallable combine }
    ensures { (i : ℕ) → i < count
        → F.post combine (lane_at x.old i) (lane_at y.now i) (lane_at x.new i) }
{
    for i in 0..count {
        x[i] = combine(x[i], y[i]);
    }
}
