// Ports skeleton.rs: the joints' global matrices, written into the caller's buffer, for both kinds of frame.
#![tactic(auto)]

ghost use Rattle.std.specs.Prelude.{◌≡◌, suc, ◌+◌, ◌<◌, ◌≤◌, length, drop};
ghost use Rattle.model.specs.Rotations.{identity_matrix, floats, product};
ghost use Rattle.model.specs.Pose.{to_matrix};
ghost use Rattle.model.specs.Text.{max_word};
ghost use Rattle.model.specs.Plan.{max_joints, joint_count, output_at};
ghost use Rattle.model.specs.Skeleton.{upper_transposed, own_matrix};
ghost use Rattle.lanes.specs.Lanes.{block_size};
ghost use Rattle.skeleton.specs.Buffer.{row_from, matrix_from, row_floats, stored, parent_in, OwnMatrices, Multiplied, GlobalPoses};

use lanes::{Block, Joints};
use layout::parent;
use layout::passed::Plan;
use math::product_row;
use model::limits::MATRIX_FLOATS;
use model::{FrameKind, Matrix4, Pose, Row};
use transform::to_matrix;

// Where joint j's matrix begins in the output.
pub fn output_at(j: usize) -> usize
    requires { j ≤ max_word }
    ensures { result ≡ output_at j }
{
    MATRIX_FLOATS * j
}

#[tactic(auto, unfolding(model::specs::Rotations::identity_matrix))]
fn identity_matrix() -> Matrix4
    ensures { result ≡ identity_matrix }
{
    Matrix4 {
        r0: Row {
            c0: 1.0,
            c1: 0.0,
            c2: 0.0,
            c3: 0.0,
        },
        r1: Row {
            c0: 0.0,
            c1: 1.0,
            c2: 0.0,
            c3: 0.0,
        },
        r2: Row {
            c0: 0.0,
            c1: 0.0,
            c2: 1.0,
            c3: 0.0,
        },
        r3: Row {
            c0: 0.0,
            c1: 0.0,
            c2: 0.0,
            c3: 1.0,
        },
    }
}

// A matrix is read and written at a place: calls and C hand in the output as floats, and what is behind the matrices
// stays. Its rows have names, so chunks of four would be named one by one as well.
fn row_at(buffer: &[f32], at: usize) -> Row
    requires { at + 4 ≤ length buffer.now }
    ensures { result ≡ row_from (drop at buffer.now) }
{
    let [c0, c1, c2, c3] = *buffer[at..at + 4].as_array::<4>().unwrap();
    Row { c0, c1, c2, c3 }
}

fn matrix_at(buffer: &[f32], at: usize) -> Matrix4
    requires { at + output_at 1 ≤ length buffer.now }
    ensures { result ≡ matrix_from (drop at buffer.now) }
{
    Matrix4 {
        r0: row_at(buffer, at),
        r1: row_at(buffer, at + 4),
        r2: row_at(buffer, at + 8),
        r3: row_at(buffer, at + 12),
    }
}

// Four stores, since by `copy_from_slice` a frame of 64 joints and 3 nodes takes a third longer.
fn set_row(buffer: &mut [f32], at: usize, r: Row)
    requires { at + 4 ≤ length buffer.old }
    ensures { buffer.new ≡ stored buffer.old at (row_floats r) }
{
    buffer[at] = r.c0;
    buffer[at + 1] = r.c1;
    buffer[at + 2] = r.c2;
    buffer[at + 3] = r.c3;
}

fn set_matrix(buffer: &mut [f32], at: usize, m: Matrix4)
    requires { at + output_at 1 ≤ length buffer.old }
    ensures { buffer.new ≡ stored buffer.old at (floats m) }
{
    set_row(buffer, at, m.r0);
    set_row(buffer, at + 4, m.r1);
    set_row(buffer, at + 8, m.r2);
    set_row(buffer, at + 12, m.r3);
}

// The parent's matrix is read back from the buffer: parents come first. A parent that is no earlier joint is a root's.
// It is found by its number, as document 01's plan has it.
fn parent_matrix(plan: &Plan<'_>, buffer: &[f32], j: usize) -> Matrix4
    requires { (j < joint_count plan.now.words.now) × (output_at j ≤ length buffer.now) }
    ensures { result ≡ parent_in plan.now.words.now buffer.now j }
{
    let p = parent(plan.words, j);
    if p >= j {
        return identity_matrix();
    }
    matrix_at(buffer, output_at(p))
}

// The upper 3×3 transposed.
#[tactic(auto, unfolding(model::specs::Skeleton::upper_transposed))]
fn upper_transposed(m: Matrix4) -> Matrix4
    ensures { result ≡ upper_transposed m }
{
    Matrix4 {
        r0: Row {
            c0: m.r0.c0,
            c1: m.r1.c0,
            c2: m.r2.c0,
            c3: m.r0.c3,
        },
        r1: Row {
            c0: m.r0.c1,
            c1: m.r1.c1,
            c2: m.r2.c1,
            c3: m.r1.c3,
        },
        r2: Row {
            c0: m.r0.c2,
            c1: m.r1.c2,
            c2: m.r2.c2,
            c3: m.r2.c3,
        },
        r3: m.r3,
    }
}

// A joint's own matrix, from its pose's. The kind of frame makes no other difference.
// A match and no closure: all contracts above speak of the kind, so each would have to say which closure is its.
#[tactic(auto, unfolding(model::specs::Skeleton::own_matrix))]
fn own_matrix(kind: FrameKind, m: Matrix4) -> Matrix4
    ensures { result ≡ own_matrix kind m }
{
    match kind {
        FrameKind::Ordinary => m,
        FrameKind::Page => upper_transposed(m),
    }
}

// Joint j's matrix: its parent's times its own. Row by row, and without a branch: the compiler inlines neither a product of
// whole matrices nor a larger function with two ways.
fn set_joint(output: &mut [f32], j: usize, base: Matrix4, own: Matrix4)
    requires { (j ≤ max_word) × (output_at (suc j) ≤ length output.old) }
    ensures { output.new ≡ stored output.old (output_at j) (floats (product base own)) }
{
    let at = output_at(j);
    set_row(output, at, product_row(base.r0, own));
    set_row(output, at + 4, product_row(base.r1, own));
    set_row(output, at + 8, product_row(base.r2, own));
    set_row(output, at + 12, product_row(base.r3, own));
}

// The matrix of the first joint, which is a root.
pub fn calculate_root_pose(kind: FrameKind, pose: Pose, output: &mut [f32])
    requires { output_at 1 ≤ length output.old }
    ensures { output.new
        ≡ stored output.old 0 (floats (product identity_matrix (own_matrix kind (to_matrix pose)))) }
{
    let base = identity_matrix();
    let m = to_matrix(pose);
    let own = own_matrix(kind, m);
    set_joint(output, 0, base, own);
}

// The own matrices of the block's lanes, each where its joint's matrix will stand.
fn set_own_matrices(kind: FrameKind, block: &Block, joints: Joints, output: &mut [f32])
    requires { (joints.count ≤ block_size)
        × (joints.first + joints.count ≤ max_joints)
        × (output_at (joints.first + joints.count) ≤ length output.old) }
    ensures { OwnMatrices kind block.now joints.first joints.count output.old output.new }
{
    for i in 0..joints.count {
        let own = own_matrix(kind, to_matrix(block[i]));
        set_matrix(output, output_at(joints.first + i), own);
    }
}

// The own matrices of a row of joints become their global ones, parents first.
fn multiply_by_parents(plan: &Plan<'_>, joints: Joints, output: &mut [f32])
    requires { (joints.first + joints.count ≤ joint_count plan.now.words.now)
        × (output_at (joints.first + joints.count) ≤ length output.old) }
    ensures { Multiplied plan.now.words.now joints.first joints.count output.old output.new }
{
    for j in joints.first..joints.first + joints.count {
        let own = matrix_at(output, output_at(j));
        let base = parent_matrix(plan, output, j);
        set_joint(output, j, base, own);
    }
}

// The matrices of a row of joints, whose poses are the block's lanes. In two loops, since the products are faster where
// own matrices are read as rows.
pub fn calculate_global_poses(
    kind: FrameKind,
    plan: &Plan<'_>,
    block: &Block,
    joints: Joints,
    output: &mut [f32],
)
    requires { (joints.count ≤ block_size)
        × (joints.first + joints.count ≤ joint_count plan.now.words.now)
        × (output_at (joints.first + joints.count) ≤ length output.old) }
    ensures { GlobalPoses kind plan.now.words.now block.now joints.first joints.count
        output.old output.new }
{
    set_own_matrices(kind, block, joints, output);
    multiply_by_parents(plan, joints, output);
}
