// Ports transform.rs: the pose, which the Rust calls QVTransform.
#![tactic(auto)]

ghost use Rattle.std.specs.Prelude.{◌≡◌};
ghost use Rattle.model.specs.Pose.{identity_pose, lerp_float, lerp_vector, to_matrix, from_matrix};
ghost use Rattle.model.specs.Pose.{lerp as lerp_pose, concat as concat_pose};

use math::{lerp_quaternion, matrix_to_quaternion, product_row, quaternion_to_matrix};
use model::{Matrix4, Pose, Quaternion, Vector3};

pub fn identity() -> Pose
    ensures { result ≡ identity_pose }
{
    Pose {
        translation: Vector3 {
            x: 0.0,
            y: 0.0,
            z: 0.0,
        },
        scale: 1.0,
        rotation: Quaternion {
            w: 1.0,
            x: 0.0,
            y: 0.0,
            z: 0.0,
        },
    }
}

// interpolation::lerp
fn lerp_float(a: f32, b: f32, t: f32) -> f32
    ensures { result ≡ lerp_float a b t }
{
    a + (b - a) * t
}

fn lerp_vector(a: Vector3, b: Vector3, t: f32) -> Vector3
    ensures { result ≡ lerp_vector a b t }
{
    Vector3 {
        x: lerp_float(a.x, b.x, t),
        y: lerp_float(a.y, b.y, t),
        z: lerp_float(a.z, b.z, t),
    }
}

// The three parts separately.
pub fn lerp(p: Pose, q: Pose, t: f32) -> Pose
    ensures { result ≡ lerp_pose p q t }
{
    Pose {
        translation: lerp_vector(p.translation, q.translation, t),
        scale: lerp_float(p.scale, q.scale, t),
        rotation: lerp_quaternion(p.rotation, q.rotation, t),
    }
}

// Column 3 is the translation. The scale does not reach the matrix.
pub fn to_matrix(p: Pose) -> Matrix4
    ensures { result ≡ to_matrix p }
{
    let mut m = quaternion_to_matrix(p.rotation);
    m.r0.c3 = p.translation.x;
    m.r1.c3 = p.translation.y;
    m.r2.c3 = p.translation.z;
    m
}

// The scale becomes 1.
pub fn from_matrix(m: Matrix4) -> Pose
    ensures { result ≡ from_matrix m }
{
    let rotation = matrix_to_quaternion(m);
    let translation = Vector3 {
        x: m.r0.c3,
        y: m.r1.c3,
        z: m.r2.c3,
    };
    let scale = 1.0;
    Pose {
        translation,
        scale,
        rotation,
    }
}

// Through two matrices and back. Nothing reads the product's last row, so it is not worked out.
pub fn concat(p: Pose, q: Pose) -> Pose
    ensures { result ≡ concat_pose p q }
{
    let a = to_matrix(p);
    let b = to_matrix(q);
    let r0 = product_row(a.r0, b);
    let r1 = product_row(a.r1, b);
    let r2 = product_row(a.r2, b);
    let r3 = a.r3;
    from_matrix(Matrix4 { r0, r1, r2, r3 })
}
