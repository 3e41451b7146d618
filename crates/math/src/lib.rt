// Ports math.rs: inv_sqrt, lerp_quaternion, both rotation conversions, and vecmath's matrix product.
#![tactic(auto)]

ghost use Rattle.std.specs.Prelude.{◌≡◌};
ghost use Rattle.model.specs.Numbers.{first_guess, inv_sqrt};
ghost use Rattle.model.specs.Rotations.{quaternion, dot, scaled, second_weight, weighted_sum, lerp_quaternion, product_row};
ghost use Rattle.model.specs.Rotations.{product, quaternion_to_matrix, from_trace, from_diagonal, matrix_to_quaternion};
ghost use Rattle.math.specs.Scaling.{scaled_by_root, turned_row, turned, turned_back};

use model::{Matrix4, Quaternion, Row};

// inv_sqrt's first guess, on bit patterns: the shift copies the sign bit, and the subtraction wraps.
pub fn first_guess(bits: u32) -> u32
    ensures { result ≡ first_guess bits }
{
    let shifted = bits.cast_signed() >> 1;
    0x5f37_59df_i32.wrapping_sub(shifted).cast_unsigned()
}

pub fn inv_sqrt(x: f32) -> f32
    ensures { result ≡ inv_sqrt x }
{
    let x2 = x * 0.5;
    let y = float::f32_from_bits(first_guess(float::f32_to_bits(x)));
    y * (1.5 - x2 * y * y)
}

fn dot(p: Quaternion, q: Quaternion) -> f32
    ensures { result ≡ dot p q }
{
    p.w * q.w + p.x * q.x + p.y * q.y + p.z * q.z
}

fn scaled(q: Quaternion, f: f32) -> Quaternion
    ensures { result ≡ scaled q f }
{
    Quaternion {
        w: q.w * f,
        x: q.x * f,
        y: q.y * f,
        z: q.z * f,
    }
}

// Negated where the quaternions point apart, so that the blend takes the short way round.
fn second_weight(d: f32, factor: f32) -> f32
    ensures { result ≡ second_weight d factor }
{
    if d > 0.0 { factor } else { -factor }
}

fn weighted_sum(s: f32, p: Quaternion, t: f32, q: Quaternion) -> Quaternion
    ensures { result ≡ weighted_sum s p t q }
{
    Quaternion {
        w: s * p.w + t * q.w,
        x: s * p.x + t * q.x,
        y: s * p.y + t * q.y,
        z: s * p.z + t * q.z,
    }
}

pub fn lerp_quaternion(p: Quaternion, q: Quaternion, factor: f32) -> Quaternion
    ensures { result ≡ lerp_quaternion p q factor }
{
    let t = second_weight(dot(p, q), factor);
    let sum = weighted_sum(1.0 - factor, p, t, q);
    scaled(sum, inv_sqrt(dot(sum, sum)))
}

pub fn quaternion_to_matrix(q: Quaternion) -> Matrix4
    ensures { result ≡ quaternion_to_matrix q }
{
    let x2 = q.x + q.x;
    let y2 = q.y + q.y;
    let z2 = q.z + q.z;
    let xx2 = x2 * q.x;
    let xy2 = x2 * q.y;
    let xz2 = x2 * q.z;
    let yy2 = y2 * q.y;
    let yz2 = y2 * q.z;
    let zz2 = z2 * q.z;
    let wy2 = y2 * q.w;
    let wz2 = z2 * q.w;
    let wx2 = x2 * q.w;
    Matrix4 {
        r0: Row {
            c0: 1.0 - yy2 - zz2,
            c1: xy2 + wz2,
            c2: xz2 - wy2,
            c3: 0.0,
        },
        r1: Row {
            c0: xy2 - wz2,
            c1: 1.0 - xx2 - zz2,
            c2: yz2 + wx2,
            c3: 0.0,
        },
        r2: Row {
            c0: xz2 + wy2,
            c1: yz2 - wx2,
            c2: 1.0 - xx2 - yy2,
            c3: 0.0,
        },
        r3: Row {
            c0: 0.0,
            c1: 0.0,
            c2: 0.0,
            c3: 1.0,
        },
    }
}

// A quaternion that half the inverse root of t is yet to scale. matrix_to_quaternion takes that root once, after its
// tests.
#[derive(Clone, Copy)]
struct Unscaled {
    t: f32,
    q: Quaternion,
}

fn from_trace(m: Matrix4, trace: f32) -> Unscaled
    ensures { scaled_by_root result ≡ from_trace m trace }
{
    let t = trace + 1.0;
    let q = Quaternion {
        w: t,
        x: m.r1.c2 - m.r2.c1,
        y: m.r2.c0 - m.r0.c2,
        z: m.r0.c1 - m.r1.c0,
    };
    Unscaled { t, q }
}

// By diagonal entry 0, with 1 and 2 the next ones.
fn from_diagonal_0(m: Matrix4) -> Unscaled
    ensures { scaled_by_root result ≡ from_diagonal m 0 1 2 (λ w qi qj qk. quaternion w qi qj qk) }
{
    let t = (m.r0.c0 - (m.r1.c1 + m.r2.c2)) + 1.0;
    let q = Quaternion {
        w: m.r1.c2 - m.r2.c1,
        x: t,
        y: m.r0.c1 + m.r1.c0,
        z: m.r0.c2 + m.r2.c0,
    };
    Unscaled { t, q }
}

// The cycle 0, 1, 2 turned by one, so that entry 1 of m is entry 0 here. The Rust looks i, j and k up in a table
// instead.
fn turned_row(r: Row) -> Row
    ensures { result ≡ turned_row r }
{
    Row {
        c0: r.c1,
        c1: r.c2,
        c2: r.c0,
        c3: r.c3,
    }
}

fn turned(m: Matrix4) -> Matrix4
    ensures { result ≡ turned m }
{
    let r3 = m.r3;
    Matrix4 {
        r0: turned_row(m.r1),
        r1: turned_row(m.r2),
        r2: turned_row(m.r0),
        r3,
    }
}

fn turned_back(u: Unscaled) -> Unscaled
    ensures { result ≡ turned_back u }
{
    let q = Quaternion {
        w: u.q.w,
        x: u.q.z,
        y: u.q.x,
        z: u.q.y,
    };
    Unscaled { t: u.t, q }
}

// A line each, by turning: a const parameter would have to pick named fields (`c0`, `r1`, ..) by a number.
fn from_diagonal_1(m: Matrix4) -> Unscaled
    ensures { scaled_by_root result ≡ from_diagonal m 1 2 0 (λ w qi qj qk. quaternion w qk qi qj) }
{
    turned_back(from_diagonal_0(turned(m)))
}

fn from_diagonal_2(m: Matrix4) -> Unscaled
    ensures { scaled_by_root result ≡ from_diagonal m 2 0 1 (λ w qi qj qk. quaternion w qj qk qi) }
{
    turned_back(from_diagonal_1(turned(m)))
}

fn unscaled_rotation(m: Matrix4) -> Unscaled
    ensures { scaled_by_root result ≡ matrix_to_quaternion m }
{
    let trace = m.r0.c0 + m.r1.c1 + m.r2.c2;
    if trace > 0.0 {
        return from_trace(m, trace);
    }
    if m.r1.c1 > m.r0.c0 {
        if m.r2.c2 > m.r1.c1 {
            return from_diagonal_2(m);
        }
        return from_diagonal_1(m);
    }
    if m.r2.c2 > m.r0.c0 {
        return from_diagonal_2(m);
    }
    from_diagonal_0(m)
}

pub fn matrix_to_quaternion(m: Matrix4) -> Quaternion
    ensures { result ≡ matrix_to_quaternion m }
{
    let u = unscaled_rotation(m);
    scaled(u.q, inv_sqrt(u.t) * 0.5)
}

// A row of the product: the row a by each column of b.
pub fn product_row(a: Row, b: Matrix4) -> Row
    ensures { result ≡ product_row a b }
{
    Row {
        c0: a.c0 * b.r0.c0 + a.c1 * b.r1.c0 + a.c2 * b.r2.c0 + a.c3 * b.r3.c0,
        c1: a.c0 * b.r0.c1 + a.c1 * b.r1.c1 + a.c2 * b.r2.c1 + a.c3 * b.r3.c1,
        c2: a.c0 * b.r0.c2 + a.c1 * b.r1.c2 + a.c2 * b.r2.c2 + a.c3 * b.r3.c2,
        c3: a.c0 * b.r0.c3 + a.c1 * b.r1.c3 + a.c2 * b.r2.c3 + a.c3 * b.r3.c3,
    }
}

// vecmath's product of two matrices, row by column.
pub fn row_mat4_mul(a: Matrix4, b: Matrix4) -> Matrix4
    ensures { result ≡ product a b }
{
    Matrix4 {
        r0: product_row(a.r0, b),
        r1: product_row(a.r1, b),
        r2: product_row(a.r2, b),
        r3: product_row(a.r3, b),
    }
}
