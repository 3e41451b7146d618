// What calls give, put into a buffer by `report` and `printing` and written: the form of `replay`, with the call's name before its answer.
// Through a buffer, since there is no `Display` of what they put: the head of `printing` says why.
ghost use Rattle.std.specs.Prelude.{◌≤◌, ◌+◌, length};
ghost use Rattle.model.specs.Plan.{max_joints, output_at};

use model::limits::{MATRIX_FLOATS, NUMBER_BYTES};
use model::{Answer, Outcome, Player};
use printing::{MAX_PRINTED, REFUSAL_SIZE, Writer};
use report::{PLAYER_SIZE, put_answer, put_player};
use std::io::Write;
use test_io::write_front;

// A joint's matrix, and two floats behind it.
const MAX_FLOATS: usize = MATRIX_FLOATS + 2;

// Titles are bytes, for `write_all`: there is nothing to format, and a `&str` would be made into bytes here.
pub fn text<W: Write>(to: &mut W, s: &[u8]) {
    let _ = to.write_all(s);
}

// What was put by a writer.
fn put<W: Write>(to: &mut W, writer: Writer<'_>)
    requires { writer.at ≤ length writer.out.now }
{
    let size = writer.at;
    let _ = write_front(to, writer.out, size);
}

// The call's name is a line.
// Each has a buffer of its own size, and all share `put`: one with that size and a closure would have to say in its
// contract what room the closure is lent, which is more than the two lines that it saves.
pub fn answer<W: Write>(to: &mut W, call: &[u8], answer: Answer) {
    text(to, call);
    let mut out = [0u8; REFUSAL_SIZE];
    let mut writer = Writer::new(&mut out);
    put_answer(&mut writer, answer);
    put(to, writer);
}

// Clock, speed, state and transition.
pub fn player<W: Write>(to: &mut W, player: Player) {
    let mut out = [0u8; PLAYER_SIZE];
    let mut writer = Writer::new(&mut out);
    put_player(&mut writer, player);
    put(to, writer);
}

pub fn outcome<W: Write>(to: &mut W, call: &[u8], outcome: Outcome) {
    answer(to, call, outcome.answer);
    player(to, outcome.player);
}

// The matrices of an output's first joints.
// A count and an output, as `put_joints` takes them.
pub fn joints<W: Write>(to: &mut W, count: usize, output: &[f32])
    requires { (count ≤ max_joints) × (output_at count ≤ length output.now) }
{
    let mut out = [0u8; MAX_PRINTED];
    let mut writer = Writer::new(&mut out);
    writer.put_joints(count, output);
    put(to, writer);
}

// All floats of an output.
pub fn floats<W: Write>(to: &mut W, output: &[f32])
    requires { length output.now ≤ output_at 1 + 2 }
{
    let mut out = [0u8; NUMBER_BYTES * MAX_FLOATS];
    let mut writer = Writer::new(&mut out);
    writer.put_floats(output);
    text(to, b"output");
    put(to, writer);
    text(to, b"\n");
}
