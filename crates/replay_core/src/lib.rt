// A list of calls performed on a figure, with what each call shows put into a slice of bytes. A long list shows more
// than any buffer holds, so `perform` stops where there is no room for another report and says how far it came; its
// caller prints, and goes on from there.
// It is not printed by `Display`: the head of `printing` says why.
#![tactic(auto)]

ghost use Rattle.std.specs.Prelude.{◌≡◌, ℕ, List, [], ◌≤◌, length, Ok, None};
ghost use Rattle.model.specs.Plan.{max_joints};
ghost use Rattle.model.specs.Run.{Frame};
ghost use Rattle.model.specs.Promises.{Framed};
ghost use Rattle.calls.specs.Read.{call_of, line_read};
ghost use Rattle.printing.specs.Written.{HasRoom, WroteUpTo, Front};
ghost use Rattle.report.specs.Report.{end_text};
ghost use Rattle.replay_core.specs.Replay.{malformed_line};
ghost use Rattle.replay_core.specs.Replaying.{max_report, nothing_shown, call_text, Done, Called};
ghost use Rattle.replay_core.specs.Replaying.{Beginning, performed, Performing};

use calls::{Call, CallAt, call_at};
use controller::{frame, page_frame, set, speed, start, update};
use layout::{JOINT_COUNT_AT, word};
use loops::loops;
use model::limits::MAX_OUTPUT;
use model::{FrameKind, LoopCount, Outcome, Player};
use printing::{MAX_PRINTED, REFUSAL_SIZE, Writer};
use report::{
    PLAYER_SIZE, TOLD_SIZE, put_answer, put_instances, put_parameters, put_player, put_told,
};

// The longest report of a call, or anything else that is put at once: an answer, the player, the lines of all joints,
// and what a question is told.
pub const MAX_REPORT: usize = REFUSAL_SIZE + PLAYER_SIZE + MAX_PRINTED + TOLD_SIZE;

// A call's outcome, how many joints' matrices it left in the floats, and what it is told.
#[derive(Clone, Copy)]
pub struct CallDone {
    pub outcome: Outcome,
    pub joints: usize,
    pub told: Option<LoopCount>,
}

// The player of a start, and how many bytes were put.
#[derive(Clone, Copy)]
pub struct Begun {
    pub player: Player,
    pub length: usize,
}

// What is left of a list: the player after the calls so far, the byte where the next one's line begins, and how many
// lines.
#[derive(Clone, Copy)]
pub struct Left {
    pub player: Player,
    pub at: usize,
    pub lines: usize,
}

// What is left behind the calls that were performed, and how many bytes were put.
#[derive(Clone, Copy)]
pub struct Progress {
    pub left: Left,
    pub length: usize,
}

// ---- one call
// The plan and the numbers stay two parameters, as the calls of `controller` and `loops`, which may not change, take them.

// A call that has no matrices to show and is told nothing.
// No `From`, here and below: an `impl` would be longer, and the names say which of the two is made.
fn done(outcome: Outcome) -> CallDone
    ensures { result ≡ nothing_shown outcome }
{
    CallDone {
        outcome,
        joints: 0,
        told: None,
    }
}

// A call that is never refused.
fn accepted(player: Player) -> CallDone
    ensures { result ≡ nothing_shown (record { answer = Ok tt; player = player }) }
{
    done(Outcome {
        answer: Ok(()),
        player,
    })
}

// controller has the kind behind its two calls, which README names: a third public one would save this match alone.
fn frame_of(
    plan: &[u16],
    numbers: &[f32],
    player: Player,
    kind: FrameKind,
    ext: f64,
    output: &mut [f32],
) -> Outcome
    ensures { Framed kind plan.now numbers.now player ext output.old output.new result }
{
    match kind {
        FrameKind::Ordinary => frame(plan, numbers, player, ext, output),
        FrameKind::Page => page_frame(plan, numbers, player, ext, output),
    }
}

// No frame needs a longer output than MAX_OUTPUT, so a longer output is answered alike.
fn frame_done(
    plan: &[u16],
    numbers: &[f32],
    player: Player,
    kind: FrameKind,
    ext: f64,
    output_length: usize,
    floats: &mut [f32; MAX_OUTPUT],
) -> CallDone
    ensures { Done plan.now numbers.now player (Frame kind ext output_length) floats.new result }
{
    let room = output_length.min(MAX_OUTPUT);
    let outcome = frame_of(plan, numbers, player, kind, ext, &mut floats[..room]);
    match outcome.answer {
        Ok(()) => CallDone {
            joints: word(plan, JOINT_COUNT_AT),
            ..done(outcome)
        },
        Err(_) => done(outcome),
    }
}

fn call_done(
    plan: &[u16],
    numbers: &[f32],
    player: Player,
    call: Call,
    floats: &mut [f32; MAX_OUTPUT],
) -> CallDone
    ensures { Done plan.now numbers.now player (call_of call) floats.new result }
{
    match call {
        Call::Update { delta } => accepted(update(player, delta)),
        Call::Speed { value } => accepted(speed(player, value)),
        Call::Set { parameter, value } => done(set(player, parameter, value)),
        Call::Frame { kind, ext, length } => frame_done(
            plan, numbers, player, kind, ext, length, floats,
        ),
        Call::Loops { state, node, time } => match loops(plan, numbers, player, state, node, time) {
            Ok(count) => CallDone {
                told: Some(count),
                ..accepted(player)
            },
            Err(refusal) => done(Outcome {
                answer: Err(refusal),
                player,
            }),
        },
    }
}

// The call of a line that was read. A malformed line, which no list that passed has, changes nothing and is answered as
// accepted.
fn line_done(
    plan: &[u16],
    numbers: &[f32],
    player: Player,
    read: Option<CallAt>,
    floats: &mut [f32; MAX_OUTPUT],
) -> CallDone
    ensures { (text : List ℕ) → Called plan.now numbers.now player (line_read text read) floats.new result }
{
    match read {
        None => accepted(player),
        Some(line) => call_done(plan, numbers, player, line.call, floats),
    }
}

// The answer, the player, the joints, and what the call is told.
fn put_call(w: &mut Writer<'_>, call: CallDone, floats: &[f32; MAX_OUTPUT])
    requires { HasRoom max_report w.old × (call.joints ≤ max_joints) }
    ensures { WroteUpTo max_report (call_text call floats.now) w.old w.new }
{
    put_answer(w, call.outcome.answer);
    put_player(w, call.outcome.player);
    w.put_joints(call.joints, floats);
    put_told(w, call.told);
}

// ---- a list

// The start's answer and player.
// How many bytes, here and below, and not their slice: the promises are about all of `out`, what is left too.
pub fn begin(plan: &[u16], numbers: &[f32], out: &mut [u8; MAX_REPORT]) -> Begun
    ensures { Beginning plan.now numbers.now out.old out.new result }
{
    let Outcome { answer, player } = start(plan, numbers);
    let mut w = Writer::new(out);
    put_answer(&mut w, answer);
    put_player(&mut w, player);
    Begun {
        player,
        length: w.at,
    }
}

// The calls of the lines that are left, as long as there is room for a report.
// No `for`: how many lines are left is handed back, so a counter would stand beside it.
pub fn perform(
    plan: &[u16],
    numbers: &[f32],
    text: &[u8],
    mut left: Left,
    out: &mut [u8],
) -> Progress
    ensures { Performing
        (performed plan.now numbers.now text.now (length out.old) left.lines left.at left.player [])
        out.old out.new result }
{
    let mut floats = [0.0f32; MAX_OUTPUT];
    let mut w = Writer::new(out);
    while left.lines > 0 && w.out.len() - w.at >= MAX_REPORT {
        let read = call_at(text, left.at);
        let done = line_done(plan, numbers, left.player, read, &mut floats);
        put_call(&mut w, done, &floats);
        left = Left {
            player: done.outcome.player,
            at: read.map_or(0, |line| line.end),
            lines: left.lines - 1,
        };
    }
    Progress { left, length: w.at }
}

// The parameters and the instances, once the calls are done.
pub fn finish(player: Player, out: &mut [u8; MAX_REPORT]) -> usize
    ensures { Front (end_text player) out.old out.new result }
{
    let mut w = Writer::new(out);
    put_parameters(&mut w, &player.parameters);
    put_instances(&mut w, &player.instances);
    w.at
}

// The line that says which line of a list is malformed.
pub fn put_malformed(line: usize, out: &mut [u8; MAX_REPORT]) -> usize
    ensures { Front (malformed_line line) out.old out.new result }
{
    let mut w = Writer::new(out);
    w.put_bytes(b"malformed");
    w.put_decimal(line);
    w.put_bytes(b"\n");
    w.at
}
