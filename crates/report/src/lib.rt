// What a list of calls shows, put by a writer behind what it has put.
// It is not printed by `Display`: the head of `printing` says why.
#![tactic(auto)]

ghost use Rattle.std.specs.Prelude.{◌<◌};
ghost use Rattle.model.specs.Answers.{values};
ghost use Rattle.model.specs.Plan.{max_clip_nodes};
ghost use Rattle.model.specs.Clips.{instance_at};
ghost use Rattle.printing.specs.Written.{HasRoom, WroteUpTo, WroteExactly};
ghost use Rattle.printing.specs.Sizes.{refusal_size};
ghost use Rattle.report.specs.Report.{wide_text, answer_line, transition_fields, player_text};
ghost use Rattle.report.specs.Report.{told_text, told_values, parameters_line, instance_line, instance_lines};
ghost use Rattle.report.specs.Sizes.{wide_size, transition_size, player_size, told_size};
ghost use Rattle.report.specs.Sizes.{parameters_size, instance_size, instances_size};

use animation::instance_at;
use float::f64_to_bits;
use model::limits::{MAX_CLIP_NODES, MAX_INSTANCES, MAX_PARAMETERS, NUMBER_BYTES};
use model::{Answer, LoopCount, Player, Transition};
use printing::{DECIMAL_SIZE, Writer};

// Digits of a 64-bit float's bits.
const WIDE_DIGITS: usize = 16;

// How many bytes fields and lines have at the most; specs/Sizes.antt has the same for contracts.
const WIDE_SIZE: usize = 1 + WIDE_DIGITS;

const TRANSITION_SIZE: usize = 8 + WIDE_SIZE + DECIMAL_SIZE + NUMBER_BYTES;

pub const PLAYER_SIZE: usize = 6 + 2 * WIDE_SIZE + DECIMAL_SIZE + TRANSITION_SIZE + 1;

pub const TOLD_SIZE: usize = 5 + 2 * DECIMAL_SIZE + 1;

pub fn put_answer(w: &mut Writer<'_>, answer: Answer)
    requires { HasRoom refusal_size w.old }
    ensures { WroteUpTo refusal_size (answer_line (values answer)) w.old w.new }
{
    match answer {
        Ok(()) => w.put_bytes(b"ok\n"),
        Err(refusal) => w.put_refusal(refusal),
    }
}

// A comma, and the bits of x. Beside `put_bits`, since a trait that makes one of the two one-line functions is longer than both.
fn put_wide(w: &mut Writer<'_>, x: f64)
    requires { HasRoom wide_size w.old }
    ensures { WroteExactly wide_size (wide_text x) w.old w.new }
{
    w.put_field(16, WIDE_DIGITS, f64_to_bits(x) as usize);
}

fn put_transition(w: &mut Writer<'_>, transition: Transition)
    requires { HasRoom transition_size w.old }
    ensures { WroteUpTo transition_size (transition_fields transition) w.old w.new }
{
    match transition {
        Transition::Idle => w.put_bytes(b",idle"),
        Transition::Running {
            start,
            target,
            duration,
        } => {
            w.put_bytes(b",running");
            put_wide(w, start);
            w.put_decimal(target);
            w.put_bits(duration);
        }
    }
}

pub fn put_player(w: &mut Writer<'_>, player: Player)
    requires { HasRoom player_size w.old }
    ensures { WroteUpTo player_size (player_text player) w.old w.new }
{
    w.put_bytes(b"player");
    put_wide(w, player.clock);
    put_wide(w, player.speed);
    w.put_decimal(player.state);
    put_transition(w, player.transition);
    w.put_bytes(b"\n");
}

// What a question that is accepted is told besides.
pub fn put_told(w: &mut Writer<'_>, told: Option<LoopCount>)
    requires { HasRoom told_size w.old }
    ensures { WroteUpTo told_size (told_text (told_values told)) w.old w.new }
{
    match told {
        None => {}
        Some(LoopCount { loops, rest }) => {
            w.put_bytes(b"loops");
            w.put_decimal(loops);
            w.put_decimal(rest);
            w.put_bytes(b"\n");
        }
    }
}

// ---- the rest of the player

pub fn put_parameters(w: &mut Writer<'_>, parameters: &[f32; MAX_PARAMETERS])
    requires { HasRoom parameters_size w.old }
    ensures { WroteExactly parameters_size (parameters_line parameters.now) w.old w.new }
{
    w.put_bytes(b"parameters");
    w.put_floats(parameters);
    w.put_bytes(b"\n");
}

#[tactic(auto, using(printing::proofs::Laws::short_index))]
fn put_instance(w: &mut Writer<'_>, n: usize, instances: &[f32; MAX_INSTANCES])
    requires { (n < max_clip_nodes) × HasRoom instance_size w.old }
    ensures { WroteUpTo instance_size (instance_line n (instance_at instances.now n)) w.old w.new }
{
    let instance = instance_at(instances, n);
    w.put_bytes(b"instance");
    w.put_decimal(n);
    w.put_bits(instance.start);
    w.put_bits(instance.rate);
    w.put_bits(instance.offset);
    w.put_bytes(b"\n");
}

// Those of all clip nodes, used or not.
pub fn put_instances(w: &mut Writer<'_>, instances: &[f32; MAX_INSTANCES])
    requires { HasRoom instances_size w.old }
    ensures { WroteUpTo instances_size (instance_lines max_clip_nodes instances.now) w.old w.new }
{
    for n in 0..MAX_CLIP_NODES {
        put_instance(w, n, instances);
    }
}
