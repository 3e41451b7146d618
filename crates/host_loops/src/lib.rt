// How many loops a clip has played as hosts in C and Rust hold it, flat since their interface has no enums.
#![tactic(auto)]

ghost use Rattle.host_loops.specs.HostLoops.{HostLoopsCounted};

use host_player::HostPlayer;
use loops::loops;
use model::Player;

// Number 0 is the acceptance. Any other is a refusal, and loops and rest are 0.
// No `Result`: C has this struct.
#[repr(C)]
#[derive(Clone, Copy)]
pub struct HostLoops {
    pub number: usize,
    pub place: usize,
    pub loops: usize,
    pub rest: usize,
}

// One match and no `From`: nothing else makes one, and an `impl` would hold the same match.
pub fn host_loops(
    plan: &[u16],
    numbers: &[f32],
    flat: HostPlayer,
    state: usize,
    node: usize,
    time: f32,
) -> HostLoops
    ensures { HostLoopsCounted plan.now numbers.now flat state node time result }
{
    match loops(plan, numbers, Player::from(flat), state, node, time) {
        Ok(count) => HostLoops {
            number: 0,
            place: 0,
            loops: count.loops,
            rest: count.rest,
        },
        Err(refusal) => HostLoops {
            number: refusal.reason.number(),
            place: refusal.place,
            loops: 0,
            rest: 0,
        },
    }
}
