// What a figure can use as hosts in C and Rust hold it, flat since their interface has no enums.
#![tactic(auto)]

ghost use Rattle.host_uses.specs.HostUses.{HostUsesFound};

use model::limits::{MAX_CLIPS, MAX_PARAMETERS, MAX_STATES};
use uses::uses;

// Number 0 is the acceptance. Any other is a start's refusal, and no mark is set.
// No `Result`: C has this struct.
#[repr(C)]
#[derive(Clone, Copy)]
pub struct HostUses {
    pub number: usize,
    pub place: usize,
    pub states: [bool; MAX_STATES],
    pub parameters: [bool; MAX_PARAMETERS],
    pub clips: [bool; MAX_CLIPS],
}

// One match and no `From`: nothing else makes one, and an `impl` would hold the same match.
pub fn host_uses(plan: &[u16], numbers: &[f32]) -> HostUses
    ensures { HostUsesFound plan.now numbers.now result }
{
    match uses(plan, numbers) {
        Ok(found) => {
            // Today's check asks for a variable where an array goes from one struct to another.
            let states = found.states;
            let parameters = found.parameters;
            let clips = found.clips;
            HostUses {
                number: 0,
                place: 0,
                states,
                parameters,
                clips,
            }
        }
        Err(refusal) => HostUses {
            number: refusal.reason.number(),
            place: refusal.place,
            states: [false; MAX_STATES],
            parameters: [false; MAX_PARAMETERS],
            clips: [false; MAX_CLIPS],
        },
    }
}
