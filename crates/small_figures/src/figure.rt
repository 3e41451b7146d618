// Figures as they are given to `controller`.
use controller::{frame, start};
use model::limits::ROOT;
use model::{Outcome, Player};

// The parent of a root of any figure, as a word.
pub const NO_PARENT: u16 = ROOT as u16;

#[derive(Clone, Copy)]
pub struct Figure<'a> {
    pub plan: &'a [u16],
    pub numbers: &'a [f32],
}

impl Figure<'_> {
    pub fn start(self) -> Outcome {
        start(self.plan, self.numbers)
    }

    pub fn frame(self, player: Player, ext: f64, output: &mut [f32]) -> Outcome {
        frame(self.plan, self.numbers, player, ext, output)
    }
}

// One joint, one clip of one sample, one state.
pub const PLAN: [u16; 14] = [1, 1, 0, 1, 0, NO_PARENT, 1, 0, 1, 0, 0, 0, 0, 0];

pub const NUMBERS: [f32; 9] = [1.0, 1.0, 2.0, 3.0, 1.0, 1.0, 0.0, 0.0, 0.0];
