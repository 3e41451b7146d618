// Beside the reasons, since what a ghost field cites names none of them.
ghost use Rattle.std.specs.Prelude.{◌≡◌, false};
ghost use Rattle.model.specs.Reasons.{is_named};

// A refusal's number that no reason of the program's has.
#[derive(Clone, Copy, PartialEq, Eq)]
pub struct Unnamed {
    pub number: usize,
    ghost unnamed: { is_named number ≡ false },
}
