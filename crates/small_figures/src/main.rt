// Plays small figures through all calls and refusals, and prints what each call answers, the player and the matrices. Floats are their bits.
// README.md lists the cases; each begins with its name.
#![tactic(auto)]

mod figure;
mod in_place;
mod refusals;
mod show;
mod signs;
mod unseen;

fn main(rt: HostRuntime) {
    let mut output = rt.stdout();
    refusals::printed_example(&mut output);
    refusals::of_start(&mut output);
    refusals::of_set_and_frame(&mut output);
    refusals::joint_limit(&mut output);
    signs::there_and_back(&mut output);
    signs::page(&mut output);
    signs::held(&mut output);
    signs::paused(&mut output);
    signs::nothing_but_nan(&mut output);
    unseen::sevens(&mut output);
    unseen::nan(&mut output);
    in_place::beside_update(&mut output);
}
