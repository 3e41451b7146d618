// A player that is updated where it lies, beside one that is updated by value.
ghost use Rattle.model.specs.Promises.{Updated};

use crate::figure::{NUMBERS, PLAN};
use crate::show;
use controller::{speed, start, update, update_in_place};
use model::Player;
use std::io::Write;

// `update_in_place` on a player that lies in a local.
// Player and delta are `update`'s own two parameters.
fn updated(player: Player, delta: f64) -> Player
    ensures { Updated player delta result }
{
    let mut kept = player;
    update_in_place(&mut kept, delta);
    kept
}

fn step<W: Write>(to: &mut W, player: Player, delta: f64) {
    show::text(to, b"update\n");
    show::player(to, update(player, delta));
    show::text(to, b"update_in_place\n");
    show::player(to, updated(player, delta));
}

// At speed 2 the clock moves twice as far as it is told: from 0 by 0.75 to 1.5, and from there by 0.25 to 2.
pub fn beside_update<W: Write>(to: &mut W) {
    show::text(
        to,
        b"# update-in-place: a player updated where it lies, beside one updated by value\n",
    );
    let quick = speed(start(&PLAN, &NUMBERS).player, 2.0);
    step(to, quick, 0.75);
    step(to, updated(quick, 0.75), 0.25);
}
