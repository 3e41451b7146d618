// The program `inspect VERB ..`: tells about a figure what can be told without playing it, a verb for each question.
// What a verb prints is a library's work, on slices; here are only the arguments, the reading and the writing.
#![tactic(auto)]

use input_file::{PATH_SIZE, argument_error, has_argument, or_complain, read_file};
use model::limits::MAX_TEXT;
use printing::MAX_PRINTED;
use program::{Question, answer};
use std::io::{self, Write};
use std::rt::Env;

// Why a question was not answered.
#[derive(Drop)]
enum Failure {
    // Standard error says what is wrong with the arguments or the file; how the program is used comes behind that.
    Said,
    // Standard output cannot be written.
    Unwritten,
}

impl From<io::Error> for Failure {
    fn from(_error: io::Error) -> Failure {
        Failure::Unwritten
    }
}

// What stands for an argument that cannot be had.
const ARGUMENT: &[u8] = b"inspect: an argument";

// A line for each verb, and one for what it prints.
// Bytes by `write_all`: there is nothing to format.
fn write_usage<W: Write>(out: &mut W) -> io::Result<()> {
    out.write_all(
        b"usage: inspect uses FIGURE\nprints which states, parameters and clips of the figure in FIGURE can ever matter (1) and which never do (0)\n",
    )
}

// Says what is wrong with the arguments.
// By `write_all`, part by part: a name is an argument's bytes, which need not be UTF-8.
fn refuse(rt: &HostRuntime, what: &[u8], name: &[u8]) -> Failure {
    let mut err = rt.stderr();
    for part in [b"inspect: ", what, name, b"\n"] {
        let _ = Write::write_all(&mut err, part);
    }
    Failure::Said
}

fn print_uses(rt: &HostRuntime) -> Result<(), Failure> {
    if !has_argument(rt, 2) || has_argument(rt, 3) {
        return Err(refuse(rt, b"uses takes one FIGURE", b""));
    }
    // A byte more, so that a longer text is noticed.
    let mut text = [0u8; MAX_TEXT + 1];
    let count = read_file(rt, ARGUMENT, 2, &mut text).ok_or(Failure::Said)?;
    let mut out = [0u8; MAX_PRINTED];
    let length = answer(Question::Uses, &text[..count], &mut out);
    Print::write_all(rt, &out[..length])?;
    Ok(())
}

fn run(rt: &HostRuntime) -> Result<(), Failure> {
    if !has_argument(rt, 1) {
        return Err(refuse(rt, b"no verb given", b""));
    }
    let mut name = [0u8; PATH_SIZE];
    let got = rt.arg(1, &mut name).map_err(argument_error);
    let size = or_complain(rt, ARGUMENT, got).ok_or(Failure::Said)?;
    match &name[..size] {
        b"uses" => print_uses(rt),
        b"--help" | b"-h" | b"help" => Ok(write_usage(&mut rt.stdout())?),
        unknown => Err(refuse(rt, b"no such verb: ", unknown)),
    }
}

fn main(rt: HostRuntime) {
    match run(&rt) {
        Ok(()) => {}
        Err(Failure::Said) => {
            let _ = write_usage(&mut rt.stderr());
        }
        Err(Failure::Unwritten) => {
            let _ = eprintln!(rt; "inspect: standard output cannot be written");
        }
    }
}
