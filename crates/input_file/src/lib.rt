// Reading the file that an argument names to its end.
#![tactic(auto)]

ghost use Rattle.std.specs.Prelude.{◌≡◌, ◌≤◌, length, take, IfSome, IfOk, MatchResult};
ghost use Rattle.std.specs.IoError.{raw_os_error};
ghost use Rattle.input_file.specs.Words.{words_size};

use input::read_input;
use std::env::FillError;
use std::fs::File;
use std::io::{self, Error, ErrorKind, Write};
use std::rt::Env;
use std::str;

// As many bytes as a path may have.
pub const PATH_SIZE: usize = 4096;

// Room for what a system's error is called.
const REASON_SIZE: usize = 256;

// The system's numbers of two errors: an argument that there is not, and one that is too long.
const INVALID_ARGUMENT: i32 = 22;

const NAME_TOO_LONG: i32 = 36;

// The words for an error: what comes before its number, if it has one, and before the zeros that fill the text up.
fn words(text: &[u8]) -> &[u8]
    ensures { result.now ≡ take (words_size text.now) text.now }
{
    for i in 0..text.len() {
        if text[i] == 0 || text[i..].starts_with(b" (os error ") {
            return &text[..i];
        }
    }
    text
}

// Says on `out`, which is standard error, what failed and why, as a line.
// `what` is bytes, since it may be a path.
pub fn complain<W: Write>(out: &mut W, what: &[u8], error: Error) {
    let mut text = [0u8; REASON_SIZE];
    let mut rest = &mut text[..];
    let _ = write!(rest, "{error}");
    let _ = out.write_all(what);
    let _ = out.write_all(b": ");
    let _ = out.write_all(words(&text));
    let _ = out.write_all(b"\n");
}

// Why an argument cannot be had.
pub fn argument_error(why: FillError) -> Error
    ensures absent { why ≡ FillError.NotPresent → raw_os_error result ≡ Some INVALID_ARGUMENT }
    ensures long { why ≡ FillError.TooLong → raw_os_error result ≡ Some NAME_TOO_LONG }
{
    Error::from_raw_os_error(match why {
        FillError::NotPresent => INVALID_ARGUMENT,
        FillError::TooLong => NAME_TOO_LONG,
    })
}

// Whether the program was given an argument i.
pub fn has_argument(rt: &impl Env, i: usize) -> bool {
    !matches!(rt.arg(i, &mut [0u8; 1]), Err(FillError::NotPresent))
}

// What was tried for, if it was got; where it was not, standard error says of what, and why.
pub fn or_complain<T>(rt: &HostRuntime, what: &[u8], tried: io::Result<T>) -> Option<T>
    ensures { MatchResult tried (λ x. result ≡ Some x) (λ _. result ≡ None) }
{
    tried
        .inspect_err(|error| complain(&mut rt.stderr(), what, *error))
        .ok()
}

// The library opens files by names in UTF-8.
fn open(rt: &HostRuntime, path: &[u8]) -> io::Result<File> {
    let name = str::from_utf8(path).map_err(|_| Error::new(
        ErrorKind::InvalidInput,
        "a name that is not UTF-8",
    ))?;
    File::open(rt, name)
}

// Puts the content of the file that `path` names into `text`, and answers how many bytes it has.
fn read_path(rt: &HostRuntime, path: &[u8], text: &mut [u8]) -> io::Result<usize>
    ensures { IfOk result (λ count. count ≤ length text.old) }
{
    let mut file = open(rt, path)?;
    read_input(&mut file, text)
}

// Puts the content of the file that argument i names into `text`, and answers how many bytes it has. Where it cannot be
// read, standard error says why; an argument that cannot be had has no name to say, and is called `argument`.
pub fn read_file(rt: &HostRuntime, argument: &[u8], i: usize, text: &mut [u8]) -> Option<usize>
    ensures { IfSome result (λ count. count ≤ length text.old) }
{
    let mut path = [0u8; PATH_SIZE];
    let size = or_complain(rt, argument, rt.arg(i, &mut path).map_err(argument_error))?;
    let path = &path[..size];
    or_complain(rt, path, read_path(rt, path, text))
}
