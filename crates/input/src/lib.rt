// Reading a reader, as standard input or a file, to its end.
#![tactic(auto)]

ghost use Rattle.std.specs.Prelude.{◌<◌, ◌≤◌, length, take, IfOk};
ghost use Rattle.std.specs.Io.KnownBytes.{Consumes, IsAtEnd};

use std::io::{self, Read};

// How often reading may fail before it is given up. One that a signal interrupted is worth another try.
const MOST_FAILURES: usize = 100;

// Reads until `text` is full or the input ends, and answers how many bytes that were; what is interrupted or short is
// read on. Where it gives up, the error is the last read's.
pub fn read_input<R: Read>(reader: &mut R, text: &mut [u8]) -> io::Result<usize>
    ensures within { IfOk result (λ count. count ≤ length text.old) }
    ensures bytes { IfOk result (λ count. Consumes (R.remaining reader.old) (R.remaining reader.new) (take count text.new)) }
    ensures end { IfOk result (λ count. count < length text.old → IsAtEnd (R.remaining reader.new)) }
{
    let mut done = 0;
    let mut failures = 0;
    // No `for`: a turn goes on by as many bytes as were read, and a failed one by none.
    while done < text.len() {
        match reader.read(&mut text[done..]) {
            Ok(0) => break,
            Ok(count) => done += count,
            Err(error) => {
                failures += 1;
                if failures == MOST_FAILURES {
                    return Err(error);
                }
            }
        }
    }
    Ok(done)
}
