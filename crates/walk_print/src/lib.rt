// Prints the text of a walk on standard output: for the programs that read a line and for those that run recorded ones.
#![tactic(auto)]

ghost use Rattle.std.specs.Prelude.{◌≡◌, [], ◌++◌, IsOk};
ghost use Rattle.walk.specs.Texts.{text_of};

use std::fmt;
use walk::State;

const STDOUT_FILENO: i32 = 1;

const STDERR_FILENO: i32 = 2;

// Writes the bytes that lead from one state to the next. The text is written here and nowhere else, since no contract can say what is written.
fn hand_over(from: State, next: State, bytes: &[u8]) -> fmt::Result
    requires { text_of from ≡ bytes.now ++ text_of next }
{
    if io::write_all(STDOUT_FILENO, bytes) {
        Ok(())
    } else {
        Err(fmt::Error)
    }
}

// Where printing ends well: it is answered here and nowhere else, and only where nothing is left of the text.
fn nothing_left(from: State) -> fmt::Result
    requires { text_of from ≡ [] }
    ensures { IsOk result }
{
    Ok(())
}

// Prints the text of a state, a buffer at a time, up to the first write that fails.
fn print_text(state: State) -> fmt::Result {
    let mut buffer = [0u8; 65536];
    let mut from = state;
    let mut w = walk::write_lines(from, &mut buffer);
    while 0 < w.len {
        hand_over(from, w.state, &buffer[..w.len])?;
        from = w.state;
        w = walk::write_lines(from, &mut buffer);
    }
    nothing_left(from)
}

// Prints the walk that an input names, or its refusal. It asks its caller for no handle, so it writes by the kit's `io`.
pub fn print_walk(input: &[u8]) -> fmt::Result {
    print_text(walk::begin(input))
}

// Says on standard error that a write failed; where that fails too, nothing is left to say it to.
pub fn complain() {
    io::write_all(STDERR_FILENO, b"walk: the output could not be written\n");
}
