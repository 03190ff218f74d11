// Reads one line from standard input and prints the walk that it names.
#![tactic(auto)]

ghost use Rattle.std.specs.Prelude.{◌≤◌, length};

use std::io::{Input, Read};

// Fills a buffer from standard input, and says how many bytes there were.
fn read_full(rt: &impl Input, buffer: &mut [u8]) -> usize
    ensures { result ≤ length buffer.new }
{
    let mut input = rt.reader();
    let mut len = 0;
    while len < buffer.len() {
        match input.read(&mut buffer[len..]) {
            Ok(0) => return len,
            Ok(n) => len += n,
            Err(_) => return len,
        }
    }
    len
}

// No good line has more than 23 bytes, so that 64 decide.
fn main(rt: HostRuntime) {
    let mut input = [0u8; 64];
    let n = read_full(&rt, &mut input);
    if walk_print::print_walk(&input[..n]).is_err() {
        walk_print::complain();
    }
}
