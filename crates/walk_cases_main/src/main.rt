// Runs the walk library on the inputs that document 01 and the issue name, and on malformed ones; a line with the case's name goes before each.
#![tactic(auto)]

use std::fmt;

// Says the case's name and prints its walk: each write is tried, whether or not those before it could be made.
fn show(rt: &impl Print, name: &str, input: &[u8]) -> fmt::Result {
    let named = println!(rt; "# {name}").map_err(|_| fmt::Error);
    let walked = walk_print::print_walk(input);
    named.and(walked)
}

fn malformed(rt: &impl Print) -> fmt::Result {
    show(rt, "two newlines", b"0 0 p 3 0 0\n\n")
        .and(show(rt, "a carriage return", b"0 0 p 3 0 0\r\n"))
        .and(show(rt, "no input", b""))
        .and(show(rt, "a newline alone", b"\n"))
        .and(show(rt, "a leading zero", b"00 0 p 3 0 0\n"))
        .and(show(rt, "a leading zero in a coordinate", b"0 0 p 03 0 0\n"))
        .and(show(rt, "a sign", b"0 0 p -3 0 0\n"))
        .and(show(rt, "two spaces", b"0 0  p 3 0 0\n"))
        .and(show(rt, "a space at the end", b"0 0 p 3 0 0 \n"))
        .and(show(rt, "three digits in the face", b"100 0 p 3 0 0\n"))
        .and(show(rt, "five digits in a coordinate", b"0 0 p 10000 0 0\n"))
        .and(show(rt, "another letter", b"0 0 q 3 0 0\n"))
        .and(show(rt, "five fields", b"0 0 p 3 0\n"))
        .and(show(rt, "a byte above 127", b"0 0 p 3 0 \xb2\n"))
        .and(show(
            rt,
            "a long line",
            b"0 0 p 3 0 0 0 0 0 0 0 0 0 0 0 0 0 0 0 0 0 0 0 0 0 0 0 0 0 0 0 0 0 0\n",
        ))
}

fn refused(rt: &impl Print) -> fmt::Result {
    show(rt, "face 20", b"20 1 p 1 1 1\n")
        .and(show(rt, "level 1", b"0 1 p 1 1 1\n"))
        .and(show(rt, "level 18", b"0 18 p 3 0 0\n"))
        .and(show(rt, "not reduced", b"0 0 s 1 1 1\n"))
}

fn settled(rt: &impl Print) -> fmt::Result {
    show(rt, "within the limit", b"19 16 p 9999 0 9999\n")
        .and(show(
            rt,
            "substrate, on the edge from the start",
            b"0 0 s 3 3 0\n",
        ))
        .and(show(
            rt,
            "substrate, a step that ends on the edge",
            b"0 0 s 7 2 0\n",
        ))
        .and(show(
            rt,
            "substrate, a walk that ends on the edge",
            b"2 0 s 15 0 0\n",
        ))
        .and(show(rt, "substrate, a walk that ends within", b"0 0 s 40 0 3\n"))
        .and(show(rt, "the longest walk", b"19 0 p 9999 0 0\n"))
}

fn all(rt: &impl Print) -> fmt::Result {
    show(rt, "the starred line", b"0 0 p 3 0 0\n")
        .and(show(rt, "no newline", b"0 0 p 3 0 0"))
        .and(malformed(rt))
        .and(refused(rt))
        .and(settled(rt))
}

fn main(rt: HostRuntime) {
    if all(&rt).is_err() {
        walk_print::complain();
    }
}
