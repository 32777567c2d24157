// Prints the closing state of the run that standard input asks for, as one line. An input longer
// than 98,348 bytes is refused whatever follows, so no more is read. What cannot be read or written
// is told on standard error: the exit status says nothing of it.
#![tactic(auto)]

ghost use Rattle.std.specs.Prelude.{◌≤◌, length};

use std::io::{Read, Stdin};

// Reads until `input` is full, standard input ends or a read fails, and returns how many bytes it
// put at the start of `input`.
fn read_full(stdin: &mut Stdin, input: &mut [u8]) -> usize
    ensures { result ≤ length input.new }
{
    let mut done = 0;
    // Kept: no method of std fills a slice and tells how far the input went.
    while done < input.len() {
        match stdin.read(&mut input[done..]) {
            Ok(0) | Err(_) => break,
            Ok(n) => done += n,
        }
    }
    done
}

// Whether standard input has ended. Where a read failed it has not, and no line may be printed.
fn ended(stdin: &mut Stdin) -> bool {
    let mut next = [0u8; 1];
    matches!(stdin.read(&mut next), Ok(0))
}

// Tells standard error; where that fails there is nobody left to tell.
fn say(rt: &HostRuntime, text: &str) {
    rt.eprintln(text).is_ok();
}

fn main(rt: HostRuntime) {
    let mut stdin = rt.stdin();
    let mut input = [0u8; 98348];
    let n = read_full(&mut stdin, &mut input);
    if n < 98348 && !ended(&mut stdin) {
        say(&rt, "print_state: standard input cannot be read");
        return;
    }
    let mut memory = [0u8; 65536];
    let mut out = [0u8; 80];
    let length = printed_line::sheet(&input[..n], &mut memory, &mut out);
    if rt.write_all(&out[..length]).is_err() {
        say(&rt, "print_state: the line cannot be written, or not whole");
    }
}
