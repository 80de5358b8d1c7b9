// The solve program: a case text on standard input, its report on standard output.
#![tactic(auto)]

// The numbers of standard input and output.
const STDIN_FILENO: i32 = 0;

const STDOUT_FILENO: i32 = 1;

fn main() {
    // one byte more than a case may have: enough to know that it is too long
    let mut text = [0u8; 32769];
    let mut out = [0u8; report::BUFFER];
    let mut space = [0.0; 6144];
    let n = io::read_full(STDIN_FILENO, &mut text);
    let k = report::report(&text[..n], &mut out, &mut space);
    io::write_all(STDOUT_FILENO, &out[..k]);
}
