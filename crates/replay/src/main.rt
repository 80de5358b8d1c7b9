// Replays the list in the file `texts` (oracle/replay.py has the format): reports each text and compares every byte with the answer that the
// list holds.
#![tactic(auto)]

ghost use Rattle.std.specs.Prelude.{◌≡◌, length, IfOk};
ghost use Rattle.vectors.specs.Words.{Tells};
ghost use Rattle.replay.specs.Replay.{bytes_of, Answered};

use std::fs::File;
use std::os::fd::AsRawFd;
use vectors::STDOUT_FILENO;

// Whether the report of a text is the answer.
fn agrees(
    text: &[u8],
    answer: &[u8],
    out: &mut [u8; report::BUFFER],
    space: &mut [f64; 6144],
) -> bool
    ensures { Tells result (bytes_of text.now space.old ≡ answer.now) }
{
    let k = report::report(text, out, space);
    &out[..k] == answer
}

// Why the list has no whole record left: it has ended, or it ends within the record.
#[derive(Clone, Copy, Debug, PartialEq, Eq)]
enum End {
    Ended,
    CutOff,
}

// Whether the report of one record's text is its answer.
fn next(
    fd: i32,
    head: &mut [u8],
    text: &mut [u8],
    answer: &mut [u8],
    out: &mut [u8; report::BUFFER],
    space: &mut [f64; 6144],
) -> Result<bool, End>
    requires { (length head.old ≡ 4) × (length text.old ≡ 65536) × (length answer.old ≡ 65536) }
    ensures { IfOk result (λ b. Tells b (Answered head.new text.new answer.new space.old)) }
{
    let got = io::read_full(fd, head);
    if got == 0 {
        return Err(End::Ended);
    }
    if got < 4 {
        return Err(End::CutOff);
    }
    let n = vectors::pair(head, 0);
    let m = vectors::pair(head, 2);
    if !vectors::read(fd, text, n) {
        return Err(End::CutOff);
    }
    if !vectors::read(fd, answer, m) {
        return Err(End::CutOff);
    }
    Ok(agrees(&text[..n], &answer[..m], out, space))
}

// A line for a text that differs, by its number in the list, the first being 0.
fn tell(number: u64) {
    io::write_all(STDOUT_FILENO, b"text ");
    io::print_decimal(STDOUT_FILENO, number);
    io::write_all(STDOUT_FILENO, b" differs\n");
}

// The last lines. A record that is cut off counts as none, so a line tells of it.
fn sum_up(end: End, done: u64, differing: u64) {
    if end != End::Ended {
        io::write_all(STDOUT_FILENO, b"the list ends within a record\n");
    }
    vectors::sum_up(b"texts", done, differing);
}

fn main(rt: HostRuntime) -> std::io::Result<()> {
    let list = File::open(&rt, "texts")?;
    let fd = list.as_raw_fd();
    let mut front = [0u8; 4];
    let mut texts = io::large_buffer();
    let mut answers = io::large_buffer();
    let mut out = [0u8; report::BUFFER];
    let mut space = [0.0; 6144];
    let head: &mut [u8] = &mut front;
    let text: &mut [u8] = &mut texts;
    let answer: &mut [u8] = &mut answers;
    let mut end = End::CutOff;
    let mut done = 0;
    let mut differing = 0;
    // nothing says that a file ends, so the turns are bounded
    for number in 0..u64::MAX {
        match next(fd, head, text, answer, &mut out, &mut space) {
            Ok(agrees) => {
                if !agrees {
                    tell(number);
                    differing += 1;
                }
                done += 1;
            }
            Err(e) => {
                end = e;
                break;
            }
        }
    }
    sum_up(end, done, differing);
    Ok(())
}
