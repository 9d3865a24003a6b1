// Judges the stored cases on standard input and writes a row for each: its place from 1, the answer, and a checksum of
// what the call left (0 where it leaves nothing) or a second answer. tests/vectors.py says what a case is.

#![tactic(auto)]

mod cases;
mod memory;

use cases::Row;
use files::read_full;

const MOST_INPUT: usize = 245760;

fn print_row(rt: &impl Print, place: u64, row: Row) {
    let _ = println!(rt; "{place} {} {}", row.answer, row.left);
}

// The first case of the input: its number, its bytes behind their length in two bytes, and the rest.
fn first_case(bytes: &[u8]) -> Option<(u8, &[u8], &[u8])> {
    let (call, rest) = bytes.split_first()?;
    let (case, next) = cases::counted(rest)?;
    Some((*call, case, next))
}

fn judge_all(rt: &impl Print, input: &[u8]) {
    let mut rest = input;
    for place in 1..u64::MAX {
        let Some((call, case, next)) = first_case(rest) else {
            return;
        };
        print_row(rt, place, cases::judge(call, case));
        rest = next;
    }
}

// The program ends with 0 also where its rows cannot be written.
fn main(rt: HostRuntime) {
    let mut buf = [0u8; MOST_INPUT];
    let n = read_full(&mut rt.stdin(), &mut buf);
    judge_all(&rt, &buf[..n]);
}
