// Judges the stored sessions on standard input as the office program does, and writes its text for each, with a row `.`
// behind it. A session stands after its lengths: the line's and its own, two bytes each, lower byte first, then the
// line's bytes and its own. The expected text is the second implementation's.

#![tactic(auto)]

ghost use Rattle.std.specs.Prelude.{◌≡◌, ◌+◌, ◌*◌, ◌<◌};

use files::read_full;
use report::{MOST_TEXT, report_whole};

const MOST_INPUT: usize = 196608;

// A number in two bytes, lower byte first.
fn two(low: u8, high: u8) -> usize
    ensures value { result ≡ low + 256 * high }
    ensures upper_bound { result < 65536 }
{
    usize::from(u16::from_le_bytes([low, high]))
}

// The first session of the input: the line's bytes and its own, behind their lengths; and the rest.
fn first_session(input: &[u8]) -> Option<(&[u8], &[u8], &[u8])> {
    let (sizes, rest) = input.split_first_chunk::<4>()?;
    let (line, rest) = rest.split_at_checked(two(sizes[0], sizes[1]))?;
    let (session, next) = rest.split_at_checked(two(sizes[2], sizes[3]))?;
    Some((line, session, next))
}

fn judge(rt: &impl Print, line: &[u8], session: &[u8]) {
    let mut text = [0u8; MOST_TEXT];
    let n = report_whole(line, session, &mut text);
    let _ = rt.write_all(&text[..n]);
    let _ = rt.write_all(b".\n");
}

fn judge_all(rt: &impl Print, input: &[u8]) {
    let mut rest = input;
    for _ in 0..u64::MAX {
        let Some((line, session, next)) = first_session(rest) else {
            return;
        };
        judge(rt, line, session);
        rest = next;
    }
}

// The program ends with 0 also where its text cannot be written.
fn main(rt: HostRuntime) {
    let mut buf = [0u8; MOST_INPUT];
    let n = read_full(&mut rt.stdin(), &mut buf);
    judge_all(&rt, &buf[..n]);
}
