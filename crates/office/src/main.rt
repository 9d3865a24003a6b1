// The office program: reads `line.bin` and `session.bin` in the folder that it is run in, and writes what the library
// makes of them. A file that is absent or cannot be read counts as empty.

#![tactic(auto)]

use files::read_file;
use report::{MOST_FILE, MOST_SESSION, MOST_TEXT, report_whole};

// One byte more than a file may have is read, so that `long` shows. The program ends with 0 also where its text cannot
// be written.
fn main(rt: HostRuntime) {
    let mut line = [0u8; MOST_FILE + 1];
    let mut session = [0u8; MOST_SESSION + 1];
    let mut text = [0u8; MOST_TEXT];
    let n = read_file(&rt, b"line.bin", &mut line);
    let m = read_file(&rt, b"session.bin", &mut session);
    let k = report_whole(&line[..n], &session[..m], &mut text);
    let _ = rt.write_all(&text[..k]);
}
