// What the programs share: a file's bytes by its name, and the bytes of standard input.

#![tactic(auto)]

ghost use Rattle.files.specs.Counts.{IsPrefixLen};

use std::fs::File;
use std::io::Read;
use std::rt::Files;
use std::str;

// The bytes of a file at the start of buf, and how many there are. A file that is absent or cannot be read counts as
// empty, and one that is longer fills buf. A file whose name is not UTF-8 cannot be read: today's library opens none.
pub fn read_file(rt: &impl Files, path: &[u8], buf: &mut [u8]) -> usize
    ensures { IsPrefixLen result buf.new }
{
    let Ok(name) = str::from_utf8(path) else {
        return 0;
    };
    match File::open(rt, name) {
        Ok(mut file) => read_full(&mut file, buf),
        Err(_) => 0,
    }
}

// Reads until buf is full, the input ends or a read fails, and answers how many bytes it put at the start of buf. On an
// empty buf it reads nothing.
pub fn read_full(input: &mut impl Read, buf: &mut [u8]) -> usize
    ensures { IsPrefixLen result buf.new }
{
    let mut done = 0;
    while done < buf.len() {
        match input.read(&mut buf[done..]) {
            Ok(n) if 0 < n => done += n,
            _ => break,
        }
    }
    done
}
