// The rewriting program (request N1): reads `line.bin` in the folder that it is run in, and writes it as `line.out`, or
// prints why not. A file that is absent or cannot be read counts as empty.

#![tactic(auto)]

use files::read_file;
use report::MOST_FILE;
use report::rewriting::{MOST_WORD, rewrite_whole};
use std::fs::File;
use std::io;
use std::io::{ErrorKind, Write};
use std::rt::Files;

// Whether the system says of a file, as of a device or a pipe, that it cannot be told to finish its writing.
fn cannot_be_told(error: &io::Error) -> bool {
    matches!(
        error.kind(),
        ErrorKind::InvalidInput | ErrorKind::Unsupported | ErrorKind::ReadOnlyFilesystem
    )
}

// Has the system finish the writing of a file, which may fail where what was written before did not: a file is closed
// without a word.
fn finish(file: &File) -> io::Result<()> {
    match file.sync_all() {
        Err(error) if !cannot_be_told(&error) => Err(error),
        _ => Ok(()),
    }
}

// Puts the bytes down as the whole of a file.
fn write_file(rt: &impl Files<File = File>, path: &str, bytes: &[u8]) -> io::Result<()> {
    let mut file = File::create(rt, path)?;
    file.write_all(bytes)?;
    finish(&file)
}

// The words of an error of the system's, without its number, which the library puts behind them.
fn words_of(text: &str) -> &str {
    match text.rsplit_once(" (os error ") {
        Some((words, _)) => words,
        None => text,
    }
}

// Says on standard error what failed: the file, a colon and the system's words; without memory, also their number.
fn complain(rt: &(impl Eprint + Alloc), path: &str, error: io::Error) -> io::Result<()> {
    match format!(in rt.alloc(); "{error}") {
        Ok(text) => {
            let words = words_of(text.as_str());
            eprintln!(rt; "{path}: {words}")
        }
        Err(_) => eprintln!(rt; "{path}: {error}"),
    }
}

// One byte more than a file may have is read, so that `long` shows. The program ends with 0 whatever it could not
// write.
fn main(rt: HostRuntime) {
    let mut line = [0u8; MOST_FILE + 1];
    let mut text = [0u8; MOST_WORD];
    let mut file = [0u8; MOST_FILE];
    let n = read_file(&rt, b"line.bin", &mut line);
    let made = rewrite_whole(&line[..n], &mut text, &mut file);
    let k = made.text;
    let m = made.file;
    if 0 < k {
        let _ = rt.write_all(&text[..k]);
        return;
    }
    if let Err(error) = write_file(&rt, "line.out", &file[..m]) {
        let _ = complain(&rt, "line.out", error);
    }
}
