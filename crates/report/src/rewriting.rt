// What the rewriting program prints and what it writes (request N1), worked out over slices.
ghost use Rattle.std.specs.Prelude.{◌≡◌, ◌++◌, length, drop};
ghost use Rattle.model.specs.Rewriting.{rewrite_text, rewrite_file};
ghost use Rattle.page.specs.Page.{Counts};

use crate::MOST_FILE;
use model::Unwritten;
use page::{put_line, put_long};

// How long the text is at most: `line`, a space, a digit and the end of the row.
pub const MOST_WORD: usize = 7;

// How many bytes of text there are to print, and how many of a file to write.
#[derive(Clone, Copy)]
pub struct Rewriting {
    pub text: usize,
    pub file: usize,
}

// Puts down the text and the written file for a file, which is given with at most one byte more than it may have. The
// bytes behind both stay as they were.
pub fn rewrite_whole(
    line: &[u8],
    text: &mut [u8; MOST_WORD],
    file: &mut [u8; MOST_FILE],
) -> Rewriting
    ensures text_value { result.text ≡ length (rewrite_text line.now) }
    ensures text_after { text.new ≡ rewrite_text line.now
        ++ drop (length (rewrite_text line.now)) text.old }
    ensures file_value { result.file ≡ length (rewrite_file line.now) }
    ensures file_after { file.new ≡ rewrite_file line.now
        ++ drop (length (rewrite_file line.now)) file.old }
    ensures counts { Counts result.text text.new }
    ensures counts_2 { Counts result.file file.new }
{
    if MOST_FILE < line.len() {
        return Rewriting {
            text: put_long(text),
            file: 0,
        };
    }
    match writer::rewrite(line, file) {
        Ok(n) => Rewriting { text: 0, file: n },
        Err(Unwritten::Refused(q)) => {
            let n = put_line(text, u32::from(q.number()));
            Rewriting { text: n, file: 0 }
        }
        Err(Unwritten::Short(_)) => Rewriting { text: 0, file: 0 },
    }
}
