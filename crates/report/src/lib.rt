// The office program's text, worked out over slices: a configuration file and a session in, rows out.

#![tactic(auto)]

pub mod rewriting;
mod rows;

ghost use Rattle.std.specs.Prelude.{◌≡◌, ◌++◌, length, drop};
ghost use Rattle.model.specs.ConfigFile.{load};
ghost use Rattle.model.specs.Office.{blank_area, judged_text, reported};
ghost use Rattle.page.specs.Page.{Put, Counts};

use effect::ANSWER_BYTES;
use page::{put_line, put_long};
use rows::put_rows;
use state::AREA_BYTES;

// How long `line.bin` and `session.bin` are at most.
pub const MOST_FILE: usize = 4096;

pub const MOST_SESSION: usize = 32768;

// How long the text is at most: a row of nine bytes for each byte of a session, and `cut`.
pub const MOST_TEXT: usize = 9 * MOST_SESSION + 4;

// The rows of a session from a fresh state on, which is made in the area lent.
fn put_from_fresh(line: &[u8], session: &[u8], area: &mut [u8], out: &mut [u8]) -> usize
    requires { area.old ≡ blank_area line.now }
    ensures { Put (judged_text 0 line.now session.now) 0 out.old result out.new }
{
    let mut answer = [0u8; ANSWER_BYTES];
    gate::gate_fresh(line, area);
    put_rows(line, session, area, &mut answer, out)
}

// The rows of a session of an accepted file. Its area has the length that the line needs; the answer that tells it has
// kind 0, so that it is the length itself.
fn put_session(line: &[u8], session: &[u8], out: &mut [u8]) -> usize
    requires { (load line.now).answer ≡ 0 }
    ensures { Put (judged_text 0 line.now session.now) 0 out.old result out.new }
{
    let n = gate::gate_state_bytes(line) as usize;
    let mut area = [0u8; AREA_BYTES];
    put_from_fresh(line, session, &mut area[..n], out)
}

// Puts down what the office program writes for these two files, as far as there is room, and answers how many bytes
// that are. A file is given with at most one byte more than it may have.
fn report(line: &[u8], session: &[u8], out: &mut [u8]) -> usize
    ensures { Put (reported line.now session.now) 0 out.old result out.new }
{
    if MOST_FILE < line.len() || MOST_SESSION < session.len() {
        return put_long(out);
    }
    let refusal = gate::gate_load_check(line);
    if refusal != 0 {
        return put_line(out, refusal);
    }
    put_session(line, session, out)
}

// The same in an area that has room for every text: the whole of it, and every byte behind it as it was.
pub fn report_whole(line: &[u8], session: &[u8], out: &mut [u8; MOST_TEXT]) -> usize
    ensures value { result ≡ length (reported line.now session.now) }
    ensures out_after { out.new ≡ reported line.now session.now
        ++ drop (length (reported line.now session.now)) out.old }
    ensures counts { Counts result out.new }
{
    report(line, session, out)
}
