// The writer of configuration files (request N1): the questions that are put to a configuration before it is written,
// its file in an area that is lent, and a file that is loaded and written again.

#![tactic(auto)]

mod put;
mod ranges;

ghost use Rattle.std.specs.Prelude.{◌≡◌, ◌<◌, length};
ghost use Rattle.model.specs.Answers.{answer_of, written_of};
ghost use Rattle.model.specs.ConfigWrite.{write_question, write_answer, write_area};
ghost use Rattle.model.specs.Written.{Refused};
ghost use Rattle.model.specs.Rewriting.{kind_unit, number_of_answer, coded, rewrite_answer, rewrite_area};

use model::{Config, Question, Unwritten};
use put::put_file;
use ranges::in_ranges;

// What a kind of answer counts (N1, 'For C'), and the kinds other than done.
const KIND_UNIT: u64 = 4294967296;

const REFUSED_KIND: u64 = 1;

const SHORT_KIND: u64 = 2;

// The first of the questions 3, 5 and 6 that a configuration answers with no.
#[tactic(auto, using(crate::proofs::Writing::ask_laws))]
fn write_question(config: &Config) -> Result<(), Question>
    ensures { answer_of result ≡ write_question config.now }
{
    if !in_ranges(config) {
        return Err(Question::InRange);
    }
    if !sound::is_paired(config) {
        return Err(Question::Paired);
    }
    if !sound::is_restrained(config) {
        return Err(Question::Restrained);
    }
    Ok(())
}

// Puts down the file of a configuration and answers its length, if questions 3, 5 and 6 let it by and the area is long
// enough; otherwise the area stays as it was. The length is found by putting the file down where there is no room.
pub fn write(config: &Config, area: &mut [u8]) -> Result<usize, Unwritten>
    ensures value { written_of result ≡ write_answer config.now (length area.old) }
    ensures area_after { area.new ≡ write_area config.now area.old }
{
    write_question(config).map_err(Unwritten::Refused)?;
    let n = put_file(&mut [], config);
    if area.len() < n {
        return Err(Unwritten::Short(n));
    }
    put_file(area, config);
    Ok(n)
}

// Loads a file and writes it.
pub fn rewrite(line: &[u8], out: &mut [u8]) -> Result<usize, Unwritten>
    ensures value { written_of result ≡ rewrite_answer line.now (length out.old) }
    ensures out_after { out.new ≡ rewrite_area line.now out.old }
{
    let config = config::load(line).map_err(Unwritten::Refused)?;
    write(&config, out)
}

// A refusal by the question of a number as a number that C takes apart again.
#[tactic(auto, using(crate::proofs::Writing::code_laws))]
pub fn refusal_code(question: u8) -> u64
    ensures { result ≡ coded (Refused question) }
{
    REFUSED_KIND * KIND_UNIT + u64::from(question)
}

// An answer as a number that C takes apart again.
#[tactic(auto, using(crate::proofs::Writing::code_laws))]
pub fn code_of(w: Result<usize, Unwritten>) -> u64
    requires { number_of_answer (written_of w) < kind_unit }
    ensures { result ≡ coded (written_of w) }
{
    match w {
        Ok(n) => n as u64,
        Err(Unwritten::Refused(q)) => refusal_code(q.number()),
        Err(Unwritten::Short(n)) => SHORT_KIND * KIND_UNIT + n as u64,
    }
}
