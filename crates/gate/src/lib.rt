// What a C host calls, by the crate gate_c: numbers and byte areas in, a number out.

#![tactic(auto)]

mod call;
mod zones;

ghost use Rattle.std.specs.Prelude.{◌≡◌, length};
ghost use Rattle.model.specs.Answers.{answer_of, written_of};
ghost use Rattle.model.specs.ConfigFile.{load};
ghost use Rattle.model.specs.Gate.{state_bytes, first_bad_in};
ghost use Rattle.model.specs.Programs.{Made, Operated};
ghost use Rattle.model.specs.Rewriting.{coded, rewrite_answer, rewrite_area};

use model::{Question, Unwritten};
use state::area::Area;
use state::look::right_length;
use state::room::{area_length, room_for};

// What C is told of a call: 0, or the number of the first question that is answered with no.
fn number(answer: Result<(), Question>) -> u32
    ensures { result ≡ answer_of answer }
{
    match answer {
        Ok(()) => 0,
        Err(question) => question.number() as u32,
    }
}

// Questions 1 to 6 of a configuration file: 0, or the number of the first that is answered with no.
pub fn gate_load_check(line: &[u8]) -> u32
    ensures { result ≡ (load line.now).answer }
{
    match config::load(line) {
        Ok(_) => 0,
        Err(question) => question.number() as u32,
    }
}

// How long the state area of a line is.
fn state_bytes(line: &[u8]) -> Result<usize, Unwritten>
    ensures { written_of result ≡ state_bytes line.now }
{
    let config = config::load(line)?;
    Ok(area_length(room_for(config.counts.objects)))
}

// How long the state area of a line is (request N2). The answer has a kind: done with the length, or refused with the
// question, 1 to 6.
pub fn gate_state_bytes(line: &[u8]) -> u64
    ensures { result ≡ coded (state_bytes line.now) }
{
    writer::code_of(state_bytes(line))
}

// The number of the first object record that breaks a rule of question 9, or 0.
fn first_bad(line: &[u8], state: &[u8]) -> Result<usize, Unwritten>
    ensures { written_of result ≡ first_bad_in line.now state.now }
{
    let config = config::load(line)?;
    let room = room_for(config.counts.objects);
    if !right_length(state, room) {
        return Err(Unwritten::Refused(Question::StateLength));
    }
    Ok(state::walk::first_bad(&Area { bytes: state, room }, &config))
}

// Which object record of a state area is the first that breaks a rule of question 9 (request N3). The answer has a
// kind: done with its number, from 1, or 0 if none does; or refused with the question, 1 to 6 for the file, 7 for the
// area's length.
pub fn gate_first_bad(line: &[u8], state: &[u8]) -> u64
    ensures { result ≡ coded (first_bad_in line.now state.now) }
{
    writer::code_of(first_bad(line, state))
}

// A fresh state in the area lent.
fn make(line: &[u8], state: &mut [u8]) -> Result<(), Question>
    ensures { Made line.now state.old (answer_of result) state.new }
{
    let config = config::load(line)?;
    let room = room_for(config.counts.objects);
    if !right_length(&state[..], room) {
        return Err(Question::StateLength);
    }
    state::fresh::make_fresh(state, room, &config);
    Ok(())
}

// A fresh state in the area lent: questions 1 to 6, then 7. A refusal leaves the area as it was.
pub fn gate_fresh(line: &[u8], state: &mut [u8]) -> u32
    ensures { Made line.now state.old result state.new }
{
    number(make(line, state))
}

// An operation on the state area lent.
fn operate(line: &[u8], state: &mut [u8], rec: &[u8], answer: &mut [u8]) -> Result<(), Question>
    ensures { Operated line.now state.old rec.now answer.old (answer_of result) state.new answer.new }
{
    let config = config::load(line)?;
    call::operate_on(&config, room_for(config.counts.objects), state, rec, answer)
}

// An operation (document 01: operation record) on the state area lent: questions 1 to 16, 23, 17 to 20, then 22 and 21.
// At 0 it is carried out, and a read's contents stand in the answer area. A refusal leaves both areas as they were.
pub fn gate_operate(line: &[u8], state: &mut [u8], rec: &[u8], answer: &mut [u8]) -> u32
    ensures { Operated line.now state.old rec.now answer.old result
        state.new answer.new }
{
    number(operate(line, state, rec, answer))
}

// Loads a file and writes it into the area lent (request N1). The answer has a kind: done with the length written,
// refused with the question, 1 to 6, or too short with the length needed; the last two leave the area as it was.
pub fn gate_rewrite(line: &[u8], out: &mut [u8]) -> u64
    ensures value { result ≡ coded (rewrite_answer line.now (length out.old)) }
    ensures out_after { out.new ≡ rewrite_area line.now out.old }
{
    writer::code_of(writer::rewrite(line, out))
}
