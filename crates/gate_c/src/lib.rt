// What a C host links: the six functions of `gate` under their C names, with the same contracts.

#![tactic(auto)]

ghost use Rattle.std.specs.Prelude.{◌≡◌, length};
ghost use Rattle.model.specs.ConfigFile.{load};
ghost use Rattle.model.specs.Gate.{state_bytes, first_bad_in};
ghost use Rattle.model.specs.Programs.{Made, Operated};
ghost use Rattle.model.specs.Rewriting.{coded, rewrite_answer, rewrite_area};

// Questions 1 to 6 of a configuration file: 0, or the number of the first that is answered with no.
#[unsafe(no_mangle)]
pub extern "C" fn gate_load_check(line: &[u8]) -> u32
    ensures { result ≡ (load line.now).answer }
{
    gate::gate_load_check(line)
}

// How long the state area of a line is (request N2). The answer has a kind: done with the length, or refused with the
// question, 1 to 6.
#[unsafe(no_mangle)]
pub extern "C" fn gate_state_bytes(line: &[u8]) -> u64
    ensures { result ≡ coded (state_bytes line.now) }
{
    gate::gate_state_bytes(line)
}

// Which object record of a state area is the first that breaks a rule of question 9 (request N3). The answer has a
// kind: done with its number, from 1, or 0 if none does; or refused with the question, 1 to 6 for the file, 7 for the
// area's length.
#[unsafe(no_mangle)]
pub extern "C" fn gate_first_bad(line: &[u8], state: &[u8]) -> u64
    ensures { result ≡ coded (first_bad_in line.now state.now) }
{
    gate::gate_first_bad(line, state)
}

// A fresh state in the area lent: questions 1 to 6, then 7. A refusal leaves the area as it was.
#[unsafe(no_mangle)]
pub extern "C" fn gate_fresh(line: &[u8], state: &mut [u8]) -> u32
    ensures { Made line.now state.old result state.new }
{
    gate::gate_fresh(line, state)
}

// An operation (document 01: operation record) on the state area lent: questions 1 to 16, 23, 17 to 20, then 22 and 21.
// At 0 it is carried out, and a read's contents stand in the answer area. A refusal leaves both areas as they were.
#[unsafe(no_mangle)]
pub extern "C" fn gate_operate(line: &[u8], state: &mut [u8], rec: &[u8], answer: &mut [u8]) -> u32
    ensures { Operated line.now state.old rec.now answer.old result
        state.new answer.new }
{
    gate::gate_operate(line, state, rec, answer)
}

// Loads a file and writes it into the area lent (request N1). The answer has a kind: done with the length written,
// refused with the question, 1 to 6, or too short with the length needed; the last two leave the area as it was.
#[unsafe(no_mangle)]
pub extern "C" fn gate_rewrite(line: &[u8], out: &mut [u8]) -> u64
    ensures value { result ≡ coded (rewrite_answer line.now (length out.old)) }
    ensures out_after { out.new ≡ rewrite_area line.now out.old }
{
    gate::gate_rewrite(line, out)
}
