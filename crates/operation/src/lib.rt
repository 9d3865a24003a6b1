// Operations taken apart (document 01: operation record; question 10). The definitions are `model`'s `Operation`.

#![tactic(auto)]

pub mod codes;
pub mod columns;
mod items;
mod reader;

ghost use Rattle.std.specs.Prelude.{◌≡◌};
ghost use Rattle.model.specs.Answers.{parsed_of};
ghost use Rattle.model.specs.Operation.{read_operation};

use crate::codes::arguments;
use crate::reader::Reader;
use model::Operation;

// The operation of the bytes `s`, read to the last one; none where they cannot be read as an operation (question 10).
pub fn read_operation(s: &[u8]) -> Option<Operation>
    ensures { parsed_of result ≡ read_operation s.now }
{
    let mut r = Reader::new(s);
    let code = r.number()?;
    let op = arguments(&mut r, code)?;
    if r.is_done() { Some(op) } else { None }
}
