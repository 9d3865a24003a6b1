// What follows the code of an operation, for each family of codes; and a code's family and actor.
ghost use Rattle.std.specs.Prelude.{◌≡◌};
ghost use Rattle.model.specs.Operation.{family_of, actor_of};
ghost use Rattle.model.specs.Operation.{partitioning, activating, deactivating, after_code};
ghost use Rattle.operation.specs.Elements.{before_elements, counted};
ghost use Rattle.operation.specs.Reader.{read_to};

use crate::items::{Element, read_element, with_head};
use crate::reader::Reader;
use model::{Actor, Family, Operation};

// What a code does. (Question 10 lets no code 0 by.)
pub fn family_of(code: usize) -> Family
    ensures { result ≡ family_of code }
{
    match code {
        0..=2 => Family::Write,
        3..=4 => Family::Copy,
        5 | 13 => Family::Create,
        6 => Family::Destroy,
        7..=9 => Family::Activate,
        14 => Family::Lock,
        15 => Family::Unlock,
        _ => Family::Deactivate,
    }
}

// To whom a code does it, or by whom.
pub fn actor_of(code: usize) -> Actor
    ensures { result ≡ actor_of code }
{
    match code {
        1 | 3 | 7 | 10 => Actor::Driver,
        2 | 4 | 8 | 11 | 14 | 15 => Actor::Device,
        _ => Actor::External,
    }
}

// The operation before its n elements. The number x before the count is the driver or device that writes or reads, or
// the partition of a list.
fn before_elements(e: Element, code: usize, x: usize, n: usize) -> Operation
    ensures { result ≡ before_elements e code x n }
{
    match e {
        Element::Item | Element::Pair => with_head(code, x, 0, n),
        Element::Object => with_head(code, 0, x, n),
    }
}

// Codes 1 and 2, a write, 3 and 4, a read, 9 and 12, external objects: a number, a count, the elements.
#[tactic(auto, using(crate::proofs::Parsing::turns_laws), unfolding(model::specs::Operation::taken))]
fn read_counted(r: &mut Reader, e: Element, code: usize) -> Option<Operation>
    ensures value { read_to result r.new.at ≡ counted e code r.old.src.now r.old.at }
    ensures src { r.new.src ≡ r.old.src }
{
    let x = r.number()?;
    let n = r.count()?;
    let mut op = before_elements(e, code, x, n);
    for i in 0..n {
        read_element(r, e, i, &mut op)?;
    }
    Some(op)
}

// Codes 5, 6 and 13: the partition to create or destroy.
#[tactic(auto, unfolding(model::specs::Operation::partitioning_by, model::specs::Operation::taken))]
fn read_partition(r: &mut Reader, code: usize) -> Option<Operation>
    ensures value { read_to result r.new.at ≡ partitioning code r.old.src.now r.old.at }
    ensures src { r.new.src ≡ r.old.src }
{
    let partition = r.number()?;
    Some(with_head(code, 0, partition, 0))
}

// Codes 7 and 8, activation: driver or device, partition.
#[tactic(auto, unfolding(model::specs::Operation::activating_by, model::specs::Operation::taken))]
fn read_activation(r: &mut Reader, code: usize) -> Option<Operation>
    ensures value { read_to result r.new.at ≡ activating code r.old.src.now r.old.at }
    ensures src { r.new.src ≡ r.old.src }
{
    let subject = r.number()?;
    let partition = r.number()?;
    Some(with_head(code, subject, partition, 0))
}

// Codes 10 and 11, deactivation: driver or device. Codes 14 and 15, locking and unlocking: device.
#[tactic(auto, unfolding(model::specs::Operation::deactivating_by, model::specs::Operation::taken))]
fn read_deactivation(r: &mut Reader, code: usize) -> Option<Operation>
    ensures value { read_to result r.new.at ≡ deactivating code r.old.src.now r.old.at }
    ensures src { r.new.src ≡ r.old.src }
{
    let subject = r.number()?;
    Some(with_head(code, subject, 0, 0))
}

// What follows the code; an unknown one is refused.
#[tactic(auto, unfolding(model::specs::Operation::after_code_by, model::specs::Operation::only))]
pub(crate) fn arguments(r: &mut Reader, code: usize) -> Option<Operation>
    ensures value { read_to result r.new.at ≡ after_code r.old.src.now code r.old.at }
    ensures src { r.new.src ≡ r.old.src }
{
    match code {
        1..=2 => read_counted(r, Element::Item, code),
        3..=4 => read_counted(r, Element::Pair, code),
        5..=6 | 13 => read_partition(r, code),
        7..=8 => read_activation(r, code),
        9 | 12 => read_counted(r, Element::Object, code),
        10..=11 | 14..=15 => read_deactivation(r, code),
        _ => None,
    }
}
