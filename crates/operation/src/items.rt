// Items, pairs and listed objects, each read into an operation.
ghost use Rattle.std.specs.Prelude.{◌≡◌, ◌<◌, ◌≤◌, eqb};
ghost use Rattle.model.specs.Number.{most_number};
ghost use Rattle.model.specs.Operation.{most_items, with_head, with_item};
ghost use Rattle.model.specs.Operation.{raw_item, payload, item, pair, object};
ghost use Rattle.operation.specs.Elements.{element};
ghost use Rattle.operation.specs.Reader.{read_on};

use crate::reader::Reader;
use model::{CONTENT_BYTES, MOST_ITEMS, Operation};

// What an operation has a count of: items of a write, pairs of a read, objects of a list.
#[derive(Clone, Copy)]
pub enum Element {
    Item,
    Pair,
    Object,
}

// An operation without items.
#[tactic(auto, unfolding(model::specs::Operation::with_head))]
pub fn with_head(code: usize, subject: usize, partition: usize, count: usize) -> Operation
    ensures { result ≡ with_head code subject partition count }
{
    Operation {
        code,
        subject,
        partition,
        count,
        objects: [0; MOST_ITEMS],
        seconds: [0; MOST_ITEMS],
        forms: [0; MOST_ITEMS],
        raw: [0; CONTENT_BYTES * MOST_ITEMS],
    }
}

// The numbers of item i.
#[tactic(auto, unfolding(model::specs::Operation::with_item))]
fn put_item(op: &mut Operation, i: usize, object: usize, second: usize, form: u32)
    requires { (i < most_items) × (object ≤ most_number) × (second ≤ most_number) }
    ensures { op.new ≡ with_item op.old i object second form }
{
    op.objects[i] = object as u32;
    op.seconds[i] = second as u32;
    op.forms[i] = form;
}

// Item i with sixteen raw bytes.
fn read_raw(r: &mut Reader, i: usize, object: usize, op: &mut Operation) -> Option<()>
    requires { (i < most_items) × (object ≤ most_number) }
    ensures value { read_on result r.new.at op.new ≡ raw_item r.old.src.now i object r.old.at op.old }
    ensures src { r.new.src ≡ r.old.src }
{
    let bytes = r.raw()?;
    put_item(op, i, object, 0, 1);
    let to = CONTENT_BYTES * i;
    op.raw[to..to + CONTENT_BYTES].copy_from_slice(bytes);
    Some(())
}

// What follows the form of item i: a value number or sixteen raw bytes.
#[tactic(auto, unfolding(model::specs::Operation::payload_by, model::specs::Operation::taken))]
fn read_payload(
    r: &mut Reader,
    i: usize,
    object: usize,
    form: usize,
    op: &mut Operation,
) -> Option<()>
    requires { (i < most_items) × (object ≤ most_number) }
    ensures value { read_on result r.new.at op.new
        ≡ payload (eqb form 0) (eqb form 1) r.old.src.now i object r.old.at op.old }
    ensures src { r.new.src ≡ r.old.src }
{
    match form {
        0 => {
            let value = r.number()?;
            put_item(op, i, object, value, 0);
            Some(())
        }
        1 => read_raw(r, i, object, op),
        _ => None,
    }
}

// Item i of a write: object, form, and a value number or sixteen raw bytes.
#[tactic(auto, unfolding(model::specs::Operation::item_by, model::specs::Operation::taken))]
fn read_item(r: &mut Reader, i: usize, op: &mut Operation) -> Option<()>
    requires { i < most_items }
    ensures value { read_on result r.new.at op.new ≡ item r.old.src.now i r.old.at op.old }
    ensures src { r.new.src ≡ r.old.src }
{
    let object = r.number()?;
    let form = r.number()?;
    read_payload(r, i, object, form, op)
}

// Pair i of a read: source, destination or 0.
#[tactic(auto, unfolding(model::specs::Operation::pair_by, model::specs::Operation::taken))]
fn read_pair(r: &mut Reader, i: usize, op: &mut Operation) -> Option<()>
    requires { i < most_items }
    ensures value { read_on result r.new.at op.new ≡ pair r.old.src.now i r.old.at op.old }
    ensures src { r.new.src ≡ r.old.src }
{
    let source = r.number()?;
    let destination = r.number()?;
    put_item(op, i, source, destination, 0);
    Some(())
}

// Object i of a list.
#[tactic(auto, unfolding(model::specs::Operation::object_by, model::specs::Operation::taken))]
fn read_object(r: &mut Reader, i: usize, op: &mut Operation) -> Option<()>
    requires { i < most_items }
    ensures value { read_on result r.new.at op.new ≡ object r.old.src.now i r.old.at op.old }
    ensures src { r.new.src ≡ r.old.src }
{
    let object = r.number()?;
    put_item(op, i, object, 0, 0);
    Some(())
}

// Element i.
pub fn read_element(r: &mut Reader, e: Element, i: usize, op: &mut Operation) -> Option<()>
    requires { i < most_items }
    ensures value { read_on result r.new.at op.new ≡ element e r.old.src.now i r.old.at op.old }
    ensures src { r.new.src ≡ r.old.src }
{
    match e {
        Element::Item => read_item(r, i, op),
        Element::Pair => read_pair(r, i, op),
        Element::Object => read_object(r, i, op),
    }
}
