// Items written, and contents copied between objects. Contents are sixteen bytes by value (`[u8; CONTENT_BYTES]`): all
// are read out before anything is stored, and then copied to their destinations.
ghost use Rattle.std.specs.Prelude.{◌≡◌, ◌++◌, ◌*◌, ◌≤◌, ◌<◌, length, drop};
ghost use Rattle.model.specs.State.{content_bytes, area_length, view, layout};
ghost use Rattle.model.specs.Operation.{most_items, second_at, form_at};
ghost use Rattle.model.specs.Effect.{answered};
ghost use Rattle.model.specs.declared.Family.TheVariants.{Copy};
ghost use Rattle.state.specs.Shown.{shown};
ghost use Rattle.effect.specs.Transfers.{item_of, Small, written, sources, restored, copied};

use model::{CONTENT_BYTES, Operation};
use operation::columns::number_of;
use state::area::Area;
use state::bytes::{load, save, value_bytes};
use state::change::store;

// The bytes that item i brings: those of a value number (form 0), or sixteen raw ones.
fn item(op: &Operation, i: usize) -> [u8; CONTENT_BYTES]
    requires low { i < most_items }
    requires small { form_at op.now i ≡ 0 → second_at op.now i < 256 }
    ensures { result ≡ item_of op.now i }
{
    if number_of(&op.forms, i) == 0 {
        value_bytes(number_of(&op.seconds, i) as u8)
    } else {
        load(&op.raw, CONTENT_BYTES * i)
    }
}

// Codes 1 and 2: each item is stored at its object, in order.
pub(crate) fn write_items(area: &mut [u8], room: usize, op: &Operation)
    requires area_len { (length area.old ≡ area_length room) × (op.now.count ≤ most_items) }
    requires small { Small op.now.seconds op.now.forms op.now.count }
    ensures { area.new ≡ layout (written op.now op.now.count (view room area.old)) }
{
    for i in 0..op.count {
        store(area, room, number_of(&op.objects, i), item(op, i));
    }
}

// Contents read out: those of the sources go to the answer area, in order. No object is stored to.
fn read_out(area: &Area, op: &Operation, answer: &mut [u8])
    requires { content_bytes * op.now.count ≤ length answer.old }
    ensures { answer.new ≡ sources op.now (shown area.now) op.now.count
        ++ drop (content_bytes * op.now.count) answer.old }
{
    for i in 0..op.count {
        let c = area.content(number_of(&op.objects, i));
        save(answer, CONTENT_BYTES * i, &c);
    }
}

// Contents copied: what was read out to the answer area is stored at the destinations.
fn store_copies(area: &mut [u8], room: usize, op: &Operation, answer: &[u8])
    requires { (length area.old ≡ area_length room)
        × (content_bytes * op.now.count ≤ length answer.now) }
    ensures { area.new
        ≡ layout (restored op.now.seconds answer.now op.now.count (view room area.old)) }
{
    for i in 0..op.count {
        let c = load(answer, CONTENT_BYTES * i);
        store(area, room, number_of(&op.seconds, i), c);
    }
}

// Codes 3 and 4: contents are copied between objects. All sources are read out, to the answer area, before anything is
// stored; then each is stored at its destination.
pub(crate) fn copy_contents(area: &mut [u8], room: usize, op: &Operation, answer: &mut [u8])
    requires { (length area.old ≡ area_length room)
        × (content_bytes * op.now.count ≤ length answer.old) }
    ensures area_after { area.new ≡ layout (copied op.now (view room area.old)) }
    ensures answer_after { answer.new ≡ answered op.now Copy (view room area.old) answer.old }
{
    read_out(&Area { bytes: area, room }, op, answer);
    store_copies(area, room, op, answer);
}
