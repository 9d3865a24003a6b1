// Question 18: each transfer of a device's write or copy is described now.
ghost use Rattle.std.specs.Prelude.{◌≡◌};
ghost use Rattle.model.specs.Questions.{transfer, q18};
ghost use Rattle.state.specs.Shown.{shown};
ghost use Rattle.described.specs.Offers.{Offered};
ghost use Rattle.described.specs.Today.{today};
ghost use Rattle.searches.specs.Ready.{Ready};
ghost use Rattle.searches.specs.Asking.{stores};

use described::offers::{Transfer, is_described};
use described::today::offered;
use green::rule::is_by_device;
use model::{Actor, Config, Family, OBJECT_SLOTS, Operation};
use operation::columns::number_of;
use state::area::Area;

// A write or a copy.
pub fn is_storing(f: Family) -> bool
    ensures { result ≡ stores f }
{
    matches!(f, Family::Write | Family::Copy)
}

// The transfers of item i are described, by what is offered to the device now. A copy reads its source and, unless the
// destination is 0, writes there what the source holds.
fn item_described(
    config: &Config,
    area: &Area,
    op: &Operation,
    f: Family,
    table: &[u64; OBJECT_SLOTS],
    i: usize,
) -> bool
    requires { Offered (today config.now (shown area.now)) op.now.subject table.now }
    ensures { result ≡ transfer config.now (shown area.now) op.now f i }
{
    let o = number_of(&op.objects, i);
    let v = number_of(&op.seconds, i);
    match f {
        Family::Write => is_described(config, table, o, Transfer::Write(v)),
        Family::Copy => {
            is_described(config, table, o, Transfer::Read)
                && (v == 0
                    || is_described(
                        config,
                        table,
                        v,
                        Transfer::Write(usize::from(area.value(o))),
                    ))
        }
        _ => true,
    }
}

// 18: in a device's write or copy each transfer is described now. What the device's entries offer is put down once, and
// each transfer is looked up in it.
pub fn are_described(config: &Config, area: &Area, op: &Operation, f: Family, a: Actor) -> bool
    requires { Ready config.now area.now.room area.now.bytes.now }
    ensures { result ≡ q18 config.now (shown area.now) op.now f a }
{
    if !is_by_device(a) || !is_storing(f) {
        return true;
    }
    let table = offered(config, area, op.subject);
    (0..op.count).all(|i| item_described(config, area, op, f, &table, i))
}
