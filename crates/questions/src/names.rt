// Questions 11, 12 and 13: what an operation names, by the configuration.
ghost use Rattle.std.specs.Prelude.{◌≡◌, not, ◌||◌, get_or};
ghost use Rattle.model.specs.Answers.{answer_of};
ghost use Rattle.model.specs.Base.{below};
ghost use Rattle.model.specs.Config.{from1to};
ghost use Rattle.model.specs.State.{most_partition};
ghost use Rattle.model.specs.Questions.{actor_exists, names_partition, item_exists, q11, changed, q12, item_fits, q13};
ghost use Rattle.questions.specs.Items.{apart, names_no};

use crate::lookups::{ask, from_1_to, names_partition};
use model::{
    Actor, Config, EXTERNAL_CLASS, Family, HARDCODED_KIND, Operation, Question, TRANSFER_KIND,
    byte_at,
};
use operation::columns::number_of;
use state::MOST_PARTITION;

// The driver or device s exists, where the code names one.
fn actor_exists(config: &Config, a: Actor, s: usize) -> bool
    ensures { result ≡ actor_exists config.now a s }
{
    match a {
        Actor::Driver => from_1_to(s, config.counts.drivers),
        Actor::Device => from_1_to(s, config.counts.devices),
        Actor::External => true,
    }
}

// Partition p is 1 to 63, where the code names one.
fn partition_named(f: Family, a: Actor, p: usize) -> bool
    ensures { result ≡ (not (names_partition f a) || from1to p most_partition) }
{
    !names_partition(f, a) || from_1_to(p, MOST_PARTITION)
}

// Item i names what exists.
fn item_exists(config: &Config, op: &Operation, f: Family, i: usize) -> bool
    ensures { result ≡ item_exists config.now op.now f i }
{
    let object = from_1_to(number_of(&op.objects, i), config.counts.objects);
    let v = number_of(&op.seconds, i);
    match f {
        Family::Write => {
            object && (number_of(&op.forms, i) == 1 || v <= usize::from(config.counts.values))
        }
        Family::Copy => object && (v == 0 || from_1_to(v, config.counts.objects)),
        Family::Activate | Family::Deactivate => object,
        _ => true,
    }
}

// Every item does.
fn items_exist(config: &Config, op: &Operation, f: Family) -> bool
    ensures { result ≡ below op.now.count (item_exists config.now op.now f) }
{
    (0..op.count).all(|i| item_exists(config, op, f, i))
}

// 11: every driver, device, object and value named exists, and every partition is 1 to 63.
fn all_exist(config: &Config, op: &Operation, f: Family, a: Actor) -> bool
    ensures { result ≡ q11 config.now op.now f a }
{
    actor_exists(config, a, op.subject)
        && partition_named(f, a, op.partition)
        && items_exist(config, op, f)
}

// The object that item i changes or moves.
fn changed(op: &Operation, f: Family, i: usize) -> usize
    ensures { result ≡ changed op.now f i }
{
    match f {
        Family::Write | Family::Activate | Family::Deactivate => number_of(&op.objects, i),
        Family::Copy => number_of(&op.seconds, i),
        _ => 0,
    }
}

// Item i changes no object that an item before it changes; destination 0 may be repeated.
fn item_apart(op: &Operation, f: Family, i: usize) -> bool
    ensures { result ≡ apart op.now f i }
{
    let x = changed(op, f, i);
    (0..i).all(|j| x == 0 || changed(op, f, j) != x)
}

// 12: no target, destination or listed object is named twice.
fn items_apart(op: &Operation, f: Family) -> bool
    ensures { result ≡ q12 op.now f }
{
    (0..op.count).all(|i| item_apart(op, f, i))
}

// The kinds of item i fit: of its object, with the owner's class, and of its second number, a destination or 0.
fn item_fits(config: &Config, op: &Operation, f: Family, i: usize) -> bool
    ensures { result ≡ item_fits config.now op.now f i }
{
    let o = number_of(&op.objects, i);
    let v = number_of(&op.seconds, i);
    let kind = byte_at(&config.objects.kind, o);
    let free = kind != HARDCODED_KIND;
    let other = byte_at(&config.objects.kind, v);
    match f {
        Family::Write => free && (kind == TRANSFER_KIND) == (number_of(&op.forms, i) == 0),
        Family::Copy => {
            free && (v == 0
                || other != HARDCODED_KIND && (kind == TRANSFER_KIND) == (other == TRANSFER_KIND))
        }
        Family::Activate | Family::Deactivate => {
            free && byte_at(&config.objects.class, o) == EXTERNAL_CLASS
        }
        _ => true,
    }
}

// 13: those of every item do.
fn items_fit(config: &Config, op: &Operation, f: Family) -> bool
    ensures { result ≡ q13 config.now op.now f }
{
    (0..op.count).all(|i| item_fits(config, op, f, i))
}

// The first of these questions that is answered with no, if one is.
pub fn judge_names(config: &Config, op: &Operation, f: Family, a: Actor) -> Result<(), Question>
    ensures { answer_of result ≡ names_no config.now op.now f a 0 }
{
    ask(Question::Named, all_exist(config, op, f, a))?;
    ask(Question::NamedOnce, items_apart(op, f))?;
    ask(Question::KindsFit, items_fit(config, op, f))
}
