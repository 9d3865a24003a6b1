// One operation call whose configuration was accepted: questions 7 to 23, and then the effect. `room` is how many
// object records the state area has.
ghost use Rattle.std.specs.Prelude.{◌≡◌, ◌≤◌, cond, ◌||◌};
ghost use Rattle.model.specs.Answers.{number_of, answer_of};
ghost use Rattle.model.specs.Config.{most_objects};
ghost use Rattle.model.specs.Gate.{judged};
ghost use Rattle.state.specs.Shown.{shown};
ghost use Rattle.searches.specs.Ready.{Accepted, Ready, Complete};
ghost use Rattle.searches.specs.Asking.{stores, leaves, enters};
ghost use Rattle.gate.specs.Carried.{carried};

use crate::zones::is_ruled;
use effect::{ANSWER_BYTES, carry_out};
use green::rule::keeps_rule;
use model::{Actor, Config, Family, Operation, Question};
use operation::codes::{actor_of, family_of};
use operation::read_operation;
use searches::leaving::{is_leaving, stays_unnamed};
use searches::next::{follows_confined, is_entering};
use searches::transfers::{are_described, is_storing};
use state::area::Area;
use state::formed::is_formed;
use state::look::right_length;

// Questions 18 to 22 are about writes, copies, deactivations and devices that are brought in.
fn is_searched(f: Family, a: Actor) -> bool
    ensures { result ≡ (stores f || leaves f || enters f a) }
{
    is_storing(f) | is_leaving(f) | is_entering(f, a)
}

// The question by which an operation is refused for the state that would follow.
fn next_question(f: Family, a: Actor) -> Question
    ensures { number_of result ≡ cond (enters f a) 21 19 }
{
    if is_entering(f, a) {
        Question::EntersConfined
    } else {
        Question::Confined
    }
}

// Questions 11 to 23. 22 comes before 19 and 20, which are not put where it says no.
fn judge_all(config: &Config, area: &Area, op: &Operation) -> Result<(), Question>
    requires ready { Ready config.now area.now.room area.now.bytes.now }
    requires complete { Complete op.now }
    ensures { answer_of result ≡ judged config.now op.now (shown area.now) }
{
    questions::judge(config, area, op)?;
    let f = family_of(op.code);
    let a = actor_of(op.code);
    if !is_searched(f, a) {
        return Ok(());
    }
    if !are_described(config, area, op, f, a) {
        return Err(Question::Described);
    }
    if is_ruled(area, op, f, a) {
        if !keeps_rule(config, area, op, f, a) {
            return Err(Question::KeepsGreen);
        }
    }
    if !follows_confined(config, area, op, f, a) {
        return Err(next_question(f, a));
    }
    if is_leaving(f) {
        if !stays_unnamed(config, area, op, f, a) {
            return Err(Question::Unnamed);
        }
    }
    Ok(())
}

// Both areas change where no question is answered with no, and then only.
pub fn operate_on(
    config: &Config,
    room: usize,
    state: &mut [u8],
    rec: &[u8],
    answer: &mut [u8],
) -> Result<(), Question>
    requires accepted { Accepted config.now }
    requires objects_le_room { config.now.counts.objects ≤ room }
    requires room_le_most_objects { room ≤ most_objects }
    ensures value { answer_of result ≡ (carried room config.now state.old rec.now answer.old).0 }
    ensures state_after { state.new ≡ (carried room config.now state.old rec.now answer.old).1 }
    ensures answer_after { answer.new ≡ (carried room config.now state.old rec.now answer.old).2 }
{
    if !right_length(&state[..], room) {
        return Err(Question::StateLength);
    }
    if answer.len() < ANSWER_BYTES {
        return Err(Question::AnswerRoom);
    }
    let area = Area {
        bytes: &state[..],
        room,
    };
    if !is_formed(&area, config) {
        return Err(Question::WellFormed);
    }
    let Some(op) = read_operation(rec) else {
        return Err(Question::Readable);
    };
    judge_all(config, &area, &op)?;
    carry_out(state, room, config, &op, answer);
    Ok(())
}
