// Questions 11 to 17 and 23 of an operation, over a configuration and a state area.

#![tactic(auto)]

mod lookups;
mod names;
mod places;

ghost use Rattle.std.specs.Prelude.{◌≡◌};
ghost use Rattle.model.specs.Answers.{answer_of};
ghost use Rattle.model.specs.Operation.{family_of, actor_of};
ghost use Rattle.model.specs.declared.Config.{Config};
ghost use Rattle.state.specs.Shown.{shown};
ghost use Rattle.questions.specs.Items.{first_no};

use model::{Config, Operation, Question};
use operation::codes;
use state::area::Area;

// The first of the questions 11 to 17 and 23 that is answered with no, if one is. Of the configuration they look at the
// counts, kinds and classes: this is the answer by any that has these.
pub fn judge(config: &Config, area: &Area, op: &Operation) -> Result<(), Question>
    ensures value { answer_of result ≡ first_no config.now (shown area.now) op.now
        (family_of op.now.code) (actor_of op.now.code) 0 }
    ensures by_columns { (m : Config) → m.counts ≡ config.now.counts
        → m.objects.kind ≡ config.now.objects.kind → m.objects.class ≡ config.now.objects.class
        → answer_of result ≡ first_no m (shown area.now) op.now
        (family_of op.now.code) (actor_of op.now.code) 0 }
{
    let f = codes::family_of(op.code);
    let a = codes::actor_of(op.code);
    names::judge_names(config, op, f, a)?;
    places::judge_places(area, op, f, a)
}
