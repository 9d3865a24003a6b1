// What the questions share: a number's range, whether a code names a partition, and the answer to a question.
ghost use Rattle.std.specs.Prelude.{◌≡◌};
ghost use Rattle.model.specs.Answers.{number_of, answer_of};
ghost use Rattle.model.specs.Config.{from1to};
ghost use Rattle.model.specs.Questions.{ask, names_partition};

use model::{Actor, Family, Question};

// A question: a refusal where the answer is no.
pub(crate) fn ask(q: Question, yes: bool) -> Result<(), Question>
    ensures { answer_of result ≡ ask (number_of q) yes 0 }
{
    if yes { Ok(()) } else { Err(q) }
}

// Whether n is from 1 to high.
pub(crate) fn from_1_to(n: usize, high: u8) -> bool
    ensures { result ≡ from1to n high }
{
    (1..=usize::from(high)).contains(&n)
}

// Whether a code of this family and actor names a partition.
pub(crate) fn names_partition(f: Family, a: Actor) -> bool
    ensures { result ≡ names_partition f a }
{
    match f {
        Family::Create | Family::Destroy | Family::Activate => true,
        Family::Deactivate => matches!(a, Actor::External),
        _ => false,
    }
}
