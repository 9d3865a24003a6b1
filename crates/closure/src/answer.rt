// Questions 19 to 21 over a configuration and a state area.
ghost use Rattle.std.specs.Prelude.{◌≡◌, Bool, ℕ, eqb, get_or};
ghost use Rattle.model.specs.Closure.{confined, unnamed};
ghost use Rattle.model.specs.Questions.{ask};
ghost use Rattle.model.specs.declared.Devices.{Devices};
ghost use Rattle.state.specs.Shown.{shown};
ghost use Rattle.scene.specs.Scene.{Searchable};
ghost use Rattle.scene.specs.Devices.{with_devices};
ghost use Rattle.closure.specs.Search.{Fines, Answers, closure_of, finding_means, IsCrossing, IsNaming};

use crate::fine;
use crate::search::Finding;
use crate::spread::Found;
use model::{Config, OBJECT_SLOTS};
use state::area::Area;

// An entry in the closure that its device may not have; `fine` has the devices that may name an object.
fn answer(config: &Config, area: &Area, fine: &[u64; OBJECT_SLOTS]) -> Option<Finding>
    requires { Searchable config.now area.now.room (shown area.now) }
    ensures { (bad : ℕ → ℕ → Bool) → Fines bad config.now fine.now
        → Answers (closure_of config.now (shown area.now)) (λ c e. bad c e.object) result }
{
    let mut found = Found::begin(config, area);
    match found.settle(config, fine) {
        Ok(()) => None,
        Err(strange) => found.find(config, fine, strange),
    }
}

// Questions 19 and 21: an entry in the closure that crosses, or none. The question q is the caller's. The answer is
// right whatever the devices' hardcoded values and serials are.
pub fn crossing(config: &Config, area: &Area) -> Option<Finding>
    requires { Searchable config.now area.now.room (shown area.now) }
    ensures result_value { (q : ℕ) → (finding_means q result).0 ≡ ask q (confined config.now (shown area.now)) 0 }
    ensures crossing { (q : ℕ) → IsCrossing config.now (shown area.now) (finding_means q result) }
    ensures result_value_any { (d : Devices) (q : ℕ) → (finding_means q result).0
        ≡ ask q (confined (with_devices d config.now) (shown area.now)) 0 }
    ensures crossing_any { (d : Devices) (q : ℕ)
        → IsCrossing (with_devices d config.now) (shown area.now) (finding_means q result) }
{
    answer(config, area, &fine::all_inside(config, area))
}

// Question 20: an entry in the closure, of a device but the one left out, that names an object concerned, or none. The
// objects concerned have a 1 in the table. The answer is right whatever the devices' hardcoded values and serials are.
pub fn naming(
    config: &Config,
    area: &Area,
    concerned: &[u8; OBJECT_SLOTS],
    but: usize,
) -> Option<Finding>
    requires { Searchable config.now area.now.room (shown area.now) }
    ensures result_value { (finding_means 20 result).0
        ≡ ask 20 (unnamed config.now (shown area.now) (λ o. eqb (get_or concerned.now o 0) 1) but) 0 }
    ensures naming { IsNaming config.now (shown area.now) (λ o. eqb (get_or concerned.now o 0) 1) but
        (finding_means 20 result) }
    ensures result_value_any { (d : Devices) → (finding_means 20 result).0 ≡ ask 20 (unnamed (with_devices d config.now)
        (shown area.now) (λ o. eqb (get_or concerned.now o 0) 1) but) 0 }
    ensures naming_any { (d : Devices) → IsNaming (with_devices d config.now) (shown area.now)
        (λ o. eqb (get_or concerned.now o 0) 1) but (finding_means 20 result) }
{
    answer(config, area, &fine::all_unconcerned(config, concerned, but))
}
