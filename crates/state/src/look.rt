// Question 7, and which statuses count as existing.
ghost use Rattle.std.specs.Prelude.{◌≡◌, ◌≤◌, length, eqb};
ghost use Rattle.model.specs.Number.{most_number};
ghost use Rattle.model.specs.State.{stands, area_length};

use crate::room::area_length;
use crate::{EXISTING, GREEN};

// Question 7: has the area the length for `room` object records?
pub fn right_length(area: &[u8], room: usize) -> bool
    requires { room ≤ most_number }
    ensures { result ≡ eqb (length area.now) (area_length room) }
{
    area.len() == area_length(room)
}

// A status counts as existing.
pub fn is_standing(s: u8) -> bool
    ensures { result ≡ stands s }
{
    matches!(s, EXISTING | GREEN)
}
