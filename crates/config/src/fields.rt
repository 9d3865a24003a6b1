// One number of the file in its field's range: question 1, then 2, then 3.
ghost use Rattle.std.specs.Prelude.{◌≡◌, ◌-◌, length};
ghost use Rattle.model.specs.Answers.{field_of};
ghost use Rattle.model.specs.ConfigFile.{field_at};

use model::Question;

// A number below this has one byte.
pub const ONE_BYTE: u8 = 128;

// A place below this has two more bytes after its own.
pub fn triples_end(s: &[u8]) -> usize
    ensures { result ≡ length s.now - 2 }
{
    s.len().saturating_sub(2)
}

// The number at `at` for a field from low to high, with the place after it.
#[tactic(auto, using(crate::proofs::Readers::field_laws))]
pub fn read_number(s: &[u8], at: usize, low: usize, high: usize) -> Result<(usize, usize), Question>
    ensures { field_of result ≡ field_at s.now at low high }
{
    match varint::decode(s, at) {
        Ok((v, next)) if low <= v && v <= high => Ok((v, next)),
        Ok(_) => Err(Question::InRange),
        Err(fault) => Err(fault.question()),
    }
}

// The same of a field that a byte in memory holds. Most numbers have one byte in the file.
#[tactic(auto, using(crate::proofs::Ranged::short_laws))]
pub fn read_field(s: &[u8], at: usize, low: u8, high: u8) -> Result<(u8, usize), Question>
    ensures { field_of result ≡ field_at s.now at low high }
{
    if at < s.len() {
        let b = s[at];
        if b < ONE_BYTE && low <= b && b <= high {
            return Ok((b, at + 1));
        }
    }
    let (v, next) = read_number(s, at, low as usize, high as usize)?;
    Ok((v as u8, next))
}
