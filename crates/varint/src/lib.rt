// Numbers (document 01, 'Line file'; questions 1 and 2): canonical LEB128 in at most three bytes, read and written.

#![tactic(auto)]

ghost use Rattle.std.specs.Prelude.{◌≡◌, ◌+◌, ◌<◌, ◌≤◌, length, ltb};
ghost use Rattle.std.specs.List.{list_any};
ghost use Rattle.model.specs.Answers.{num_of};
ghost use Rattle.model.specs.Number.{most_number, most_bytes, lead, value_of, number_at, bytes_of};
ghost use Rattle.model.specs.NumberMeans.{num_means, meant_at};
ghost use Rattle.page.specs.Page.{Placed};
ghost use Rattle.varint.specs.Lead.{IsNearLead};

use model::{Fault, MOST_BYTES};
use page::lay;

// How many bytes of a long run are tested at once.
const RUN_BYTES: usize = 32;

// What a group of seven bits counts up to, and two of them; 128 is added to every byte but the last.
const GROUP: usize = 128;

const TWO_GROUPS: usize = GROUP * GROUP;

// Whether a number's last byte is among some bytes: one below 128. It has no way out in its midst, so that the bytes
// are tested side by side.
fn has_last(run: &[u8]) -> bool
    ensures { result ≡ list_any (λ b. ltb b 128) run.now }
{
    run.iter().fold(false, |found, b| found | (*b < 128))
}

// The same of many bytes, run by run: a file without a last byte is read to its end to be refused.
fn has_far_last(s: &[u8]) -> bool
    ensures { result ≡ ltb (lead s.now) (length s.now) }
{
    s.chunks(RUN_BYTES).any(has_last)
}

// How many bytes stand before the number's last one, where it is among as many as a number has at most.
fn near_lead(s: &[u8]) -> Option<usize>
    ensures { IsNearLead result s.now }
{
    s.iter().take(MOST_BYTES).position(|b| *b < 128)
}

// The value of the number at the head that has n bytes before its last.
fn value(s: &[u8], n: usize) -> usize
    requires { (n < most_bytes) × (n < length s.now) }
    ensures { result ≡ value_of s.now n }
{
    let first = usize::from(s[0]);
    if n == 0 {
        return first;
    }
    let second = usize::from(s[1]);
    if n == 1 {
        return first % GROUP + GROUP * second;
    }
    let third = usize::from(s[2]);
    first % GROUP + GROUP * (second % GROUP + GROUP * third)
}

// The number at `at`, of any length. What three bytes hold is never above the largest number.
#[tactic(auto, using(crate::proofs::Numbers::no_rest))]
fn long_number(s: &[u8], at: usize) -> Result<(usize, usize), Fault>
    ensures { num_of result ≡ number_at s.now at }
{
    let t = s.get(at..).ok_or(Fault::Cut)?;
    let Some(n) = near_lead(t) else {
        return Err(if has_far_last(t) {
            Fault::Form
        } else {
            Fault::Cut
        });
    };
    if 0 < n && t[n] == 0 {
        return Err(Fault::Form);
    }
    Ok((value(t, n), at + n + 1))
}

// The number at `at` with the place after it, or what is wrong there; and what each case means by questions 1 and 2.
// Most numbers of a file have one byte.
pub fn decode(s: &[u8], at: usize) -> Result<(usize, usize), Fault>
    ensures value { num_of result ≡ number_at s.now at }
    ensures result_value { num_means (num_of result) ≡ meant_at s.now at }
{
    match s.get(at) {
        Some(first) if *first < 128 => Ok((usize::from(*first), at + 1)),
        _ => long_number(s, at),
    }
}

// Puts down the shortest form of a number, as far as there is room, and answers the place after it. The place has the
// same bound as the number, which is far beyond every file: so that no place after it is out of reach.
pub fn encode(out: &mut [u8], at: usize, v: usize) -> usize
    requires v_le_most_number { v ≤ most_number }
    requires at_le_most_number { at ≤ most_number }
    ensures { Placed (bytes_of v) at out.old result out.new }
{
    if v < GROUP {
        lay(out, at, v as u8);
        return at + 1;
    }
    lay(out, at, (v % GROUP + GROUP) as u8);
    if v < TWO_GROUPS {
        lay(out, at + 1, (v / GROUP) as u8);
        return at + 2;
    }
    lay(out, at + 1, (v / GROUP % GROUP + GROUP) as u8);
    lay(out, at + 2, (v / TWO_GROUPS) as u8);
    at + 3
}
