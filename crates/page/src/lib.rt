// Bytes and text put down in an area that is lent, as far as there is room.

#![tactic(auto)]

ghost use Rattle.std.specs.Prelude.{◌≡◌, [], ◌∷◌, ◌%◌};
ghost use Rattle.model.specs.Office.{digit, decimal, long_row, line_row};
ghost use Rattle.page.specs.Page.{laid, Put};

// Puts down a byte where there is room for it.
#[tactic(auto, using(crate::proofs::Laying::one_byte))]
pub fn lay(out: &mut [u8], at: usize, b: u8)
    ensures { out.new ≡ laid (b ∷ []) at out.old }
{
    if at < out.len() {
        out[at] = b;
    }
}

// Puts down a byte, and answers the place after it.
#[tactic(auto, using(crate::proofs::Laying::one_byte), unfolding(crate::specs::Page::reaches))]
pub fn put(out: &mut [u8], at: usize, b: u8) -> usize
    ensures { Put (b ∷ []) at out.old result out.new }
{
    if out.len() <= at {
        return out.len();
    }
    out[at] = b;
    at + 1
}

// Puts down a text, and answers the place after it.
#[tactic(auto, using(crate::proofs::Laying::laid_nil), unfolding(crate::specs::Page::reaches))]
pub fn put_all(out: &mut [u8], at: usize, text: &[u8]) -> usize
    ensures { Put text.now at out.old result out.new }
{
    let mut end = at.min(out.len());
    for b in text {
        end = put(out, end, *b);
    }
    end
}

// The code of a number's last digit.
fn last_digit(n: usize) -> u8
    ensures { result ≡ digit (n % 10) }
{
    b'0' + (n % 10) as u8
}

// Puts down a number in decimal, and answers the place after it.
pub fn put_decimal(out: &mut [u8], at: usize, n: usize) -> usize
    ensures { Put (decimal n) at out.old result out.new }
{
    if n < 10 {
        return put(out, at, last_digit(n));
    }
    let end = put_decimal(out, at, n / 10);
    put(out, end, last_digit(n))
}

// `long`: one of the files is too long.
pub fn put_long(out: &mut [u8]) -> usize
    ensures { Put long_row 0 out.old result out.new }
{
    put_all(out, 0, b"long\n")
}

// `line` and the number of the question that refused the file.
pub fn put_line(out: &mut [u8], refusal: u32) -> usize
    ensures { Put (line_row refusal) 0 out.old result out.new }
{
    let word = put_all(out, 0, b"line ");
    let number = put_decimal(out, word, refusal as usize);
    put(out, number, b'\n')
}
