// Words as sets of numbers below 64.
ghost use Rattle.std.specs.Prelude.{◌≡◌, ◌^◌, ◌<◌, eqb};
ghost use Rattle.scene.specs.Digits.{bit, Next, Cleared, Without};

// The word with the one digit k.
pub fn power(k: usize) -> u64
    requires { k < 64 }
    ensures { result ≡ 2 ^ k }
{
    1u64 << k
}

// The lowest digit of w that is set, of those at `from` and above; 64 if there is none.
pub fn next(w: u64, from: usize) -> usize
    requires { from < 64 }
    ensures { Next w from result }
{
    let s = w >> from;
    if s == 0 {
        64
    } else {
        from + s.trailing_zeros() as usize
    }
}

// The word has the digit k.
pub fn has(x: u64, k: usize) -> bool
    requires { k < 64 }
    ensures { result ≡ eqb (bit x k) 1 }
{
    (x >> k) % 2 == 1
}

// The lowest digit of a word that has one.
pub fn lowest(w: u64) -> usize
    requires { w ≡ 0 → ⊥ }
    ensures upper_bound { result < 64 }
    ensures result_value { bit w result ≡ 1 }
{
    w.trailing_zeros() as usize
}

// The word without its digit k.
pub fn clear(w: u64, k: usize) -> u64
    requires k_bound { k < 64 }
    requires k_value { bit w k ≡ 1 }
    ensures { Cleared w k result }
{
    w ^ power(k)
}

// The digits of a that b does not have.
pub fn without(a: u64, b: u64) -> u64
    ensures { Without a b result }
{
    a & !b
}
