// Whose an object is.
ghost use Rattle.std.specs.Prelude.{◌≡◌};
ghost use Rattle.model.specs.Config.{owns};
ghost use Rattle.effect.specs.Moves.{owned_by};

use model::{Config, byte_at};

// Is object n one of driver k (class 1) or of device k (class 2), by columns of any length? No test ends it early.
pub fn is_owned(objects: usize, class: &[u8], owner: &[u8], a: u8, k: usize, n: usize) -> bool
    ensures { result ≡ owned_by objects class.now owner.now a k n }
{
    let c = byte_at(class, n);
    let o = usize::from(byte_at(owner, n));
    (1 <= n) & (n <= objects) & (c == a) & (o == k)
}

// The same by a configuration.
pub fn owns(config: &Config, class: u8, k: usize, n: usize) -> bool
    ensures { result ≡ owns config.now class k n }
{
    is_owned(
        usize::from(config.counts.objects),
        &config.objects.class,
        &config.objects.owner,
        class,
        k,
        n,
    )
}
