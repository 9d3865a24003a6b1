// The numbers of an operation's items, out of its columns.
ghost use Rattle.std.specs.Prelude.{◌≡◌, get_or};

// The number at place i of a column, and 0 past its end.
pub fn number_of(column: &[u32], i: usize) -> usize
    ensures { result ≡ get_or column.now i 0 }
{
    column.get(i).map_or(0, |n| *n as usize)
}
