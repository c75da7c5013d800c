// Where an id stands in a column.
ghost use Rattle.std.specs.Prelude.{◌≡◌, ◌==◌, take, position};
ghost use Rattle.table.specs.Places.{place_of};

fn position_of(column: &[u32], n: usize, x: u32) -> Option<usize>
    ensures { result ≡ position (λ y. y == x) (take n column.now) }
{
    column.iter().take(n).position(|y| *y == x)
}

// Where x stands first among the first n of a column, or n where it doesn't: no Option, since the rules of the judging compare places with n.
pub fn place_of(column: &[u32], n: usize, x: u32) -> usize
    ensures { result ≡ place_of column.now n x }
{
    position_of(column, n, x).unwrap_or(n)
}
