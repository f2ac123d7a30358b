// The first things of a row.
ghost use Rattle.std.specs.Prelude.{◌≡◌, take};

// The first things of a row, so many or all.
pub fn front<T>(row: &[T], most: usize) -> &[T]
    ensures { result.now ≡ take most row.now }
{
    let end = row.len().min(most);
    &row[0..end]
}
