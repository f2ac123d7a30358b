// Parts of rows: some of a row's items lent, and items written over a row's.
ghost use Rattle.std.specs.Prelude.{◌≡◌, ◌+◌, ◌≤◌, length, take, drop};
ghost use Rattle.nodes.specs.Rows.{overlaid};

// So many items of a row, from one on.
pub fn some_of<T>(row: &[T], from: usize, count: usize) -> &[T]
    requires { from + count ≤ length row.now }
    ensures { result.now ≡ take count (drop from row.now) }
{
    &row[from..from + count]
}

// Writes items over a row, from one on.
pub fn write_over<T: Copy>(row: &mut [T], at: usize, items: &[T])
    requires { at + length items.now ≤ length row.old }
    ensures { row.new ≡ overlaid row.old at items.now }
{
    row[at..at + items.len()].copy_from_slice(items);
}
