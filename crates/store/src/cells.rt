// Reads and writes of lent cells, each by the one equation that the steps and calls above stand on.
ghost use Rattle.std.specs.Prelude.{◌≡◌, ℕ, ◌+◌, ◌-◌, ◌*◌, ◌<◌, ◌≤◌, length, take, drop, slice_index_or, slice_set};
ghost use Rattle.std.proofs.Math.Seq.{paste};

pub(crate) fn cell<T: Copy>(cells: &[T], i: usize) -> T
    requires { i < length cells.now }
    ensures { result ≡ slice_index_or cells.now i result }
{
    cells[i]
}

pub(crate) fn part<T>(cells: &[T], from: usize, n: usize) -> &[T]
    requires { from + n ≤ length cells.now }
    ensures { result.now ≡ take n (drop from cells.now) }
{
    &cells[from..from + n]
}

pub(crate) fn put<T: Copy>(cells: &mut [T], at: usize, v: T)
    requires { at < length cells.old }
    ensures { cells.new ≡ slice_set cells.old at v }
{
    cells[at] = v;
}

// Writes items from a place on.
pub(crate) fn fill<T: Copy>(cells: &mut [T], at: usize, xs: &[T])
    requires { at + length xs.now ≤ length cells.old }
    ensures { cells.new ≡ paste cells.old at xs.now (length xs.now) }
{
    cells[at..at + xs.len()].copy_from_slice(xs);
}

// Copies n cells to another place.
pub(crate) fn shift<T: Copy>(cells: &mut [T], from: usize, n: usize, to: usize)
    requires from { from + n ≤ length cells.old }
    requires to { to + n ≤ length cells.old }
    ensures { cells.new ≡ paste cells.old to (drop from cells.old) n }
{
    cells.copy_within(from..from + n, to);
}
