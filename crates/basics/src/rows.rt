ghost use Rattle.std.specs.Prelude.{◌≡◌};
ghost use Rattle.basics.specs.Written.{row_over, rows_over};

// Writes the first n places of a row over the start of a list, and says how many rows that is: 1, or 0 where the row or the list has
// fewer places, and then nothing is written. (A number and no Option: the clause `value` promises it.)
pub fn put_row(list: &mut [u16], row: &[u16], n: usize) -> usize
    ensures value { result ≡ rows_over n row.now list.old }
    ensures list_after { list.new ≡ row_over n row.now list.old }
{
    if row.len() < n {
        return 0;
    }
    if list.len() < n {
        return 0;
    }
    // for over indices: with `copy_from_slice` the archive for C needs `memmove` from outside
    for i in 0..n {
        list[i] = row[i];
    }
    1
}
