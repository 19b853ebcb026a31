// What stands in a row of the table.
ghost use Rattle.std.specs.Prelude.{◌<◌};

use std::alloc::{AllocError, Global};

// The name of a row, and what stands after the blank behind it.
pub(crate) fn named(line: &[u8]) -> (&[u8], &[u8]) {
    let end = line.iter().position(|b| *b == b':').unwrap_or(line.len());
    let (name, rest) = line.split_at(end);
    (name, from_field(rest, 1))
}

// A row from field n on, which are counted from 0; nothing where it has none.
fn from_field(row: &[u8], n: usize) -> &[u8]
    requires { n < 9 }
{
    row.splitn(n + 1, |b| *b == b' ').nth(n).unwrap_or(&[])
}

// The bytes of field n.
pub(crate) fn word(row: &[u8], n: usize) -> &[u8]
    requires { n < 9 }
{
    from_field(row, n)
        .split(|b| *b == b' ')
        .next()
        .unwrap_or(&[])
}

// The number that pairs of digits spell in field n, high byte first.
pub(crate) fn number(row: &[u8], n: usize) -> u64
    requires { n < 9 }
{
    from_field(row, n)
        .chunks_exact(2)
        .map_while(|digits| match digits {
            [high, low] => table_rows::pair::<true>(*high, *low),
            _ => None,
        })
        .fold(0, |value, byte| value << 8 | u64::from(byte))
}

// The bytes that field n spells, no more than are left to a row; takes them off.
pub(crate) fn bytes(
    alloc: Global,
    row: &[u8],
    n: usize,
    left: &mut usize,
) -> Result<Vec<u8>, AllocError>
    requires { n < 9 }
{
    let bytes = table_rows::spelled::<true>(alloc, from_field(row, n), *left)?;
    *left -= bytes.len();
    Ok(bytes)
}
