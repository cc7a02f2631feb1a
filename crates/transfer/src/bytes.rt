// Bytes that are copied: rows with their evens in front and their odds behind, and pictures of such rows.
ghost use Rattle.std.specs.Prelude.{◌≡◌, List, ℕ, ◌+◌, ◌*◌, ◌/◌, ◌%◌, ◌^◌, ◌<◌, ◌≤◌, length, get_or};
ghost use Rattle.line.specs.Cells.{low_side};
ghost use Rattle.grid.specs.Picture.{picture};
ghost use Rattle.grid.specs.Placed.{placed};
ghost use Rattle.transfer.specs.Parting.{Written, Paired, PartedCopy};

use crate::source;

// Takes w bytes, from `from` on, as numbers of two bytes: a pair is then one number to the machine, and bytes two apart are not. The byte that is left
// over, where w is odd, is the first of a pair without a second.
fn pair_up(src: &[u8], line: &mut [u16], from: usize, w: usize)
    requires { (from + w ≤ length src.now) × (low_side w ≤ length line.old) }
    ensures { Paired from (low_side w) (w / 2) src.now line.new }
{
    let (pairs, rest) = src[from..from + w].as_chunks::<2>();
    // Written by index: std says nothing of what a slice holds after a `zip` of its `iter_mut`.
    for (k, pair) in pairs.iter().enumerate() {
        line[k] = u16::from_le_bytes(*pair);
    }
    if w % 2 == 1 {
        line[w / 2] = u16::from(rest[0]);
    }
}

// Writes one byte of each of n pairs: with BYTE 0 the first, with 1 the second.
fn bytes_of<const BYTE: usize>(line: &[u16], dst: &mut [u8], at: usize, n: usize)
    requires byte { BYTE < 2 }
    requires in_bounds { (n ≤ length line.now) × (at + n ≤ length dst.old) }
    ensures { Written (λ k. get_or line.now k 0 / 256 ^ BYTE % 256) at n dst.old dst.new }
{
    // Written by index, as in `pair_up`.
    for (k, pair) in line[..n].iter().enumerate() {
        dst[at + k] = pair.to_le_bytes()[BYTE];
    }
}

// Writes w bytes, which the numbers of two bytes pair: the firsts, and the seconds behind them.
fn part(line: &[u16], dst: &mut [u8], at: usize, w: usize)
    requires { (low_side w ≤ length line.now) × (at + w ≤ length dst.old) }
    ensures { (x : List ℕ) (from : ℕ) → Paired from (low_side w) (w / 2) x line.now → PartedCopy 0 x from at w dst.old dst.new }
{
    let low = w - w / 2;
    bytes_of::<0>(line, dst, at, low);
    bytes_of::<1>(line, dst, at + low, w / 2);
}

// Parts a row of w bytes in place, its evens to the front and its odds behind them.
pub fn part_row(buf: &mut [u8], line: &mut [u16], at: usize, w: usize)
    requires { (at + w ≤ length buf.old) × (low_side w ≤ length line.old) }
    ensures { PartedCopy 0 buf.old at at w buf.old buf.new }
{
    pair_up(buf, line, at, w);
    part(line, buf, at, w);
}

// Copies a picture of w by h bytes, each byte to the place where its coefficient of the first level ends.
pub fn place(src: &[u8], dst: &mut [u8], w: usize, h: usize)
    requires w_bound { (w ≤ 4096) × (h ≤ 4096) }
    requires src_len { (length src.now ≡ h * w) × (length dst.old ≡ h * w) }
    ensures { picture 0 w dst.new ≡ placed w h (picture 0 w src.now) }
{
    let mut line = [0u16; 2048];
    let low = h - h / 2;
    // Rows by their number: it tells which row comes there.
    for n in 0..h {
        pair_up(src, &mut line, source(n, low) * w, w);
        part(&line, dst, n * w, w);
    }
}
