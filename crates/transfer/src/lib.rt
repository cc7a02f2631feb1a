// Strips of lines, between a buffer and working memory: of any cells, of numbers, and of bytes.
#![tactic(auto)]

ghost use Rattle.std.specs.Prelude.{◌≡◌, ◌+◌, ◌*◌, ◌≤◌, length};
ghost use Rattle.grid.specs.Buffer.{InBuffer, Put};
ghost use Rattle.transfer.specs.Copied.{Room, Copied};
ghost use Rattle.transfer.specs.Moved.{Rows, Moved};
ghost use Rattle.transfer.specs.Parting.{source_at, PartedStrip};

pub mod bytes;
pub mod numbers;

// Copies n cells of src, from `from` on, to dst, from `at` on. By index and no `copy_from_slice`: that comes to a call of `memmove`, which C's header
// does not ask for.
pub fn copy<T: Copy>(src: &[T], dst: &mut [T], from: usize, at: usize, n: usize)
    requires { Room src.now from at n dst.old }
    ensures { (o : T) → Copied o src.now from at n dst.old dst.new }
{
    for k in 0..n {
        dst[at + k] = src[from + k];
    }
}

// Copies m rows of n cells, which begin step apart in src and stride apart in dst.
pub fn copy_rows<T: Copy>(
    src: &[T],
    dst: &mut [T],
    from: usize,
    step: usize,
    at: usize,
    stride: usize,
    m: usize,
    n: usize,
)
    requires { Rows src.now (λ i. from + i * step) (λ i. at + i * stride) m n dst.old }
    ensures { (o : T) → Moved o src.now (λ i. from + i * step) (λ i. at + i * stride) m n dst.old dst.new }
{
    // Rows by their number: std says nothing of what a slice holds after `chunks_mut`.
    for i in 0..m {
        let begin = from + i * step;
        let to = at + i * stride;
        copy(src, dst, begin, to, n);
    }
}

// Which row comes to place n, where `low` rows, the evens, stand in front.
pub(crate) fn source(n: usize, low: usize) -> usize
    requires { n ≤ 4096 }
    ensures { result ≡ source_at low n }
{
    if n < low { 2 * n } else { 2 * (n - low) + 1 }
}

// The strip of `lanes` lines of w cells of buf, the first cell of line j at start + j, the others of it step apart: the evens of all lines in
// front, the odds behind.
#[tactic(auto, using(crate::proofs::Parting::source_inside))]
pub fn take<T: Copy>(buf: &[T], strip: &mut [T], start: usize, step: usize, w: usize, lanes: usize)
    requires in_buffer { InBuffer buf.now start step w lanes }
    requires w_bound { (w ≤ 4096) × (w * lanes ≤ length strip.old) }
    ensures { (o : T) → PartedStrip o buf.now start step w lanes strip.old strip.new }
{
    let low = w - w / 2;
    // Rows by their number: it tells which row comes there, and std says nothing of what a slice holds after `chunks_mut`.
    for n in 0..w {
        let begin = start + source(n, low) * step;
        let to = n * lanes;
        copy(buf, strip, begin, to, lanes);
    }
}

// A strip of `lanes` lines of m cells into buf, as it is.
pub fn put<T: Copy>(strip: &[T], buf: &mut [T], start: usize, step: usize, m: usize, lanes: usize)
    requires in_buffer { InBuffer buf.old start step m lanes }
    requires lanes_in_bounds { m * lanes ≤ length strip.now }
    ensures { (o : T) → Put o strip.now start step m lanes buf.old buf.new }
{
    copy_rows(strip, buf, 0, lanes, start, step, m, lanes);
}
