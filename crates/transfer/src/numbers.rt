// Rows and lines of numbers.
ghost use Rattle.std.specs.Prelude.{◌≡◌, ◌+◌, ◌*◌, ◌/◌, ◌≤◌, ℤ, pos, length, get_or};
ghost use Rattle.line.specs.Cells.{low_side};
ghost use Rattle.transfer.specs.Moved.{Places, Twofold};

// Parts w numbers of src, or samples that become numbers, from `from` on: the evens, of which there is one more where w is odd, to a, the odds to b.
pub fn part<T: Copy + Into<i32>>(
    src: &[T],
    dst: &mut [i32],
    from: usize,
    a: usize,
    b: usize,
    w: usize,
)
    requires w_in_bounds { from + w ≤ length src.now }
    requires places { Places (λ k. a + k) (λ k. b + k) (low_side w) (w / 2) dst.old }
    ensures { (number : T → ℤ) → ((x : T) (z : ℤ) → T.converts x z → z ≡ number x) → (o : T)
        → Twofold (pos 0) (λ k. number (get_or src.now (from + 2 * k) o)) (λ k. number (get_or src.now (from + 2 * k + 1) o)) (λ k. a + k) (λ k. b + k) (low_side w) (w / 2) dst.old dst.new }
{
    let n = w / 2;
    // By index: both parts stand in one buffer, either before the other, and a turn writes at two places of it.
    for k in 0..n {
        dst[a + k] = src[from + 2 * k].into();
        dst[b + k] = src[from + 2 * k + 1].into();
    }
    if w % 2 == 1 {
        dst[a + n] = src[from + 2 * n].into();
    }
}

// Weaves w numbers of src, the evens from a on and the odds from b on: they follow each other in turn in dst, from `at` on.
pub fn weave(src: &[i32], dst: &mut [i32], a: usize, b: usize, at: usize, w: usize)
    requires w_in_bounds { (a + low_side w ≤ length src.now) × (b + w / 2 ≤ length src.now) }
    requires places { Places (λ k. at + 2 * k) (λ k. at + 2 * k + 1) (low_side w) (w / 2) dst.old }
    ensures { Twofold (pos 0) (λ k. get_or src.now (a + k) (pos 0)) (λ k. get_or src.now (b + k) (pos 0)) (λ k. at + 2 * k) (λ k. at + 2 * k + 1) (low_side w) (w / 2) dst.old dst.new }
{
    let n = w / 2;
    // By index: std says nothing of what a slice holds after `as_chunks_mut`.
    for k in 0..n {
        dst[at + 2 * k] = src[a + k];
        dst[at + 2 * k + 1] = src[b + k];
    }
    if w % 2 == 1 {
        dst[at + 2 * n] = src[a + n];
    }
}
