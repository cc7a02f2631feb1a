// Row and column passes over a plane, forward and back.
#![tactic(auto)]

ghost use Rattle.std.specs.Prelude.{◌≡◌, true, false, ℕ, ◌+◌, ◌*◌, ◌-◌, ◌^◌, ◌<◌, ◌≤◌, pos, length, get_or};
ghost use Rattle.line.specs.Cells.{low_side};
ghost use Rattle.line.specs.Inner.{AllWithin};
ghost use Rattle.line.specs.Transform.{forward, back};
ghost use Rattle.grid.specs.Picture.{row_pass, col_pass, turned, picture};
ghost use Rattle.grid.specs.Buffer.{strided, InBuffer, Lines};
ghost use Rattle.runs.specs.Cells.{Written};
ghost use Rattle.lifting.specs.Parts.{Parts, Bounded};
ghost use Rattle.passes.specs.Passes.{pictured, Takes, Area};
ghost use Rattle.passes.specs.Pairs.{PairsIn, PairsPlaced, ended_row, PairBack};
ghost use Rattle.passes.specs.Levels.{level_of, LevelBack};

use kernel::Kernel;
use lifting::TwoParts;

// How many numbers of working memory a strip of columns takes.
pub const STRIP: usize = 32768;

// Transforms, in place, a row of w numbers from `at` on, through working memory q.
fn row(kernel: Kernel, l: &mut [i32], q: &mut [i32], at: usize, w: usize)
    requires w_nonzero { (0 < w) × (w < 2 ^ 32) × (w ≤ length q.old) }
    requires in_buffer { InBuffer l.old at 1 w 1 }
    requires takes { Takes false w (strided (pos 0) l.old (at + 0) 1) }
    ensures { Lines (forward kernel) (pos 0) at 1 w 1 l.old l.new }
{
    let highs = w / 2;
    let lows = w - highs;
    let parts = TwoParts {
        a: 0,
        b: lows,
        step: 1,
        lanes: 1,
        lows,
        highs,
    };
    transfer::numbers::part(l, q, at, 0, lows, w);
    lifting::forward(kernel, q, parts);
    transfer::copy(q, l, 0, at, w);
}

// Takes such a row back.
fn row_back(kernel: Kernel, l: &mut [i32], q: &mut [i32], at: usize, w: usize)
    requires w_nonzero { (0 < w) × (w < 2 ^ 32) × (w ≤ length q.old) }
    requires in_buffer { InBuffer l.old at 1 w 1 }
    requires takes { Takes true w (strided (pos 0) l.old (at + 0) 1) }
    ensures { Lines (back kernel) (pos 0) at 1 w 1 l.old l.new }
{
    let highs = w / 2;
    let lows = w - highs;
    let parts = TwoParts {
        a: 0,
        b: lows,
        step: 1,
        lanes: 1,
        lows,
        highs,
    };
    transfer::copy(l, q, at, 0, w);
    lifting::back(kernel, q, parts);
    transfer::numbers::weave(q, l, 0, lows, at, w);
}

// The row pass over an area of w by h, forward, in rows of stride numbers: three numbers, since one struct makes a transform take 1.1 times as long.
pub fn row_pass(kernel: Kernel, l: &mut [i32], q: &mut [i32], stride: usize, w: usize, h: usize)
    requires area { Area stride w h (length l.old) }
    requires w_in_bounds { w ≤ length q.old }
    requires by_index { (y : ℕ) → y < h → Takes false w (picture (pos 0) stride l.old y) }
    ensures { picture (pos 0) stride l.new ≡ row_pass (forward kernel) w h (picture (pos 0) stride l.old) }
{
    // Rows by their number: std says nothing of what a slice holds after `chunks_mut`.
    for y in 0..h {
        row(kernel, l, q, y * stride, w);
    }
}

// Transforms `lanes` columns of h numbers from column x on: their evens and odds are taken to q, and their lows and highs put back.
fn strip(
    kernel: Kernel,
    l: &mut [i32],
    q: &mut [i32],
    x: usize,
    stride: usize,
    h: usize,
    lanes: usize,
)
    requires h_nonzero { (0 < h) × (h ≤ 4096) × (h * lanes ≤ length q.old) }
    requires in_buffer { InBuffer l.old x stride h lanes }
    requires by_index { (j : ℕ) → j < lanes → Takes false h (strided (pos 0) l.old (x + j) stride) }
    ensures { Lines (forward kernel) (pos 0) x stride h lanes l.old l.new }
{
    let highs = h / 2;
    let lows = h - highs;
    let parts = TwoParts {
        a: 0,
        b: lows * lanes,
        step: lanes,
        lanes,
        lows,
        highs,
    };
    transfer::take(l, q, x, stride, h, lanes);
    lifting::forward(kernel, q, parts);
    transfer::put(q, l, x, stride, h, lanes);
}

// The column pass over the same area, forward, a strip of columns at a time: as many as working memory holds.
pub fn col_pass(kernel: Kernel, l: &mut [i32], q: &mut [i32], stride: usize, w: usize, h: usize)
    requires area { Area stride w h (length l.old) }
    requires in_bounds { 32768 ≤ length q.old }
    requires by_index { (x : ℕ) → x < w → Takes false h (turned (picture (pos 0) stride l.old) x) }
    ensures { picture (pos 0) stride l.new ≡ col_pass (forward kernel) w h (picture (pos 0) stride l.old) }
{
    let most = STRIP / h;
    for x in (0..w).step_by(most) {
        let lanes = whole::least(most, w - x);
        strip(kernel, l, q, x, stride, h, lanes);
    }
}

// Of a level's coefficients, from the plane: the right part of low row n to row 2n, and high row n, behind all low rows, to row 2n + 1, for n from
// a up to b, as far as there are high rows.
fn place_pairs(
    plane: &[i32],
    l: &mut [i32],
    width: usize,
    stride: usize,
    w: usize,
    h: usize,
    a: usize,
    b: usize,
)
    requires a_le_b { (a ≤ b) × (b ≤ low_side h) }
    requires area { Area width w h (length plane.now) }
    requires area_2 { Area stride w h (length l.old) }
    ensures { PairsPlaced width stride w h a b plane.now l.old l.new }
{
    let right = w / 2;
    let left = w - right;
    let highs = h / 2;
    let lows = h - highs;
    let at = 2 * a * stride;
    let high_rows = whole::least(b, highs) - whole::least(a, highs);
    transfer::copy_rows(
        plane,
        l,
        a * width + left,
        width,
        at + left,
        2 * stride,
        b - a,
        right,
    );
    transfer::copy_rows(
        plane,
        l,
        (lows + a) * width,
        width,
        at + stride,
        2 * stride,
        high_rows,
        w,
    );
}

// Of the `lows` rows of lows from `at` on, a row of highs behind each but perhaps the last: undoes the first step of the columns of the first pair of
// rows, and takes both rows back. With `highs` 0 the first row has none behind it.
fn pair_back(
    kernel: Kernel,
    l: &mut [i32],
    q: &mut [i32],
    at: usize,
    stride: usize,
    lows: usize,
    highs: usize,
    w: usize,
)
    requires lows_nonzero { (0 < lows) × (highs ≤ 1) × (at + stride ≤ 2 ^ 60) × Parts at (at + stride) (2 * stride) lows highs w (length l.old) }
    requires w_bound { (w ≤ 4096) × (w ≤ length q.old) × (w ≤ stride) }
    requires bounded { Bounded (2 ^ 29) at (2 * stride) lows w l.old }
    requires bounded_2 { Bounded (2 ^ 29) (at + stride) (2 * stride) highs w l.old }
    requires takes { Takes true w (ended_row false kernel lows highs at stride l.old) × (0 < highs → Takes true w (ended_row true kernel lows highs at stride l.old)) }
    ensures { PairBack kernel lows highs at stride w l.old l.new }
{
    let parts = TwoParts {
        a: at,
        b: at + stride,
        step: 2 * stride,
        lanes: w,
        lows,
        highs,
    };
    lifting::first_step(kernel, true, l, parts, 0, 1);
    row_back(kernel, l, q, at, w);
    if 0 < highs {
        row_back(kernel, l, q, at + stride, w);
    }
}

// A level's way back, from the plane and from what every other row of l holds of the levels below. Pairs of rows are placed, two pairs behind the
// second step of their columns is undone, and two pairs behind that the first step, and both rows are taken back, all while they are in the
// cache: the second step of kernel 2 looks two rows back and ahead. The last of an odd number of rows is a pair without a high row.
pub fn level_back(
    kernel: Kernel,
    plane: &[i32],
    l: &mut [i32],
    q: &mut [i32],
    width: usize,
    stride: usize,
    w: usize,
    h: usize,
)
    requires area { Area width w h (length plane.now) }
    requires area_2 { Area stride w h (length l.old) }
    requires w_in_bounds { w ≤ length q.old }
    requires by_index { (x : ℕ) → x < w → Takes true h (turned (level_of width stride w h plane.now l.old) x) }
    requires by_index_2 { (y : ℕ) → y < h → Takes true w (col_pass (back kernel) w h (level_of width stride w h plane.now l.old) y) }
    ensures { LevelBack kernel width stride w h plane.now l.old l.new }
{
    let highs = h / 2;
    let lows = h - highs;
    let mut placed: usize = 0;
    let mut begun: usize = 0;
    for n in 0..lows {
        let to_place = whole::least(n + 5, lows);
        let to_begin = whole::least(n + 3, lows);
        let at = 2 * n * stride;
        place_pairs(plane, l, width, stride, w, h, placed, to_place);
        let parts = TwoParts {
            a: at,
            b: at + stride,
            step: 2 * stride,
            lanes: w,
            lows: to_place - n,
            highs: whole::least(to_place, highs) - n,
        };
        lifting::second_step(kernel, true, l, parts, begun - n, to_begin - n);
        let pair_highs = whole::least(n + 1, highs) - n;
        pair_back(kernel, l, q, at, stride, to_begin - n, pair_highs, w);
        placed = to_place;
        begun = to_begin;
    }
}

// Transforms a row of w samples from `from` on, and stores it from `at` on.
fn row_in(kernel: Kernel, samples: &[u16], l: &mut [i32], from: usize, at: usize, w: usize)
    requires w_nonzero { (0 < w) × (w < 2 ^ 32) }
    requires w_in_bounds { (at + w ≤ length l.old) × (from + w ≤ length samples.now) }
    requires all_within { AllWithin (5 * 2 ^ 22) w (λ i. pos (get_or samples.now (from + i) 0)) }
    ensures { Written (forward kernel w (λ i. pos (get_or samples.now (from + i) 0))) at w l.old l.new }
{
    let highs = w / 2;
    let lows = w - highs;
    let parts = TwoParts {
        a: at,
        b: at + lows,
        step: 1,
        lanes: 1,
        lows,
        highs,
    };
    transfer::numbers::part(samples, l, from, at, at + lows, w);
    lifting::forward(kernel, l, parts);
}

// The rows of pair n of a picture of w by h samples, transformed and stored where they end: row 2n in row n, row 2n + 1, if there is one, in row n behind
// the rows of lows.
fn pair_in(kernel: Kernel, samples: &[u16], l: &mut [i32], w: usize, h: usize, n: usize)
    requires n_bound { n < low_side h }
    requires area { Area w w h (length l.old) }
    requires l_len { (length l.old ≡ h * w) × (length samples.now ≡ h * w) }
    requires by_index { (y : ℕ) → y < h → AllWithin (5 * 2 ^ 22) w (pictured w samples.now y) }
    ensures { PairsIn kernel samples.now w h n (n + 1) l.old l.new }
{
    let highs = h / 2;
    let lows = h - highs;
    row_in(kernel, samples, l, 2 * n * w, n * w, w);
    if n < highs {
        row_in(kernel, samples, l, (2 * n + 1) * w, (lows + n) * w, w);
    }
}

// The pairs a up to b.
fn pairs_in(kernel: Kernel, samples: &[u16], l: &mut [i32], w: usize, h: usize, a: usize, b: usize)
    requires a_le_b { (a ≤ b) × (b ≤ low_side h) }
    requires area { Area w w h (length l.old) }
    requires l_len { (length l.old ≡ h * w) × (length samples.now ≡ h * w) }
    requires by_index { (y : ℕ) → y < h → AllWithin (5 * 2 ^ 22) w (pictured w samples.now y) }
    ensures { PairsIn kernel samples.now w h a b l.old l.new }
{
    for n in a..b {
        pair_in(kernel, samples, l, w, h, n);
    }
}

// A level of a picture of w by h samples, into the plane. Rows are transformed and stored where they end, the first step of their columns is done
// behind them, and behind that the second, all while they are in the cache: the second step of kernel 2 looks two rows back and ahead. The last of
// an odd number of rows is a pair without a high row.
pub fn level_in(kernel: Kernel, samples: &[u16], l: &mut [i32], w: usize, h: usize)
    requires area { Area w w h (length l.old) }
    requires l_len { (length l.old ≡ h * w) × (length samples.now ≡ h * w) }
    requires by_index { (y : ℕ) → y < h → AllWithin (5 * 2 ^ 22) w (pictured w samples.now y) }
    requires by_index_2 { (x : ℕ) → x < w → AllWithin (5 * 2 ^ 22) h (turned (row_pass (forward kernel) w h (pictured w samples.now)) x) }
    ensures { picture (pos 0) w l.new ≡ col_pass (forward kernel) w h (row_pass (forward kernel) w h (pictured w samples.now)) }
{
    let highs = h / 2;
    let lows = h - highs;
    let b = lows * w;
    let mut placed: usize = 0;
    let mut begun: usize = 0;
    for n in 0..lows {
        let to_place = whole::least(lows, n + 5);
        let to_begin = whole::least(lows, n + 3);
        pairs_in(kernel, samples, l, w, h, placed, to_place);
        // What is stored, and of it what the first step is done on.
        let stored = TwoParts {
            a: 0,
            b,
            step: w,
            lanes: w,
            lows: to_place,
            highs: whole::least(to_place, highs),
        };
        lifting::first_step(kernel, false, l, stored, begun, to_begin);
        let ready = TwoParts {
            lows: to_begin,
            highs: whole::least(to_begin, highs),
            ..stored
        };
        lifting::second_step(kernel, false, l, ready, n, n + 1);
        placed = to_place;
        begun = to_begin;
    }
}
