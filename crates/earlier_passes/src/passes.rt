// Row and column passes over a plane, forward and back, on strips of lines.
// Kept for the comparison (lib.rt): the flag `undo`, columns counted by hand, and a `least` of their own.
ghost use Rattle.std.specs.Prelude.{◌≡◌, ℕ, ◌+◌, ◌*◌, ◌^◌, ◌<◌, min, pos, true, false};
ghost use Rattle.earlier_passes.specs.Strip.{Strips};
ghost use Rattle.grid.specs.Picture.{row_pass, col_pass, turned, picture};
ghost use Rattle.grid.specs.Buffer.{strided, InBuffer, Lines};
ghost use Rattle.earlier_passes.specs.Passes.{line_transform, Takes, Area, part_step, part_at, Liftable, LiftedStrips};

use crate::{lifting, transfer};
use kernel::Kernel;

// How many columns a strip has at most: a row of it is what a cache line holds.
pub const LANES: usize = 16;

// Of a line whose numbers lie `step` apart: how far apart the numbers of one of its parts lie. Evens and odds are interleaved; lows and
// highs are not.
fn part_step(interleaved: bool, step: usize) -> usize
    requires { 2 * step < 2 ^ 64 }
    ensures { result ≡ part_step interleaved step }
{
    if interleaved { 2 * step } else { step }
}

// Where its second part begins, the odds or the highs.
fn second_part(interleaved: bool, start: usize, step: usize, m: usize) -> usize
    requires { (start + step < 2 ^ 64) × (start + m * step < 2 ^ 64) }
    ensures { result ≡ start + part_at interleaved step m }
{
    if interleaved {
        start + step
    } else {
        start + m * step
    }
}

// The transforms of `lanes` lines whose parts are in the strips, or the way back.
fn lift(kernel: Kernel, undo: bool, a: &mut [i32], b: &mut [i32], m: usize, lanes: usize)
    requires strips { Strips m lanes a.old b.old }
    requires liftable { Liftable undo (m * lanes) a.old b.old }
    ensures { LiftedStrips undo kernel m lanes a.old b.old a.new b.new }
{
    if undo {
        lifting::back(kernel, a, b, m, lanes);
    } else {
        lifting::forward(kernel, a, b, m, lanes);
    }
}

// Transforms, in place, `lanes` lines of 2m numbers, the first number of line j at start + j, the others of it step apart; or takes them
// back. The ways differ in which side is interleaved.
fn lines(
    kernel: Kernel,
    undo: bool,
    buf: &mut [i32],
    a: &mut [i32],
    b: &mut [i32],
    start: usize,
    step: usize,
    m: usize,
    lanes: usize,
)
    requires in_buffer { InBuffer buf.old start step (2 * m) lanes }
    requires strips { Strips m lanes a.old b.old }
    requires by_index { (j : ℕ) → j < lanes → Takes undo (2 * m) (strided (pos 0) buf.old (start + j) step) }
    ensures { Lines (line_transform undo kernel) (pos 0) start step (2 * m) lanes buf.old buf.new }
{
    let from = part_step(!undo, step);
    let from_second = second_part(!undo, start, step, m);
    let to = part_step(undo, step);
    let to_second = second_part(undo, start, step, m);
    transfer::take(buf, a, start, from, m, lanes);
    transfer::take(buf, b, from_second, from, m, lanes);
    lift(kernel, undo, a, b, m, lanes);
    transfer::put(a, buf, start, to, m, lanes);
    transfer::put(b, buf, to_second, to, m, lanes);
}

// The row pass over an area of w by h, in rows of stride numbers.
pub fn row_pass(
    kernel: Kernel,
    undo: bool,
    buf: &mut [i32],
    a: &mut [i32],
    b: &mut [i32],
    stride: usize,
    w: usize,
    h: usize,
)
    requires area { Area stride w h buf.old a.old b.old }
    requires by_index { (y : ℕ) → y < h → Takes undo w (picture (pos 0) stride buf.old y) }
    ensures { picture (pos 0) stride buf.new ≡ row_pass (line_transform undo kernel) w h (picture (pos 0) stride buf.old) }
{
    for y in 0..h {
        lines(kernel, undo, buf, a, b, y * stride, 1, w / 2, 1);
    }
}

// The smaller of two numbers.
pub fn least(x: usize, y: usize) -> usize
    ensures { result ≡ min x y }
{
    if x < y { x } else { y }
}

// The column pass over the same area, a strip of columns at a time.
pub fn col_pass(
    kernel: Kernel,
    undo: bool,
    buf: &mut [i32],
    a: &mut [i32],
    b: &mut [i32],
    stride: usize,
    w: usize,
    h: usize,
)
    requires area { Area stride w h buf.old a.old b.old }
    requires by_index { (x : ℕ) → x < w → Takes undo h (turned (picture (pos 0) stride buf.old) x) }
    ensures { picture (pos 0) stride buf.new ≡ col_pass (line_transform undo kernel) w h (picture (pos 0) stride buf.old) }
{
    let mut x: usize = 0;
    while x < w {
        let lanes = least(LANES, w - x);
        lines(kernel, undo, buf, a, b, x, stride, h / 2, lanes);
        x += lanes;
    }
}
