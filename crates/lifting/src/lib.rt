// Lifting: the line transforms, forward and back, in place on lines side by side whose two parts stand in one buffer.
#![tactic(auto)]

ghost use Rattle.std.specs.Prelude.{◌≡◌, refl, ℕ, ◌+◌, ◌*◌, ◌^◌, ◌≤◌, ◌<◌, min, length};
ghost use Rattle.line.specs.Transform as line;
ghost use Rattle.lifting.specs.Parts.{In, Parts, Bounded, Both};
ghost use Rattle.lifting.specs.Steps.{taps_of, EndToEnd};
ghost use Rattle.lifting.specs.Lines.{RowsWithin, first_lows, first_highs, second_lows, second_highs, SecondTakes, lows_of, highs_of};
ghost use Rattle.lifting.specs.Stages.{Stage, Moved, Paired, stage_back, stage_ahead, Alike, Takes, Makes};

use kernel::Kernel;
use runs::{High, Join, Lift, Low, SPlusP, Split, TT, Taps};
use std::marker::PhantomData;

// Two parts of lines side by side in one buffer, evens and odds or lows and highs: rows of `lanes` numbers, `step` apart, `lows` rows from place a on
// and `highs` rows from place b on.
#[derive(Clone, Copy)]
pub struct TwoParts {
    pub a: usize,
    pub b: usize,
    pub step: usize,
    pub lanes: usize,
    pub lows: usize,
    pub highs: usize,
}

// Where row n of the part at `part` begins, in a buffer of `size` numbers. It is inside; the compiler, which is not told so, leaves each
// row its own test that it does not overlap the rows it is computed from. One test for all rows fails where the parts are interleaved.
fn row_start(size: usize, part: usize, n: usize, step: usize) -> usize
    requires { part + n * step < size }
    ensures { result ≡ part + n * step }
{
    whole::least(part + n * step, size)
}

// Where the row of a part of m rows begins that stands for row u - d.
fn row_near(size: usize, part: usize, m: usize, u: usize, d: usize, step: usize) -> usize
    requires m_nonzero { 0 < m }
    requires fact { In part step m 1 size }
    ensures { result ≡ part + line.inside m u d * step }
{
    row_start(size, part, line::inside(m, u, d), step)
}

// Where row n of the second part begins, and those of the rows of the first that it is moved from.
fn taps<S: Lift>(size: usize, p: TwoParts, n: usize) -> Taps
    requires lows_nonzero { (0 < p.lows) × (n < 2 ^ 32) }
    requires step_bound { p.b + n * p.step < size }
    requires fact { In p.a p.step p.lows 1 size }
    ensures { result ≡ taps_of S.step p.lows p.b p.a p.step n }
{
    let near_back = whole::least(1, S::BACK);
    let near_ahead = whole::least(1, S::AHEAD);
    Taps {
        at: row_start(size, p.b, n, p.step),
        here: row_near(size, p.a, p.lows, n, 0, p.step),
        before2: row_near(size, p.a, p.lows, n, S::BACK, p.step),
        before: row_near(size, p.a, p.lows, n, near_back, p.step),
        after: row_near(size, p.a, p.lows, n + near_ahead, 0, p.step),
        after2: row_near(size, p.a, p.lows, n + S::AHEAD, 0, p.step),
    }
}

// What a kernel does with rows of two parts, or undoes, and how many rows back and ahead it looks. `undo` is a flag through all of lifting: kernel 3's
// second step turns it, and a const argument can't be computed.
// Stages and what calls them are inlined: in a line of one lane a row is one number, and compiled for that it needs no loop.
trait OnRows {
    // Which of the stages it is.
    ghost stage: { Stage };

    const BACK: usize;

    const AHEAD: usize;

    ghost BACK: { ℕ };

    ghost AHEAD: { ℕ };

    // The r rows from row n on, which lie end to end.
    fn rows(l: &mut [i32], p: TwoParts, n: usize, r: usize, undo: bool)
        requires r_nonzero { 0 < r }
        requires end_to_end { EndToEnd p.step p.lanes r }
        requires alike { Alike stage p.lows n r }
        requires takes { Takes stage undo p n (n + r) l.old }
        ensures { Makes stage undo p n (n + r) l.old l.new };

    ghost back_is: { BACK ≡ stage_back stage };

    ghost ahead_is: { AHEAD ≡ stage_ahead stage };
}

// The lifting step S, which moves rows of the second part by what it computes from the first.
struct Moves<S> {
    of: PhantomData<S>,
}

impl<S: Lift> OnRows for Moves<S> {
    const BACK: usize = S::BACK;

    const AHEAD: usize = S::AHEAD;

    ghost stage = { Moved S.step };

    ghost BACK = { S.BACK };

    ghost AHEAD = { S.AHEAD };

    ghost back_is = { S.back_is };

    ghost ahead_is = { S.ahead_is };

    #[inline(always)]
    fn rows(l: &mut [i32], p: TwoParts, n: usize, r: usize, undo: bool) {
        let taps = taps::<S>(l.len(), p, n);
        runs::run::<S>(l, taps, r * p.lanes, undo);
    }
}

// Pairs of a row of each part, which become means and differences, or undone from them pairs again.
struct Pairs;

impl OnRows for Pairs {
    const BACK: usize = 0;

    const AHEAD: usize = 0;

    ghost stage = { Paired };

    ghost BACK = { 0 };

    ghost AHEAD = { 0 };

    ghost back_is = { refl };

    ghost ahead_is = { refl };

    #[inline(always)]
    fn rows(l: &mut [i32], p: TwoParts, n: usize, r: usize, undo: bool) {
        let first = row_start(l.len(), p.a, n, p.step);
        let second = row_start(l.len(), p.b, n, p.step);
        if undo {
            runs::run_pairs::<Join>(l, first, second, r * p.lanes);
        } else {
            runs::run_pairs::<Split>(l, first, second, r * p.lanes);
        }
    }
}

// The rows d up to e, one at a time.
#[inline(always)]
fn each_row<T: OnRows>(l: &mut [i32], p: TwoParts, d: usize, e: usize, undo: bool)
    requires d_le_e { d ≤ e }
    requires takes { Takes T.stage undo p d e l.old }
    ensures { Makes T.stage undo p d e l.old l.new }
{
    for n in d..e {
        T::rows(l, p, n, 1, undo);
    }
}

// The same. Where the rows lie end to end, those whose neighbours the border rule gives go one at a time, those between as one run.
#[inline(always)]
fn all_rows<T: OnRows>(l: &mut [i32], p: TwoParts, d: usize, e: usize, undo: bool)
    requires d_le_e { d ≤ e }
    requires takes { Takes T.stage undo p d e l.old }
    ensures { Makes T.stage undo p d e l.old l.new }
{
    // From row `first` up to row `last` no row outside is looked at.
    let ahead = T::AHEAD;
    let first = whole::most(d, T::BACK);
    let seen = whole::least(p.lows, e + ahead);
    if seen <= first + ahead || p.step != p.lanes {
        each_row::<T>(l, p, d, e, undo);
        return;
    }
    let last = seen - ahead;
    each_row::<T>(l, p, d, first, undo);
    T::rows(l, p, first, last - first, undo);
    each_row::<T>(l, p, last, e, undo);
}

// The first step of a kernel, or that step undone, on the rows d up to e, as far as there are: kernels 0 to 2 make means and differences of pairs and
// leave an unpaired low as it is, kernel 3 takes what it predicts off the highs.
#[inline(always)]
pub fn first_step(kernel: Kernel, undo: bool, l: &mut [i32], p: TwoParts, d: usize, e: usize)
    requires d_le_e { (d ≤ e) × (e ≤ p.lows) × (0 < p.lows) }
    requires parts { Parts p.a p.b p.step p.lows p.highs p.lanes (length l.old) }
    requires bounded { Bounded (2 ^ 29) p.a p.step p.lows p.lanes l.old }
    requires rows_within { RowsWithin (2 ^ 29) p.b p.step p.lanes d (min e p.highs) l.old }
    ensures { Both (first_lows undo kernel p.highs) (first_highs undo kernel p.lows) p.a p.b p.step p.lanes d e (min e p.highs) l.old l.new }
{
    let from = whole::least(d, p.highs);
    let to = whole::least(e, p.highs);
    match kernel {
        Kernel::S | Kernel::SPlusP | Kernel::TT => all_rows::<Pairs>(l, p, from, to, undo),
        Kernel::FiveThree => all_rows::<Moves<High>>(l, p, from, to, undo),
    }
}

// The second step, or that step undone, on the rows d up to e, as far as there are: kernels 1 and 2 take what they predict off the highs, kernel 3
// smooths the lows, if there are highs.
#[inline(always)]
pub fn second_step(kernel: Kernel, undo: bool, l: &mut [i32], p: TwoParts, d: usize, e: usize)
    requires d_le_e { (d ≤ e) × (e ≤ p.lows) × (e ≤ p.highs + 1) × (0 < p.lows) }
    requires parts { Parts p.a p.b p.step p.lows p.highs p.lanes (length l.old) }
    requires second_takes { SecondTakes kernel p.a p.b p.step p.lows p.highs p.lanes d e l.old }
    ensures { Both (second_lows undo kernel p.highs) (second_highs undo kernel p.lows) p.a p.b p.step p.lanes d e (min e p.highs) l.old l.new }
{
    let from = whole::least(d, p.highs);
    let to = whole::least(e, p.highs);
    match kernel {
        Kernel::S => {}
        Kernel::SPlusP => all_rows::<Moves<SPlusP>>(l, p, from, to, undo),
        Kernel::TT => all_rows::<Moves<TT>>(l, p, from, to, undo),
        Kernel::FiveThree => {
            if 0 < p.highs {
                let turned = TwoParts {
                    a: p.b,
                    b: p.a,
                    lows: p.highs,
                    highs: p.lows,
                    ..p
                };
                all_rows::<Moves<Low>>(l, turned, d, e, !undo);
            }
        }
    }
}

// The transforms of `lanes` lines, whose evens are the first part and whose odds the second: the lows take the evens' place, the highs the odds'.
// Inlined: in the short rows of deep levels a call costs kernel 0 a twelfth of its time.
#[inline(always)]
pub fn forward(kernel: Kernel, l: &mut [i32], p: TwoParts)
    requires lows_nonzero { (0 < p.lows) × (p.highs ≤ p.lows) × (p.lows ≤ p.highs + 1) }
    requires parts { Parts p.a p.b p.step p.lows p.highs p.lanes (length l.old) }
    requires bounded { Bounded (5 * 2 ^ 22) p.a p.step p.lows p.lanes l.old }
    requires bounded_2 { Bounded (5 * 2 ^ 22) p.b p.step p.highs p.lanes l.old }
    ensures { Both (lows_of kernel p.lows p.highs) (highs_of kernel p.lows p.highs) p.a p.b p.step p.lanes 0 p.lows p.highs l.old l.new }
{
    first_step(kernel, false, l, p, 0, p.lows);
    second_step(kernel, false, l, p, 0, p.lows);
}

// The way back: the lows of `lanes` lines are the first part, their highs the second, and the lines' evens and odds take their place.
pub fn back(kernel: Kernel, l: &mut [i32], p: TwoParts)
    requires lows_nonzero { (0 < p.lows) × (p.highs ≤ p.lows) × (p.lows ≤ p.highs + 1) }
    requires parts { Parts p.a p.b p.step p.lows p.highs p.lanes (length l.old) }
    requires bounded { Bounded (2 ^ 28) p.a p.step p.lows p.lanes l.old }
    requires bounded_2 { Bounded (2 ^ 24) p.b p.step p.highs p.lanes l.old }
    ensures { Both (line.undone_evens kernel p.lows p.highs) (line.undone_odds kernel p.lows p.highs) p.a p.b p.step p.lanes 0 p.lows p.highs l.old l.new }
{
    second_step(kernel, true, l, p, 0, p.lows);
    first_step(kernel, true, l, p, 0, p.lows);
}
