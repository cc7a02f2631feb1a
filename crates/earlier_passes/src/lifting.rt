// Lifting: the line transforms, forward and back, on strips of lines side by side.
// Kept for the comparison (lib.rt): the switch on the step, the flag `add`, and numbers that go side by side.
ghost use Rattle.std.specs.Prelude.{◌≡◌, ◌+◌, ◌*◌, ◌^◌, ◌≤◌, ◌<◌};
ghost use Rattle.kernel.specs.declared.Kernel.{Kernel};
ghost use Rattle.earlier_passes.specs.Strip.{Strips};
ghost use Rattle.earlier_passes.specs.Lifting.{step_reach, taps_of, Straight, Fit, Lifted};
ghost use Rattle.earlier_passes.specs.Lines.{Samples, Coefficients, Forward, Predicted, Back, Unpredicted};

use crate::runs;
use crate::runs::{Step, Taps};
use kernel::Kernel;

fn reach_of(s: Step) -> usize
    ensures { result ≡ step_reach s }
{
    match s {
        Step::SPlusP => Kernel::SPlusP.reach(),
        Step::TT => Kernel::TT.reach(),
        Step::High => Kernel::FiveThree.reach(),
        Step::Low => Kernel::FiveThree.reach(),
    }
}

// Where row n and the rows around it begin.
fn taps(s: Step, m: usize, lanes: usize, n: usize) -> Taps
    requires { (n < m) × (m < 2 ^ 32) × (m * lanes < 2 ^ 32) }
    ensures { result ≡ taps_of s m lanes n }
{
    let reach = reach_of(s);
    let before2 = line::inside(m, n, reach);
    let before = line::inside(m, n, 1);
    let after = line::inside(m, n + 1, 0);
    let after2 = line::inside(m, n + reach, 0);
    Taps {
        here: n * lanes,
        before2: before2 * lanes,
        before: before * lanes,
        after: after * lanes,
        after2: after2 * lanes,
    }
}

// A lifting step on r rows from row n on.
fn lift_rows(
    s: Step,
    t: &mut [i32],
    x: &[i32],
    m: usize,
    lanes: usize,
    n: usize,
    r: usize,
    add: bool,
)
    requires r_nonzero { (0 < r) × (n + r ≤ m) }
    requires strips { Strips m lanes t.old x.now }
    requires straight { Straight s m n r }
    requires fit { Fit s add m lanes n (n + r) t.old x.now }
    ensures { Lifted s add m lanes n (n + r) t.old x.now t.new }
{
    let p = taps(s, m, lanes, n);
    runs::run(s, t, x, p, r * lanes, add);
}

// The rows a up to b, one at a time: those whose neighbours the border rule gives.
fn lift_edge(
    s: Step,
    t: &mut [i32],
    x: &[i32],
    m: usize,
    lanes: usize,
    a: usize,
    b: usize,
    add: bool,
)
    requires a_le_b { (a ≤ b) × (b ≤ m) }
    requires strips { Strips m lanes t.old x.now }
    requires fit { Fit s add m lanes a b t.old x.now }
    ensures { Lifted s add m lanes a b t.old x.now t.new }
{
    for n in a..b {
        lift_rows(s, t, x, m, lanes, n, 1, add);
    }
}

// A lifting step on all m rows: at both ends row by row, between them as one run.
fn lift(s: Step, t: &mut [i32], x: &[i32], m: usize, lanes: usize, add: bool)
    requires strips { Strips m lanes t.old x.now }
    requires fit { Fit s add m lanes 0 m t.old x.now }
    ensures { Lifted s add m lanes 0 m t.old x.now t.new }
{
    let reach = reach_of(s);
    if m <= reach + reach {
        lift_edge(s, t, x, m, lanes, 0, m, add);
        return;
    }
    lift_edge(s, t, x, m, lanes, 0, reach, add);
    lift_rows(s, t, x, m, lanes, reach, m - reach - reach, add);
    lift_edge(s, t, x, m, lanes, m - reach, m, add);
}

// Kernel 0, forward: each pair becomes its mean and its difference.
fn forward_s(even: &mut [i32], odd: &mut [i32], m: usize, lanes: usize)
    requires strips { Strips m lanes even.old odd.old }
    requires samples { Samples (m * lanes) even.old odd.old }
    ensures { Forward Kernel.S m lanes even.old odd.old even.new odd.new }
{
    runs::split_pairs(even, odd, m * lanes);
}

// Kernels 1 and 2, forward: what step s predicts is taken off the differences.
fn forward_pairs(s: Step, even: &mut [i32], odd: &mut [i32], m: usize, lanes: usize)
    requires strips { Strips m lanes even.old odd.old }
    requires samples { Samples (m * lanes) even.old odd.old }
    ensures { Predicted s m lanes even.old odd.old even.new odd.new }
{
    runs::split_pairs(even, odd, m * lanes);
    lift(s, odd, even, m, lanes, false);
}

// Kernel 3, forward.
fn forward_five_three(even: &mut [i32], odd: &mut [i32], m: usize, lanes: usize)
    requires strips { Strips m lanes even.old odd.old }
    requires samples { Samples (m * lanes) even.old odd.old }
    ensures { Forward Kernel.FiveThree m lanes even.old odd.old even.new odd.new }
{
    lift(Step::High, odd, even, m, lanes, false);
    lift(Step::Low, even, odd, m, lanes, true);
}

// The transforms of `lanes` lines of 2m numbers, whose evens and odds are lent: the lows take the evens' place, the highs the odds'.
pub fn forward(kernel: Kernel, even: &mut [i32], odd: &mut [i32], m: usize, lanes: usize)
    requires strips { Strips m lanes even.old odd.old }
    requires samples { Samples (m * lanes) even.old odd.old }
    ensures { Forward kernel m lanes even.old odd.old even.new odd.new }
{
    match kernel {
        Kernel::S => forward_s(even, odd, m, lanes),
        Kernel::SPlusP => forward_pairs(Step::SPlusP, even, odd, m, lanes),
        Kernel::TT => forward_pairs(Step::TT, even, odd, m, lanes),
        Kernel::FiveThree => forward_five_three(even, odd, m, lanes),
    }
}

// Kernel 0, back.
fn back_s(low: &mut [i32], high: &mut [i32], m: usize, lanes: usize)
    requires strips { Strips m lanes low.old high.old }
    requires coefficients { Coefficients (m * lanes) low.old high.old }
    ensures { Back Kernel.S m lanes low.old high.old low.new high.new }
{
    runs::join_pairs(low, high, m * lanes);
}

// Kernels 1 and 2, back: what step s predicts is added to the highs.
fn back_pairs(s: Step, low: &mut [i32], high: &mut [i32], m: usize, lanes: usize)
    requires strips { Strips m lanes low.old high.old }
    requires coefficients { Coefficients (m * lanes) low.old high.old }
    ensures { Unpredicted s m lanes low.old high.old low.new high.new }
{
    lift(s, high, low, m, lanes, true);
    runs::join_pairs(low, high, m * lanes);
}

// Kernel 3, back.
fn back_five_three(low: &mut [i32], high: &mut [i32], m: usize, lanes: usize)
    requires strips { Strips m lanes low.old high.old }
    requires coefficients { Coefficients (m * lanes) low.old high.old }
    ensures { Back Kernel.FiveThree m lanes low.old high.old low.new high.new }
{
    lift(Step::Low, low, high, m, lanes, false);
    lift(Step::High, high, low, m, lanes, true);
}

// The way back: the lows and highs of `lanes` lines of 2m numbers are lent, and the lines' evens and odds take their place.
pub fn back(kernel: Kernel, low: &mut [i32], high: &mut [i32], m: usize, lanes: usize)
    requires strips { Strips m lanes low.old high.old }
    requires coefficients { Coefficients (m * lanes) low.old high.old }
    ensures { Back kernel m lanes low.old high.old low.new high.new }
{
    match kernel {
        Kernel::S => back_s(low, high, m, lanes),
        Kernel::SPlusP => back_pairs(Step::SPlusP, low, high, m, lanes),
        Kernel::TT => back_pairs(Step::TT, low, high, m, lanes),
        Kernel::FiveThree => back_five_three(low, high, m, lanes),
    }
}
