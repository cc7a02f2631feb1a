// Loops over runs of numbers of one buffer. A loop is compiled for each step: nothing is decided for each number.
#![tactic(auto)]

ghost use Rattle.std.specs.Prelude.{◌≡◌, refl, Bool, true, false, ℕ, ◌+◌, ◌^◌, ◌≤◌, ◌<◌, length};
ghost use Rattle.std.specs.Int.{w32};
ghost use Rattle.std.proofs.Common.{SFits};
ghost use Rattle.whole.specs.Within.{Within};
ghost use Rattle.line.specs.Cells.{cell};
ghost use Rattle.line.specs.Formulas.{mean, difference, first_of, second_of};
ghost use Rattle.runs.specs.Cells.{Written, Pairs};
ghost use Rattle.runs.specs.Pair.{pair_first, pair_second, PairFit};
ghost use Rattle.runs.specs.Step as step;
ghost use Rattle.runs.specs.Step.{Step};
ghost use Rattle.runs.specs.Steps.{look_back, look_ahead, formula, moved_at, Apart, Room, NearBy, Near, Stays};

// The numbers that one number is moved from: that of the same place in its part, two before, one before, one after and two after.
#[derive(Clone, Copy)]
pub struct Around {
    pub here: i32,
    pub before2: i32,
    pub before: i32,
    pub after: i32,
    pub after2: i32,
}

// Where a run of numbers begins, and where the numbers that each of them is moved from begin.
#[derive(Clone, Copy)]
pub struct Taps {
    pub at: usize,
    pub here: usize,
    pub before2: usize,
    pub before: usize,
    pub after: usize,
    pub after2: usize,
}

// A lifting step: how many rows it looks back and ahead, and what it moves a number by.
pub trait Lift {
    ghost step: { Step };

    const BACK: usize;

    const AHEAD: usize;

    ghost BACK: { ℕ };

    ghost AHEAD: { ℕ };

    fn amount(x: Around) -> i32
        requires { NearBy step x }
        ensures { result ≡ formula step x };

    ghost back_is: { BACK ≡ look_back step };

    ghost ahead_is: { AHEAD ≡ look_ahead step };
}

// The step of kernel 1.
pub struct SPlusP;

impl Lift for SPlusP {
    const BACK: usize = 1;

    const AHEAD: usize = 1;

    ghost step = { step.SPlusP };

    ghost BACK = { 1 };

    ghost AHEAD = { 1 };

    ghost back_is = { refl };

    ghost ahead_is = { refl };

    fn amount(x: Around) -> i32 {
        steps::slope_a(x.before, x.after)
    }
}

// The step of kernel 2.
pub struct TT;

impl Lift for TT {
    const BACK: usize = 2;

    const AHEAD: usize = 2;

    ghost step = { step.TT };

    ghost BACK = { 2 };

    ghost AHEAD = { 2 };

    ghost back_is = { refl };

    ghost ahead_is = { refl };

    fn amount(x: Around) -> i32 {
        steps::slope_tt(x.before2, x.before, x.after, x.after2)
    }
}

// Kernel 3's step on its highs.
pub struct High;

impl Lift for High {
    const BACK: usize = 0;

    const AHEAD: usize = 1;

    ghost step = { step.High };

    ghost BACK = { 0 };

    ghost AHEAD = { 1 };

    ghost back_is = { refl };

    ghost ahead_is = { refl };

    fn amount(x: Around) -> i32 {
        steps::between(x.here, x.after)
    }
}

// Kernel 3's step on its lows.
pub struct Low;

impl Lift for Low {
    const BACK: usize = 1;

    const AHEAD: usize = 0;

    ghost step = { step.Low };

    ghost BACK = { 1 };

    ghost AHEAD = { 0 };

    ghost back_is = { refl };

    ghost ahead_is = { refl };

    fn amount(x: Around) -> i32 {
        steps::smoothing(x.before, x.here)
    }
}

// What becomes of the two numbers of a pair.
pub trait Pair {
    // Whether it is the pair that comes of a mean and a difference.
    ghost join: { Bool };

    fn both(x: i32, y: i32) -> (i32, i32)
        requires { PairFit join x y }
        ensures first { result.0 ≡ pair_first join x y }
        ensures second { result.1 ≡ pair_second join x y };
}

// A pair becomes its mean and its difference.
pub struct Split;

impl Pair for Split {
    ghost join = { false };

    fn both(x: i32, y: i32) -> (i32, i32) {
        (steps::mean(x, y), steps::difference(x, y))
    }
}

// A mean and a difference become the pair again.
pub struct Join;

impl Pair for Join {
    ghost join = { true };

    fn both(x: i32, y: i32) -> (i32, i32) {
        let second = steps::second_of(x, y);
        (second + y, second)
    }
}

// Each pair, of n numbers from a on and n from b on, becomes what P makes of it.
pub fn run_pairs<P: Pair>(l: &mut [i32], a: usize, b: usize, n: usize)
    requires n_in_bounds { (a + n ≤ length l.old) × (b + n ≤ length l.old) }
    requires apart { Apart a b n }
    requires by_index { (k : ℕ) → k < n → PairFit P.join (cell l.old (a + k)) (cell l.old (b + k)) }
    ensures { Pairs (λ k. pair_first P.join (cell l.old (a + k)) (cell l.old (b + k))) (λ k. pair_second P.join (cell l.old (a + k)) (cell l.old (b + k))) a b n l.old l.new }
{
    // By index: both runs are in one buffer, and which of them comes first, to part it there, is not told.
    for k in 0..n {
        let (x, y) = P::both(l[a + k], l[b + k]);
        l[a + k] = x;
        l[b + k] = y;
    }
}

// A lifting step on a run of n numbers, from the numbers around them: what it computes is added or taken off. That is a flag: a type for each way would
// come to two calls wherever it is chosen, and the compiler makes two loops of this one.
pub fn run<S: Lift>(l: &mut [i32], p: Taps, n: usize, add: bool)
    requires room { Room p n l.old }
    requires near { Near S.step l.old p n }
    requires stays { Stays S.step add l.old p n }
    ensures { Written (moved_at S.step add l.old p) p.at n l.old l.new }
{
    // By index: the numbers around are in the buffer that is written, which an iterator over the run would hold.
    for k in 0..n {
        let x = Around {
            here: l[p.here + k],
            before2: l[p.before2 + k],
            before: l[p.before + k],
            after: l[p.after + k],
            after2: l[p.after2 + k],
        };
        let amount = S::amount(x);
        l[p.at + k] = steps::shifted(l[p.at + k], amount, add);
    }
}
