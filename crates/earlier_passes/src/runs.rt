// Loops over runs of numbers, one for each formula: nothing is decided for each number.
// Kept for the comparison (lib.rt): a loop by index for each formula, the switch on the step, and the flag `add`.
ghost use Rattle.std.specs.Prelude.{ℕ, ◌≤◌, ◌<◌, length};
ghost use Rattle.std.specs.Int.{w32};
ghost use Rattle.std.proofs.Common.{SFits};
ghost use Rattle.line.specs.Cells.{cell};
ghost use Rattle.line.specs.Formulas.{mean, difference, first_of, second_of};
ghost use Rattle.earlier_passes.specs.Written.{Written};
ghost use Rattle.earlier_passes.specs.Runs.{moved_at, Room, Stays};
ghost use Rattle.earlier_passes.specs.declared.runs.Step.TheVariants as step;

use crate::steps;

// A lifting step: that of kernel 1, that of kernel 2, and the two of kernel 3, for its highs and for its lows.
#[derive(Clone, Copy)]
pub enum Step {
    SPlusP,
    TT,
    High,
    Low,
}

// Where a run of numbers begins, and where the numbers before and after each of them begin.
#[derive(Clone, Copy)]
pub struct Taps {
    pub here: usize,
    pub before2: usize,
    pub before: usize,
    pub after: usize,
    pub after2: usize,
}

// Each pair a[k], b[k] becomes its mean and its difference.
pub fn split_pairs(a: &mut [i32], b: &mut [i32], n: usize)
    requires n_in_bounds { (n ≤ length a.old) × (n ≤ length b.old) }
    requires by_index { (k : ℕ) → k < n → SFits w32 (difference (cell a.old k) (cell b.old k)) }
    ensures written { Written (λ k. mean (cell a.old k) (cell b.old k)) 0 n a.old a.new }
    ensures written_2 { Written (λ k. difference (cell a.old k) (cell b.old k)) 0 n b.old b.new }
{
    for k in 0..n {
        let x = a[k];
        let y = b[k];
        a[k] = steps::mean(x, y);
        b[k] = steps::difference(x, y);
    }
}

// Each mean a[k] and difference b[k] becomes the pair again.
pub fn join_pairs(a: &mut [i32], b: &mut [i32], n: usize)
    requires n_in_bounds { (n ≤ length a.old) × (n ≤ length b.old) }
    requires by_index { (k : ℕ) → k < n → SFits w32 (first_of (cell a.old k) (cell b.old k)) × SFits w32 (second_of (cell a.old k) (cell b.old k)) }
    ensures written { Written (λ k. first_of (cell a.old k) (cell b.old k)) 0 n a.old a.new }
    ensures written_2 { Written (λ k. second_of (cell a.old k) (cell b.old k)) 0 n b.old b.new }
{
    for k in 0..n {
        let m = a[k];
        let d = b[k];
        let x = steps::first_of(m, d);
        a[k] = x;
        b[k] = steps::difference(x, d);
    }
}

fn run_a(t: &mut [i32], x: &[i32], p: Taps, n: usize, add: bool)
    requires room { Room p n t.old x.now }
    requires stays { Stays step.SPlusP add t.old x.now p n }
    ensures { Written (moved_at step.SPlusP add t.old x.now p) p.here n t.old t.new }
{
    let at = p.here;
    let b = p.before;
    let a = p.after;
    for k in 0..n {
        let amount = steps::slope_a(x[b + k], x[a + k]);
        t[at + k] = steps::shifted(t[at + k], amount, add);
    }
}

fn run_tt(t: &mut [i32], x: &[i32], p: Taps, n: usize, add: bool)
    requires room { Room p n t.old x.now }
    requires stays { Stays step.TT add t.old x.now p n }
    ensures { Written (moved_at step.TT add t.old x.now p) p.here n t.old t.new }
{
    let at = p.here;
    let b2 = p.before2;
    let b = p.before;
    let a = p.after;
    let a2 = p.after2;
    for k in 0..n {
        let amount = steps::slope_tt(x[b2 + k], x[b + k], x[a + k], x[a2 + k]);
        t[at + k] = steps::shifted(t[at + k], amount, add);
    }
}

fn run_high(t: &mut [i32], x: &[i32], p: Taps, n: usize, add: bool)
    requires room { Room p n t.old x.now }
    requires stays { Stays step.High add t.old x.now p n }
    ensures { Written (moved_at step.High add t.old x.now p) p.here n t.old t.new }
{
    let at = p.here;
    let a = p.after;
    for k in 0..n {
        let amount = steps::between(x[at + k], x[a + k]);
        t[at + k] = steps::shifted(t[at + k], amount, add);
    }
}

fn run_low(t: &mut [i32], x: &[i32], p: Taps, n: usize, add: bool)
    requires room { Room p n t.old x.now }
    requires stays { Stays step.Low add t.old x.now p n }
    ensures { Written (moved_at step.Low add t.old x.now p) p.here n t.old t.new }
{
    let at = p.here;
    let b = p.before;
    for k in 0..n {
        let amount = steps::smoothing(x[b + k], x[at + k]);
        t[at + k] = steps::shifted(t[at + k], amount, add);
    }
}

// A lifting step on a run of n numbers of t, from the numbers of x around them.
pub fn run(s: Step, t: &mut [i32], x: &[i32], p: Taps, n: usize, add: bool)
    requires room { Room p n t.old x.now }
    requires stays { Stays s add t.old x.now p n }
    ensures { Written (moved_at s add t.old x.now p) p.here n t.old t.new }
{
    match s {
        Step::SPlusP => run_a(t, x, p, n, add),
        Step::TT => run_tt(t, x, p, n, add),
        Step::High => run_high(t, x, p, n, add),
        Step::Low => run_low(t, x, p, n, add),
    }
}
