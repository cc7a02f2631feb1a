// The formulas of the line transforms on single numbers. Sums are taken in 64 bits; what is stored fits 32.
// Kept for the comparison (lib.rt): the flag `add`.
ghost use Rattle.std.specs.Prelude.{◌≡◌};
ghost use Rattle.std.specs.Int.{w32};
ghost use Rattle.std.proofs.Common.{SFits};
ghost use Rattle.line.specs.Formulas as formula;
ghost use Rattle.earlier_passes.specs.Moved.{moved};

use crate::floors;

pub fn mean(a: i32, b: i32) -> i32
    ensures { result ≡ formula.mean a b }
{
    floors::floor2(a as i64 + b as i64) as i32
}

pub fn difference(a: i32, b: i32) -> i32
    requires { SFits w32 (formula.difference a b) }
    ensures { result ≡ formula.difference a b }
{
    (a as i64 - b as i64) as i32
}

// The first number of a pair, from its mean and its difference.
pub fn first_of(mean: i32, difference: i32) -> i32
    requires { SFits w32 (formula.first_of mean difference) }
    ensures { result ≡ formula.first_of mean difference }
{
    let half = floors::floor2(difference as i64 + 1);
    (mean as i64 + half) as i32
}

pub fn slope_a(before: i32, after: i32) -> i64
    ensures { result ≡ formula.slope_a before after }
{
    floors::floor4(before as i64 - after as i64)
}

pub fn slope_tt(before2: i32, before: i32, after: i32, after2: i32) -> i64
    ensures { result ≡ formula.slope_tt before2 before after after2 }
{
    let near = 22 * (before as i64 - after as i64);
    let far = 3 * (after2 as i64 - before2 as i64);
    floors::floor64(near + far - 32)
}

pub fn between(here: i32, after: i32) -> i64
    ensures { result ≡ formula.between here after }
{
    floors::floor2(here as i64 + after as i64)
}

pub fn smoothing(before: i32, here: i32) -> i64
    ensures { result ≡ formula.smoothing before here }
{
    floors::floor4(before as i64 + here as i64 + 2)
}

// An amount added to a number, or taken from it.
pub fn shifted(t: i32, amount: i64, add: bool) -> i32
    requires { SFits w32 (moved add t amount) }
    ensures { result ≡ moved add t amount }
{
    if add {
        (t as i64 + amount) as i32
    } else {
        (t as i64 - amount) as i32
    }
}
