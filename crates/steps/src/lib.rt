// The formulas of the line transforms on single numbers, in sums of 32 bits: what a formula asks of its numbers is a bound under which they fit.
#![tactic(auto)]

ghost use Rattle.std.specs.Prelude.{◌≡◌, ◌*◌, ◌^◌};
ghost use Rattle.std.specs.Int.{w32};
ghost use Rattle.std.proofs.Common.{SFits};
ghost use Rattle.whole.specs.Within.{Within};
ghost use Rattle.line.specs.Formulas as formula;
ghost use Rattle.steps.specs.Moved.{moved};

pub fn mean(a: i32, b: i32) -> i32
    requires { Within (2 ^ 29) a × Within (2 ^ 29) b }
    ensures { result ≡ formula.mean a b }
{
    whole::floor2(a + b)
}

pub fn difference(a: i32, b: i32) -> i32
    requires { SFits w32 (formula.difference a b) }
    ensures { result ≡ formula.difference a b }
{
    a - b
}

// The second number of a pair, from its mean and its difference.
pub fn second_of(mean: i32, difference: i32) -> i32
    requires { SFits w32 (formula.second_of mean difference) }
    ensures { result ≡ formula.second_of mean difference }
{
    mean - whole::floor2(difference)
}

pub fn slope_a(before: i32, after: i32) -> i32
    requires { Within (2 ^ 29) before × Within (2 ^ 29) after }
    ensures { result ≡ formula.slope_a before after }
{
    whole::floor4(before - after)
}

// 22 of the inner difference and 3 of the outer, less 32, over 64: divided by 2, by 4 and by 8, and what is a multiple of the divisor goes past
// each division, so that no sum leaves 32 bits.
pub fn slope_tt(before2: i32, before: i32, after: i32, after2: i32) -> i32
    requires within { Within (2 ^ 28) before2 × Within (2 ^ 28) before }
    requires within_2 { Within (2 ^ 28) after × Within (2 ^ 28) after2 }
    ensures { result ≡ formula.slope_tt before2 before after after2 }
{
    let inner = before - after;
    let outer = after2 - before2;
    let rest = whole::floor4(whole::floor2(outer) + outer - inner);
    whole::floor8(3 * inner - 4 + rest)
}

pub fn between(here: i32, after: i32) -> i32
    requires { Within (2 ^ 29) here × Within (2 ^ 29) after }
    ensures { result ≡ formula.between here after }
{
    whole::floor2(here + after)
}

pub fn smoothing(before: i32, here: i32) -> i32
    requires { Within (2 ^ 29) before × Within (2 ^ 29) here }
    ensures { result ≡ formula.smoothing before here }
{
    whole::floor4(before + here + 2)
}

// An amount added to a number, or taken from it: a flag, which the loops that move numbers are given as a value.
pub fn shifted(t: i32, amount: i32, add: bool) -> i32
    requires { SFits w32 (moved add t amount) }
    ensures { result ≡ moved add t amount }
{
    if add { t + amount } else { t - amount }
}
