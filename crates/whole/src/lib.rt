// Floor division of signed numbers by 2, 4 and 8, from the language's division of unsigned ones; magnitudes; the smaller and the larger of two numbers.
#![tactic(auto)]

ghost use Rattle.std.specs.Prelude.{◌≡◌, min, max, nat_abs};
ghost use Rattle.whole.specs.Floor.{floor_div};

// 2^31 more is never negative, and its quotient is 2^31 / 2 more: no case for negative numbers.
pub fn floor2(x: i32) -> i32
    ensures { result ≡ floor_div x 2 }
{
    ((x as i64 + 2147483648) as u32 / 2) as i32 - 1073741824
}

pub fn floor4(x: i32) -> i32
    ensures { result ≡ floor_div x 4 }
{
    ((x as i64 + 2147483648) as u32 / 4) as i32 - 536870912
}

pub fn floor8(x: i32) -> i32
    ensures { result ≡ floor_div x 8 }
{
    ((x as i64 + 2147483648) as u32 / 8) as i32 - 268435456
}

// The magnitude of a number.
pub fn magnitude(x: i32) -> u64
    ensures { result ≡ nat_abs x }
{
    if x < 0 {
        (0 - x as i64) as u64
    } else {
        x as u64
    }
}

// The smaller of two numbers.
pub fn least(x: usize, y: usize) -> usize
    ensures { result ≡ min x y }
{
    if x < y { x } else { y }
}

// The larger.
pub fn most(x: usize, y: usize) -> usize
    ensures { result ≡ max x y }
{
    if x < y { y } else { x }
}
