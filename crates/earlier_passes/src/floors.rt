// Signed floor division by 2, 4 and 64, from the language's division, which rounds towards zero.
// Kept for the comparison (lib.rt): a function for each divisor.
ghost use Rattle.std.specs.Prelude.{◌≡◌};
ghost use Rattle.whole.specs.Floor.{floor_div};

pub fn floor2(x: i64) -> i64
    ensures { result ≡ floor_div x 2 }
{
    if x >= 0 { x / 2 } else { (x + 1) / 2 - 1 }
}

pub fn floor4(x: i64) -> i64
    ensures { result ≡ floor_div x 4 }
{
    if x >= 0 { x / 4 } else { (x + 1) / 4 - 1 }
}

pub fn floor64(x: i64) -> i64
    ensures { result ≡ floor_div x 64 }
{
    if x >= 0 { x / 64 } else { (x + 1) / 64 - 1 }
}
