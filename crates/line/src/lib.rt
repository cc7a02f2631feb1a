// The transforms of a line and the line mask as definitions, with their theorems, and the border rule and the count of a test as code; `lifting` and `line_mask` have the rest of the code.
#![tactic(auto)]

ghost use Rattle.std.specs.Prelude.{◌≡◌, ◌<◌};
ghost use Rattle.line.specs.Cells.{choose};
ghost use Rattle.line.specs.Transform.{inside};

// The index among m that stands for u - d: it is reflected about the lower border, and then about the upper one.
pub fn inside(m: usize, u: usize, d: usize) -> usize
    requires { 0 < m }
    ensures { result ≡ inside m u d }
{
    let i = if u < d { d - u - 1 } else { u - d };
    if i < m {
        i
    } else {
        m - 1 - whole::least(i - m, m - 1)
    }
}

// 1 for a test that holds, else 0, so that a loop can count without a branch.
pub fn one(test: bool) -> usize
    ensures { result ≡ choose test 1 0 }
{
    test as usize
}
