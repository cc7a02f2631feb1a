// The line mask, on lines side by side in one buffer: the marks of their evens and odds become those of their lows and highs.
#![tactic(auto)]

ghost use Rattle.std.specs.Prelude.{◌≡◌, ◌+◌, ◌*◌, ◌/◌, ◌^◌, ◌<◌, ◌≤◌, length};
ghost use Rattle.line.specs.Cells.{low_side};
ghost use Rattle.kernel.specs.declared.Kernel.TheVariants.{FiveThree};
ghost use Rattle.line_mask.specs.Marks.{Apart, Parts, Joined, Reached, Masked};

use kernel::Kernel;

// Where the marks of `lanes` lines stand in a buffer: those of their evens from a on, as many as the lows, and those of their odds from b on, as
// many as the highs, mark n of line j at n · lanes + j. Beside `lifting::TwoParts` a type of its own: marks lie end to end, so there is no step.
#[derive(Clone, Copy)]
pub struct Lines {
    pub a: usize,
    pub b: usize,
    pub lows: usize,
    pub highs: usize,
    pub lanes: usize,
}

impl Lines {
    // Lines of n marks, from `at` on, the odds right behind the evens.
    pub fn parted(at: usize, n: usize, lanes: usize) -> Lines
        requires { at + n * lanes < 2 ^ 64 }
        ensures { result ≡ record { a = at; b = at + low_side n * lanes; lows = low_side n; highs = n / 2; lanes = lanes } }
    {
        let lows = n - n / 2;
        Lines {
            a: at,
            b: at + lows * lanes,
            lows,
            highs: n / 2,
            lanes,
        }
    }
}

// Joins n marks, from `from` on, to those from `at` on.
fn join_marks(marks: &mut [u8], at: usize, from: usize, n: usize)
    requires n_in_bounds { (at + n ≤ length marks.old) × (from + n ≤ length marks.old) }
    requires apart { Apart at from n }
    ensures { Joined at from n marks.old marks.new }
{
    // By index: both runs are in one buffer, and std says only the length of what is written through a zip.
    for k in 0..n {
        marks[at + k] = marks[at + k] | marks[from + k];
    }
}

// Kernels 0 to 2: a high has the mark of its pair, a low those of the pairs within reach; an unpaired sample marks its own low alone.
fn mask_pairs(reach: usize, marks: &mut [u8], lines: Lines)
    requires { Parts lines.a lines.b lines.lanes lines.lows lines.highs marks.old }
    ensures { Reached reach lines.a lines.b lines.lanes lines.lows lines.highs marks.old marks.new }
{
    let Lines {
        a,
        b,
        lows,
        highs,
        lanes,
    } = lines;
    let low_count = lows * lanes;
    let high_count = highs * lanes;
    join_marks(marks, b, a, high_count);
    join_marks(marks, a, b, high_count); // each low's own pair
    for k in 0..reach {
        let d = k + 1;
        if d < lows {
            let shift = d * lanes;
            join_marks(marks, a + shift, b, low_count - shift);
            join_marks(marks, a, b + shift, high_count - shift);
        }
    }
}

// Kernel 3: a low has the marks of X(2n), X(2n+1) and X(2n−1), a high those of X(2n+1), low n and low n+1.
fn mask_five_three(marks: &mut [u8], lines: Lines)
    requires { Parts lines.a lines.b lines.lanes lines.lows lines.highs marks.old }
    ensures { Masked FiveThree lines.a lines.b lines.lanes lines.lows lines.highs marks.old marks.new }
{
    let Lines {
        a,
        b,
        lows,
        highs,
        lanes,
    } = lines;
    let low_count = lows * lanes;
    let high_count = highs * lanes;
    join_marks(marks, a, b, high_count);
    join_marks(marks, a + lanes, b, low_count - lanes);
    join_marks(marks, b, a, high_count);
    join_marks(marks, b, a + lanes, low_count - lanes);
}

// Makes the masks of lines in place: the lows' marks take the evens' place, the highs' the odds'.
#[inline(always)]
pub fn mask(kernel: Kernel, marks: &mut [u8], lines: Lines)
    requires { Parts lines.a lines.b lines.lanes lines.lows lines.highs marks.old }
    ensures { Masked kernel lines.a lines.b lines.lanes lines.lows lines.highs marks.old marks.new }
{
    mask_parts(
        kernel,
        marks,
        lines.a,
        lines.b,
        lines.lows,
        lines.highs,
        lines.lanes,
    );
}

// The same of numbers, most of which come in registers: a struct is handed on in memory, and rows of one mark then take up to 1.4 times as long.
fn mask_parts(
    kernel: Kernel,
    marks: &mut [u8],
    a: usize,
    b: usize,
    lows: usize,
    highs: usize,
    lanes: usize,
)
    requires { Parts a b lanes lows highs marks.old }
    ensures { Masked kernel a b lanes lows highs marks.old marks.new }
{
    let lines = Lines {
        a,
        b,
        lows,
        highs,
        lanes,
    };
    match kernel {
        Kernel::FiveThree => mask_five_three(marks, lines),
        Kernel::S | Kernel::SPlusP | Kernel::TT => mask_pairs(kernel.reach(), marks, lines),
    }
}
