// Refusals: what an entry answers, and the tests that entries share.
#![tactic(auto)]

ghost use Rattle.std.specs.Prelude.{◌≡◌, ◌+◌, ◌<◌, ◌≤◌, ◌^◌, ℕ, Bool, true, false, length, MatchResult};
ghost use Rattle.kernel.specs.Kernels.{the_kernel};
ghost use Rattle.line.specs.Mask.{any_below};
ghost use Rattle.refusal.specs.Numbers.{refusal_number, answer_number, needed_length};
ghost use Rattle.refusal.specs.Tests as tests;
ghost use Rattle.refusal.specs.Parts.{part_size, part_start, Tells};

use kernel::Kernel;
use std::error::Error;
use std::fmt;

// Refusals 1 to 17 and 19, in the order of their numbers (docs/FORMAT.md, "Refusals"). 11 has the needed length.
#[derive(Clone, Copy, Debug, PartialEq, Eq)]
pub enum Refusal {
    Kernel,
    Levels,
    Depth,
    Size,
    Length,
    Sample,
    Numbers,
    Rectangle,
    Mark,
    Magnitude,
    Room(usize),
    Header,
    Version,
    Planes,
    Cut,
    Filling,
    Level,
    NoSample,
}

impl From<Refusal> for u64 {
    ghost from_gives = { λ refusal number. number ≡ refusal_number refusal };

    fn from(refusal: Refusal) -> u64 {
        match refusal {
            Refusal::Kernel => 1,
            Refusal::Levels => 2,
            Refusal::Depth => 3,
            Refusal::Size => 4,
            Refusal::Length => 5,
            Refusal::Sample => 6,
            Refusal::Numbers => 7,
            Refusal::Rectangle => 8,
            Refusal::Mark => 9,
            Refusal::Magnitude => 10,
            Refusal::Room(_) => 11,
            Refusal::Header => 12,
            Refusal::Version => 13,
            Refusal::Planes => 14,
            Refusal::Cut => 15,
            Refusal::Filling => 16,
            Refusal::Level => 17,
            Refusal::NoSample => 19,
        }
    }
}

// The number of a refusal.
pub fn refusal_number(refusal: Refusal) -> u64
    ensures { result ≡ refusal_number refusal }
{
    u64::from(refusal)
}

// The words that the C header has for the refusal's number.
impl fmt::Display for Refusal {
    fn fmt<W: fmt::Write>(&self, f: &mut fmt::Formatter<W>) -> fmt::Result {
        f.write_str(match self {
            Refusal::Kernel => "the kernel is not 0 to 3",
            Refusal::Levels => "the levels J are not 1 to 5",
            Refusal::Depth => "the depth D is not 1 to 10",
            Refusal::Size => "width or height is not 1 to 4,096",
            Refusal::Length => "a buffer is not as long as the picture or the area that it is for",
            Refusal::Sample => "a sample is above 2^D - 1",
            Refusal::Numbers => "there are more than 32 rectangles",
            Refusal::Rectangle => "a rectangle is empty or not wholly inside the picture",
            Refusal::Mark => "a region or mask byte is above 1",
            Refusal::Magnitude => "a coefficient's magnitude is 2^22 or more",
            Refusal::Room(_) => "the stream buffer is too short",
            Refusal::Header =>
                "the stream is shorter than its header, or its length field does not fit its length",
            Refusal::Version => "the stream's version is not 1",
            Refusal::Planes => "the stream's plane count T is above 22",
            Refusal::Cut =>
                "the wanted length is below the region mark or above the stream's length, or the marked part is not whole",
            Refusal::Filling =>
                "behind the complete body there is a filling bit that is not 0, or a further byte",
            Refusal::Level => "the level r is above the levels J",
            Refusal::NoSample => "the region is without a sample",
        })
    }
}

impl Error for Refusal {}

// 0, or the number of the refusal.
pub fn answer_number<T>(answer: &Result<T, Refusal>) -> u64
    ensures { result ≡ answer_number answer.now }
{
    match answer {
        Ok(_) => 0,
        Err(refusal) => refusal_number(*refusal),
    }
}

// The needed length of refusal 11, 0 of another.
pub fn needed_length(refusal: Refusal) -> usize
    ensures { result ≡ needed_length refusal }
{
    match refusal {
        Refusal::Room(needed) => needed,
        _ => 0,
    }
}

// A refusal where its test holds, so that an entry reads as its tests in their order.
pub fn refuse(bad: bool, refusal: Refusal) -> Result<(), Refusal>
    ensures { MatchResult result (λ _. bad ≡ false) (λ e. (bad ≡ true) × (e ≡ refusal)) }
{
    if bad { Err(refusal) } else { Ok(()) }
}

// The kernel of a number, or refusal 1.
pub fn known_kernel(number: usize) -> Result<Kernel, Refusal>
    ensures { MatchResult result (λ k. (tests.bad_kernel number ≡ false) × (k ≡ the_kernel number)) (λ e. (tests.bad_kernel number ≡ true) × (e ≡ Refusal.Kernel)) }
{
    Kernel::new(number).ok_or(Refusal::Kernel)
}

pub fn bad_levels(levels: usize) -> bool
    ensures { result ≡ tests.bad_levels levels }
{
    (levels < 1) | (5 < levels)
}

pub fn bad_level(r: usize, levels: usize) -> bool
    ensures { result ≡ tests.bad_level r levels }
{
    levels < r
}

pub fn bad_depth(depth: usize) -> bool
    ensures { result ≡ tests.bad_depth depth }
{
    (depth < 1) | (10 < depth)
}

pub fn bad_size(w: usize, h: usize) -> bool
    ensures { result ≡ tests.bad_size w h }
{
    (w < 1) | (4096 < w) | ((h < 1) | (4096 < h))
}

// 2 to the n.
pub fn power(n: usize) -> usize
    requires { n < 64 }
    ensures { result ≡ 2 ^ n }
{
    1 << n
}

// How many cells each of four parts of n cells has; they may overlap.
#[tactic(auto, unfolding(crate::specs::Parts::part_size))]
fn part_size(n: usize) -> usize
    ensures size { result ≡ part_size n }
    ensures inside { result ≤ n }
{
    whole::least(n / 4 + 1, n)
}

// Where part p begins: behind the part before it, if it then ends inside.
#[tactic(auto, unfolding(crate::specs::Parts::part_start))]
fn part_start(n: usize, p: usize) -> usize
    requires { p < 4 }
    ensures start { result ≡ part_start n p }
    ensures inside { result + part_size n ≤ n }
{
    let size = part_size(n);
    whole::least(p * size, n - size)
}

// A test holds of a cell. The scan goes through every cell, so that the compiler can test many at a time, and through four parts of the cells
// side by side, so that memory brings a line of each at a time.
fn any_cell<T: Copy, F: Fn(T) -> bool>(cells: &[T], test: F) -> bool
    requires { F.IsAlwaysCallable test }
    ensures { (o : T) (f : ℕ → Bool) → Tells (F.post test) o f cells.now → result ≡ any_below (length cells.now) f }
{
    let b = part_start(cells.len(), 1);
    let c = part_start(cells.len(), 2);
    let d = part_start(cells.len(), 3);
    let mut found = false;
    // By index: over the four parts zipped, 512 by 512 samples took twelve times as long.
    for i in 0..part_size(cells.len()) {
        found = found
            | (test(cells[i]) | test(cells[b + i]) | (test(cells[c + i]) | test(cells[d + i])));
    }
    found
}

// A sample is above 2^depth - 1.
pub fn bad_sample(depth: usize, samples: &[u16]) -> bool
    requires { depth ≤ 10 }
    ensures { result ≡ tests.bad_sample depth samples.now }
{
    let top = (power(depth) - 1) as u16;
    any_cell(samples, |sample| top < sample)
}

// A byte is above 1.
pub fn bad_mark(marks: &[u8]) -> bool
    ensures { result ≡ tests.bad_mark marks.now }
{
    any_cell(marks, |mark| 1 < mark)
}

// A magnitude is 2^22 or more.
pub fn bad_magnitude(plane: &[i32]) -> bool
    ensures { result ≡ tests.bad_magnitude plane.now }
{
    any_cell(plane, |c| 4194304 <= c.unsigned_abs())
}

#[cfg(test)]
mod tests {
    use super::*;
    use std::alloc::AllocError;

    // What no clause says: the words, as the C header has them (host/tool's tests compare all of them).
    #[test]
    fn a_refusal_says_why(rt: HostRuntime) -> Result<(), AllocError> {
        for (refusal, words) in [
            (Refusal::Size, "width or height is not 1 to 4,096"),
            (Refusal::NoSample, "the region is without a sample"),
        ] {
            let said = refusal.to_string(rt.alloc())?;
            assert_eq!(rt; said.as_str(), words);
        }
        Ok(())
    }
}
