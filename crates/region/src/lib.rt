// The region that rectangles draw.
#![tactic(auto)]

ghost use Rattle.std.specs.Prelude.{◌≡◌, true, ◌+◌, ◌*◌, ◌%◌, ◌<◌, ◌≤◌, length, get_or};
ghost use Rattle.std.specs.List.{list_any};
ghost use Rattle.grid.specs.Placed.{woven};
ghost use Rattle.refusal.specs.Numbers.{answer_number, first, accepted};
ghost use Rattle.refusal.specs.Results.{Result};
ghost use Rattle.refusal.specs.Tests as tests;
ghost use Rattle.region.specs.Region.{region_byte, region_tests};
ghost use Rattle.region.specs.Drawing.{Filled, Drawn, Inside, placed_byte, DrawnPlaced, Framed};
ghost use Rattle.region.specs.Inner.{rectangle_of};

use refusal::{Refusal, refuse};

// Fills the lent region of a picture of w by h samples from rectangle numbers, four a rectangle.
// Refusals, in order: 4, 7, 8, 5. Under a refusal the region holds what it held.
#[tactic(auto, unfolding(refusal::specs::Numbers::first))]
pub fn region(numbers: &[u32], w: usize, h: usize, region: &mut [u8]) -> Result<(), Refusal>
    ensures result_value { answer_number result ≡ first (region_tests numbers.now w h (length region.old)) }
    ensures fact { Result 0 (accepted (region_tests numbers.now w h (length region.old))) (region_byte numbers.now w) region.old region.new }
{
    refuse(refusal::bad_size(w, h), Refusal::Size)?;
    refuse(bad_numbers(numbers), Refusal::Numbers)?;
    refuse(bad_rectangles(numbers, w, h), Refusal::Rectangle)?;
    let count = w * h;
    refuse(region.len() != count, Refusal::Length)?;
    draw(numbers, w, region);
    Ok(())
}

// Not four a rectangle, or above 32 rectangles.
pub fn bad_numbers(numbers: &[u32]) -> bool
    ensures { result ≡ tests.bad_numbers numbers.now }
{
    let n = numbers.len();
    (n % 4 != 0) | (32 < n / 4)
}

// A rectangle of a picture.
#[derive(Clone, Copy)]
struct Rectangle {
    x: u32,
    y: u32,
    across: u32,
    down: u32,
}

impl From<[u32; 4]> for Rectangle {
    ghost from_gives = { λ numbers rectangle. rectangle ≡ rectangle_of numbers };

    fn from([x, y, across, down]: [u32; 4]) -> Rectangle {
        Rectangle { x, y, across, down }
    }
}

impl Rectangle {
    // The column behind its last one, and the row behind its last one: sums in 64 bits, where they fit.
    fn right(self) -> usize
        ensures { result ≡ self.x + self.across }
    {
        self.x as usize + self.across as usize
    }

    fn bottom(self) -> usize
        ensures { result ≡ self.y + self.down }
    {
        self.y as usize + self.down as usize
    }

    // It is empty or not wholly inside.
    fn is_bad(self, w: usize, h: usize) -> bool
        ensures { result ≡ tests.bad_rectangle w h self.x self.y self.across self.down }
    {
        (self.across == 0) | (self.down == 0) | (w < self.right()) | (h < self.bottom())
    }

    // Sets its samples, row by row.
    fn draw(self, w: usize, region: &mut [u8])
        requires { (self.x + self.across ≤ w) × ((self.y + self.down) * w ≤ length region.old) }
        ensures { Drawn self.x self.y self.across self.down w region.old region.new }
    {
        for y in self.y as usize..self.bottom() {
            fill(region, y * w + self.x as usize, self.across as usize, 1);
        }
    }

    // Sets its samples, each where its coefficient of the first level ends: of each row a run of evens and a run of odds.
    #[tactic(auto, using(crate::proofs::Placed::row_ends))]
    fn draw_placed(self, w: usize, h: usize, region: &mut [u8])
        requires across_bound { (self.x + self.across ≤ w) × (self.y + self.down ≤ h) }
        requires region_len { length region.old ≡ h * w }
        ensures { DrawnPlaced self.x self.y self.across self.down w h region.old region.new }
    {
        let left = self.x as usize;
        let right = self.right();
        let even = (left + 1) / 2;
        let odd = left / 2;
        for y in self.y as usize..self.bottom() {
            let at = place(y, h) * w;
            fill(region, at + even, (right + 1) / 2 - even, 1);
            fill(region, at + (w - w / 2) + odd, right / 2 - odd, 1);
        }
    }
}

// Any of the rectangles is bad.
pub fn bad_rectangles(numbers: &[u32], w: usize, h: usize) -> bool
    ensures { result ≡ tests.bad_rectangles w h numbers.now }
{
    any_bad(numbers.as_chunks::<4>().0, w, h)
}

fn any_bad(rectangles: &[[u32; 4]], w: usize, h: usize) -> bool
    ensures { result ≡ list_any (λ r. tests.bad_rectangle w h (get_or r 0 0) (get_or r 1 0) (get_or r 2 0) (get_or r 3 0)) rectangles.now }
{
    rectangles
        .iter()
        .any(|rectangle| Rectangle::from(*rectangle).is_bad(w, h))
}

// Clears the region, and draws each rectangle. Beside `draw_placed`, a walk of its own: one over a closure would state both contracts again.
pub fn draw(numbers: &[u32], w: usize, region: &mut [u8])
    requires { Inside numbers.now w (length region.old) }
    ensures { Result 0 true (region_byte numbers.now w) region.old region.new }
{
    clear(region);
    for rectangle in numbers.as_chunks::<4>().0 {
        Rectangle::from(*rectangle).draw(w, region);
    }
}

// Sets every byte to 0.
pub fn clear(region: &mut [u8])
    ensures { Filled 0 0 (length region.old) region.old region.new }
{
    region.fill(0);
}

// Where cell n of a line of `side` cells ends, its evens in front and its odds behind.
#[tactic(auto, using(crate::proofs::Placed::place_even, crate::proofs::Placed::place_odd))]
fn place(n: usize, side: usize) -> usize
    requires { n < side }
    ensures { result ≡ woven side (λ i. i) n }
{
    if n % 2 == 0 {
        n / 2
    } else {
        side - side / 2 + n / 2
    }
}

// Clears the region, and draws each rectangle placed.
pub fn draw_placed(numbers: &[u32], w: usize, h: usize, region: &mut [u8])
    requires { Framed numbers.now w h (length region.old) }
    ensures { Result 0 true (placed_byte numbers.now w h) region.old region.new }
{
    clear(region);
    for rectangle in numbers.as_chunks::<4>().0 {
        Rectangle::from(*rectangle).draw_placed(w, h, region);
    }
}

// Sets n bytes from `at` on.
fn fill(region: &mut [u8], at: usize, n: usize, byte: u8)
    requires { at + n ≤ length region.old }
    ensures { Filled byte at n region.old region.new }
{
    region[at..at + n].fill(byte);
}
