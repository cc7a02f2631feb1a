// What a bit plane gives to a coefficient, as it is read: how many bits it takes, what it becomes; and the same of 16 coefficients at once.
#![tactic(auto)]

ghost use Rattle.std.specs.Prelude.{◌≡◌, true, ◌+◌, ◌*◌, ◌/◌, ◌%◌, ◌^◌, ◌<◌, ◌≤◌, eqb, pos, nat_abs, length};
ghost use Rattle.line.specs.Cells.{choose, behind};
ghost use Rattle.bitplane.specs.Bits.{bit_at};
ghost use Rattle.bitplane.specs.Body.{class};
ghost use Rattle.bitplane.specs.Reader.{received, used, grown};
ghost use Rattle.coefficient.specs.Growth.{reading_from, Pair, Takes, Small, Grown};

use cursor::BitCursor;

// The bit at place p, and 0 past the end.
pub fn bit(body: &[u8], p: usize) -> usize
    ensures { result ≡ bit_at body.now p }
{
    BitCursor::new(body, p).bit()
}

// The bit behind place p, and 0 past the end.
fn bit_behind(body: &[u8], p: usize) -> usize
    requires { p + 1 < 2 ^ 64 }
    ensures { result ≡ bit_at body.now (p + 1) }
{
    BitCursor::new(body, p).next().bit()
}

// What a bit of plane t counts.
pub fn weight(t: u64) -> i32
    requires { t < 30 }
    ensures { result ≡ pos (2 ^ t) }
{
    let w: u64 = 1 << t;
    w as i32
}

// How many bits coefficient v takes, of which b is the first, if it is a member of the class (1), and none if not (0): numbers, so that there is
// no branch.
#[tactic(auto, using(std::proofs::lemmas::Int::ints), unfolding(bitplane::specs::Reader::used))]
pub fn width(v: i32, b: u64, member: u64) -> u64
    requires { (b < 2) × (member < 2) }
    ensures { result ≡ choose (eqb member 1) (used v b) 0 }
{
    let first = line::one(v == 0) as u64 & member;
    member + (b & first)
}

// Coefficient v after two bits of plane t, as a number: the bit of that plane, and the sign if that is its first 1; step is what a bit of
// that plane counts.
#[tactic(auto, using(std::proofs::lemmas::Int::ints), unfolding(bitplane::specs::Reader::grown, bitplane::specs::Bits::signed))]
pub fn grow(v: i32, two: u32, t: u64, step: i32) -> i32
    requires { (two < 4) × (step ≡ pos (2 ^ t)) × (2 ≤ two → nat_abs v + 2 ^ t ≤ 1073741824) }
    ensures { result ≡ grown t true v (two / 2) (two % 2) }
{
    if two < 2 {
        return v;
    }
    if v < 0 {
        return v - step;
    }
    if v == 0 {
        if two == 3 {
            return 0 - step;
        }
        return step;
    }
    v + step
}

// The two bits from place p on as a number, of which b is the first. A first 1 whose sign did not arrive counts as 0.
#[tactic(auto, unfolding(bitplane::specs::Bits::bit_at, bitplane::specs::Reader::grown, bitplane::specs::Bits::signed))]
pub fn pair(body: &[u8], p: usize, b: usize, v: i32) -> u32
    requires { (p + 1 < 2 ^ 64) × (b ≡ bit_at body.now p) }
    ensures { Pair (received body.now) v p result }
{
    let k = (p + 1) / 8;
    if k < body.len() {
        let s = bit_behind(body, p);
        return (2 * b + s) as u32;
    }
    if v == 0 {
        return 0;
    }
    (2 * b) as u32
}

// What the 16 coefficients from i on take of the bits from place p on: for each member of the class its next two, as a number, and 0 for
// each other. The result is the place behind what they take. No branch for each of them: their bits cannot be foreseen. By `enumerate` and no
// `zip`: under `zip` a proof has no name for what was written by `iter_mut`.
pub fn take(
    body: &[u8],
    plane: &[i32],
    mask: &[u8],
    c: u8,
    i: usize,
    p: usize,
    pairs: &mut [u32],
) -> usize
    requires { (i + 16 ≤ length plane.now) × (length mask.now ≡ length plane.now) × (p / 8 + 8 ≤ length body.now) × (8 * length body.now < 2 ^ 62) × (length pairs.old ≡ 16) }
    ensures { Takes (received body.now) (behind i (class mask.now c)) (reading_from plane.now i p) 16 pairs.new result }
{
    let x = cursor::window(body, p / 8);
    let begin = (p % 8) as u64;
    let mut o = begin;
    for (k, pair) in pairs.iter_mut().enumerate() {
        let member = members::member(mask, c, i + k) as u64;
        *pair = (cursor::digits(x, o, 2) * member) as u32;
        o += width(plane[i + k], cursor::digits(x, o, 1), member);
    }
    p + (o - begin) as usize
}

// Each of the 16 coefficients from i on after its two bits of plane t. By `enumerate`, as in `take`.
pub fn grow_all(plane: &mut [i32], pairs: &[u32], i: usize, t: u64, step: i32)
    requires { (i + 16 ≤ length plane.old) × (length pairs.now ≡ 16) × (step ≡ pos (2 ^ t)) × Small t plane.old i pairs.now }
    ensures { Grown t i 16 pairs.now plane.old plane.new }
{
    for (k, v) in plane[i..i + 16].iter_mut().enumerate() {
        *v = grow(*v, pairs[k], t, step);
    }
}
