// What one pass over a plane finds, and what one pass over a mask.
#![tactic(auto)]

ghost use Rattle.std.specs.Prelude.{◌≡◌};
ghost use Rattle.scan.specs.Inner.{sign_count, mark_count};
ghost use Rattle.scan.specs.Scan as scans;

#[derive(Clone, Copy)]
pub struct Found {
    pub largest: u32,
    pub signs: usize,
}

// The largest magnitude, and how many coefficients are not 0.
pub fn scan(plane: &[i32]) -> Found
    ensures largest_value { result.largest ≡ scans.largest plane.now }
    ensures signs_value { result.signs ≡ sign_count plane.now }
{
    let mut largest: u32 = 0;
    let mut signs: usize = 0;
    for c in plane {
        let m = c.unsigned_abs();
        largest = largest.max(m);
        signs += usize::from(0 < m);
    }
    Found { largest, signs }
}

// The number of binary digits.
pub fn digits(m: u32) -> u64
    ensures { result ≡ scans.digits m }
{
    if m == 0 { 0 } else { u64::from(m.ilog2() + 1) }
}

// The number of marks.
pub fn mark_count(mask: &[u8]) -> usize
    ensures { result ≡ mark_count mask.now }
{
    let mut n: usize = 0;
    for mark in mask {
        n += usize::from(*mark == 1);
    }
    n
}
