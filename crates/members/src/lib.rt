// Where the coefficients of a class lie, found once for all its passes: one bit for each 64 coefficients. Or, where they are few, the
// coefficients themselves, one behind the other.
#![tactic(auto)]

ghost use Rattle.std.specs.Prelude.{◌≡◌, true, ◌+◌, ◌/◌, ◌<◌, ◌≤◌, pos, length};
ghost use Rattle.line.specs.Cells.{choose, behind, cell, count};
ghost use Rattle.bitplane.specs.Body.{class};
ghost use Rattle.members.specs.Index.{Flagged, Held, Indexed};
ghost use Rattle.members.specs.Collection.{Collected, Listed, Kept};

// 1 if coefficient i is of class c, else 0: a number, so that a loop has no branch for each coefficient. A class is the mask's byte, which is
// compared as it stands.
pub fn member(mask: &[u8], c: u8, i: usize) -> u8
    requires { i < length mask.now }
    ensures { result ≡ choose (class mask.now c i) 1 0 }
{
    line::one(mask[i] == c) as u8
}

// Whether coefficient i is of class c; past the end of the mask none is.
#[tactic(auto, unfolding(bitplane::specs::Body::class))]
pub fn belongs(mask: &[u8], c: u8, i: usize) -> bool
    requires { c < 2 }
    ensures { result ≡ class mask.now c i }
{
    match mask.get(i) {
        Some(class) => *class == c,
        None => false,
    }
}

// How many of the n coefficients from i on are of class c.
pub fn among(mask: &[u8], c: u8, i: usize, n: usize) -> usize
    requires { (n ≤ 64) × (i + n ≤ length mask.now) }
    ensures { result ≡ count n (behind i (class mask.now c)) }
{
    let mut found: u8 = 0;
    for m in &mask[i..i + n] {
        found += line::one(*m == c) as u8;
    }
    found as usize
}

// Whether any of the 64 coefficients from i on is of class c. Where the mask ends before them, true: a pass looks there itself.
fn flag(mask: &[u8], c: u8, i: usize) -> bool
    requires { i ≤ 16781312 }
    ensures { Flagged (class mask.now c) i (choose result 1 0) }
{
    mask.len() < i + 64 || among(mask, c, i, 64) != 0
}

// The flags of the 4,096 coefficients from i on, the first as the highest bit.
fn word(mask: &[u8], c: u8, i: usize) -> u64
    requires { i ≤ 16777216 }
    ensures { Held (class mask.now c) i result }
{
    let mut flags: u64 = 0;
    for j in 0..64 {
        flags = (flags << 1) + line::one(flag(mask, c, i + 64 * j)) as u64;
    }
    flags
}

// How many words the flags of n coefficients take.
pub fn words(n: usize) -> usize
    requires { n ≤ 16777216 }
    ensures { result ≡ (n + 4095) / 4096 }
{
    (n + 4095) / 4096
}

// The flags of class c, word by word.
pub fn find(mask: &[u8], c: u8, index: &mut [u64])
    requires { (c < 2) × (length mask.now ≤ 16777216) × (length index.old ≡ 4096) }
    ensures { Indexed (class mask.now c) index.new }
{
    let n = words(mask.len());
    for (k, flags) in index[..n].iter_mut().enumerate() {
        *flags = word(mask, c, 4096 * k);
    }
}

// Whether a class that has so many members in a plane of n coefficients is collected for its passes: it fits into a list, and the plane is so
// large that a pass over it may wait for memory at each of them.
pub fn few(members: usize, n: usize) -> bool
    ensures { result ≡ true → members ≤ 65536 }
{
    n >= 1048576 && members <= 65536
}

// Puts the places of the coefficients of class c from `from` to `to` behind the n that are in the list. The result is how many are in it then.
fn place_run(mask: &[u8], c: u8, from: usize, to: usize, list: &mut [i32], n: usize) -> usize
    requires from_le_to { (from ≤ to) × (to ≤ length mask.now) × Listed mask.now c (length mask.now) (length list.old) }
    requires collected { Collected (class mask.now c) pos from (cell list.old) n }
    ensures { Collected (class mask.now c) pos to (cell list.new) result }
{
    let mut m = n;
    for (k, class) in mask[from..to].iter().enumerate() {
        if *class != c {
            continue;
        }
        list[m] = (from + k) as i32;
        m += 1;
    }
    m
}

// Puts the places of the coefficients of class c into the list, one behind the other. The result is how many there are. By the numbers of the
// blocks, and no `chunks`: the places are what is listed.
fn places(mask: &[u8], c: u8, list: &mut [i32]) -> usize
    requires { Listed mask.now c (length mask.now) (length list.old) }
    ensures { Collected (class mask.now c) pos (length mask.now) (cell list.new) result }
{
    let blocks = mask.len() / 64;
    let mut n = 0;
    for b in 0..blocks {
        if among(mask, c, 64 * b, 64) == 0 {
            continue;
        }
        n = place_run(mask, c, 64 * b, 64 * b + 64, list, n);
    }
    place_run(mask, c, 64 * blocks, mask.len(), list, n)
}

// Puts the coefficients of class c into the list, one behind the other. The result is how many there are. Their places are found first: the
// plane is then read without waiting for the mask.
pub fn collect(plane: &[i32], mask: &[u8], c: u8, list: &mut [i32]) -> usize
    requires { Listed mask.now c (length plane.now) (length list.old) }
    ensures { Collected (class mask.now c) (cell plane.now) (length plane.now) (cell list.new) result }
{
    let n = places(mask, c, list);
    for v in &mut list[..n] {
        *v = plane[whole::magnitude(*v) as usize];
    }
    n
}

// Puts the members of a list, from its cell n on, where the coefficients of class c from `from` to `to` lie. The result is the cell behind
// the last of them. A walk of its own beside `place_run`: one for both would take its step as a trait, with a law of what a step does to list
// and plane, and be longer than the two.
fn spread_run(
    list: &[i32],
    mask: &[u8],
    c: u8,
    from: usize,
    to: usize,
    plane: &mut [i32],
    n: usize,
) -> usize
    requires from_le_to { (from ≤ to) × (to ≤ length plane.old) × Listed mask.now c (length plane.old) (length list.now) }
    requires collected { Collected (class mask.now c) (cell plane.old) from (cell list.now) n }
    ensures collected_2 { Collected (class mask.now c) (cell plane.new) to (cell list.now) result }
    ensures kept { Kept (class mask.now c) (cell plane.old) (cell plane.new) }
{
    let mut m = n;
    for (k, class) in mask[from..to].iter().enumerate() {
        if *class != c {
            continue;
        }
        plane[from + k] = list[m];
        m += 1;
    }
    m
}

// Puts the members of a list where the coefficients of class c lie, block by block as `places`. The result is how many there are.
pub fn spread(list: &[i32], mask: &[u8], c: u8, plane: &mut [i32]) -> usize
    requires { Listed mask.now c (length plane.old) (length list.now) }
    ensures collected { Collected (class mask.now c) (cell plane.new) (length plane.old) (cell list.now) result }
    ensures kept { Kept (class mask.now c) (cell plane.old) (cell plane.new) }
{
    let blocks = plane.len() / 64;
    let mut n = 0;
    for b in 0..blocks {
        if among(mask, c, 64 * b, 64) == 0 {
            continue;
        }
        n = spread_run(list, mask, c, 64 * b, 64 * b + 64, plane, n);
    }
    spread_run(list, mask, c, 64 * blocks, plane.len(), plane, n)
}
