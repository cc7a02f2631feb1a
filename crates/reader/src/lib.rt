// Reads the body of a codestream: the passes into a plane, in blocks of 16 coefficients.
#![tactic(auto)]

ghost use Rattle.std.specs.Prelude.{◌≡◌, ℕ, ◌+◌, ◌*◌, ◌/◌, ◌^◌, ◌<◌, ◌≤◌, pos, length, get_or};
ghost use Rattle.line.specs.Cells.{cell, count};
ghost use Rattle.bitplane.specs.Body.{class, planes};
ghost use Rattle.bitplane.specs.Reader.{received, bad_filling};
ghost use Rattle.members.specs.Index.{Held, Indexed};
ghost use Rattle.reader.specs.Reads.{Ready, Spare, Unread, reading, PassRead, PlanesRead, BodyRead};
ghost use Rattle.reader.specs.Passes.{Prepared, Goes, pass_of};

// A pass over a plane that is read: its bit plane t of the coefficients of a class, of which the body has the bits.
#[derive(Clone, Copy)]
struct Pass<'a> {
    body: &'a [u8],
    mask: &'a [u8],
    class: u8,
    t: u64,
}

// Each function of a pass tells the place where it goes on, one past the end where a bit was missing: a number, no Option, since that place is
// what `read_body` promises, and from it every step leaves all as it is.
//
// Reads the 16 coefficients from i on, from place p on, where 8 bytes are left. Where the next bit of each member is 0 nothing changes.
fn read_block(pass: &Pass, plane: &mut [i32], i: usize, p: usize) -> usize
    requires { (i + 16 ≤ length plane.old) × (p / 8 + 8 ≤ length pass.now.body.now) × Prepared pass.now plane.old i p }
    ensures { Goes pass.now plane.old p i plane.new result (i + 16) }
{
    let members = members::among(pass.mask, pass.class, i, 16);
    if members == 0 {
        return p;
    }
    let x = cursor::window(pass.body, p / 8);
    if cursor::digits(x, (p % 8) as u64, members as u64) == 0 {
        return p + members;
    }
    let mut pairs = [0u32; 16];
    let q = coefficient::take(pass.body, plane, pass.mask, pass.class, i, p, &mut pairs);
    coefficient::grow_all(plane, &pairs, i, pass.t, coefficient::weight(pass.t));
    q
}

// The same, one coefficient after the other: the body or the plane may end. At a coefficient for which no bit is left it stops, one place
// past the end. By an index: the plane may end before the 16, and of what `iter_mut` gives under `skip` and `take` nothing is known.
fn read_rest(pass: &Pass, plane: &mut [i32], from: usize, p: usize) -> usize
    requires { (from ≤ 16785408) × Prepared pass.now plane.old from p }
    ensures { Goes pass.now plane.old p from plane.new result (from + 16) }
{
    let step = coefficient::weight(pass.t);
    let end = 8 * pass.body.len();
    let mut q = p;
    for i in from..from + 16 {
        if !members::belongs(pass.mask, pass.class, i) {
            continue;
        }
        if q >= end {
            return end + 1;
        }
        let v = plane[i];
        let b = coefficient::bit(pass.body, q);
        let two = coefficient::pair(pass.body, q, b, v);
        plane[i] = coefficient::grow(v, two, pass.t, step);
        q += coefficient::width(v, b as u64, 1) as usize;
    }
    q
}

// The same, as a block where one is left.
fn read_some(pass: &Pass, plane: &mut [i32], from: usize, p: usize) -> usize
    requires { (from ≤ 16785408) × Prepared pass.now plane.old from p }
    ensures { Goes pass.now plane.old p from plane.new result (from + 16) }
{
    if plane.len() < from + 16 {
        return read_rest(pass, plane, from, p);
    }
    if pass.body.len() < p / 8 + 8 {
        return read_rest(pass, plane, from, p);
    }
    read_block(pass, plane, from, p)
}

// Reads the 64 coefficients from `from` on, from place p on. This walk and the next are the writer's with another step: one over a closure would
// state both contracts again.
fn read_blocks(pass: &Pass, plane: &mut [i32], from: usize, p: usize) -> usize
    requires { (from ≤ 16781312) × Prepared pass.now plane.old from p }
    ensures { Goes pass.now plane.old p from plane.new result (from + 64) }
{
    let mut q = p;
    for b in 0..4 {
        q = read_some(pass, plane, from + 16 * b, q);
    }
    q
}

// Reads the 4,096 coefficients from `from` on: of each 64 only if their flag in `word` is 1.
fn read_word(pass: &Pass, plane: &mut [i32], word: u64, from: usize, p: usize) -> usize
    requires { (from ≤ 16777216) × Prepared pass.now plane.old from p × Held (class pass.now.mask.now pass.now.class) from word }
    ensures { Goes pass.now plane.old p from plane.new result (from + 4096) }
{
    let mut q = p;
    for j in 0..64 {
        if (word >> (63 - j)) % 2 == 0 {
            continue;
        }
        q = read_blocks(pass, plane, from + 64 * j, q);
    }
    q
}

// Reads a pass, from place p on, by the flags that say where the coefficients of its class lie. Past the end of the body it looks at no more
// of them.
fn read_pass(pass: &Pass, plane: &mut [i32], index: &[u64], p: usize) -> usize
    requires { Prepared pass.now plane.old 0 p × (length index.now ≡ 4096) × Indexed (class pass.now.mask.now pass.now.class) index.now }
    ensures { PassRead (received pass.now.body.now) (length plane.old) (pass_of pass.now) (reading plane.old p) plane.new result }
{
    let end = 8 * pass.body.len();
    let words = members::words(plane.len());
    let mut q = p;
    for (k, word) in index[..words].iter().enumerate() {
        if *word == 0 {
            continue;
        }
        if end < q {
            continue;
        }
        q = read_word(pass, plane, *word, 4096 * k, q);
    }
    q
}

// Where a reading of a class ended, and how many of its planes were not wholly received.
#[derive(Clone, Copy)]
pub struct Reached {
    pub at: usize,
    pub missing: u64,
}

// Reads planes top - 1 down to 0 of the coefficients of class c, from place p on. It stops at the first plane that was not wholly received.
pub fn read_planes(
    body: &[u8],
    plane: &mut [i32],
    mask: &[u8],
    c: u8,
    top: u64,
    p: usize,
) -> Reached
    requires top_bound { (top ≤ 29) × Ready body.now plane.old mask.now c p }
    requires spare { Spare (class mask.now c) top (cell plane.old) 0 }
    ensures { PlanesRead (received body.now) (length plane.old) (planes (class mask.now c) top) (reading plane.old p) plane.new result.at result.missing }
{
    let mut index = [0u64; 4096];
    members::find(mask, c, &mut index);
    let end = 8 * body.len();
    let mut q = p;
    for t in (0..top).rev() {
        let pass = Pass {
            body,
            mask,
            class: c,
            t,
        };
        q = read_pass(&pass, plane, &index, q);
        if end < q {
            return Reached {
                at: q,
                missing: t + 1,
            };
        }
    }
    Reached { at: q, missing: 0 }
}

// The same, of few coefficients of a large plane, which are 0 so far: the passes go over a list of them, and what is read is then put where
// they lie.
fn read_few(
    body: &[u8],
    plane: &mut [i32],
    mask: &[u8],
    c: u8,
    members: usize,
    top: u64,
    p: usize,
) -> Reached
    requires top_bound { (top ≤ 22) × Ready body.now plane.old mask.now c p × Unread (class mask.now c) (cell plane.old) }
    requires members_bound { (members ≤ 65536) × (members ≡ count (length plane.old) (class mask.now c)) }
    ensures { PlanesRead (received body.now) (length plane.old) (planes (class mask.now c) top) (reading plane.old p) plane.new result.at result.missing }
{
    let mut list = [0i32; 65536];
    let ones = [1u8; 65536];
    let reached = read_planes(body, &mut list[..members], &ones[..members], 1, top, p);
    members::spread(&list, mask, c, plane);
    reached
}

// The same of a class that has so many members, with no look at the picture where it has none, or where no bit is left.
fn read_class(
    body: &[u8],
    plane: &mut [i32],
    mask: &[u8],
    c: u8,
    members: usize,
    top: u64,
    p: usize,
) -> Reached
    requires top_bound { (top ≤ 22) × Ready body.now plane.old mask.now c p × Unread (class mask.now c) (cell plane.old) }
    requires members_value { members ≡ count (length mask.now) (class mask.now c) }
    ensures { PlanesRead (received body.now) (length plane.old) (planes (class mask.now c) top) (reading plane.old p) plane.new result.at result.missing }
{
    if 8 * body.len() < p {
        return Reached {
            at: p,
            missing: top,
        };
    }
    if members == 0 {
        return Reached { at: p, missing: 0 };
    }
    if members::few(members, plane.len()) {
        return read_few(body, plane, mask, c, members, top, p);
    }
    read_planes(body, plane, mask, c, top, p)
}

// Makes every coefficient 0.
pub fn clear(plane: &mut [i32])
    ensures { (i : ℕ) → cell plane.new i ≡ pos 0 }
{
    plane.fill(0);
}

// Where the two parts of a body end, and how many planes of the unmarked were not wholly received.
#[derive(Clone, Copy)]
pub struct BodyEnd {
    pub marked: usize,
    pub end: usize,
    pub missing: u64,
}

// Reads a body of top planes: the coefficients that the mask marks, of which there are `marks`, and then the others.
pub fn read_body(body: &[u8], plane: &mut [i32], mask: &[u8], marks: usize, top: u64) -> BodyEnd
    requires top_bound { (top ≤ 22) × (length mask.now ≡ length plane.old) × (length plane.old ≤ 16777216) × (8 * length body.now < 2 ^ 62) }
    requires by_index { (i : ℕ) → i < length mask.now → get_or mask.now i 2 < 2 }
    requires marks_value { marks ≡ count (length mask.now) (class mask.now 1) }
    ensures { BodyRead (received body.now) (length plane.old) (planes (class mask.now 1) top) (planes (class mask.now 0) top) plane.new result.marked result.end result.missing }
{
    clear(plane);
    let first = read_class(body, plane, mask, 1, marks, top, 0);
    let at = first.at;
    let others = plane.len() - marks;
    let second = read_class(body, plane, mask, 0, others, top, at);
    BodyEnd {
        marked: at,
        end: second.at,
        missing: second.missing,
    }
}

// Whether, behind a complete body that ends at the place `end`, a filling bit is not 0 or a further byte stands.
pub fn bad_filling(body: &[u8], end: usize) -> bool
    requires { (8 * length body.now < 2 ^ 62) × (end < 2 ^ 62) }
    ensures { result ≡ bad_filling body.now end }
{
    let bits = 8 * body.len();
    if bits < end {
        return false;
    }
    if (end + 7) / 8 < body.len() {
        return true;
    }
    // By place: each of the at most 7 bits is taken through the cursor, and over `any` the proof did not close.
    for p in end..bits {
        if coefficient::bit(body, p) != 0 {
            return true;
        }
    }
    false
}
