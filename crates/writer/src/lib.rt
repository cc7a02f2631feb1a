// Writes the body of a codestream: bits into bytes, up to 32 at once, and the passes over a plane, in blocks of 16 coefficients.
#![tactic(auto)]

ghost use Rattle.std.specs.Prelude.{◌≡◌, true, ℕ, ◌+◌, ◌-◌, ◌*◌, ◌/◌, ◌%◌, ◌^◌, ◌<◌, ◌≤◌, nat_abs, length};
ghost use Rattle.line.specs.Cells.{cell, count};
ghost use Rattle.bitplane.specs.Body.{class, one_plane, planes, code, pass_bits, body};
ghost use Rattle.members.specs.Index.{Held, Indexed};
ghost use Rattle.writer.specs.Written.{PassReady, given, Digits, Fits, Puts, Room, Sends, part, BodyReady, BodyWritten};
ghost use Rattle.writer.specs.Passes.{Sound, stretch, whole_pass, Each};

// A pass: plane t of the coefficients of a class.
#[derive(Clone, Copy)]
struct Pass<'a> {
    plane: &'a [i32],
    mask: &'a [u8],
    class: u8,
    t: u32,
}

// Binary digits as a number, and how many they are.
#[derive(Clone, Copy)]
struct Gathered {
    number: u32,
    count: u32,
}

// 40 bits as a number: the first o bits of the byte `old`, behind them the n digits of `number`, then zeros.
fn window(old: u8, o: u64, number: u64, n: u64) -> u64
    requires { (o < 8) × (n ≤ 32) × (number < 2 ^ n) }
    ensures { result ≡ (old / 2 ^ (8 - o) * 2 ^ n + number) * 2 ^ (40 - (o + n)) }
{
    let kept = old as u64 >> (8 - o);
    ((kept << n) + number) << (40 - (o + n))
}

// The byte of x whose lowest bit is bit s.
fn byte(x: u64, s: u64) -> u8
    requires { s < 64 }
    ensures { result ≡ x / 2 ^ s % 256 }
{
    ((x >> s) % 256) as u8
}

// Writes the n binary digits of `number` from place p on, the highest first. What was written before them stays, and the last byte is filled
// with zeros. No loop over the bytes: most blocks end in the first or the second.
fn put(out: &mut [u8], p: usize, number: u64, n: u64)
    requires { Fits number n p out.old }
    ensures { Puts number n p out.old out.new }
{
    let k = p / 8;
    let o = (p % 8) as u64;
    let x = window(out[k], o, number, n);
    let end = o + n;
    out[k] = byte(x, 32);
    if end <= 8 {
        return;
    }
    out[k + 1] = byte(x, 24);
    if end <= 16 {
        return;
    }
    out[k + 2] = byte(x, 16);
    if end <= 24 {
        return;
    }
    out[k + 3] = byte(x, 8);
    if end <= 32 {
        return;
    }
    out[k + 4] = byte(x, 0);
}

// The same of digits that were gathered. The result is the place behind them.
fn send(out: &mut [u8], p: usize, digits: Gathered) -> usize
    requires { Fits digits.number digits.count p out.old }
    ensures puts { Puts digits.number digits.count p out.old out.new }
    ensures place { result ≡ p + digits.count }
{
    put(out, p, digits.number as u64, digits.count as u64);
    p + digits.count as usize
}

// The magnitude of coefficient z down to plane t.
fn down(z: i32, t: u32) -> u32
    requires { t < 32 }
    ensures { result ≡ nat_abs z / 2 ^ t }
{
    whole::magnitude(z) as u32 >> t
}

// The digits that coefficient z gives to plane t if it is a member of the class (1), and none if not (0). A first 1 has its sign behind it and
// counts twice.
fn gives(z: i32, t: u32, member: u32) -> Gathered
    requires { (t < 32) × (member < 2) }
    ensures { Digits (given t z member) result.number result.count }
{
    let h = down(z, t);
    let first = line::one(h == 1) as u32 & member;
    let s = line::one(z < 0) as u32 & first;
    Gathered {
        number: (h & member) + first + s,
        count: member + first,
    }
}

// The magnitudes of the 16 coefficients from i on, joined bit by bit: none is larger.
fn high(pass: &Pass, i: usize) -> u32
    requires { Sound pass.now × (i + 16 ≤ length pass.now.plane.now) }
    ensures { (k : ℕ) → k < 16 → nat_abs (cell pass.now.plane.now (i + k)) ≤ result }
{
    let mut high: u32 = 0;
    for z in &pass.plane[i..i + 16] {
        high |= whole::magnitude(*z) as u32;
    }
    high
}

// The same of those of the class alone.
fn high_members(pass: &Pass, i: usize) -> u32
    requires { Sound pass.now × (i + 16 ≤ length pass.now.plane.now) }
    ensures { (k : ℕ) → k < 16 → class pass.now.mask.now pass.now.class (i + k) ≡ true → nat_abs (cell pass.now.plane.now (i + k)) ≤ result }
{
    let mut high: u32 = 0;
    for (k, z) in pass.plane[i..i + 16].iter().enumerate() {
        let member = members::member(pass.mask, pass.class, i + k) as u32;
        high |= whole::magnitude(*z) as u32 * member;
    }
    high
}

// Whether none of the class, of which so many are among them, has begun: their zeros are then all that they give. Those of the other class are
// asked with them first, which needs no look at the mask, and left out where one of the 16 has begun.
fn idle(pass: &Pass, i: usize, members: usize) -> bool
    requires { Sound pass.now × (i + 16 ≤ length pass.now.plane.now) }
    ensures { result ≡ true → (k : ℕ) → k < 16 → class pass.now.mask.now pass.now.class (i + k) ≡ true → nat_abs (cell pass.now.plane.now (i + k)) / 2 ^ pass.now.t ≡ 0 }
{
    if high(pass, i) >> pass.t == 0 {
        return true;
    }
    if members == 16 {
        return false;
    }
    high_members(pass, i) >> pass.t == 0
}

// What each of the 16 coefficients from i on gives. By `enumerate` and no `zip`: under `zip` a proof has no name for what was written by
// `iter_mut`.
fn each(pass: &Pass, i: usize, found: &mut [Gathered])
    requires { Sound pass.now × (i + 16 ≤ length pass.now.plane.now) × (length found.old ≡ 16) }
    ensures { Each pass.now i 16 found.new }
{
    for (k, digits) in found.iter_mut().enumerate() {
        let member = members::member(pass.mask, pass.class, i + k) as u32;
        *digits = gives(pass.plane[i + k], pass.t, member);
    }
}

// What they give together. No branch for each of them: their bits cannot be foreseen.
fn gather(pass: &Pass, i: usize) -> Gathered
    requires { Sound pass.now × (i + 16 ≤ length pass.now.plane.now) }
    ensures { Digits (stretch pass.now i 16) result.number result.count }
{
    let mut found = [Gathered {
        number: 0,
        count: 0,
    }; 16];
    each(pass, i, &mut found);
    let mut number: u32 = 0;
    let mut count: u32 = 0;
    for digits in &found {
        number = (number << digits.count) + digits.number;
        count += digits.count;
    }
    Gathered { number, count }
}

// Writes what the 16 coefficients from i on give. Where no member has begun these are zeros, one for each.
fn write_block(out: &mut [u8], pass: &Pass, i: usize, p: usize) -> usize
    requires within { Sound pass.now × (i + 16 ≤ length pass.now.plane.now) }
    requires room { Room (stretch pass.now i 16) p out.old }
    ensures { Sends (stretch pass.now i 16) p out.old out.new result }
{
    let members = members::among(pass.mask, pass.class, i, 16);
    if members == 0 {
        return p;
    }
    if idle(pass, i, members) {
        let zeros = Gathered {
            number: 0,
            count: members as u32,
        };
        return send(out, p, zeros);
    }
    send(out, p, gather(pass, i))
}

// Writes what the 64 coefficients from `from` on give.
fn write_blocks(out: &mut [u8], pass: &Pass, from: usize, p: usize) -> usize
    requires within { Sound pass.now × (from + 64 ≤ length pass.now.plane.now) }
    requires room { Room (stretch pass.now from 64) p out.old }
    ensures { Sends (stretch pass.now from 64) p out.old out.new result }
{
    let mut q = p;
    for b in 0..4 {
        q = write_block(out, pass, from + 16 * b, q);
    }
    q
}

// Writes what the coefficients from `from` to the end give, one by one: they may not fill a block.
fn write_rest(out: &mut [u8], pass: &Pass, from: usize, p: usize) -> usize
    requires within { Sound pass.now × (from ≤ length pass.now.plane.now) }
    requires room { Room (stretch pass.now from (length pass.now.plane.now - from)) p out.old }
    ensures { Sends (stretch pass.now from (length pass.now.plane.now - from)) p out.old out.new result }
{
    let mut q = p;
    for (z, class) in pass.plane[from..].iter().zip(&pass.mask[from..]) {
        if *class != pass.class {
            continue;
        }
        q = send(out, q, gives(*z, pass.t, 1));
    }
    q
}

// Writes what the 64 coefficients from `from` on give, where the plane may end before them.
fn write_chunk(out: &mut [u8], pass: &Pass, from: usize, p: usize) -> usize
    requires within { Sound pass.now × (from ≤ 16781312) }
    requires room { Room (stretch pass.now from 64) p out.old }
    ensures { Sends (stretch pass.now from 64) p out.old out.new result }
{
    if from + 64 <= pass.plane.len() {
        return write_blocks(out, pass, from, p);
    }
    if from < pass.plane.len() {
        return write_rest(out, pass, from, p);
    }
    p
}

// Writes what the 4,096 coefficients from `from` on give: of each 64 only if their flag in `word` is 1.
fn write_word(out: &mut [u8], pass: &Pass, word: u64, from: usize, p: usize) -> usize
    requires within { Sound pass.now × (from ≤ 16777216) × Held (class pass.now.mask.now pass.now.class) from word }
    requires room { Room (stretch pass.now from 4096) p out.old }
    ensures { Sends (stretch pass.now from 4096) p out.old out.new result }
{
    let mut q = p;
    for j in 0..64 {
        if (word >> (63 - j)) % 2 == 0 {
            continue;
        }
        q = write_chunk(out, pass, from + 64 * j, q);
    }
    q
}

// Writes a pass, from place p on, by the flags that say where the coefficients of its class lie.
fn write_pass(out: &mut [u8], pass: &Pass, index: &[u64], p: usize) -> usize
    requires within { Sound pass.now × (length index.now ≡ 4096) × Indexed (class pass.now.mask.now pass.now.class) index.now }
    requires room { Room (whole_pass pass.now) p out.old }
    ensures { Sends (whole_pass pass.now) p out.old out.new result }
{
    let words = members::words(pass.plane.len());
    let mut q = p;
    for (k, word) in index[..words].iter().enumerate() {
        if *word == 0 {
            continue;
        }
        q = write_word(out, pass, *word, 4096 * k, q);
    }
    q
}

// Writes planes top - 1 down to 0 of the coefficients of class c, from place p on.
pub fn write_planes(out: &mut [u8], plane: &[i32], mask: &[u8], c: u8, top: u64, p: usize) -> usize
    requires top_bound { (top ≤ 32) × PassReady mask.now plane.now c }
    requires room { Room (body (planes (class mask.now c) top) (cell plane.now) (length plane.now)) p out.old }
    ensures { Sends (body (planes (class mask.now c) top) (cell plane.now) (length plane.now)) p out.old out.new result }
{
    let mut index = [0u64; 4096];
    members::find(mask, c, &mut index);
    let mut q = p;
    for t in (0..top as u32).rev() {
        let pass = Pass {
            plane,
            mask,
            class: c,
            t,
        };
        q = write_pass(out, &pass, &index, q);
    }
    q
}

// The same, of few coefficients of a large plane: they are collected once, and the passes go over their list. Not one with the reader's
// `read_few`, which fills a list and puts it back: the two share the two arrays alone.
fn write_few(out: &mut [u8], plane: &[i32], mask: &[u8], c: u8, top: u64, p: usize) -> usize
    requires top_bound { (top ≤ 32) × PassReady mask.now plane.now c × (count (length plane.now) (class mask.now c) ≤ 65536) }
    requires room { Room (part mask.now top plane.now c) p out.old }
    ensures { Sends (part mask.now top plane.now c) p out.old out.new result }
{
    let mut list = [0i32; 65536];
    let ones = [1u8; 65536];
    let n = members::collect(plane, mask, c, &mut list);
    write_planes(out, &list[..n], &ones[..n], 1, top, p)
}

// Writes class c, which has so many members, from place p on: no pass over the plane where it has none.
fn write_class(
    out: &mut [u8],
    plane: &[i32],
    mask: &[u8],
    c: u8,
    members: usize,
    top: u64,
    p: usize,
) -> usize
    requires top_bound { (top ≤ 32) × PassReady mask.now plane.now c }
    requires members_value { members ≡ count (length mask.now) (class mask.now c) }
    requires room { Room (part mask.now top plane.now c) p out.old }
    ensures { Sends (part mask.now top plane.now c) p out.old out.new result }
{
    if members == 0 {
        return p;
    }
    if members::few(members, plane.len()) {
        return write_few(out, plane, mask, c, top, p);
    }
    write_planes(out, plane, mask, c, top, p)
}

// Writes a body, the marked part first. The result is the place behind that part.
pub fn write_body(out: &mut [u8], plane: &[i32], mask: &[u8], marks: usize, top: u64) -> usize
    requires { BodyReady mask.now top plane.now marks out.old }
    ensures { BodyWritten (part mask.now top plane.now 1) (part mask.now top plane.now 0) out.old out.new result }
{
    let others = plane.len() - marks;
    let p = write_class(out, plane, mask, 1, marks, top, 0);
    write_class(out, plane, mask, 0, others, top, p);
    p
}
