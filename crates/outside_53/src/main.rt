// Compares kernel 3 with an outside 5/3 on the pictures of standard input, and prints a line for each.
//
// The input has pictures, one after the other until it ends. Each is
//     width, height, levels, depth      1 byte each
//     width x height samples            2 bytes each, big-endian, row by row
//     width x height coefficients       2 bytes each, big-endian, two's complement, row by row
// The coefficients are those of the outside 5/3. tools/outside_53/make.py makes the input.
#![tactic(auto)]

ghost use Rattle.std.specs.Prelude.{◌≡◌, ◌+◌, ◌*◌, ◌≤◌, ◌<◌, length, IfOk, IfSome};

use refusal::Refusal;
use setting::Setting;
use standard_input::read_input;
use std::{fmt, io};

// More bytes than these are not looked at.
const MOST: usize = 65536;
// The samples of any picture that the input can hold.
const ROOM: usize = 16384;

// What the input says before the samples of a picture.
#[derive(Clone, Copy)]
struct Head {
    width: u8,
    height: u8,
    levels: u8,
    depth: u8,
}

impl Head {
    // The number of samples.
    fn area(self) -> usize
        ensures { result ≡ self.width * self.height }
    {
        usize::from(self.width) * usize::from(self.height)
    }
}

impl fmt::Display for Head {
    fn fmt<W: fmt::Write>(&self, f: &mut fmt::Formatter<W>) -> fmt::Result {
        let Head {
            width,
            height,
            levels,
            ..
        } = *self;
        let s = if levels == 1 { "" } else { "s" };
        write!(f, "{width} x {height}, {levels} level{s}")
    }
}

fn read_samples(bytes: &[u8], samples: &mut [u16]) {
    let (pairs, _) = bytes.as_chunks::<2>();
    for (sample, pair) in samples.iter_mut().zip(pairs) {
        *sample = u16::from_be_bytes(*pair);
    }
}

// How many coefficients of the plane are not those of the bytes.
fn differences(plane: &[i32], bytes: &[u8]) -> usize
    ensures of_plane { result ≤ length plane.now }
    ensures of_bytes { 2 * result ≤ length bytes.now }
{
    let (pairs, _) = bytes.as_chunks::<2>();
    plane
        .iter()
        .zip(pairs)
        .filter(|(x, pair)| **x != i32::from(i16::from_be_bytes(**pair)))
        .count()
}

// Transforms a picture by kernel 3 and counts the coefficients of its plane that are not the outside ones.
fn compare(head: Head, samples: &[u8], coefficients: &[u8]) -> Result<usize, Refusal>
    requires { head.width * head.height ≤ 16384 }
    ensures of_plane { IfOk result (λ differ. differ ≤ head.width * head.height) }
    ensures of_bytes { IfOk result (λ differ. 2 * differ ≤ length coefficients.now) }
{
    let mut picture = [0u16; ROOM];
    let mut plane = [0i32; ROOM];
    let picture = &mut picture[..head.area()];
    let plane = &mut plane[..head.area()];
    read_samples(samples, picture);
    let setting = Setting {
        kernel: 3,
        levels: usize::from(head.levels),
        depth: usize::from(head.depth),
        width: usize::from(head.width),
        height: usize::from(head.height),
    };
    wavelet::transform(setting, picture, plane)?;
    Ok(differences(plane, coefficients))
}

// The samples and the coefficients of a picture, and the bytes behind them; `None` where the bytes end before.
fn split(area: usize, bytes: &[u8]) -> Option<(&[u8], &[u8], &[u8])>
    requires { area < 65536 }
    ensures { IfSome result (λ parts. (length parts.1.now ≡ 2 * area) × (4 * area + length parts.2.now ≡ length bytes.now)) }
{
    let (samples, rest) = bytes.split_at_checked(2 * area)?;
    let (coefficients, rest) = rest.split_at_checked(2 * area)?;
    Some((samples, coefficients, rest))
}

// Compares the picture at the start of the bytes and prints its line. The number of coefficients that differ, and the bytes
// behind the picture; `None` where it could not be compared.
fn take<'a>(rt: &impl Print, bytes: &'a [u8]) -> io::Result<Option<(usize, &'a [u8])>>
    requires { length bytes.now ≤ 65536 }
    ensures { IfOk result (λ found. IfSome found (λ taken. taken.0 + length taken.1.now < length bytes.now)) }
{
    let Some((&[width, height, levels, depth], rest)) = bytes.split_first_chunk::<4>() else {
        println!(rt; "the input is cut")?;
        return Ok(None);
    };
    let head = Head {
        width,
        height,
        levels,
        depth,
    };
    print!(rt; "{head}: ")?;
    let Some((samples, coefficients, rest)) = split(head.area(), rest) else {
        println!(rt; "the input is cut")?;
        return Ok(None);
    };
    match compare(head, samples, coefficients) {
        Ok(differ) => {
            if differ == 0 {
                println!(rt; "same")?;
            } else {
                println!(rt; "{differ} differ")?;
            }
            Ok(Some((differ, rest)))
        }
        Err(refusal) => {
            println!(rt; "refused {}", u64::from(refusal))?;
            Ok(None)
        }
    }
}

// Compares picture after picture, and stops at one that could not be compared.
fn take_all(rt: &impl Print, input: &[u8]) -> io::Result<()>
    requires { length input.now ≤ 65536 }
{
    let mut rest = input;
    let mut pictures = 0u64;
    let mut differ = 0u64;
    // No method of the library cuts the input into pictures: each says where it ends.
    while !rest.is_empty() {
        let Some((found, behind)) = take(rt, rest)? else {
            return Ok(());
        };
        rest = behind;
        pictures += 1;
        differ += found as u64;
    }
    println!(rt; "{pictures} pictures, {differ} coefficients differ")
}

fn main(rt: HostRuntime) -> io::Result<()> {
    let mut buffer = [0u8; MOST + 1];
    let n = read_input(&rt, &mut buffer)?;
    if MOST < n {
        return println!(rt; "more than {MOST} bytes of input");
    }
    take_all(&rt, &buffer[..n])
}
