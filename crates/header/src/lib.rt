// The header of a codestream, and the part behind it that carries the body.
#![tactic(auto)]

ghost use Rattle.std.specs.Prelude.{◌≡◌, ℕ, ◌+◌, ◌*◌, ◌<◌, ◌≤◌, length, get_or};
ghost use Rattle.header.specs.Header.{number, front_length, bad_front, bad_header, bad_version, body_of};
ghost use Rattle.header.specs.Fields.{bytes_of, laid, rectangle_fields};
ghost use Rattle.header.specs.Writing.{Laid, Fit, Headed};
ghost use Rattle.header.specs.Arrival.{bad_arrival, arrived_of, arrival_numbers};
ghost use Rattle.header.specs.Answers.{numbers_of};

use refusal::{Refusal, refuse};
use setting::Setting;

// The numbers of one, two and four bytes at a place.
pub fn one_byte(stream: &[u8], at: usize) -> usize
    requires { at + 1 ≤ length stream.now }
    ensures value { result ≡ number 1 stream.now at }
    ensures upper_bound { result < 256 }
{
    stream[at] as usize
}

pub fn two_bytes(stream: &[u8], at: usize) -> usize
    requires { at + 2 ≤ length stream.now }
    ensures value { result ≡ number 2 stream.now at }
    ensures upper_bound { result < 65536 }
{
    one_byte(stream, at) * 256 + one_byte(stream, at + 1)
}

pub fn four_bytes(stream: &[u8], at: usize) -> usize
    requires { at + 4 ≤ length stream.now }
    ensures value { result ≡ number 4 stream.now at }
    ensures upper_bound { result < 4294967296 }
{
    two_bytes(stream, at) * 65536 + two_bytes(stream, at + 2)
}

// The length before the body.
pub fn front_length(stream: &[u8]) -> usize
    requires { 14 ≤ length stream.now }
    ensures { result ≡ front_length stream.now }
{
    14 + 8 * one_byte(stream, 12)
}

// The header is not whole.
fn bad_front(stream: &[u8]) -> bool
    ensures { result ≡ bad_front stream.now }
{
    if stream.len() < 14 {
        return true;
    }
    stream.len() < front_length(stream)
}

// Refusal 12.
pub fn bad_header(stream: &[u8]) -> bool
    ensures { result ≡ bad_header stream.now }
{
    if bad_front(stream) {
        return true;
    }
    four_bytes(stream, 0) + 4 != stream.len()
}

// Refusal 12 of what arrived.
fn bad_arrival(stream: &[u8]) -> bool
    ensures { result ≡ bad_arrival stream.now }
{
    if bad_front(stream) {
        return true;
    }
    four_bytes(stream, 0) + 4 < stream.len()
}

// Refusal 13.
pub fn bad_version(stream: &[u8]) -> bool
    requires { 14 ≤ length stream.now }
    ensures { result ≡ bad_version stream.now }
{
    one_byte(stream, 4) != 1
}

// The part of the stream that carries the body; its empty part under refusal 12 or 13.
pub fn body(stream: &[u8]) -> &[u8]
    ensures { result.now ≡ body_of stream.now }
{
    if bad_header(stream) {
        return &stream[..0];
    }
    if bad_version(stream) {
        return &stream[..0];
    }
    let at = front_length(stream);
    &stream[at..]
}

// Write the numbers of one, two and four bytes at a place.
fn put_byte(out: &mut [u8], at: usize, x: usize)
    requires { (at + 1 ≤ length out.old) × (x < 256) }
    ensures { Laid at (bytes_of 1 x) out.old out.new }
{
    out[at] = x as u8;
}

fn put_two(out: &mut [u8], at: usize, x: usize)
    requires { (at + 2 ≤ length out.old) × (x < 65536) }
    ensures { Laid at (bytes_of 2 x) out.old out.new }
{
    put_byte(out, at, x / 256);
    put_byte(out, at + 1, x % 256);
}

pub fn put_four(out: &mut [u8], at: usize, x: usize)
    requires { (at + 4 ≤ length out.old) × (x < 4294967296) }
    ensures { Laid at (bytes_of 4 x) out.old out.new }
{
    put_two(out, at, x / 65536);
    put_two(out, at + 2, x % 65536);
}

// Writes the numbers of the rectangles behind the fixed fields.
fn put_rectangles(out: &mut [u8], numbers: &[u32])
    requires numbers_in_bounds { 14 + 2 * length numbers.now ≤ length out.old }
    requires by_index { (i : ℕ) → i < length numbers.now → get_or numbers.now i 0 < 65536 }
    ensures { Laid 14 (laid (rectangle_fields numbers.now)) out.old out.new }
{
    for (i, x) in numbers.iter().enumerate() {
        put_two(out, 14 + 2 * i, *x as usize);
    }
}

// Writes the header of a stream of `total` bytes.
pub fn write_header(out: &mut [u8], setting: Setting, numbers: &[u32], planes: usize, total: usize)
    requires { Fit (record { kernel = setting.kernel; levels = setting.levels; depth = setting.depth; width = setting.width; height = setting.height; planes = planes; rectangles = numbers.now }) total out.old }
    ensures { Headed (record { kernel = setting.kernel; levels = setting.levels; depth = setting.depth; width = setting.width; height = setting.height; planes = planes; rectangles = numbers.now }) total out.old out.new }
{
    put_four(out, 0, total - 4);
    put_byte(out, 4, 1);
    put_byte(out, 5, setting.kernel);
    put_byte(out, 6, setting.levels);
    put_byte(out, 7, setting.depth);
    put_two(out, 8, setting.width);
    put_two(out, 10, setting.height);
    put_byte(out, 12, numbers.len() / 4);
    put_byte(out, 13, planes);
    put_rectangles(out, numbers);
}

// Makes of what a call that broke off has left the stream cut to what arrived: a length field that is larger than what is there is set. The
// answer is the length that was sent.
// Refusal: 12. Every other stream, and all other bytes, hold what they held.
#[tactic(auto, unfolding(refusal::specs::Numbers::first))]
pub fn arrived(stream: &mut [u8]) -> Result<usize, Refusal>
    ensures result_value { numbers_of result ≡ arrival_numbers stream.old }
    ensures stream_after { stream.new ≡ arrived_of stream.old }
{
    refuse(bad_arrival(stream), Refusal::Header)?;
    let sent = four_bytes(stream, 0) + 4;
    let there = stream.len();
    if there < sent {
        put_four(stream, 0, there - 4);
    }
    Ok(sent)
}
