// The brightness of a region: how many samples it has, their sum, and the sum divided by their number.
#![tactic(auto)]

ghost use Rattle.std.specs.Prelude.{◌≡◌, true, false, ◌*◌, ◌≤◌, MatchOption, length};
ghost use Rattle.line.specs.Cells.{choose};
ghost use Rattle.line.specs.Mask.{marked};
ghost use Rattle.refusal.specs.Tests.{bad_mark};
ghost use Rattle.brightness.specs.Brightness as regions;
ghost use Rattle.brightness.specs.Answers.{numbers_of};
ghost use Rattle.brightness.specs.Inner.{Sized};

use refusal::{Refusal, refuse};

// The result numbers of an accepted call.
#[derive(Clone, Copy)]
pub struct Figures {
    pub number: u64,
    pub sum: u64,
    pub quotient: u64,
    pub remainder: u64,
}

// How many samples are in the region, and their sum.
#[derive(Clone, Copy)]
struct Found {
    number: u64,
    sum: u64,
}

// The brightness of a region of a shown picture of w by h samples.
// Refusals, in order: 4, 5, 9, 19.
#[tactic(auto, unfolding(refusal::specs::Numbers::first, crate::specs::Brightness::brightness_numbers))]
pub fn brightness(w: usize, h: usize, picture: &[u16], region: &[u8]) -> Result<Figures, Refusal>
    ensures { numbers_of result ≡ regions.brightness_numbers w h picture.now region.now }
{
    refuse(refusal::bad_size(w, h), Refusal::Size)?;
    let count = w * h;
    refuse(picture.len() != count, Refusal::Length)?;
    refuse(region.len() != count, Refusal::Length)?;
    let found = measure(w, picture, region).ok_or(Refusal::Mark)?;
    refuse(found.number == 0, Refusal::NoSample)?;
    Ok(Figures {
        number: found.number,
        sum: found.sum,
        quotient: found.sum / found.number,
        remainder: found.sum % found.number,
    })
}

// One pass over picture and region, of rows of w: a row is in the cache while its number, its sum and its bytes are found, each in a loop that the
// compiler can make as wide as its numbers allow. None where a region byte is above 1.
fn measure(w: usize, picture: &[u16], region: &[u8]) -> Option<Found>
    requires { Sized w picture.now region.now }
    ensures { MatchOption result (bad_mark region.now ≡ true) (λ found. (bad_mark region.now ≡ false) × (found.number ≡ regions.number region.now) × (found.sum ≡ regions.sum picture.now region.now)) }
{
    let mut number: u64 = 0;
    let mut sum: u64 = 0;
    for (samples, bytes) in picture.chunks_exact(w).zip(region.chunks_exact(w)) {
        number += u64::from(row_number(bytes));
        sum += u64::from(row_sum(samples, bytes));
        // Last in its row: asked before the number and the sum it costs small pictures up to a seventh of their time.
        if row_bad(bytes) {
            return None;
        }
    }
    Some(Found { number, sum })
}

// A region byte of a row is above 1.
fn row_bad(bytes: &[u8]) -> bool
    ensures { result ≡ bad_mark bytes.now }
{
    let mut bad = false;
    for byte in bytes {
        bad |= 1 < *byte;
    }
    bad
}

// How many samples of a row are in the region. In 16 bits, which a row's count fits: the compiler counts more at a time than `scan::mark_count` may.
fn row_number(bytes: &[u8]) -> u16
    requires { length bytes.now ≤ 4096 }
    ensures { result ≡ regions.number bytes.now }
{
    let mut number: u16 = 0;
    for byte in bytes {
        number += u16::from(*byte == 1);
    }
    number
}

// The sum of a row's samples that are in the region.
fn row_sum(samples: &[u16], bytes: &[u8]) -> u32
    requires { (length bytes.now ≤ 4096) × (length samples.now ≡ length bytes.now) }
    ensures value { result ≡ regions.sum samples.now bytes.now }
    ensures upper_bound { result ≤ length bytes.now * 65535 }
{
    let mut sum: u32 = 0;
    for (sample, byte) in samples.iter().zip(bytes) {
        sum += kept(*sample, *byte);
    }
    sum
}

// A sample that the region has, else 0.
fn kept(sample: u16, byte: u8) -> u32
    ensures value { result ≡ choose (marked byte) sample 0 }
    ensures upper_bound { result ≤ 65535 }
{
    if byte == 1 { u32::from(sample) } else { 0 }
}
