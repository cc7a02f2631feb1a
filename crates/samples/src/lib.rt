// Entries on single samples: showing undone numbers, and dropping planes under a mask.
#![tactic(auto)]

ghost use Rattle.std.specs.Prelude.{◌≡◌, true, ◌*◌, ◌/◌, ◌≤◌, ◌<◌, ◌^◌, min, pos, nat_abs, length, get_or};
ghost use Rattle.whole.specs.Within.{up};
ghost use Rattle.line.specs.Mask.{marked};
ghost use Rattle.refusal.specs.Numbers.{answer_number, first, accepted};
ghost use Rattle.refusal.specs.Results.{Result};
ghost use Rattle.bitplane.specs.Bits.{dropped};
ghost use Rattle.samples.specs.Samples.{in_range, truncated, show_tests, truncate_tests};
ghost use Rattle.samples.specs.Accepted.{Accepted};

use refusal::{Refusal, refuse};

// Brings the undone numbers of a picture of w by h samples into the range of `depth` bits.
// Refusals, in order: 3, 4, 5. Under a refusal the shown samples hold what they held.
#[tactic(auto, unfolding(refusal::specs::Numbers::first))]
pub fn show(
    depth: usize,
    w: usize,
    h: usize,
    undone: &[i32],
    shown: &mut [u16],
) -> Result<(), Refusal>
    ensures result_value { answer_number result ≡ first (show_tests depth w h (length undone.now) (length shown.old)) }
    ensures fact { Result 0 (accepted (show_tests depth w h (length undone.now) (length shown.old))) (λ i. in_range depth (get_or undone.now i (pos 0))) shown.old shown.new }
{
    refuse(refusal::bad_depth(depth), Refusal::Depth)?;
    refuse(refusal::bad_size(w, h), Refusal::Size)?;
    let count = w * h;
    refuse(undone.len() != count, Refusal::Length)?;
    refuse(shown.len() != count, Refusal::Length)?;
    show_all(depth, undone, shown);
    Ok(())
}

// Each undone number, brought into range.
pub fn show_all(depth: usize, undone: &[i32], shown: &mut [u16])
    requires depth_bound { depth ≤ 10 }
    requires undone_len { length undone.now ≡ length shown.old }
    ensures { Result 0 true (λ i. in_range depth (get_or undone.now i (pos 0))) shown.old shown.new }
{
    let top = (refusal::power(depth) - 1) as u16;
    // No zip: std says only the length of what is written through one.
    for (i, sample) in shown.iter_mut().enumerate() {
        *sample = in_range(top, undone[i]);
    }
}

// z brought into 0 to `top`.
fn in_range(top: u16, z: i32) -> u16
    ensures { result ≡ min (up z) top }
{
    z.clamp(0, i32::from(top)) as u16
}

// Drops q planes of each coefficient of a plane that the mask does not mark, in place.
// Refusals, in order: 3, 4, 5, 9, 10. Under a refusal the plane holds what it held.
#[tactic(auto, unfolding(refusal::specs::Numbers::first))]
pub fn truncate(q: usize, w: usize, h: usize, mask: &[u8], plane: &mut [i32]) -> Result<(), Refusal>
    ensures result_value { answer_number result ≡ first (truncate_tests q w h mask.now plane.old) }
    ensures fact { Result (pos 0) (accepted (truncate_tests q w h mask.now plane.old)) (λ i. truncated q (marked (get_or mask.now i 0)) (get_or plane.old i (pos 0))) plane.old plane.new }
{
    refuse(22 < q, Refusal::Depth)?;
    refuse(refusal::bad_size(w, h), Refusal::Size)?;
    let count = w * h;
    refuse(mask.len() != count, Refusal::Length)?;
    refuse(plane.len() != count, Refusal::Length)?;
    refuse(refusal::bad_mark(mask), Refusal::Mark)?;
    refuse(refusal::bad_magnitude(plane), Refusal::Magnitude)?;
    truncate_all(q, mask, plane);
    Ok(())
}

// Each coefficient, truncated in place.
fn truncate_all(q: usize, mask: &[u8], plane: &mut [i32])
    requires q_bound { q ≤ 22 }
    requires mask_len { length mask.now ≡ length plane.old }
    requires accepted { Accepted plane.old }
    ensures { Result (pos 0) true (λ i. truncated q (marked (get_or mask.now i 0)) (get_or plane.old i (pos 0))) plane.old plane.new }
{
    // No zip, as above.
    for (i, z) in plane.iter_mut().enumerate() {
        *z = truncate_one(q, mask[i], *z);
    }
}

// A marked coefficient stays.
fn truncate_one(q: usize, mark: u8, z: i32) -> i32
    requires { (q ≤ 22) × (nat_abs z < 2 ^ 22) }
    ensures { result ≡ truncated q (marked mark) z }
{
    if mark == 1 { z } else { drop_planes(q, z) }
}

// The magnitude is shifted, not the number: a shift of −1 would never reach 0.
fn drop_planes(q: usize, z: i32) -> i32
    requires { (q ≤ 22) × (nat_abs z < 2 ^ 22) }
    ensures { result ≡ dropped q z }
{
    let m = keep(z.unsigned_abs(), q) as i32;
    if z < 0 { -m } else { m }
}

// A magnitude with its lowest q bits cleared.
fn keep(m: u32, q: usize) -> u32
    requires { q ≤ 22 }
    ensures { result ≡ m / 2 ^ q * 2 ^ q }
{
    m >> q << q
}
