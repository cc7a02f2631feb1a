// Shows the picture at a level of a plane: the small picture that is left when the finest levels are not undone.
#![tactic(auto)]

ghost use Rattle.std.specs.Prelude.{◌≡◌, true, ◌-◌, ◌^◌, ◌≤◌, pos, length};
ghost use Rattle.grid.specs.Picture.{side};
ghost use Rattle.plane.specs.Inner.{Below};
ghost use Rattle.refusal.specs.Numbers.{answer_number, first, accepted};
ghost use Rattle.refusal.specs.Results.{Result};
ghost use Rattle.wavelet.specs.Wavelet.{coefficients_of};
ghost use Rattle.samples.specs.Samples.{in_range};
ghost use Rattle.level_picture.specs.Level.{level_number, level_sample, bad_area, level_tests};
ghost use Rattle.level_picture.specs.Inner.{Lent, level_at};

use kernel::Kernel;
use refusal::{Refusal, refuse};

// The picture at level r of a plane of w by h coefficients, as whole numbers, and brought into the range of `depth` bits.
// Refusals, in order: 1, 2, 17, 3, 4, 5, 10. Under a refusal both lent buffers hold what they held.
#[tactic(auto, unfolding(refusal::specs::Numbers::first))]
pub fn show_level(
    kernel: usize,
    levels: usize,
    r: usize,
    depth: usize,
    w: usize,
    h: usize,
    plane: &[i32],
    undone: &mut [i32],
    shown: &mut [u16],
) -> Result<(), Refusal>
    ensures result_value { answer_number result ≡ first (level_tests kernel levels r depth w h plane.now (length undone.old) (length shown.old)) }
    ensures fact { Result (pos 0) (accepted (level_tests kernel levels r depth w h plane.now (length undone.old) (length shown.old))) (level_number kernel levels r w h plane.now) undone.old undone.new }
    ensures fact_2 { Result 0 (accepted (level_tests kernel levels r depth w h plane.now (length undone.old) (length shown.old))) (level_sample kernel levels r depth w h plane.now) shown.old shown.new }
{
    let chosen = refusal::known_kernel(kernel)?;
    refuse(refusal::bad_levels(levels), Refusal::Levels)?;
    refuse(refusal::bad_level(r, levels), Refusal::Level)?;
    refuse(refusal::bad_depth(depth), Refusal::Depth)?;
    refuse(refusal::bad_size(w, h), Refusal::Size)?;
    refuse(plane.len() != w * h, Refusal::Length)?;
    refuse(
        bad_area(r, w, h, undone.len(), shown.len()),
        Refusal::Length,
    )?;
    refuse(refusal::bad_magnitude(plane), Refusal::Magnitude)?;
    show_area(chosen, levels, r, depth, w, h, plane, undone, shown);
    Ok(())
}

// The buffer for the whole numbers or that for what is shown, of these lengths, is not as long as the area at level r.
pub fn bad_area(r: usize, w: usize, h: usize, undone: usize, shown: usize) -> bool
    requires { (r ≤ 5) × (w ≤ 4096) × (h ≤ 4096) }
    ensures { result ≡ bad_area r w h undone shown }
{
    let count = wavelet::level_side(r, w) * wavelet::level_side(r, h);
    (undone != count) | (shown != count)
}

// The picture at level r of a plane whose area holds accepted coefficients, in lent buffers as long as the area. Nothing outside it is read.
pub fn show_area(
    kernel: Kernel,
    levels: usize,
    r: usize,
    depth: usize,
    w: usize,
    h: usize,
    plane: &[i32],
    undone: &mut [i32],
    shown: &mut [u16],
)
    requires lent { Lent levels r depth w h (length plane.now) (length undone.old) (length shown.old) }
    requires below { Below (2 ^ 22 - 1) (side r w) (side r h) (coefficients_of w plane.now) }
    ensures fact { Result (pos 0) true (level_at kernel levels r w h plane.now) undone.old undone.new }
    ensures fact_2 { Result 0 true (λ i. in_range depth (level_at kernel levels r w h plane.now i)) shown.old shown.new }
{
    let area_w = wavelet::level_side(r, w);
    let area_h = wavelet::level_side(r, h);
    wavelet::undo_area(kernel, levels - r, w, area_w, area_h, plane, undone);
    samples::show_all(depth, undone, shown);
}
