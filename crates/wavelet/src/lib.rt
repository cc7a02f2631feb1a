// The wavelet transform of a picture and its way back: rows and columns, level by level.
#![tactic(auto)]

ghost use Rattle.std.specs.Prelude.{◌≡◌, ◌-◌, ◌+◌, ◌*◌, ◌/◌, ◌%◌, ◌^◌, ◌<◌, ◌≤◌, pos, length, true};
ghost use Rattle.line.specs.Transform as line;
ghost use Rattle.line.specs.Cells.{low_side};
ghost use Rattle.grid.specs.Picture.{col_pass, walk, side};
ghost use Rattle.plane.specs.Plane as planes;
ghost use Rattle.plane.specs.Inner.{Below};
ghost use Rattle.plane.specs.Plane.{transformed};
ghost use Rattle.refusal.specs.Numbers.{answer_number, first, accepted};
ghost use Rattle.refusal.specs.Results.{Result};
ghost use Rattle.wavelet.specs.Wavelet.{samples_of, coefficients_of, coefficient, undone_number, transform_tests, undo_tests};
ghost use Rattle.wavelet.specs.Walks.{area_bound, Levels, Undone, Sized};

use kernel::Kernel;
use refusal::{Refusal, refuse};
use setting::Setting;

// A level and those below it: the row pass, and then `cols`. Stride, width and height are three numbers for speed, as in `passes`.
#[cycle(cols_rows)]
fn rows(
    kernel: Kernel,
    l: &mut [i32],
    q: &mut [i32],
    stride: usize,
    w: usize,
    h: usize,
    levels: usize,
)
    requires levels { Levels stride w h levels (length l.old) }
    requires in_bounds { 32768 ≤ length q.old }
    requires below { Below (area_bound levels) w h (coefficients_of stride l.old) }
    ensures { coefficients_of stride l.new ≡ walk (line.forward kernel) levels w h (coefficients_of stride l.old) }
{
    if 0 < levels {
        passes::row_pass(kernel, l, q, stride, w, h);
        cols(kernel, l, q, stride, w, h, levels);
    }
}

// The column pass of a level, and then `rows` on the low part.
#[cycle(cols_rows)]
fn cols(
    kernel: Kernel,
    l: &mut [i32],
    q: &mut [i32],
    stride: usize,
    w: usize,
    h: usize,
    levels: usize,
)
    requires levels_nonzero { 0 < levels }
    requires levels { Levels stride w h levels (length l.old) }
    requires in_bounds { 32768 ≤ length q.old }
    requires below { Below (3 * area_bound levels + 2) w h (coefficients_of stride l.old) }
    ensures { coefficients_of stride l.new ≡ walk (line.forward kernel) (levels - 1) (low_side w) (low_side h) (col_pass (line.forward kernel) w h (coefficients_of stride l.old)) }
{
    passes::col_pass(kernel, l, q, stride, w, h);
    rows(kernel, l, q, stride, w - w / 2, h - h / 2, levels - 1);
}

// The first level stores each row of samples where it ends, and lifts its columns there as whole rows; the levels below have no second buffer.
fn transform_all(
    kernel: Kernel,
    levels: usize,
    w: usize,
    h: usize,
    samples: &[u16],
    plane: &mut [i32],
)
    requires sized { Sized levels w h (length samples.now) (length plane.old) }
    requires below { Below 1023 w h (samples_of w samples.now) }
    ensures { Result (pos 0) true (λ i. transformed kernel levels w h (samples_of w samples.now) (i / w) (i % w)) plane.old plane.new }
{
    passes::level_in(kernel, samples, plane, w, h);
    let mut q = [0i32; 32768];
    rows(kernel, plane, &mut q, w, w - w / 2, h - h / 2, levels - 1);
}

// The plane of a picture of the setting's size and depth.
// Refusals, in order: 1, 2, 3, 4, 5, 6. Under a refusal the plane holds what it held.
#[tactic(auto, unfolding(refusal::specs::Numbers::first))]
pub fn transform(setting: Setting, samples: &[u16], plane: &mut [i32]) -> Result<(), Refusal>
    ensures result_value { answer_number result ≡ first (transform_tests setting.kernel setting.levels setting.depth setting.width setting.height samples.now (length plane.old)) }
    ensures fact { Result (pos 0) (accepted (transform_tests setting.kernel setting.levels setting.depth setting.width setting.height samples.now (length plane.old))) (coefficient setting.kernel setting.levels setting.width setting.height samples.now) plane.old plane.new }
{
    let chosen = refusal::known_kernel(setting.kernel)?;
    refuse(refusal::bad_levels(setting.levels), Refusal::Levels)?;
    refuse(refusal::bad_depth(setting.depth), Refusal::Depth)?;
    let w = setting.width;
    let h = setting.height;
    refuse(refusal::bad_size(w, h), Refusal::Size)?;
    let count = w * h;
    refuse(samples.len() != count, Refusal::Length)?;
    refuse(plane.len() != count, Refusal::Length)?;
    refuse(refusal::bad_sample(setting.depth, samples), Refusal::Sample)?;
    transform_all(chosen, setting.levels, w, h, samples, plane);
    Ok(())
}

// The way back of an area of the plane, into rows `stride` apart: the levels below into every other row, and then this one.
fn undo_levels(
    kernel: Kernel,
    plane: &[i32],
    l: &mut [i32],
    q: &mut [i32],
    width: usize,
    stride: usize,
    w: usize,
    h: usize,
    levels: usize,
)
    requires levels { Levels width w h levels (length plane.now) }
    requires levels_2 { Levels stride w h levels (length l.old) }
    requires w_in_bounds { w ≤ length q.old }
    requires below { Below (2 ^ 22 - 1) w h (coefficients_of width plane.now) }
    ensures { Undone kernel levels width stride w h plane.now l.old l.new }
{
    if 0 < levels {
        undo_levels(
            kernel,
            plane,
            l,
            q,
            width,
            2 * stride,
            w - w / 2,
            h - h / 2,
            levels - 1,
        );
        passes::level_back(kernel, plane, l, q, width, stride, w, h);
    } else {
        transfer::copy_rows(plane, l, 0, width, 0, stride, h, w);
    }
}

// The side of the area that r levels leave of a side w: halved and rounded up r times.
pub fn level_side(r: usize, w: usize) -> usize
    requires { (r ≤ 5) × (w ≤ 4096) }
    ensures { result ≡ side r w }
{
    (w + refusal::power(r) - 1) >> r
}

// The undone numbers of the upper left area of w by h of a plane of rows of `width`; no other coefficient is read.
pub fn undo_area(
    kernel: Kernel,
    levels: usize,
    width: usize,
    w: usize,
    h: usize,
    plane: &[i32],
    undone: &mut [i32],
)
    requires levels { Levels width w h levels (length plane.now) }
    requires undone_len { length undone.old ≡ w * h }
    requires below { Below (2 ^ 22 - 1) w h (coefficients_of width plane.now) }
    ensures { Result (pos 0) true (λ i. planes.undone kernel levels w h (coefficients_of width plane.now) (i / w) (i % w)) undone.old undone.new }
{
    let mut q = [0i32; 4096];
    undo_levels(kernel, plane, undone, &mut q, width, w, w, h, levels);
}

// The undone numbers of a plane of w by h coefficients.
// Refusals, in order: 1, 2, 4, 5, 10. Under a refusal the undone numbers' buffer holds what it held.
#[tactic(auto, unfolding(refusal::specs::Numbers::first))]
pub fn undo(
    kernel: usize,
    levels: usize,
    w: usize,
    h: usize,
    plane: &[i32],
    undone: &mut [i32],
) -> Result<(), Refusal>
    ensures result_value { answer_number result ≡ first (undo_tests kernel levels w h plane.now (length undone.old)) }
    ensures fact { Result (pos 0) (accepted (undo_tests kernel levels w h plane.now (length undone.old))) (undone_number kernel levels w h plane.now) undone.old undone.new }
{
    let chosen = refusal::known_kernel(kernel)?;
    refuse(refusal::bad_levels(levels), Refusal::Levels)?;
    refuse(refusal::bad_size(w, h), Refusal::Size)?;
    let count = w * h;
    refuse(plane.len() != count, Refusal::Length)?;
    refuse(undone.len() != count, Refusal::Length)?;
    refuse(refusal::bad_magnitude(plane), Refusal::Magnitude)?;
    undo_area(chosen, levels, w, w, h, plane, undone);
    Ok(())
}
