// The passes before paper 3 of document 02, for the comparison alone: one level of the transform, and the way back.
// All files here are as they were then: their loops by index, twins and switches are what is compared, and stay.
#![tactic(auto)]

ghost use Rattle.std.specs.Prelude.{◌≡◌, ◌-◌, ◌^◌, pos, length, get_or};
ghost use Rattle.line.specs.Transform.{forward, back};
ghost use Rattle.grid.specs.Picture.{row_pass, col_pass, picture};
ghost use Rattle.plane.specs.Inner.{Below};
ghost use Rattle.earlier_passes.specs.Written.{Written};
ghost use Rattle.earlier_passes.specs.Level.{samples_of, OneLevel};

use kernel::Kernel;

mod floors;
mod lifting;
mod passes;
mod runs;
mod steps;
mod transfer;

// Copies samples to a plane.
fn widen(samples: &[u16], plane: &mut [i32])
    requires { length samples.now ≡ length plane.old }
    ensures { Written (λ k. pos (get_or samples.now k 0)) 0 (length plane.old) plane.old plane.new }
{
    for i in 0..plane.len() {
        plane[i] = samples[i] as i32;
    }
}

// The rows, then the columns.
pub fn transform_level(kernel: Kernel, w: usize, h: usize, samples: &[u16], plane: &mut [i32])
    requires one_level { OneLevel w h (length samples.now) (length plane.old) }
    requires below { Below 1023 w h (samples_of w samples.now) }
    ensures { picture (pos 0) w plane.new ≡ col_pass (forward kernel) w h (row_pass (forward kernel) w h (samples_of w samples.now)) }
{
    widen(samples, plane);
    let mut a = [0i32; 32768];
    let mut b = [0i32; 32768];
    passes::row_pass(kernel, false, plane, &mut a, &mut b, w, w, h);
    passes::col_pass(kernel, false, plane, &mut a, &mut b, w, w, h);
}

// The columns, then the rows.
pub fn undo_level(kernel: Kernel, w: usize, h: usize, plane: &[i32], undone: &mut [i32])
    requires one_level { OneLevel w h (length plane.now) (length undone.old) }
    requires below { Below (2 ^ 22 - 1) w h (picture (pos 0) w plane.now) }
    ensures { picture (pos 0) w undone.new ≡ row_pass (back kernel) w h (col_pass (back kernel) w h (picture (pos 0) w plane.now)) }
{
    transfer::take(plane, undone, 0, 1, w * h, 1);
    let mut a = [0i32; 32768];
    let mut b = [0i32; 32768];
    passes::col_pass(kernel, true, undone, &mut a, &mut b, w, w, h);
    passes::row_pass(kernel, true, undone, &mut a, &mut b, w, w, h);
}
