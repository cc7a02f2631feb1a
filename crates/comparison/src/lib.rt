// The passes before paper 3 of document 02 for C, one level each way, for the comparison alone. What each promises is what the library's
// function promises of one level, of even sides. The passes themselves are in earlier_passes, as they were; here are tests and calls.
#![tactic(auto)]

ghost use Rattle.std.specs.Prelude.{◌≡◌, pos, length};
ghost use Rattle.refusal.specs.Numbers.{answer_number, first, accepted};
ghost use Rattle.refusal.specs.Results.{Result};
ghost use Rattle.comparison.specs.Earlier.{bad_sides, coefficient, undone_number, transform_tests, undo_tests};

use kernel::Kernel;
use refusal::{Refusal, refuse};

// The earlier passes take even sides only.
fn bad_sides(w: usize, h: usize) -> bool
    ensures { result ≡ bad_sides w h }
{
    refusal::bad_size(w, h) | (w % 2 != 0) | (h % 2 != 0)
}

// Samples of at most 10 bits. Refusals, in order: 1, 4, 5, 6.
#[tactic(auto, unfolding(refusal::specs::Numbers::first))]
fn transform(
    kernel: usize,
    w: usize,
    h: usize,
    samples: &[u16],
    plane: &mut [i32],
) -> Result<(), Refusal>
    ensures result_value { answer_number result ≡ first (transform_tests kernel w h samples.now (length plane.old)) }
    ensures fact { Result (pos 0) (accepted (transform_tests kernel w h samples.now (length plane.old))) (coefficient kernel w h samples.now) plane.old plane.new }
{
    let chosen = refusal::known_kernel(kernel)?;
    refuse(bad_sides(w, h), Refusal::Size)?;
    let count = w * h;
    refuse(samples.len() != count, Refusal::Length)?;
    refuse(plane.len() != count, Refusal::Length)?;
    refuse(refusal::bad_sample(10, samples), Refusal::Sample)?;
    earlier_passes::transform_level(chosen, w, h, samples, plane);
    Ok(())
}

// Refusals, in order: 1, 4, 5, 10.
#[tactic(auto, unfolding(refusal::specs::Numbers::first))]
fn undo(kernel: usize, w: usize, h: usize, plane: &[i32], undone: &mut [i32]) -> Result<(), Refusal>
    ensures result_value { answer_number result ≡ first (undo_tests kernel w h plane.now (length undone.old)) }
    ensures fact { Result (pos 0) (accepted (undo_tests kernel w h plane.now (length undone.old))) (undone_number kernel w h plane.now) undone.old undone.new }
{
    let chosen = refusal::known_kernel(kernel)?;
    refuse(bad_sides(w, h), Refusal::Size)?;
    let count = w * h;
    refuse(plane.len() != count, Refusal::Length)?;
    refuse(undone.len() != count, Refusal::Length)?;
    refuse(refusal::bad_magnitude(plane), Refusal::Magnitude)?;
    earlier_passes::undo_level(chosen, w, h, plane, undone);
    Ok(())
}

#[unsafe(no_mangle)]
pub extern "C" fn earlier_transform(
    kernel: usize,
    w: usize,
    h: usize,
    samples: &[u16],
    plane: &mut [i32],
) -> u64
    ensures value { result ≡ first (transform_tests kernel w h samples.now (length plane.old)) }
    ensures fact { Result (pos 0) (accepted (transform_tests kernel w h samples.now (length plane.old))) (coefficient kernel w h samples.now) plane.old plane.new }
{
    let answer = transform(kernel, w, h, samples, plane);
    refusal::answer_number(&answer)
}

#[unsafe(no_mangle)]
pub extern "C" fn earlier_undo(
    kernel: usize,
    w: usize,
    h: usize,
    plane: &[i32],
    undone: &mut [i32],
) -> u64
    ensures value { result ≡ first (undo_tests kernel w h plane.now (length undone.old)) }
    ensures fact { Result (pos 0) (accepted (undo_tests kernel w h plane.now (length undone.old))) (undone_number kernel w h plane.now) undone.old undone.new }
{
    let answer = undo(kernel, w, h, plane, undone);
    refusal::answer_number(&answer)
}
