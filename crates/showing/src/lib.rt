// Shows codestreams, at each of their levels.
#![tactic(auto)]

ghost use Rattle.std.specs.Prelude.{◌≡◌, ◌&&◌, ◌≤◌, pos, length, IfOk};
ghost use Rattle.refusal.specs.Numbers.{first, accepted};
ghost use Rattle.refusal.specs.Tests.{bad_level};
ghost use Rattle.refusal.specs.Results.{Result};
ghost use Rattle.header.specs.Fields.{shot_of};
ghost use Rattle.shot.specs.Shots.{shot_mask};
ghost use Rattle.codestream.specs.Reading.{plane_of, numbers_under, held_under};
ghost use Rattle.header_reader.specs.Answers.{header_for};
ghost use Rattle.decoder.specs.Answers.{numbers_of};
ghost use Rattle.decoder.specs.Inner.{Taken};
ghost use Rattle.exactness.specs.Shown.{level_number_at, level_sample_at, front_tests, area_tests, stream_tests};
ghost use Rattle.showing.specs.Inner.{LevelShown};

use decoder::Reading;
use header_reader::Headed;
use refusal::{Refusal, refuse};

// Shows a stream at level r: reads it, undoes the levels behind r and brings the area that is left into range, each with what its header says.
// Refusals, in order: 12, 13, 1, 2, 17, 3, 4, 7, 8, 14, 5, 16. Under 16 plane and mask are zeroed; but for that, under a refusal, every lent
// buffer holds what it held.
pub fn show_stream(
    stream: &[u8],
    r: usize,
    plane: &mut [i32],
    mask: &mut [u8],
    undone: &mut [i32],
    shown: &mut [u16],
) -> Result<Reading, Refusal>
    ensures outcome_value { numbers_of result ≡ numbers_under (first (stream_tests stream.now r (length plane.old) (length mask.old) (length undone.old) (length shown.old))) stream.now }
    ensures header_value { IfOk result (λ reading. reading.header ≡ header_for (shot_of stream.now)) }
    ensures plane_after { plane.new ≡ held_under (pos 0) (first (stream_tests stream.now r (length plane.old) (length mask.old) (length undone.old) (length shown.old))) (plane_of stream.now) plane.old }
    ensures mask_after { mask.new ≡ held_under 0 (first (stream_tests stream.now r (length plane.old) (length mask.old) (length undone.old) (length shown.old))) (shot_mask (shot_of stream.now)) mask.old }
    ensures fact { Result (pos 0) (accepted (stream_tests stream.now r (length plane.old) (length mask.old) (length undone.old) (length shown.old))) (level_number_at r stream.now) undone.old undone.new }
    ensures fact_2 { Result 0 (accepted (stream_tests stream.now r (length plane.old) (length mask.old) (length undone.old) (length shown.old))) (level_sample_at r stream.now) shown.old shown.new }
{
    refuse(bad_level(stream, r), Refusal::Level)?;
    let headed = header_reader::read_header(stream)?;
    show_headed(headed, stream, r, plane, mask, undone, shown)
}

// None of the tests in front of 17 holds, and r is above the stream's levels.
fn bad_level(stream: &[u8], r: usize) -> bool
    ensures { result ≡ (accepted (front_tests stream.now) && bad_level r (shot_of stream.now).levels) }
{
    if header::bad_header(stream) {
        return false;
    }
    if header::bad_version(stream) {
        return false;
    }
    if 3 < header::one_byte(stream, 5) {
        return false;
    }
    let levels = header::one_byte(stream, 6);
    if refusal::bad_levels(levels) {
        return false;
    }
    refusal::bad_level(r, levels)
}

// The refusals behind those of the header, the body, and then the picture. The plane that the reader leaves is an accepted one.
fn show_headed(
    headed: Headed,
    stream: &[u8],
    r: usize,
    plane: &mut [i32],
    mask: &mut [u8],
    undone: &mut [i32],
    shown: &mut [u16],
) -> Result<Reading, Refusal>
    requires taken { Taken stream.now headed.kernel headed.header }
    requires r_le_levels { r ≤ headed.header.levels }
    ensures { LevelShown (first (area_tests stream.now r (length plane.old) (length mask.old) (length undone.old) (length shown.old))) r stream.now plane.old plane.new mask.old mask.new undone.old undone.new shown.old shown.new result }
{
    let header = headed.header;
    let w = header.width;
    let h = header.height;
    refuse(
        level_picture::bad_area(r, w, h, undone.len(), shown.len()),
        Refusal::Length,
    )?;
    let reading = decoder::read_headed(headed, stream, plane, mask)?;
    level_picture::show_area(
        headed.kernel,
        header.levels,
        r,
        header.depth,
        w,
        h,
        plane,
        undone,
        shown,
    );
    Ok(reading)
}
