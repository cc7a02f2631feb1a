// Cuts codestreams.
#![tactic(auto)]

ghost use Rattle.std.specs.Prelude.{◌≡◌, length};
ghost use Rattle.refusal.specs.Numbers.{first};
ghost use Rattle.codestream.specs.Reading.{plane_after, mask_after};
ghost use Rattle.codestream.specs.Cutting.{length_tests, cut_numbers, stream_after};
ghost use Rattle.decoder.specs.Answers.{is_whole, place_of};
ghost use Rattle.cutter.specs.Inner.{Read, Answered};
ghost use Rattle.cutter.specs.Answers.{numbers_of};

use refusal::{Refusal, refuse};

// Copies a stream, cut to the wanted length, into the lent buffer `out`; reads it first, into the lent plane and mask. The answer is the length of
// the cut stream.
// Refusals, in order: those of the reader, 15, 11, which has the needed length. Under a refusal `out` holds what it held; plane and mask hold the reader's answer.
pub fn cut(
    stream: &[u8],
    wanted: usize,
    plane: &mut [i32],
    mask: &mut [u8],
    out: &mut [u8],
) -> Result<usize, Refusal>
    ensures result_value { numbers_of result ≡ cut_numbers stream.now (length plane.old) (length mask.old) wanted (length out.old) }
    ensures plane_after { plane.new ≡ plane_after stream.now (length mask.old) plane.old }
    ensures mask_after { mask.new ≡ mask_after stream.now (length plane.old) mask.old }
    ensures out_after { out.new ≡ stream_after stream.now (length plane.old) (length mask.old) wanted out.old }
{
    let reading = decoder::read(stream, plane, mask)?;
    cut_read(stream, wanted, reading.body.region_mark, out)
}

// Cuts a stream that was read, whose marked part ends at the region mark, if it is whole.
fn cut_read(
    stream: &[u8],
    wanted: usize,
    region_mark: Option<usize>,
    out: &mut [u8],
) -> Result<usize, Refusal>
    requires { Read stream.now (is_whole region_mark) (place_of region_mark) }
    ensures { Answered (first (length_tests stream.now wanted (length out.old))) stream.now wanted out.old out.new result }
{
    let Some(mark) = region_mark else {
        return Err(Refusal::Cut);
    };
    refuse(wanted < mark, Refusal::Cut)?;
    refuse(stream.len() < wanted, Refusal::Cut)?;
    if out.len() < wanted {
        return Err(Refusal::Room(wanted));
    }
    transfer::copy(stream, out, 0, 0, wanted);
    header::put_four(out, 0, wanted - 4);
    Ok(wanted)
}
