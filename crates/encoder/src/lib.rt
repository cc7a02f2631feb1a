// Writes codestreams.
#![tactic(auto)]

ghost use Rattle.std.specs.Prelude.{◌≡◌, true, length};
ghost use Rattle.refusal.specs.Numbers.{first};
ghost use Rattle.codestream.specs.Writing.{shot_for, room_test, write_numbers, mask_after, stream_after};
ghost use Rattle.encoder.specs.Inner.{Masked, Answered};
ghost use Rattle.encoder.specs.Answers.{numbers_of};

use refusal::{Refusal, refuse};
use setting::Setting;

// The lengths of a stream that was written, and its number of marks.
#[derive(Clone, Copy)]
pub struct Lengths {
    pub total: usize,
    pub region_mark: usize,
    pub marks: usize,
}

// Writes the stream of a plane of the setting's size, and fills the lent mask.
// Refusals, in order: 1, 2, 3, 4, 7, 8, 5, 10, 11, which has the needed length. Under a refusal the buffers hold what they held, but for 11: there
// the mask is filled.
#[tactic(auto, using(crate::proofs::Outcomes::large), unfolding(refusal::specs::Numbers::first))]
pub fn write(
    plane: &[i32],
    numbers: &[u32],
    setting: Setting,
    mask: &mut [u8],
    stream: &mut [u8],
) -> Result<Lengths, Refusal>
    ensures result_value { numbers_of result ≡ write_numbers (shot_for setting.kernel setting.levels setting.depth setting.width setting.height numbers.now plane.now) plane.now (length mask.old) (length stream.old) }
    ensures mask_after { mask.new ≡ mask_after (shot_for setting.kernel setting.levels setting.depth setting.width setting.height numbers.now plane.now) plane.now (length stream.old) mask.old }
    ensures stream_after { stream.new ≡ stream_after (shot_for setting.kernel setting.levels setting.depth setting.width setting.height numbers.now plane.now) plane.now (length mask.old) stream.old }
{
    let chosen = shot::take_setting(setting)?;
    let w = setting.width;
    let h = setting.height;
    refuse(region::bad_numbers(numbers), Refusal::Numbers)?;
    refuse(region::bad_rectangles(numbers, w, h), Refusal::Rectangle)?;
    let count = w * h;
    refuse(plane.len() != count, Refusal::Length)?;
    refuse(mask.len() != count, Refusal::Length)?;
    let found = scan::scan(plane);
    let largest = found.largest;
    refuse(4194304 <= largest, Refusal::Magnitude)?;
    shot::draw_mask(chosen, setting.levels, w, h, numbers, mask);
    let signs = found.signs;
    write_masked(plane, numbers, setting, mask, largest, signs, stream)
}

// The stream of a plane whose mask is drawn and whose largest magnitude and number of signs are known.
fn write_masked(
    plane: &[i32],
    numbers: &[u32],
    setting: Setting,
    mask: &[u8],
    largest: u32,
    signs: usize,
    stream: &mut [u8],
) -> Result<Lengths, Refusal>
    requires { Masked (shot_for setting.kernel setting.levels setting.depth setting.width setting.height numbers.now plane.now) plane.now mask.now largest signs }
    ensures { Answered (first (room_test (shot_for setting.kernel setting.levels setting.depth setting.width setting.height numbers.now plane.now) plane.now (length stream.old))) (shot_for setting.kernel setting.levels setting.depth setting.width setting.height numbers.now plane.now) plane.now mask.now mask.now stream.old stream.new result }
{
    let planes = scan::digits(largest);
    let front = 14 + 2 * numbers.len();
    let total = front + (planes as usize * plane.len() + signs + 7) / 8;
    if stream.len() < total {
        return Err(Refusal::Room(total));
    }
    let marks = scan::mark_count(mask);
    header::write_header(stream, setting, numbers, planes as usize, total);
    let end = writer::write_body(&mut stream[front..total], plane, mask, marks, planes);
    Ok(Lengths {
        total: total,
        region_mark: front + (end + 7) / 8,
        marks: marks,
    })
}
