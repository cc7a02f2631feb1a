// Reads codestreams.
#![tactic(auto)]

ghost use Rattle.std.specs.Prelude.{◌≡◌, length, IfOk};
ghost use Rattle.refusal.specs.Numbers.{first};
ghost use Rattle.codestream.specs.Reading.{buffer_tests, filling_test, read_numbers, plane_after, mask_after};
ghost use Rattle.header.specs.Fields.{shot_of};
ghost use Rattle.header_reader.specs.Answers.{header_for};
ghost use Rattle.decoder.specs.Inner.{Taken, Masked, Found, Answered};
ghost use Rattle.decoder.specs.Answers.{numbers_of};

use header_reader::{Headed, Header};
use refusal::{Refusal, refuse};

// What was found in a body: the number of marks, the region mark, where the marked part is whole, and q, the planes of the unmarked that were not
// wholly received.
#[derive(Clone, Copy)]
pub struct Body {
    pub marks: usize,
    pub region_mark: Option<usize>,
    pub missing: u64,
}

// A stream that was read: its header, and what was found in its body.
#[derive(Clone, Copy)]
pub struct Reading {
    pub header: Header,
    pub body: Body,
}

// Reads a stream into the lent plane and mask.
// Refusals, in order: 12, 13, 1, 2, 3, 4, 7, 8, 14, 5, 16. Under 16 plane and mask are zeroed, under the others they hold what they held.
pub fn read(stream: &[u8], plane: &mut [i32], mask: &mut [u8]) -> Result<Reading, Refusal>
    ensures outcome_value { numbers_of result ≡ read_numbers stream.now (length plane.old) (length mask.old) }
    ensures header_value { IfOk result (λ reading. reading.header ≡ header_for (shot_of stream.now)) }
    ensures plane_after { plane.new ≡ plane_after stream.now (length mask.old) plane.old }
    ensures mask_after { mask.new ≡ mask_after stream.now (length plane.old) mask.old }
{
    let headed = header_reader::read_header(stream)?;
    read_headed(headed, stream, plane, mask)
}

// The refusals behind those of the header, the mask, and then the body.
#[tactic(auto, unfolding(refusal::specs::Numbers::first))]
pub fn read_headed(
    headed: Headed,
    stream: &[u8],
    plane: &mut [i32],
    mask: &mut [u8],
) -> Result<Reading, Refusal>
    requires { Taken stream.now headed.kernel headed.header }
    ensures { Answered (first (buffer_tests stream.now (length plane.old) (length mask.old))) stream.now plane.old plane.new mask.old mask.new result }
{
    let header = headed.header;
    let w = header.width;
    let h = header.height;
    refuse(plane.len() != w * h, Refusal::Length)?;
    refuse(mask.len() != w * h, Refusal::Length)?;
    let rectangles = header.rectangles;
    let n = 4 * header.count;
    shot::draw_mask(headed.kernel, header.levels, w, h, &rectangles[..n], mask);
    let body = read_masked(stream, plane, mask, header.planes)?;
    Ok(Reading { header, body })
}

// The body of a stream whose mask is drawn. Refusal 16 zeroes plane and mask.
fn read_masked(
    stream: &[u8],
    plane: &mut [i32],
    mask: &mut [u8],
    planes: usize,
) -> Result<Body, Refusal>
    requires { Masked stream.now plane.old mask.old planes }
    ensures { Found (first (filling_test stream.now)) stream.now plane.old plane.new mask.old mask.new result }
{
    let front = header::front_length(stream);
    let body = &stream[front..];
    let marks = scan::mark_count(mask);
    let found = reader::read_body(body, plane, mask, marks, planes as u64);
    let end = found.end;
    if reader::bad_filling(body, end) {
        reader::clear(plane);
        region::clear(mask);
        return Err(Refusal::Filling);
    }
    let marked = found.marked;
    let missing = found.missing;
    if 8 * body.len() < marked {
        return Ok(Body {
            marks: marks,
            region_mark: None,
            missing: missing,
        });
    }
    Ok(Body {
        marks: marks,
        region_mark: Some(front + (marked + 7) / 8),
        missing: missing,
    })
}
