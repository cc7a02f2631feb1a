// Shows codestreams of small pictures in working memory of its own.
#![tactic(auto)]

ghost use Rattle.std.specs.Prelude.{◌≡◌, length, IfOk};
ghost use Rattle.header.specs.Fields.{shot_of};
ghost use Rattle.codestream.specs.Reading.{read_numbers};
ghost use Rattle.header_reader.specs.Answers.{header_for};
ghost use Rattle.decoder.specs.Answers.{numbers_of};
ghost use Rattle.showing_limited.specs.Showing.{room_for, shown_after};

use decoder::Reading;
use refusal::Refusal;

// Shows a stream of a picture of at most 64 by 64 samples, at level 0.
// Refusals as those of `decoder::read`, in its order; 5 is a picture that is larger than 64 by 64 or than the lent buffer.
// Under a refusal the lent buffer holds what it held, and what lies behind the samples always does.
pub fn show_limited(stream: &[u8], shown: &mut [u16]) -> Result<Reading, Refusal>
    ensures outcome_value { numbers_of result ≡ read_numbers stream.now (room_for stream.now (length shown.old)) (room_for stream.now (length shown.old)) }
    ensures header_value { IfOk result (λ reading. reading.header ≡ header_for (shot_of stream.now)) }
    ensures shown_after { shown.new ≡ shown_after stream.now shown.old }
{
    let n = room(stream, shown.len());
    let mut plane = [0i32; 4096];
    let mut mask = [0u8; 4096];
    let mut undone = [0i32; 4096];
    showing::show_stream(
        stream,
        0,
        &mut plane[..n],
        &mut mask[..n],
        &mut undone[..n],
        &mut shown[..n],
    )
}

// The number of samples, where the working memory and the lent buffer have room for them, else 0:
// a larger picture then has buffers of another length, and the reader refuses it in 5's place in the order.
fn room(stream: &[u8], lent: usize) -> usize
    ensures { result ≡ room_for stream.now lent }
{
    if header::bad_header(stream) {
        return 0;
    }
    let w = header::two_bytes(stream, 8);
    let h = header::two_bytes(stream, 10);
    if 64 < w {
        return 0;
    }
    if 64 < h {
        return 0;
    }
    if lent < w * h {
        return 0;
    }
    w * h
}
