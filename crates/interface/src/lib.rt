// The C interface: the entries as exported functions over numbers and slices. `host/include/dhiirqobaal.h` documents them.
#![tactic(auto)]

ghost use Rattle.std.specs.Prelude.{◌≡◌, ◌+◌, ◌^◌, ◌<◌, ◌≤◌, pos, length, get_or};
ghost use Rattle.line.specs.Cells.{listed};
ghost use Rattle.line.specs.Mask.{marked};
ghost use Rattle.refusal.specs.Numbers.{answer_number, first, accepted};
ghost use Rattle.refusal.specs.Results.{Result};
ghost use Rattle.header.specs.Header.{body_tests};
ghost use Rattle.header.specs.Fields.{Shot, shot_of};
ghost use Rattle.header.specs.Arrival.{arrived_of, arrival_numbers};
ghost use Rattle.header.specs.Answers as arriving;
ghost use Rattle.region.specs.Region.{region_byte, region_tests};
ghost use Rattle.picture_mask.specs.Masks.{mask_byte, mask_tests};
ghost use Rattle.joining.specs.Join.{join_byte, join_tests};
ghost use Rattle.brightness.specs.Brightness.{brightness_numbers};
ghost use Rattle.brightness.specs.Answers as measuring;
ghost use Rattle.samples.specs.Samples.{in_range, truncated, show_tests, truncate_tests};
ghost use Rattle.level_picture.specs.Level.{level_number, level_sample, level_tests};
ghost use Rattle.wavelet.specs.Wavelet.{coefficient, undone_number, transform_tests, undo_tests};
ghost use Rattle.shot.specs.Shots.{shot_mask};
ghost use Rattle.codestream.specs.Writing.{shot_for, write_numbers, mask_after, stream_after};
ghost use Rattle.codestream.specs.Reading as reading;
ghost use Rattle.codestream.specs.Cutting as cutting;
ghost use Rattle.encoder.specs.Answers as writing;
ghost use Rattle.header_reader.specs.Answers.{header_for};
ghost use Rattle.decoder.specs.Answers as found;
ghost use Rattle.cutter.specs.Answers as cut;
ghost use Rattle.exactness.specs.Shown.{level_number_at, level_sample_at, stream_tests};
ghost use Rattle.interface.specs.Inner.{header_in};
ghost use Rattle.interface.specs.Results.{GivenAt, Given, write_results, body_numbers, shot_results, read_results, cut_results, body_results, arrival_results, brightness_results, library_version};

use brightness::Figures;
use decoder::Reading;
use encoder::Lengths;
use header_reader::Header;
use refusal::{Refusal, refuse};
use setting::Setting;

// Result numbers into the caller's array from `at` on, as far as it reaches.
fn give(values: &[u64], at: usize, results: &mut [u64])
    requires { at + length values.now < 2 ^ 64 }
    ensures { GivenAt at values.now results.old results.new }
{
    let from = at.min(results.len());
    let n = values.len().min(results.len() - from);
    results[from..from + n].copy_from_slice(&values[..n]);
}

#[unsafe(no_mangle)]
pub extern "C" fn dhiirqobaal_region(numbers: &[u32], w: usize, h: usize, region: &mut [u8]) -> u64
    ensures value { result ≡ first (region_tests numbers.now w h (length region.old)) }
    ensures fact { Result 0 (accepted (region_tests numbers.now w h (length region.old))) (region_byte numbers.now w) region.old region.new }
{
    let answer = region::region(numbers, w, h, region);
    refusal::answer_number(&answer)
}

#[unsafe(no_mangle)]
pub extern "C" fn dhiirqobaal_mask(
    kernel: usize,
    levels: usize,
    w: usize,
    h: usize,
    region: &[u8],
    mask: &mut [u8],
) -> u64
    ensures value { result ≡ first (mask_tests kernel levels w h region.now (length mask.old)) }
    ensures fact { Result 0 (accepted (mask_tests kernel levels w h region.now (length mask.old))) (mask_byte kernel levels w h region.now) mask.old mask.new }
{
    let answer = picture_mask::mask(kernel, levels, w, h, region, mask);
    refusal::answer_number(&answer)
}

#[unsafe(no_mangle)]
pub extern "C" fn dhiirqobaal_join(
    w: usize,
    h: usize,
    one: &[u8],
    other: &[u8],
    joined: &mut [u8],
) -> u64
    ensures value { result ≡ first (join_tests w h one.now other.now (length joined.old)) }
    ensures fact { Result 0 (accepted (join_tests w h one.now other.now (length joined.old))) (join_byte one.now other.now) joined.old joined.new }
{
    let answer = joining::join(w, h, one, other, joined);
    refusal::answer_number(&answer)
}

#[unsafe(no_mangle)]
pub extern "C" fn dhiirqobaal_transform(
    kernel: usize,
    levels: usize,
    depth: usize,
    w: usize,
    h: usize,
    samples: &[u16],
    plane: &mut [i32],
) -> u64
    ensures value { result ≡ first (transform_tests kernel levels depth w h samples.now (length plane.old)) }
    ensures fact { Result (pos 0) (accepted (transform_tests kernel levels depth w h samples.now (length plane.old))) (coefficient kernel levels w h samples.now) plane.old plane.new }
{
    let setting = Setting {
        kernel,
        levels,
        depth,
        width: w,
        height: h,
    };
    let answer = wavelet::transform(setting, samples, plane);
    refusal::answer_number(&answer)
}

#[unsafe(no_mangle)]
pub extern "C" fn dhiirqobaal_undo(
    kernel: usize,
    levels: usize,
    w: usize,
    h: usize,
    plane: &[i32],
    undone: &mut [i32],
) -> u64
    ensures value { result ≡ first (undo_tests kernel levels w h plane.now (length undone.old)) }
    ensures fact { Result (pos 0) (accepted (undo_tests kernel levels w h plane.now (length undone.old))) (undone_number kernel levels w h plane.now) undone.old undone.new }
{
    let answer = wavelet::undo(kernel, levels, w, h, plane, undone);
    refusal::answer_number(&answer)
}

#[unsafe(no_mangle)]
pub extern "C" fn dhiirqobaal_show(
    depth: usize,
    w: usize,
    h: usize,
    undone: &[i32],
    shown: &mut [u16],
) -> u64
    ensures value { result ≡ first (show_tests depth w h (length undone.now) (length shown.old)) }
    ensures fact { Result 0 (accepted (show_tests depth w h (length undone.now) (length shown.old))) (λ i. in_range depth (get_or undone.now i (pos 0))) shown.old shown.new }
{
    let answer = samples::show(depth, w, h, undone, shown);
    refusal::answer_number(&answer)
}

#[unsafe(no_mangle)]
pub extern "C" fn dhiirqobaal_show_level(
    kernel: usize,
    levels: usize,
    r: usize,
    depth: usize,
    w: usize,
    h: usize,
    plane: &[i32],
    undone: &mut [i32],
    shown: &mut [u16],
) -> u64
    ensures value { result ≡ first (level_tests kernel levels r depth w h plane.now (length undone.old) (length shown.old)) }
    ensures fact { Result (pos 0) (accepted (level_tests kernel levels r depth w h plane.now (length undone.old) (length shown.old))) (level_number kernel levels r w h plane.now) undone.old undone.new }
    ensures fact_2 { Result 0 (accepted (level_tests kernel levels r depth w h plane.now (length undone.old) (length shown.old))) (level_sample kernel levels r depth w h plane.now) shown.old shown.new }
{
    let answer = level_picture::show_level(kernel, levels, r, depth, w, h, plane, undone, shown);
    refusal::answer_number(&answer)
}

#[unsafe(no_mangle)]
pub extern "C" fn dhiirqobaal_truncate(
    q: usize,
    w: usize,
    h: usize,
    mask: &[u8],
    plane: &mut [i32],
) -> u64
    ensures value { result ≡ first (truncate_tests q w h mask.now plane.old) }
    ensures fact { Result (pos 0) (accepted (truncate_tests q w h mask.now plane.old)) (λ i. truncated q (marked (get_or mask.now i 0)) (get_or plane.old i (pos 0))) plane.old plane.new }
{
    let answer = samples::truncate(q, w, h, mask, plane);
    refusal::answer_number(&answer)
}

// The numbers of what `write` answers.
fn write_values(answer: &Result<Lengths, Refusal>) -> [u64; 3]
    ensures { result ≡ write_results (writing.numbers_of answer.now) }
{
    match answer {
        Ok(n) => [n.total as u64, n.region_mark as u64, n.marks as u64],
        Err(refusal) => [refusal::needed_length(*refusal) as u64, 0, 0],
    }
}

#[unsafe(no_mangle)]
pub extern "C" fn dhiirqobaal_write(
    plane: &[i32],
    numbers: &[u32],
    kernel: usize,
    levels: usize,
    depth: usize,
    w: usize,
    h: usize,
    mask: &mut [u8],
    stream: &mut [u8],
    results: &mut [u64],
) -> u64
    ensures value { result ≡ (write_numbers (shot_for kernel levels depth w h numbers.now plane.now) plane.now (length mask.old) (length stream.old)).refusal }
    ensures given { Given (write_results (write_numbers (shot_for kernel levels depth w h numbers.now plane.now) plane.now (length mask.old) (length stream.old))) results.old results.new }
    ensures mask_after { mask.new ≡ mask_after (shot_for kernel levels depth w h numbers.now plane.now) plane.now (length stream.old) mask.old }
    ensures stream_after { stream.new ≡ stream_after (shot_for kernel levels depth w h numbers.now plane.now) plane.now (length mask.old) stream.old }
{
    let setting = Setting {
        kernel,
        levels,
        depth,
        width: w,
        height: h,
    };
    let answer = encoder::write(plane, numbers, setting, mask, stream);
    give(&write_values(&answer), 0, results);
    refusal::answer_number(&answer)
}

// The numbers of what `read` answers.
fn read_values(answer: &Result<Reading, Refusal>) -> [u64; 4]
    ensures { result ≡ body_numbers (found.numbers_of answer.now) }
{
    match answer {
        Ok(reading) => [
            reading.body.marks as u64,
            reading.body.region_mark.is_some() as u64,
            reading.body.region_mark.unwrap_or(0) as u64,
            reading.body.missing,
        ],
        Err(_) => [0, 0, 0, 0],
    }
}

// The header that it returns; under a refusal every number of it is 0.
fn header_read(answer: &Result<Reading, Refusal>) -> Header
    ensures { result ≡ header_in answer.now }
{
    match answer {
        Ok(reading) => reading.header,
        Err(_) => header_reader::no_header(),
    }
}

// Rectangle numbers as result numbers.
fn wide(numbers: [u32; 128]) -> [u64; 128]
    ensures { result ≡ listed 128 (λ i. get_or numbers i 0) }
{
    // No map of the array: it takes more stack than the header states.
    let mut values = [0u64; 128];
    for (i, value) in values.iter_mut().enumerate() {
        *value = u64::from(numbers[i]);
    }
    values
}

// The numbers of a header into the caller's array from `at` on.
fn give_header(header: Header, at: usize, results: &mut [u64])
    requires { at ≤ 4 }
    ensures { (s : Shot) → header ≡ header_for s → GivenAt at (shot_results s) results.old results.new }
{
    let fields = [
        header.kernel as u64,
        header.levels as u64,
        header.depth as u64,
        header.width as u64,
        header.height as u64,
        header.planes as u64,
        header.count as u64,
    ];
    give(&fields, at, results);
    let numbers = header.rectangles;
    let rectangles = wide(numbers);
    give(&rectangles, at + 7, results);
}

#[unsafe(no_mangle)]
pub extern "C" fn dhiirqobaal_header(stream: &[u8], results: &mut [u64]) -> u64
    ensures value { result ≡ first (reading.header_tests stream.now) }
    ensures given { Given (shot_results (reading.shot_under (first (reading.header_tests stream.now)) stream.now)) results.old results.new }
{
    match header_reader::read_header(stream) {
        Ok(headed) => {
            give_header(headed.header, 0, results);
            0
        }
        Err(refusal) => {
            give_header(header_reader::no_header(), 0, results);
            refusal::refusal_number(refusal)
        }
    }
}

// The numbers of a reading into the caller's array, and its refusal.
fn give_reading(answer: &Result<Reading, Refusal>, results: &mut [u64]) -> u64
    ensures value { result ≡ (found.numbers_of answer.now).refusal }
    ensures given { (s : Shot) → header_in answer.now ≡ header_for s → Given (read_results (found.numbers_of answer.now) s) results.old results.new }
{
    give(&read_values(answer), 0, results);
    let header = header_read(answer);
    give_header(header, 4, results);
    refusal::answer_number(answer)
}

#[unsafe(no_mangle)]
pub extern "C" fn dhiirqobaal_read(
    stream: &[u8],
    plane: &mut [i32],
    mask: &mut [u8],
    results: &mut [u64],
) -> u64
    ensures value { result ≡ (reading.read_numbers stream.now (length plane.old) (length mask.old)).refusal }
    ensures given { Given (read_results (reading.read_numbers stream.now (length plane.old) (length mask.old)) (reading.shot_read stream.now (length plane.old) (length mask.old))) results.old results.new }
    ensures plane_after { plane.new ≡ reading.plane_after stream.now (length mask.old) plane.old }
    ensures mask_after { mask.new ≡ reading.mask_after stream.now (length plane.old) mask.old }
{
    let answer = decoder::read(stream, plane, mask);
    give_reading(&answer, results)
}

#[unsafe(no_mangle)]
pub extern "C" fn dhiirqobaal_show_stream(
    stream: &[u8],
    r: usize,
    plane: &mut [i32],
    mask: &mut [u8],
    undone: &mut [i32],
    shown: &mut [u16],
    results: &mut [u64],
) -> u64
    ensures value { result ≡ first (stream_tests stream.now r (length plane.old) (length mask.old) (length undone.old) (length shown.old)) }
    ensures given { Given (read_results (reading.numbers_under (first (stream_tests stream.now r (length plane.old) (length mask.old) (length undone.old) (length shown.old))) stream.now) (reading.shot_under (first (stream_tests stream.now r (length plane.old) (length mask.old) (length undone.old) (length shown.old))) stream.now)) results.old results.new }
    ensures plane_after { plane.new ≡ reading.held_under (pos 0) (first (stream_tests stream.now r (length plane.old) (length mask.old) (length undone.old) (length shown.old))) (reading.plane_of stream.now) plane.old }
    ensures mask_after { mask.new ≡ reading.held_under 0 (first (stream_tests stream.now r (length plane.old) (length mask.old) (length undone.old) (length shown.old))) (shot_mask (shot_of stream.now)) mask.old }
    ensures fact { Result (pos 0) (accepted (stream_tests stream.now r (length plane.old) (length mask.old) (length undone.old) (length shown.old))) (level_number_at r stream.now) undone.old undone.new }
    ensures fact_2 { Result 0 (accepted (stream_tests stream.now r (length plane.old) (length mask.old) (length undone.old) (length shown.old))) (level_sample_at r stream.now) shown.old shown.new }
{
    let answer = showing::show_stream(stream, r, plane, mask, undone, shown);
    give_reading(&answer, results)
}

// The length that `cut` answers.
fn cut_length(answer: &Result<usize, Refusal>) -> u64
    ensures { result ≡ (cut.numbers_of answer.now).length }
{
    match answer {
        Ok(n) => *n as u64,
        Err(refusal) => refusal::needed_length(*refusal) as u64,
    }
}

#[unsafe(no_mangle)]
pub extern "C" fn dhiirqobaal_cut(
    stream: &[u8],
    wanted: usize,
    plane: &mut [i32],
    mask: &mut [u8],
    out: &mut [u8],
    results: &mut [u64],
) -> u64
    ensures value { result ≡ (cutting.cut_numbers stream.now (length plane.old) (length mask.old) wanted (length out.old)).refusal }
    ensures given { Given (cut_results (cutting.cut_numbers stream.now (length plane.old) (length mask.old) wanted (length out.old))) results.old results.new }
    ensures plane_after { plane.new ≡ reading.plane_after stream.now (length mask.old) plane.old }
    ensures mask_after { mask.new ≡ reading.mask_after stream.now (length plane.old) mask.old }
    ensures out_after { out.new ≡ cutting.stream_after stream.now (length plane.old) (length mask.old) wanted out.old }
{
    let answer = cutter::cut(stream, wanted, plane, mask, out);
    give(&[cut_length(&answer)], 0, results);
    refusal::answer_number(&answer)
}

// Where the body begins in the stream, and its length.
#[unsafe(no_mangle)]
pub extern "C" fn dhiirqobaal_body(stream: &[u8], results: &mut [u64]) -> u64
    ensures value { result ≡ first (body_tests stream.now) }
    ensures given { Given (body_results stream.now) results.old results.new }
{
    let answer = tested_body(stream);
    give(&body_values(stream, &answer), 0, results);
    refusal::answer_number(&answer)
}

// Refusals, in order: 12, 13.
#[tactic(auto, unfolding(refusal::specs::Numbers::first))]
fn tested_body(stream: &[u8]) -> Result<(), Refusal>
    ensures { answer_number result ≡ first (body_tests stream.now) }
{
    refuse(header::bad_header(stream), Refusal::Header)?;
    refuse(header::bad_version(stream), Refusal::Version)?;
    Ok(())
}

fn body_values(stream: &[u8], answer: &Result<(), Refusal>) -> [u64; 2]
    requires { answer_number answer.now ≡ first (body_tests stream.now) }
    ensures { result ≡ body_results stream.now }
{
    match answer {
        Ok(_) => {
            let start = header::front_length(stream);
            [start as u64, (stream.len() - start) as u64]
        }
        Err(_) => [0, 0],
    }
}

// The length that `arrived` answers.
fn arrived_length(answer: &Result<usize, Refusal>) -> u64
    ensures { result ≡ (arriving.numbers_of answer.now).sent }
{
    match answer {
        Ok(n) => *n as u64,
        Err(_) => 0,
    }
}

#[unsafe(no_mangle)]
pub extern "C" fn dhiirqobaal_arrived(stream: &mut [u8], results: &mut [u64]) -> u64
    ensures value { result ≡ (arrival_numbers stream.old).refusal }
    ensures given { Given (arrival_results (arrival_numbers stream.old)) results.old results.new }
    ensures stream_after { stream.new ≡ arrived_of stream.old }
{
    let answer = header::arrived(stream);
    give(&[arrived_length(&answer)], 0, results);
    refusal::answer_number(&answer)
}

// The numbers of what `brightness` answers.
fn brightness_values(answer: &Result<Figures, Refusal>) -> [u64; 4]
    ensures { result ≡ brightness_results (measuring.numbers_of answer.now) }
{
    match answer {
        Ok(b) => [b.number, b.sum, b.quotient, b.remainder],
        Err(_) => [0, 0, 0, 0],
    }
}

#[unsafe(no_mangle)]
pub extern "C" fn dhiirqobaal_brightness(
    w: usize,
    h: usize,
    picture: &[u16],
    region: &[u8],
    results: &mut [u64],
) -> u64
    ensures value { result ≡ (brightness_numbers w h picture.now region.now).refusal }
    ensures given { Given (brightness_results (brightness_numbers w h picture.now region.now)) results.old results.new }
{
    let answer = brightness::brightness(w, h, picture, region);
    give(&brightness_values(&answer), 0, results);
    refusal::answer_number(&answer)
}

#[unsafe(no_mangle)]
pub extern "C" fn dhiirqobaal_version() -> u64
    ensures { result ≡ library_version }
{
    10301
}
