// Reads the headers of codestreams.
#![tactic(auto)]

ghost use Rattle.std.specs.Prelude.{◌≡◌, ◌+◌, ◌*◌, ◌≤◌, length, IfOk};
ghost use Rattle.refusal.specs.Numbers.{answer_number, first};
ghost use Rattle.header.specs.Fields.{shot_of};
ghost use Rattle.codestream.specs.Reading.{shot_tests, header_tests, no_shot};
ghost use Rattle.header_reader.specs.Answers.{header_for, headed_for};
ghost use Rattle.header_reader.specs.Inner.{rectangle_array, Set};

use kernel::Kernel;
use refusal::{Refusal, refuse};
use setting::Setting;

// A header with its rectangles' numbers, x, y, width and height of each in turn; 0 behind those of the last one.
#[derive(Clone, Copy)]
pub struct Header {
    pub kernel: usize,
    pub levels: usize,
    pub depth: usize,
    pub width: usize,
    pub height: usize,
    pub planes: usize,
    pub count: usize,
    pub rectangles: [u32; 128],
}

// A header that was read, and the kernel of its number.
#[derive(Clone, Copy)]
pub struct Headed {
    pub kernel: Kernel,
    pub header: Header,
}

// Reads the header of a stream.
// Refusals, in order: 12, 13, 1, 2, 3, 4, 7, 8, 14.
#[tactic(auto, unfolding(refusal::specs::Numbers::first))]
pub fn read_header(stream: &[u8]) -> Result<Headed, Refusal>
    ensures number { answer_number result ≡ first (header_tests stream.now) }
    ensures headed { IfOk result (λ headed. headed ≡ headed_for (shot_of stream.now)) }
{
    refuse(header::bad_header(stream), Refusal::Header)?;
    refuse(header::bad_version(stream), Refusal::Version)?;
    let setting = Setting {
        kernel: header::one_byte(stream, 5),
        levels: header::one_byte(stream, 6),
        depth: header::one_byte(stream, 7),
        width: header::two_bytes(stream, 8),
        height: header::two_bytes(stream, 10),
    };
    let chosen = shot::take_setting(setting)?;
    header_set(chosen, stream, setting)
}

// A header of zeros.
pub fn no_header() -> Header
    ensures { result ≡ header_for no_shot }
{
    let rectangles = [0u32; 128];
    Header {
        kernel: 0,
        levels: 0,
        depth: 0,
        width: 0,
        height: 0,
        planes: 0,
        count: 0,
        rectangles: rectangles,
    }
}

// The numbers of the rectangles, and 0 behind them.
fn rectangle_numbers(stream: &[u8], count: usize) -> [u32; 128]
    requires { (count ≤ 32) × (14 + 8 * count ≤ length stream.now) }
    ensures { result ≡ rectangle_array stream.now count }
{
    let mut rectangles = [0u32; 128];
    // By index: it tells the place in the stream as well, and over `iter_mut().enumerate()` the proof did not close.
    for i in 0..4 * count {
        rectangles[i] = header::two_bytes(stream, 14 + 2 * i) as u32;
    }
    rectangles
}

// The refusals behind those of the setting, and the header.
#[tactic(auto, unfolding(refusal::specs::Numbers::first))]
fn header_set(chosen: Kernel, stream: &[u8], setting: Setting) -> Result<Headed, Refusal>
    requires { Set stream.now chosen setting }
    ensures number { answer_number result ≡ first (shot_tests (shot_of stream.now)) }
    ensures headed { IfOk result (λ headed. headed ≡ headed_for (shot_of stream.now)) }
{
    let count = header::one_byte(stream, 12);
    refuse(32 < count, Refusal::Numbers)?;
    let rectangles = rectangle_numbers(stream, count);
    let n = 4 * count;
    refuse(
        region::bad_rectangles(&rectangles[..n], setting.width, setting.height),
        Refusal::Rectangle,
    )?;
    let planes = header::one_byte(stream, 13);
    refuse(22 < planes, Refusal::Planes)?;
    Ok(Headed {
        kernel: chosen,
        header: Header {
            kernel: setting.kernel,
            levels: setting.levels,
            depth: setting.depth,
            width: setting.width,
            height: setting.height,
            planes: planes,
            count: count,
            rectangles: rectangles,
        },
    })
}
