// Reads a stream of a picture of at most 64 by 64 samples from standard input, and prints its numbers and its shown rows, or its refusal.
#![tactic(auto)]

ghost use Rattle.std.specs.Prelude.{◌*◌, ◌<◌, ◌≤◌, length};

use decoder::Body;
use header_reader::Header;
use refusal::Refusal;
use showing_limited::show_limited;
use standard_input::read_input;
use std::{fmt, io};

// More bytes than these are refused before any other test.
const MOST: usize = 65536;

// Samples of a row, with a space between two.
#[derive(Drop)]
struct Row<'a>(&'a [u16]);

impl fmt::Display for Row<'_> {
    fn fmt<W: fmt::Write>(&self, f: &mut fmt::Formatter<W>) -> fmt::Result {
        let mut gap = "";
        for x in self.0 {
            write!(f, "{gap}{x}")?;
            gap = " ";
        }
        Ok(())
    }
}

// Kernel, J, W, H, marks, and 1 if the marked part is whole.
fn print_numbers(rt: &impl Print, header: &Header, body: &Body) -> io::Result<()> {
    let kernel = header.kernel;
    let levels = header.levels;
    let width = header.width;
    let height = header.height;
    let marks = body.marks;
    let whole = u8::from(body.region_mark.is_some());
    println!(rt; "{kernel} {levels} {width} {height} {marks} {whole}")
}

fn print_rows(rt: &impl Print, shown: &[u16], w: usize, h: usize) -> io::Result<()>
    requires columns { 0 < w }
    requires inside { w * h ≤ length shown.now }
{
    for row in shown[..w * h].chunks_exact(w) {
        println!(rt; "{}", Row(row))?;
    }
    Ok(())
}

fn print_shown(rt: &impl Print, stream: &[u8]) -> io::Result<()> {
    let mut shown = [0u16; 4096];
    match show_limited(stream, &mut shown) {
        Err(refusal) => println!(rt; "refused {}", u64::from(refusal)),
        Ok(reading) => {
            print_numbers(rt, &reading.header, &reading.body)?;
            print_rows(rt, &shown, reading.header.width, reading.header.height)
        }
    }
}

fn main(rt: HostRuntime) -> io::Result<()> {
    let mut buffer = [0u8; MOST + 1];
    let n = read_input(&rt, &mut buffer)?;
    if MOST < n {
        return println!(rt; "refused {}", u64::from(Refusal::Length));
    }
    print_shown(&rt, &buffer[..n])
}
