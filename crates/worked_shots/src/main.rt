// Runs the entries on the worked examples of docs/FORMAT.md that are not proved as theorems, and prints what they give.
#![tactic(auto)]

use encoder::Lengths;
use refusal::{Refusal, answer_number};
use setting::Setting;
use std::{fmt, io};

// Numbers, with a space before each.
#[derive(Drop)]
struct Row<'a, T>(&'a [T]);

impl<T: fmt::Display> fmt::Display for Row<'_, T> {
    fn fmt<W: fmt::Write>(&self, f: &mut fmt::Formatter<W>) -> fmt::Result {
        for x in self.0 {
            write!(f, " {x}")?;
        }
        Ok(())
    }
}

// Bytes in hexadecimal, two digits each.
#[derive(Drop)]
struct Hex<'a>(&'a [u8]);

impl fmt::Display for Hex<'_> {
    fn fmt<W: fmt::Write>(&self, f: &mut fmt::Formatter<W>) -> fmt::Result {
        for x in self.0 {
            write!(f, "{x:02x}")?;
        }
        Ok(())
    }
}

fn print_answer(rt: &impl Print, answer: Result<(), Refusal>) -> io::Result<()> {
    println!(rt; " answer {}", answer_number(&answer))
}

// Dropping 2 planes of -7 and 3, unmarked.
fn print_drop(rt: &impl Print) -> io::Result<()> {
    let mask = [0u8; 4];
    let mut plane = [-7i32, 3, 0, 0];
    print!(rt; "dropping 2 planes of -7 3 0 0:")?;
    print_answer(rt, samples::truncate(2, 2, 2, &mask, &mut plane))?;
    println!(rt; "{}", Row(&plane))
}

// J 2 with W 6, and with W 8.
fn print_sizes(rt: &impl Print) -> io::Result<()> {
    let narrow = [0u16; 24];
    let mut narrow_plane = [0i32; 24];
    print!(rt; "J 2 with W 6:")?;
    let mut setting = Setting {
        kernel: 0,
        levels: 2,
        depth: 8,
        width: 6,
        height: 4,
    };
    print_answer(rt, wavelet::transform(setting, &narrow, &mut narrow_plane))?;
    let wide = [0u16; 32];
    let mut wide_plane = [0i32; 32];
    print!(rt; "J 2 with W 8:")?;
    setting.width = 8;
    print_answer(rt, wavelet::transform(setting, &wide, &mut wide_plane))
}

// One level by a kernel, of 2 by 2 samples of 8 bits.
fn small(kernel: usize) -> Setting {
    Setting {
        kernel,
        levels: 1,
        depth: 8,
        width: 2,
        height: 2,
    }
}

// The picture 10 7 / 4 4 by one kernel, there and back.
fn print_picture(rt: &impl Print, kernel: usize) -> io::Result<()> {
    let samples = [10u16, 7, 4, 4];
    let mut plane = [0i32; 4];
    let mut undone = [0i32; 4];
    let mut shown = [0u16; 4];
    print!(rt; "10 7 / 4 4, kernel {kernel}, transformed:")?;
    print_answer(rt, wavelet::transform(small(kernel), &samples, &mut plane))?;
    println!(rt; "{}", Row(&plane))?;
    print!(rt; "undone:")?;
    print_answer(rt, wavelet::undo(kernel, 1, 2, 2, &plane, &mut undone))?;
    println!(rt; "{}", Row(&undone))?;
    print!(rt; "shown:")?;
    print_answer(rt, samples::show(8, 2, 2, &undone, &mut shown))?;
    println!(rt; "{}", Row(&shown))
}

// The mask of the rectangle 0 0 1 1 in a picture of 2 by 2.
fn print_mask(rt: &impl Print, kernel: usize) -> io::Result<()> {
    let numbers = [0u32, 0, 1, 1];
    let mut region = [0u8; 4];
    let mut mask = [0u8; 4];
    print!(rt; "rectangle 0 0 1 1, region:")?;
    print_answer(rt, region::region(&numbers, 2, 2, &mut region))?;
    println!(rt; "{}", Row(&region))?;
    print!(rt; "mask, kernel {kernel}:")?;
    print_answer(rt, picture_mask::mask(kernel, 1, 2, 2, &region, &mut mask))?;
    println!(rt; "{}", Row(&mask))
}

// The length field, version, kernel, J, D, W, H, the number of rectangles, and T.
fn print_header_fields(rt: &impl Print, stream: &[u8; 40]) -> io::Result<()> {
    print!(rt;
        " {} {} {} {} {}",
        Hex(&stream[..4]),
        Hex(&stream[4..5]),
        Hex(&stream[5..6]),
        Hex(&stream[6..7]),
        Hex(&stream[7..8])
    )?;
    print!(rt;
        " {} {} {} {}",
        Hex(&stream[8..10]),
        Hex(&stream[10..12]),
        Hex(&stream[12..13]),
        Hex(&stream[13..14])
    )
}

// The numbers of one rectangle, and a body of two bytes.
fn print_later_fields(rt: &impl Print, stream: &[u8; 40]) -> io::Result<()> {
    print!(rt;
        " {} {} {} {}",
        Hex(&stream[14..16]),
        Hex(&stream[16..18]),
        Hex(&stream[18..20]),
        Hex(&stream[20..22])
    )?;
    println!(rt; " {}", Hex(&stream[22..24]))
}

// Prints what the writer answers, and gives the total length, 0 where nothing was written.
fn print_written(rt: &impl Print, answer: Result<Lengths, Refusal>) -> io::Result<usize> {
    match answer {
        Ok(lengths) => {
            let total = lengths.total;
            let region_mark = lengths.region_mark;
            let marks = lengths.marks;
            println!(rt;
                " answer 0, total length {total}, region mark {region_mark}, marks {marks}"
            )?;
            Ok(total)
        }
        Err(Refusal::Room(needed)) => {
            let number = u64::from(Refusal::Room(needed));
            println!(rt; " answer {number}, needed length {needed}")?;
            Ok(0)
        }
        Err(refusal) => {
            println!(rt; " answer {}", u64::from(refusal))?;
            Ok(0)
        }
    }
}

fn print_untouched(rt: &impl Print, stream: &[u8], from: usize) -> io::Result<()> {
    let untouched = stream.iter().skip(from).filter(|x| **x == 0xEE).count();
    println!(rt; "bytes from {from} on that hold what they held: {untouched}")
}

// Writes the picture 10 7 / 4 4 by kernel 0, with the rectangle 0 0 1 1, and gives the total length.
fn write_picture(rt: &impl Print, stream: &mut [u8]) -> io::Result<usize> {
    let samples = [10u16, 7, 4, 4];
    let numbers = [0u32, 0, 1, 1];
    let setting = small(0);
    let mut plane = [0i32; 4];
    let mut mask = [0u8; 4];
    print!(rt; "10 7 / 4 4, kernel 0, transformed:")?;
    print_answer(rt, wavelet::transform(setting, &samples, &mut plane))?;
    print!(rt; "rectangle 0 0 1 1, written into {} bytes:", stream.len())?;
    print_written(
        rt,
        encoder::write(&plane, &numbers, setting, &mut mask, stream),
    )
}

// The buffer is longer than the stream.
fn print_long_stream(rt: &impl Print) -> io::Result<()> {
    let mut stream = [0xEEu8; 40];
    let total = write_picture(rt, &mut stream)?;
    print_header_fields(rt, &stream)?;
    print_later_fields(rt, &stream)?;
    print_untouched(rt, &stream, total)
}

// The buffer is one byte too short.
fn print_short_stream(rt: &impl Print) -> io::Result<()> {
    let mut stream = [0xEEu8; 23];
    let total = write_picture(rt, &mut stream)?;
    print_untouched(rt, &stream, total)
}

fn main(rt: HostRuntime) -> io::Result<()> {
    print_drop(&rt)?;
    print_sizes(&rt)?;
    for kernel in 0..4 {
        print_picture(&rt, kernel)?;
    }
    print_mask(&rt, 0)?;
    print_mask(&rt, 3)?;
    print_long_stream(&rt)?;
    print_short_stream(&rt)
}
