// The mask of a region: the line mask walked over rows and columns, level by level. The first level's marks are placed, each where its
// coefficient ends, so that its passes move nothing; the deeper levels go through working memory.
#![tactic(auto)]

ghost use Rattle.std.specs.Prelude.{◌≡◌, Bool, true, ◌-◌, ◌<◌, ◌≤◌, length};
ghost use Rattle.line.specs.Cells.{low_side};
ghost use Rattle.grid.specs.Picture.{Picture, row_pass, col_pass, walk, picture};
ghost use Rattle.grid.specs.Buffer.{InBuffer, Lines};
ghost use Rattle.grid.specs.Placed.{on_woven, placed};
ghost use Rattle.refusal.specs.Numbers.{answer_number, first, accepted};
ghost use Rattle.refusal.specs.Results.{Result};
ghost use Rattle.picture_mask.specs.Masks.{mask_byte, mask_tests};
ghost use Rattle.picture_mask.specs.Areas.{Binary, Strip, Area, Whole, Region, bytes, mask_on, mask_line_bytes};

use kernel::Kernel;
use refusal::{Refusal, refuse};

// The row pass over an area of w by h, in rows of stride bytes: each row is parted in place, and masked in its two parts.
fn row_pass(kernel: Kernel, buf: &mut [u8], line: &mut [u16], stride: usize, w: usize, h: usize)
    requires area { Area stride w h buf.old }
    requires in_bounds { 1024 ≤ length line.old }
    ensures { picture 0 stride buf.new ≡ row_pass (mask_line_bytes kernel) w h (picture 0 stride buf.old) }
{
    for y in 0..h {
        let at = y * stride;
        transfer::bytes::part_row(buf, line, at, w);
        line_mask::mask(kernel, buf, line_mask::Lines::parted(at, w, 1));
    }
}

// Beside `passes::strip` and its walk over columns two functions of their own: marks are put back as they are, and nothing bounds them.
// Masks, through working memory, `lanes` columns of n marks, the first mark of column j at start + j, the others of it stride apart.
fn columns(
    kernel: Kernel,
    buf: &mut [u8],
    strip: &mut [u8],
    start: usize,
    stride: usize,
    n: usize,
    lanes: usize,
)
    requires in_buffer { InBuffer buf.old start stride n lanes }
    requires strip { Strip n lanes strip.old }
    requires binary { Binary buf.old }
    ensures { Lines (mask_line_bytes kernel) 0 start stride n lanes buf.old buf.new }
{
    transfer::take(buf, strip, start, stride, n, lanes);
    line_mask::mask(kernel, strip, line_mask::Lines::parted(0, n, lanes));
    transfer::put(strip, buf, start, stride, n, lanes);
}

// The column pass over the same area, a strip of columns at a time: as many as the working memory holds.
fn col_pass(kernel: Kernel, buf: &mut [u8], strip: &mut [u8], stride: usize, w: usize, h: usize)
    requires area { Area stride w h buf.old }
    requires in_bounds { 32768 ≤ length strip.old }
    ensures { picture 0 stride buf.new ≡ col_pass (mask_line_bytes kernel) w h (picture 0 stride buf.old) }
{
    let most = 32768 / h;
    for x in (0..w).step_by(most) {
        let lanes = most.min(w - x);
        columns(kernel, buf, strip, x, stride, h, lanes);
    }
}

// The levels that are left, on an area of w by h: the rows of the first, which hand the area to `cols`.
#[cycle(cols_rows)]
fn rows(
    kernel: Kernel,
    buf: &mut [u8],
    strip: &mut [u8],
    line: &mut [u16],
    stride: usize,
    w: usize,
    h: usize,
    levels: usize,
)
    requires area { Area stride w h buf.old }
    requires in_bounds { (32768 ≤ length strip.old) × (1024 ≤ length line.old) }
    ensures { picture 0 stride buf.new ≡ walk (mask_line_bytes kernel) levels w h (picture 0 stride buf.old) }
{
    if 0 < levels {
        row_pass(kernel, buf, line, stride, w, h);
        cols(kernel, buf, strip, line, stride, w, h, levels);
    }
}

// The columns of the first level, which hand the low part to `rows`.
#[cycle(cols_rows)]
fn cols(
    kernel: Kernel,
    buf: &mut [u8],
    strip: &mut [u8],
    line: &mut [u16],
    stride: usize,
    w: usize,
    h: usize,
    levels: usize,
)
    requires levels_nonzero { 0 < levels }
    requires area { Area stride w h buf.old }
    requires in_bounds { (32768 ≤ length strip.old) × (1024 ≤ length line.old) }
    ensures { picture 0 stride buf.new ≡ walk (mask_line_bytes kernel) (levels - 1) (low_side w) (low_side h) (col_pass (mask_line_bytes kernel) w h (picture 0 stride buf.old)) }
{
    col_pass(kernel, buf, strip, stride, w, h);
    let low_w = w - w / 2;
    let low_h = h - h / 2;
    rows(kernel, buf, strip, line, stride, low_w, low_h, levels - 1);
}

// The first level's rows, which are placed: each is masked in its two parts.
fn placed_rows(kernel: Kernel, marks: &mut [u8], w: usize, h: usize)
    requires { Whole w h marks.old }
    ensures { picture 0 w marks.new ≡ row_pass (on_woven (mask_line_bytes kernel)) w h (picture 0 w marks.old) }
{
    for y in 0..h {
        let at = y * w;
        line_mask::mask(kernel, marks, line_mask::Lines::parted(at, w, 1));
    }
}

// The first level's columns: whole rows are masked against whole rows.
fn placed_cols(kernel: Kernel, marks: &mut [u8], w: usize, h: usize)
    requires { Whole w h marks.old }
    ensures { picture 0 w marks.new ≡ col_pass (on_woven (mask_line_bytes kernel)) w h (picture 0 w marks.old) }
{
    line_mask::mask(kernel, marks, line_mask::Lines::parted(0, h, w));
}

// Makes, in place, the mask of the region that a buffer holds placed.
pub fn mask_levels(kernel: Kernel, levels: usize, w: usize, h: usize, marks: &mut [u8])
    requires { Region levels w h marks.old }
    ensures { (B : Picture Bool) → picture 0 w marks.old ≡ placed w h (bytes B) → Result 0 true (mask_on kernel levels w h B) marks.old marks.new }
{
    placed_rows(kernel, marks, w, h);
    placed_cols(kernel, marks, w, h);
    // Below the first level a line has at most 2,048 marks: 16 columns and more have room, and the pairs of a row.
    let mut strip = [0u8; 32768];
    let mut line = [0u16; 1024];
    rows(
        kernel,
        marks,
        &mut strip,
        &mut line,
        w,
        w - w / 2,
        h - h / 2,
        levels - 1,
    );
}

// Fills the lent mask of a picture of w by h samples from its region.
// Refusals, in order: 1, 2, 4, 5, 9. Under a refusal the mask holds what it held.
#[tactic(auto, unfolding(refusal::specs::Numbers::first))]
pub fn mask(
    kernel: usize,
    levels: usize,
    w: usize,
    h: usize,
    region: &[u8],
    mask: &mut [u8],
) -> Result<(), Refusal>
    ensures result_value { answer_number result ≡ first (mask_tests kernel levels w h region.now (length mask.old)) }
    ensures fact { Result 0 (accepted (mask_tests kernel levels w h region.now (length mask.old))) (mask_byte kernel levels w h region.now) mask.old mask.new }
{
    let chosen = refusal::known_kernel(kernel)?;
    refuse(refusal::bad_levels(levels), Refusal::Levels)?;
    refuse(refusal::bad_size(w, h), Refusal::Size)?;
    refuse(region.len() != w * h, Refusal::Length)?;
    refuse(mask.len() != w * h, Refusal::Length)?;
    refuse(refusal::bad_mark(region), Refusal::Mark)?;
    transfer::bytes::place(region, mask, w, h);
    mask_levels(chosen, levels, w, h, mask);
    Ok(())
}
