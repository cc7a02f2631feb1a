// Strips of lines of numbers.
// Kept for the comparison (lib.rt): loops by index, and twins for the ways in and out.
ghost use Rattle.std.specs.Prelude.{◌*◌, ◌≤◌, pos, length};
ghost use Rattle.grid.specs.Buffer.{InBuffer, Taken, Put};
ghost use Rattle.earlier_passes.specs.Copied.{Room, Copied};

// Copies n numbers of src, from `from` on, to dst, from `at` on.
fn copy(src: &[i32], dst: &mut [i32], from: usize, at: usize, n: usize)
    requires { Room src.now from at n dst.old }
    ensures { Copied (pos 0) src.now from at n dst.old dst.new }
{
    for k in 0..n {
        dst[at + k] = src[from + k];
    }
}

// One line, its numbers step apart in buf.
fn take_line(buf: &[i32], strip: &mut [i32], start: usize, step: usize, m: usize)
    requires in_buffer { InBuffer buf.now start step m 1 }
    requires m_in_bounds { m ≤ length strip.old }
    ensures { Taken (pos 0) buf.now start step m 1 strip.old strip.new }
{
    for n in 0..m {
        strip[n] = buf[start + n * step];
    }
}

// Number n of every line at once, for each n.
fn take_rows(buf: &[i32], strip: &mut [i32], start: usize, step: usize, m: usize, lanes: usize)
    requires in_buffer { InBuffer buf.now start step m lanes }
    requires lanes_in_bounds { m * lanes ≤ length strip.old }
    ensures { Taken (pos 0) buf.now start step m lanes strip.old strip.new }
{
    for n in 0..m {
        copy(buf, strip, start + n * step, n * lanes, lanes);
    }
}

// The strip of `lanes` lines of m numbers of buf, the first number of line j at start + j, the others of it step apart.
pub fn take(buf: &[i32], strip: &mut [i32], start: usize, step: usize, m: usize, lanes: usize)
    requires in_buffer { InBuffer buf.now start step m lanes }
    requires lanes_in_bounds { m * lanes ≤ length strip.old }
    ensures { Taken (pos 0) buf.now start step m lanes strip.old strip.new }
{
    if step == lanes {
        copy(buf, strip, start, 0, m * lanes);
        return;
    }
    if lanes == 1 {
        take_line(buf, strip, start, step, m);
        return;
    }
    take_rows(buf, strip, start, step, m, lanes);
}

// One line, its numbers step apart in buf.
fn put_line(strip: &[i32], buf: &mut [i32], start: usize, step: usize, m: usize)
    requires in_buffer { InBuffer buf.old start step m 1 }
    requires m_in_bounds { m ≤ length strip.now }
    ensures { Put (pos 0) strip.now start step m 1 buf.old buf.new }
{
    for n in 0..m {
        buf[start + n * step] = strip[n];
    }
}

// Number n of every line at once, for each n.
fn put_rows(strip: &[i32], buf: &mut [i32], start: usize, step: usize, m: usize, lanes: usize)
    requires in_buffer { InBuffer buf.old start step m lanes }
    requires lanes_in_bounds { m * lanes ≤ length strip.now }
    ensures { Put (pos 0) strip.now start step m lanes buf.old buf.new }
{
    for n in 0..m {
        copy(strip, buf, n * lanes, start + n * step, lanes);
    }
}

// The strip back into buf.
pub fn put(strip: &[i32], buf: &mut [i32], start: usize, step: usize, m: usize, lanes: usize)
    requires in_buffer { InBuffer buf.old start step m lanes }
    requires lanes_in_bounds { m * lanes ≤ length strip.now }
    ensures { Put (pos 0) strip.now start step m lanes buf.old buf.new }
{
    if step == lanes {
        copy(strip, buf, 0, start, m * lanes);
        return;
    }
    if lanes == 1 {
        put_line(strip, buf, start, step, m);
        return;
    }
    put_rows(strip, buf, start, step, m, lanes);
}
