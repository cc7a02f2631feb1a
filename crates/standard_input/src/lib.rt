// Standard input read into a buffer of fixed length.
#![tactic(auto)]

ghost use Rattle.std.specs.Prelude.{◌≡◌, ◌<◌, ◌≤◌, length, take, IfOk};
ghost use Rattle.std.specs.Io.KnownBytes.{Consumes, IsAtEnd};

use std::io;
use std::io::Read;

// Fills the buffer from a reader, and tells how many bytes it then has: fewer than fit where the reader's bytes end.
pub fn fill<R: Read>(reader: &mut R, buffer: &mut [u8]) -> io::Result<usize>
    ensures within { IfOk result (λ n. n ≤ length buffer.old) }
    ensures bytes { IfOk result (λ n. Consumes (R.remaining reader.old) (R.remaining reader.new) (take n buffer.new)) }
    ensures end { IfOk result (λ n. n < length buffer.old → IsAtEnd (R.remaining reader.new)) }
{
    let mut n = 0;
    while n < buffer.len() {
        let found = reader.read(&mut buffer[n..])?;
        if found == 0 {
            break;
        }
        n += found;
    }
    Ok(n)
}

// The same from standard input.
pub fn read_input(rt: &impl Input, buffer: &mut [u8]) -> io::Result<usize>
    ensures { IfOk result (λ n. n ≤ length buffer.old) }
{
    fill(&mut rt.reader(), buffer)
}

#[cfg(test)]
mod tests {
    use super::*;

    #[test]
    fn fills_what_fits_and_stops_at_the_end(rt: HostRuntime) -> io::Result<()> {
        let mut reader: &[u8] = &[1, 2, 3, 4, 5];
        let mut front = [9u8; 3];
        let n = fill(&mut reader, &mut front)?;
        assert_eq!(rt; n, 3);
        assert_eq!(rt; front, [1, 2, 3]);
        let mut rest = [9u8; 3];
        let n = fill(&mut reader, &mut rest)?;
        assert_eq!(rt; n, 2);
        assert_eq!(rt; rest, [4, 5, 9]);
        Ok(())
    }
}
