// A reader's bytes in a lent buffer: as many as there are, or as the buffer has room for.
#![tactic(auto)]

ghost use Rattle.std.specs.Prelude.{◌<◌, ◌≤◌, length, take, IfOk};
ghost use Rattle.std.specs.Io.KnownBytes.{Consumes, IsAtEnd};

use std::io;
use std::io::Read;

// Reads until `buf` is full or the input ends, and returns how many bytes stand at the front of `buf` then.
pub fn read_full<R: Read>(input: &mut R, buf: &mut [u8]) -> io::Result<usize>
    ensures within { IfOk result (λ n. n ≤ length buf.new) }
    ensures bytes { IfOk result (λ n. Consumes (R.remaining input.old) (R.remaining input.new) (take n buf.new)) }
    ensures end { IfOk result (λ n. n < length buf.new → IsAtEnd (R.remaining input.new)) }
{
    let mut done = 0;
    // Each read but the last gives a byte at least, so there are no more of them than bytes.
    for _ in 0..buf.len() {
        let got = input.read(&mut buf[done..])?;
        if got == 0 {
            break;
        }
        done += got;
    }
    Ok(done)
}

#[cfg(test)]
mod tests {
    use super::*;
    use std::io::ErrorKind;

    // Gives a byte a read, one more each time, and fails in the place of the byte `broken`.
    #[derive(Drop)]
    struct Drip {
        next: u8,
        broken: u8,
    }

    impl Read for Drip {
        fn read(&mut self, buf: &mut [u8]) -> io::Result<usize> {
            if self.next == self.broken {
                return Err(io::Error::from(ErrorKind::BrokenPipe));
            }
            if buf.is_empty() {
                return Ok(0);
            }
            buf[0] = self.next;
            self.next = self.next.wrapping_add(1);
            Ok(1)
        }
    }

    #[test]
    fn stops_at_the_end_or_where_there_is_no_room(rt: HostRuntime) -> io::Result<()> {
        let mut buf = [9u8; 4];
        let mut text: &[u8] = b"\x00\xff";
        assert_eq!(rt; read_full(&mut text, &mut buf)?, 2);
        assert_eq!(rt; buf, [0, 255, 9, 9]);
        let mut text: &[u8] = b"\x00\xff\n\x80\r";
        assert_eq!(rt; read_full(&mut text, &mut buf)?, 4);
        assert_eq!(rt; buf, [0, 255, 10, 128]);
        Ok(())
    }

    #[test]
    fn goes_on_after_short_reads(rt: HostRuntime) -> io::Result<()> {
        let mut buf = [9u8; 4];
        let mut drip = Drip { next: 1, broken: 5 };
        assert_eq!(rt; read_full(&mut drip, &mut buf)?, 4);
        assert_eq!(rt; buf, [1, 2, 3, 4]);
        Ok(())
    }

    #[test]
    fn hands_out_an_error_in_mid_stream(rt: HostRuntime) {
        let mut buf = [9u8; 4];
        let mut drip = Drip { next: 1, broken: 3 };
        let kind = read_full(&mut drip, &mut buf).map_err(|e| e.kind());
        assert_eq!(rt; kind, Err(ErrorKind::BrokenPipe));
    }
}
