// Bytes of a reader into a buffer, and bytes to standard output.
#![tactic(auto)]

ghost use Rattle.io.specs.Counts.{IsPrefixLen};

use std::io::Read;

// Reads until the buffer is full, the input ends or a read fails, and answers how many bytes stand at the buffer's start.
pub fn read_full<R: Read>(input: &mut R, buf: &mut [u8]) -> usize
    ensures { IsPrefixLen result buf.new }
{
    let mut done = 0;
    // A loop over reads: `read_exact` says nothing of a buffer that the input does not fill.
    while done < buf.len() {
        match input.read(&mut buf[done..]) {
            Ok(0) | Err(_) => break,
            Ok(size) => done += size,
        }
    }
    done
}

// Bytes to standard output. What cannot be written is lost, and nothing stops at it.
pub fn print(rt: &HostRuntime, text: &[u8]) {
    let _ = rt.write_all(text);
}
