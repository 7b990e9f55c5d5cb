//! Whole reads and writes over sources and sinks in memory, whose calls their clauses tell exactly.

use sift_io::*;
use std::io;
use std::io::Write;
use std::test::Fail;

#[test]
fn a_whole_read_takes_all_pieces(rt: HostRuntime) -> Result<(), Fail> {
    let alloc = rt.alloc();
    let bytes = vec![in alloc; 7; 5_000]?;
    let mut source = SureIn::new(bytes.clone()?, 5_000);
    let all = read_all(alloc, &mut source, 5_000);
    assert_eq!(rt; all, Ok(bytes));
    Ok(())
}

#[test]
fn a_whole_read_stops_at_a_fault_and_past_the_limit(rt: HostRuntime) -> Result<(), Fail> {
    let alloc = rt.alloc();
    let cases = [
        (3, 9, ReadStop::TooLong, 4),
        (0, 9, ReadStop::TooLong, 1),
        (7, 9, ReadStop::TooLong, 8),
        (8, 1, ReadStop::Failed, 0),
        (8, 3, ReadStop::Failed, 6),
        (8, 4, ReadStop::Failed, 8),
    ];
    for (limit, fault, want, taken) in cases {
        let mut source = BytesIn::new(b"abcdefgh".to_vec(alloc)?, 3, [fault].to_vec(alloc)?);
        let all = read_all(alloc, &mut source, limit);
        assert_eq!(rt; all, Err(want));
        assert_eq!(rt; source.at, taken);
    }
    Ok(())
}

#[test]
fn a_whole_write_is_whole_or_stops_at_a_fault(rt: HostRuntime) -> Result<(), Fail> {
    let alloc = rt.alloc();
    let cases = [
        (4, Ok(()), "abcdefgh"),
        (3, Err(WriteStop::Failed), "abcdef"),
        (1, Err(WriteStop::Failed), ""),
    ];
    for (fault, want, text) in cases {
        let mut sink = BytesOut::new(alloc, 3, [fault].to_vec(alloc)?);
        let done = write_all(&mut sink, b"abcdefgh");
        assert_eq!(rt; done, want);
        assert_eq!(rt; sink.bytes.as_slice(), text.as_bytes());
    }
    Ok(())
}

#[test]
fn a_whole_write_to_a_sure_sink_is_whole(rt: HostRuntime) {
    let mut sink = SureOut::new(3);
    let done = write_all(&mut sink, b"abcdefgh");
    assert_eq!(rt; done, Ok(()));
}

/// A writer of std that a signal interrupts so often before it takes a piece, whole.
#[derive(Drop)]
struct Interrupted {
    bytes: Vec<u8>,
    /// How often each piece is interrupted.
    times: u32,
    /// How often this one was.
    so_far: u32,
}

impl Write for Interrupted {
    fn write(&mut self, piece: &[u8]) -> io::Result<usize> {
        if self.so_far < self.times {
            self.so_far += 1;
            return Err(io::Error::from(io::ErrorKind::Interrupted));
        }
        self.so_far = 0;
        self.bytes.extend_from_slice(piece)?;
        Ok(piece.len())
    }

    fn flush(&mut self) -> io::Result<()> {
        Ok(())
    }
}

#[test]
fn a_long_piece_is_written_unless_each_of_a_thousand_calls_is_interrupted(
    rt: HostRuntime,
) -> Result<(), Fail> {
    let alloc = rt.alloc();
    let cases = [
        (0, Ok(()), 100_000),
        (1, Ok(()), 100_000),
        (999, Ok(()), 100_000),
        (1_000, Err(WriteStop::Failed), 0),
    ];
    let bytes = vec![in alloc; 7; 100_000]?;
    for (times, want, written) in cases {
        let mut sink = StdOut::new(Interrupted {
            bytes: Vec::new(alloc),
            times,
            so_far: 0,
        });
        let done = write_all(&mut sink, &bytes);
        assert_eq!(rt; done, want, "{times} interruptions");
        assert_eq!(rt; sink.output.bytes.len(), written, "{times} interruptions");
    }
    Ok(())
}
