//! Sources and sinks.
use iq_outside::{
    Gate, MemorySink, MemorySource, OpenGate, ReadFault, Sink, Source, StdSink, StdSource,
    SureSink, SureSource, WriteFault, read_whole, write_all,
};
use std::io::{self, ErrorKind, Read, Write};
use std::test::Fail;

const FAULT: ReadFault = ReadFault::Fault {
    before: 0,
    after: 1,
};

#[test]
fn a_whole_source_is_read_up_to_its_most(rt: HostRuntime) -> Result<(), Fail> {
    let alloc = rt.alloc();
    // The bytes, the calls that fail, the most that is allowed, what comes of it, and how many bytes are left.
    let rows: [(&[u8], &[u64], usize, Result<usize, ReadFault>, usize); 9] = [
        (b"", &[], 0, Ok(0), 0),
        (b"abc", &[], 3, Ok(3), 0),
        (b"abc", &[], usize::MAX, Ok(3), 0),
        (b"abc", &[], 2, Err(ReadFault::TooLong), 0),
        (b"abcde", &[], 2, Err(ReadFault::TooLong), 2),
        (b"abc", &[1], 3, Err(FAULT), 3),
        (b"abc", &[2], 3, Err(FAULT), 0),
        (b"abc", &[2], 2, Err(ReadFault::TooLong), 0),
        (b"abc", &[3], 3, Ok(3), 0),
    ];
    for (row, (bytes, fails, most, want, left)) in rows.iter().enumerate() {
        let mut source = MemorySource::new(bytes.to_vec(alloc)?, fails.to_vec(alloc)?);
        let got = read_whole(alloc, &mut source, *most).map(|v| v.len());
        assert_eq!(rt; got, *want, "row {row}");
        let rest = read_whole(alloc, &mut source, usize::MAX).map(|v| v.len());
        assert!(rt; rest == Ok(*left) || rest.is_err(), "row {row}");
    }
    let long = vec![in alloc; 7u8; 200_000]?;
    let got = read_whole(alloc, &mut SureSource::new(long), 200_000)?;
    assert_eq!(rt; got.len(), 200_000);
    assert!(rt; got.iter().all(|b| *b == 7));
    Ok(())
}

#[test]
fn a_failed_write_leaves_a_front(rt: HostRuntime) -> Result<(), Fail> {
    let alloc = rt.alloc();
    let fault = Some(WriteFault {
        before: 0,
        after: 1,
    });
    // The most bytes at a write, the calls that fail, what is written at the end, and the fault.
    let rows: [(usize, &[u64], &[u8], Option<WriteFault>); 4] = [
        (usize::MAX, &[], b"abcde", None),
        (2, &[], b"abcde", None),
        (1, &[2], b"a", fault),
        (2, &[1], b"", fault),
    ];
    for (row, (most, fails, want, fault)) in rows.iter().enumerate() {
        assert!(rt; *most > 0);
        let mut sink = MemorySink::slow(*most, fails.to_vec(alloc)?);
        let got = write_all(&mut sink, b"abcde").err();
        assert_eq!(rt; got, *fault, "row {row}");
        assert_eq!(rt; sink.written(), *want, "row {row}");
    }
    let mut sure = SureSink::new(alloc);
    write_all(&mut sure, b"abcde")?;
    assert_eq!(rt; sure.written(), b"abcde".as_slice());
    Ok(())
}

#[test]
fn a_standard_stream_hands_on_its_bytes(rt: HostRuntime) -> Result<(), Fail> {
    let alloc = rt.alloc();
    let text: &[u8] = b"line\n";
    let mut source = StdSource::new(text);
    let whole = read_whole(alloc, &mut source, 5)?;
    assert_eq!(rt; whole.as_slice(), text);
    // A writer over a slice takes what fits, and then nothing: that is a fault.
    let mut room = [0u8; 3];
    let mut sink = StdSink::new(&mut room[..]);
    assert_eq!(rt;
        write_all(&mut sink, text),
        Err(WriteFault {
            before: 0,
            after: 1
        })
    );
    assert_eq!(rt; sink.faults(), 1);
    OpenGate.before(0, 1);
    OpenGate.after(0, 1);
    Ok(())
}

/// A stream of three bytes that answers each odd call with an error.
#[derive(Drop)]
struct Uneven {
    calls: u64,
    kind: ErrorKind,
}

impl Uneven {
    fn call(&mut self) -> io::Result<bool> {
        self.calls = self.calls.saturating_add(1);
        if self.calls % 2 == 1 {
            return Err(self.kind.into());
        }
        Ok(self.calls <= 6)
    }
}

impl Read for Uneven {
    fn read(&mut self, buf: &mut [u8]) -> io::Result<usize> {
        let more = self.call()?;
        match buf {
            [first, ..] if more => {
                *first = b'x';
                Ok(1)
            }
            _ => Ok(0),
        }
    }
}

impl Write for Uneven {
    fn write(&mut self, buf: &[u8]) -> io::Result<usize> {
        let more = self.call()?;
        if more && !buf.is_empty() {
            return Ok(1);
        }
        Ok(0)
    }

    fn flush(&mut self) -> io::Result<()> {
        Ok(())
    }
}

#[test]
fn a_call_that_a_signal_interrupts_is_made_again(rt: HostRuntime) -> Result<(), Fail> {
    let alloc = rt.alloc();
    let kind = ErrorKind::Interrupted;
    let mut source = StdSource::new(Uneven { calls: 0, kind });
    let whole = read_whole(alloc, &mut source, 3)?;
    assert_eq!(rt; whole.as_slice(), b"xxx".as_slice());
    assert_eq!(rt; source.faults(), 0);
    let mut sink = StdSink::new(Uneven { calls: 0, kind });
    assert_eq!(rt; write_all(&mut sink, b"xxx"), Ok(()));
    assert_eq!(rt; sink.faults(), 0);
    // Any other error is a fault.
    let kind = ErrorKind::BrokenPipe;
    let mut source = StdSource::new(Uneven { calls: 0, kind });
    assert_eq!(rt;
        read_whole(alloc, &mut source, 3).map(|v| v.len()),
        Err(FAULT)
    );
    let mut sink = StdSink::new(Uneven { calls: 0, kind });
    assert_eq!(rt;
        write_all(&mut sink, b"xxx"),
        Err(WriteFault {
            before: 0,
            after: 1
        })
    );
    Ok(())
}
