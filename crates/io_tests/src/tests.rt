//! That a write is flushed, and fails where its flush does. Standard output keeps nothing back, so no run of a program shows it.
use std::io;
use std::io::Write;
use std::test::Fail;
use taxi_io::{OutputSink, Sink, Trouble};

// A writer that takes all bytes. Where it is full, a flush fails that comes after a write.
#[derive(Drop)]
struct Tape {
    full: bool,
    waiting: bool,
}

impl Write for Tape {
    fn write(&mut self, bytes: &[u8]) -> io::Result<usize> {
        self.waiting = true;
        Ok(bytes.len())
    }

    fn flush(&mut self) -> io::Result<()> {
        if self.full && self.waiting {
            Err(io::Error::from(io::ErrorKind::StorageFull))
        } else {
            Ok(())
        }
    }
}

#[test]
fn a_write_is_flushed(rt: HostRuntime) -> Result<(), Fail> {
    for (full, answer) in [(false, Ok(5usize)), (true, Err(Trouble::Failed))] {
        let waiting = false;
        let mut sink = OutputSink::new(Tape { full, waiting });
        assert!(rt; sink.write(b"N1,N2") == answer);
    }
    Ok(())
}
