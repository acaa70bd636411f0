//! The program on what no contract can say: input that comes in pieces, output that is taken in parts or refused, files at
//! the limit of what is accepted.
use super::list;
use std::alloc::Global;
use std::io;
use std::io::{Read, Write};

// Reads and writes at most so many bytes at once.
#[derive(Drop)]
struct Pieces<T> {
    inner: T,
    most: usize,
}

impl<T: Read> Read for Pieces<T> {
    fn read(&mut self, buf: &mut [u8]) -> io::Result<usize> {
        let len = self.most.min(buf.len());
        self.inner.read(&mut buf[..len])
    }
}

impl<T: Write> Write for Pieces<T> {
    fn write(&mut self, buf: &[u8]) -> io::Result<usize> {
        let len = self.most.min(buf.len());
        self.inner.write(&buf[..len])
    }

    fn flush(&mut self) -> io::Result<()> {
        self.inner.flush()
    }
}

// Refuses every write.
#[derive(Drop)]
struct Refusing;

impl Write for Refusing {
    fn write(&mut self, _buf: &[u8]) -> io::Result<usize> {
        Err(io::Error::from(io::ErrorKind::StorageFull))
    }

    fn flush(&mut self) -> io::Result<()> {
        Ok(())
    }
}

// The listing of a file that is read and written in pieces.
fn listed(alloc: Global, file: &[u8], most: usize) -> anyhow::Result<Vec<u8>> {
    let mut input = Pieces { inner: file, most };
    let mut output = Pieces {
        inner: Vec::new(alloc),
        most,
    };
    list(alloc, &mut input, &mut output)?;
    Ok(output.inner)
}

const RUN: &[u8] =
    b"\x01\x01\x00\x04\x00\x02\x01\x01\x02\x00\x00\x00\x01\x03\x04\x00\x00\x00\x00\x00\x00\x04\x05";

const LISTING: &[u8] = b"D 8 0 0 0 0 0 4 8 0\nX 0 0 4\nE 8 4\n";

#[test]
fn in_pieces(rt: HostRuntime) -> anyhow::Result<()> {
    assert!(rt; listed(rt.alloc(), RUN, 1)?.as_slice() == LISTING);
    assert!(rt; listed(rt.alloc(), RUN, 7)?.as_slice() == LISTING);
    assert!(rt; listed(rt.alloc(), b"", 5)?.as_slice() == b"R 1 16 0\n".as_slice());
    Ok(())
}

#[test]
fn output_refused(rt: HostRuntime) -> anyhow::Result<()> {
    let mut input = RUN;
    assert!(rt; list(rt.alloc(), &mut input, &mut Refusing).is_err());
    Ok(())
}

#[test]
fn longest_file(rt: HostRuntime) -> anyhow::Result<()> {
    let mut file = vec![in rt.alloc(); 0u8; 65536]?;
    assert!(rt; listed(rt.alloc(), &file, 5000)?.as_slice() == b"R 1 15 0\n".as_slice());
    file.push(0)?;
    assert!(rt; listed(rt.alloc(), &file, 5000)?.as_slice() == b"R 1 14 65536\n".as_slice());
    Ok(())
}
