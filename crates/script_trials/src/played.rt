// Scripts played from an input that comes in pieces, onto paper that may run out: what no contract of a reader or writer says.
use player::play;
use std::io;
use std::io::{ErrorKind, Read, Write};
use std::test::*;

// Each read gives the next piece; a piece of no bytes is the end, and nobody should ask for those behind it.
#[derive(Drop)]
struct Pieces {
    pieces: &'static [&'static [u8]],
    reads: usize,
}

impl Read for Pieces {
    fn read(&mut self, buf: &mut [u8]) -> io::Result<usize> {
        let piece = self.pieces.get(self.reads).copied().unwrap_or(b"");
        self.reads = self.reads.wrapping_add(1);
        let n = piece.len().min(buf.len());
        buf[..n].copy_from_slice(&piece[..n]);
        Ok(n)
    }
}

const PIECES: &[&[u8]] = &[
    b"post\tstra",
    b"ight\ncabinet\t0\t",
    b"0\nplant\n\0",
    b"",
    b"\nplant\n",
];

#[test]
fn pieces_are_one_input_up_to_the_end(rt: HostRuntime) -> Result<(), Fail> {
    let mut input = Pieces {
        pieces: PIECES,
        reads: 0,
    };
    let out = play(&mut input, Vec::new(rt.alloc()))?;
    assert_eq!(rt; out.as_slice(), b"plant\t1\nno\t3\n".as_slice());
    assert_eq!(rt; input.reads, 4);
    Ok(())
}

const MANY: [&[u8]; 300] = [b"?\n"; 300];

#[test]
fn however_many_pieces_come(rt: HostRuntime) -> Result<(), Fail> {
    let mut input = Pieces {
        pieces: &MANY,
        reads: 0,
    };
    let out = play(&mut input, Vec::new(rt.alloc()))?;
    assert_eq!(rt; out.len(), 300 * b"no\t3\n".len());
    Ok(())
}

// Takes one write and no other, and counts those that were tried.
#[derive(Drop)]
struct Paper<'a> {
    tried: &'a mut usize,
}

impl<'a> Write for Paper<'a> {
    fn write(&mut self, buf: &[u8]) -> io::Result<usize> {
        *self.tried = self.tried.wrapping_add(1);
        if *self.tried > 1 {
            return Err(io::Error::from(ErrorKind::StorageFull));
        }
        Ok(buf.len())
    }

    fn flush(&mut self) -> io::Result<()> {
        Ok(())
    }
}

#[test]
fn nothing_is_written_once_a_write_failed(rt: HostRuntime) -> Result<(), Fail> {
    let mut input = Pieces {
        pieces: &MANY,
        reads: 0,
    };
    let mut tried = 0;
    let failed = play(&mut input, Paper { tried: &mut tried }).is_err();
    assert!(rt; failed);
    assert_eq!(rt; tried, 2);
    Ok(())
}
