use crate::*;
use outside::{Files, Opened, Read, Sink, Source, Unread, Write, read_file, write_all};
use std::io::ErrorKind;
use std::test::Fail;
use std::{env, fs, io, process};

// A reader and writer whose calls answer in this order: so many bytes, each an `x`, or an error.
// Behind its last answer it is at its end.
#[derive(Drop)]
struct Scripted<'a> {
    answers: &'a [Result<usize, ErrorKind>],
}

impl Scripted<'_> {
    fn next(&mut self) -> io::Result<usize> {
        match self.answers.split_first() {
            Some((first, others)) => {
                self.answers = others;
                match *first {
                    Ok(count) => Ok(count),
                    Err(kind) => Err(io::Error::from(kind)),
                }
            }
            None => Ok(0),
        }
    }
}

impl io::Read for Scripted<'_> {
    fn read(&mut self, into: &mut [u8]) -> io::Result<usize> {
        let count = self.next()?.min(into.len());
        for place in into[..count].iter_mut() {
            *place = b'x';
        }
        Ok(count)
    }
}

impl io::Write for Scripted<'_> {
    fn write(&mut self, piece: &[u8]) -> io::Result<usize> {
        Ok(self.next()?.min(piece.len()))
    }

    fn flush(&mut self) -> io::Result<()> {
        Ok(())
    }
}

#[test]
fn an_error_of_a_reader_counts_and_an_interrupted_read_is_made_again(
    rt: HostRuntime,
) -> Result<(), Fail> {
    let answers = [
        Ok(2),
        Err(ErrorKind::Interrupted),
        Err(ErrorKind::Interrupted),
        Ok(1),
        Err(ErrorKind::BrokenPipe),
        Ok(3),
        Err(ErrorKind::Interrupted),
    ];
    let mut source = ReaderSource::new(Scripted { answers: &answers });
    let mut buffer = [0; 8];
    for (wanted, faults) in [
        (Read::Got(2), 0),
        (Read::Got(1), 0),
        (Read::Failed, 1),
        (Read::Got(3), 1),
        (Read::End, 1),
    ] {
        assert_eq!(rt; source.read(&mut buffer), wanted);
        assert_eq!(rt; source.faults(), faults, "{wanted:?}");
    }
    Ok(())
}

#[test]
fn an_error_of_a_writer_counts_and_so_does_a_write_of_nothing(rt: HostRuntime) -> Result<(), Fail> {
    let answers = [
        Ok(9),
        Err(ErrorKind::Interrupted),
        Ok(2),
        Err(ErrorKind::BrokenPipe),
        Ok(0),
        Ok(1),
    ];
    let mut sink = WriterSink::new(Scripted { answers: &answers });
    for (wanted, faults) in [
        (Write::Wrote(4), 0),
        (Write::Wrote(2), 0),
        (Write::Failed, 1),
        (Write::Failed, 2),
        (Write::Wrote(1), 2),
    ] {
        assert_eq!(rt; sink.write(b"abcd"), wanted);
        assert_eq!(rt; sink.faults(), faults, "{wanted:?}");
    }
    Ok(())
}

#[test]
fn a_call_that_is_interrupted_ten_times_is_made_until_it_answers(
    rt: HostRuntime,
) -> Result<(), Fail> {
    let mut answers = [Err(ErrorKind::Interrupted); 11];
    answers[10] = Ok(3);
    let mut source = ReaderSource::new(Scripted { answers: &answers });
    assert_eq!(rt; source.read(&mut [0; 8]), Read::Got(3));
    assert_eq!(rt; source.faults(), 0);
    let mut sink = WriterSink::new(Scripted { answers: &answers });
    assert_eq!(rt; sink.write(b"abcd"), Write::Wrote(3));
    assert_eq!(rt; sink.faults(), 0);
    Ok(())
}

// The path of a file of this process alone.
fn own_path(rt: &HostRuntime, ending: &str) -> Result<String, Fail> {
    let alloc = rt.alloc();
    let mut path = env::temp_dir(rt)?;
    let name = format!(in alloc; "outside_std_{}{ending}", process::id(rt.process()))?;
    path.push(name.as_str())?;
    let text = path.as_path().to_str().ok_or("the path is no text")?;
    Ok(String::from_str(alloc, text)?)
}

#[test]
fn a_file_is_read_back_through_its_source(rt: HostRuntime) -> Result<(), Fail> {
    let alloc = rt.alloc();
    let path = own_path(&rt, ".conf")?;
    fs::write(&rt, path.as_str(), "neighbor 192.0.2.1\n")?;
    let mut files = StdFiles::new(&rt);
    let bytes = read_file(alloc, &mut files, &path, 19)?;
    assert_eq!(rt; bytes.as_slice(), b"neighbor 192.0.2.1\n".as_slice());
    assert_eq!(rt;
        read_file(alloc, &mut files, &path, 18).err(),
        Some(Unread::Long)
    );
    assert_eq!(rt; files.faults(), 0);
    fs::remove_file(&rt, path.as_str())?;
    assert!(rt; matches!(files.open(&path), Opened::Failed));
    assert_eq!(rt; files.faults(), 1);
    Ok(())
}

#[test]
fn a_file_that_has_no_end_is_too_long(rt: HostRuntime) -> Result<(), Fail> {
    let mut files = StdFiles::new(&rt);
    let answer = read_file(rt.alloc(), &mut files, "/dev/zero", 1 << 20);
    assert_eq!(rt; answer.err(), Some(Unread::Long));
    assert_eq!(rt; files.faults(), 0);
    Ok(())
}

#[test]
fn a_path_is_opened_as_it_stands_with_its_blanks(rt: HostRuntime) -> Result<(), Fail> {
    let alloc = rt.alloc();
    let path = own_path(&rt, "_blank")?;
    let behind = own_path(&rt, "_blank ")?;
    fs::write(&rt, path.as_str(), "no blank")?;
    fs::write(&rt, behind.as_str(), "a blank behind")?;
    let mut files = StdFiles::new(&rt);
    let first = read_file(alloc, &mut files, &path, 100)?;
    let second = read_file(alloc, &mut files, &behind, 100)?;
    fs::remove_file(&rt, path.as_str())?;
    fs::remove_file(&rt, behind.as_str())?;
    assert_eq!(rt; first.as_slice(), b"no blank".as_slice());
    assert_eq!(rt; second.as_slice(), b"a blank behind".as_slice());
    Ok(())
}

#[test]
fn a_folder_opens_and_fails_to_be_read(rt: HostRuntime) -> Result<(), Fail> {
    let mut files = StdFiles::new(&rt);
    assert!(rt; matches!(files.open("/"), Opened::Open(_)));
    assert_eq!(rt;
        read_file(rt.alloc(), &mut files, "/", 100).err(),
        Some(Unread::Fault)
    );
    assert_eq!(rt; files.faults(), 1);
    Ok(())
}

#[test]
fn the_standard_streams_are_read_and_written(rt: HostRuntime) -> Result<(), Fail> {
    let mut input = StdInput::new(rt.stdin());
    assert_ne!(rt; input.read(&mut [0; 8]), Read::Failed);
    assert_eq!(rt; input.faults(), 0);
    let mut output = StdOutput::new(rt.stdout());
    write_all(&mut output, b"written\n")?;
    assert_eq!(rt; output.faults(), 0);
    Ok(())
}
