// What no clause says: that calls succeed, and what the ports over files do with real files.
use crate::{
    FileSink, FileSource, Gate, MemSink, MemSource, OpenGate, Sink, Source, put_all, put_parts,
};
use net_types::{List, Text};
use std::test::Fail;
use std::{env, fs, process};

#[test]
fn a_memory_source_fails_the_chosen_call(rt: HostRuntime) -> Result<(), Fail> {
    let alloc = rt.alloc();
    let mut fails = List::new(alloc);
    fails.push(2)?;
    let mut source = MemSource::new(Text::from_slice(alloc, b"abcde")?, fails, 3);
    let mut buf = [0u8; 4];
    assert_eq!(rt; source.take(&mut buf), Ok(3));
    assert_eq!(rt; buf, [b'a', b'b', b'c', 0]);
    assert!(rt; source.take(&mut buf).is_err());
    assert_eq!(rt; source.left(), b"de".as_slice());
    assert_eq!(rt; source.take(&mut buf), Ok(2));
    assert_eq!(rt; source.take(&mut buf), Ok(0));
    Ok(())
}

#[test]
fn a_fault_leaves_a_front_of_the_piece(rt: HostRuntime) -> Result<(), Fail> {
    let alloc = rt.alloc();
    let mut fails = List::new(alloc);
    fails.push(3)?;
    let mut sink = MemSink::new(alloc, 4096, fails, 16)?;
    let piece = b"SWMM5-FX REPORT\none reach\n\nAnalysis Options\n";
    assert!(rt; put_all(&mut sink, piece).is_err());
    assert_eq!(rt; sink.held(), &piece[..32]);
    assert!(rt; put_parts(&mut sink, &[b"no ", b"outfall"]).is_ok());
    assert_eq!(rt; &sink.held()[32..], b"no outfall".as_slice());
    OpenGate.pass(0, 1, 0);
    Ok(())
}

// The name of a file of a test.
fn file_of(rt: &HostRuntime, tag: &str) -> Result<String, Fail> {
    let folder = env::temp_dir(rt)?;
    let number = process::id(rt.process());
    Ok(format!(in rt.alloc(); "{}/fault_ports_{tag}_{number}.txt", folder.display())?)
}

fn source_of<'a>(rt: &'a HostRuntime, file: &str) -> Result<FileSource<'a, HostRuntime>, Fail> {
    Ok(FileSource::new(rt, Text::from_slice(rt.alloc(), file.as_bytes())?))
}

fn sink_of<'a>(rt: &'a HostRuntime, file: &str) -> Result<FileSink<'a, HostRuntime>, Fail> {
    Ok(FileSink::new(rt, Text::from_slice(rt.alloc(), file.as_bytes())?))
}

#[test]
fn a_file_source_gives_the_bytes_of_a_file(rt: HostRuntime) -> Result<(), Fail> {
    let file = file_of(&rt, "source")?;
    fs::write(&rt, file.as_str(), "two words")?;
    let mut source = source_of(&rt, file.as_str())?;
    let mut buf = [0u8; 6];
    assert_eq!(rt; source.take(&mut buf), Ok(6));
    assert_eq!(rt; buf.as_slice(), b"two wo".as_slice());
    assert_eq!(rt; source.take(&mut buf), Ok(3));
    assert_eq!(rt; source.take(&mut buf), Ok(0));
    fs::remove_file(&rt, file.as_str())?;
    Ok(())
}

#[test]
fn a_file_sink_makes_its_file_anew(rt: HostRuntime) -> Result<(), Fail> {
    let file = file_of(&rt, "sink")?;
    fs::write(&rt, file.as_str(), "an older and longer content")?;
    let mut sink = sink_of(&rt, file.as_str())?;
    assert!(rt; put_all(&mut sink, b"two ").is_ok());
    assert!(rt; put_all(&mut sink, b"words").is_ok());
    let text = fs::read_to_string(&rt, file.as_str())?;
    assert_eq!(rt; text.as_str(), "two words");
    fs::remove_file(&rt, file.as_str())?;
    Ok(())
}

#[test]
fn a_file_that_cannot_be_opened_is_a_fault(rt: HostRuntime) -> Result<(), Fail> {
    let file = file_of(&rt, "none/none")?;
    let mut buf = [0u8; 6];
    assert!(rt; source_of(&rt, file.as_str())?.take(&mut buf).is_err());
    assert!(rt; sink_of(&rt, file.as_str())?.put(b"words").is_err());
    Ok(())
}
