//! Each file and each stream once.

use dream_outside::{Failed, Files, MemFile, MemFiles, MemSink, RealFiles, RealSink, Sink};
use std::fs;
use std::test::Fail;

#[test]
fn files_in_memory(rt: HostRuntime) -> Result<(), Fail> {
    let alloc = rt.alloc();
    let file = MemFile {
        path: String::from_str(alloc, "a")?,
        bytes: [1, 2, 3].to_vec(alloc)?,
    };
    let mut files = MemFiles::new(vec![in alloc; file]?, vec![in alloc; 4]?);
    let mut buffer = [0; 2];
    assert_eq!(rt; files.open_file("b"), Err(Failed));
    assert_eq!(rt; files.open_file("a"), Ok(()));
    assert_eq!(rt; files.take(&mut buffer), Ok(2));
    assert_eq!(rt; buffer, [1, 2]);
    assert_eq!(rt; files.take(&mut buffer), Err(Failed), "the fourth call");
    assert_eq!(rt; files.take(&mut buffer), Ok(1));
    assert_eq!(rt; buffer[0], 3);
    assert_eq!(rt; files.take(&mut buffer), Ok(0));
    Ok(())
}

#[test]
fn a_stream_in_memory(rt: HostRuntime) -> Result<(), Fail> {
    let alloc = rt.alloc();
    let mut sink = MemSink::new(alloc, 5, 3, vec![in alloc; 2]?)?;
    assert_eq!(rt; sink.put(b"abcd"), Ok(3));
    assert_eq!(rt; sink.put(b"d"), Err(Failed), "the second call");
    assert_eq!(rt; sink.put(b"defg"), Ok(2));
    assert_eq!(rt; sink.put(b"f"), Err(Failed), "no room");
    assert_eq!(rt; sink.put(b""), Ok(0));
    assert_eq!(rt; sink.bytes(), b"abcde".as_slice());
    Ok(())
}

#[test]
fn a_file_of_the_system(rt: HostRuntime) -> Result<(), Fail> {
    let path = "dream_outside_test.bin";
    fs::write(&rt, path, b"dream")?;
    let mut files = RealFiles::new(rt);
    let mut buffer = [0; 16];
    let missing = files.open_file("no such file");
    let opened = files.open_file(path);
    let count = files.take(&mut buffer);
    let end = files.take(&mut buffer);
    fs::remove_file(&rt, path)?;
    assert_eq!(rt; missing, Err(Failed));
    assert_eq!(rt; opened, Ok(()));
    assert_eq!(rt; count, Ok(5));
    assert_eq!(rt; &buffer[..5], b"dream".as_slice());
    assert_eq!(rt; end, Ok(0));
    Ok(())
}

#[test]
fn a_stream_of_the_system(rt: HostRuntime) -> Result<(), Fail> {
    let mut sink = RealSink::new(Vec::new(rt.alloc()));
    assert_eq!(rt; sink.put(b"dream"), Ok(5));
    assert_eq!(rt; sink.put(b""), Ok(0));
    Ok(())
}
