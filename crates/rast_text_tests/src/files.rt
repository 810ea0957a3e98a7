// A sink in memory, and files and standard output as they are. Files in memory are read by the cases
// of `rast_rows`.
use rast_io::{DiskFiles, Files, MemSink, ReadErr, StdSink, WriteFault, read_all, write_all};
use std::alloc::Global;
use std::test::Fail;

// How many bytes were read, or why none were.
fn read_count(alloc: Global, files: &mut impl Files, name: &str) -> Result<usize, ReadErr> {
    match read_all(alloc, files, name) {
        Ok(bytes) => Ok(bytes.len()),
        Err(why) => Err(why),
    }
}

#[test]
fn a_sink_takes_a_beginning(rt: HostRuntime) -> Result<(), Fail> {
    let alloc = rt.alloc();
    let mut sink = MemSink::new(alloc, 10);
    sink.reserve(17)?;
    sink.fail_at(2)?;
    let wrote = write_all(&mut sink, b"finished\nsteps 4\n");
    assert!(rt; wrote == Err(WriteFault { written: 10 }));
    assert_eq!(rt; sink.bytes(), b"finished\ns".as_slice());
    let wrote = write_all(&mut sink, b"teps 4\nwork 0\n");
    assert!(rt; wrote == Err(WriteFault { written: 7 }));
    assert_eq!(rt; sink.bytes(), b"finished\nsteps 4\n".as_slice());
    Ok(())
}

#[test]
fn real_files_are_read_to_their_end(rt: HostRuntime) -> Result<(), Fail> {
    let alloc = rt.alloc();
    let mut files = DiskFiles::new(&rt);
    for (name, want) in [
        ("/dev/null", Ok(0)),
        ("/dev/zero", Err(ReadErr::TooLong)),
        ("/dev/null/none", Err(ReadErr::Fault)),
        ("/", Err(ReadErr::Fault)),
    ] {
        assert!(rt; read_count(alloc, &mut files, name) == want, "at {name}");
    }
    Ok(())
}

#[test]
fn standard_output_takes_a_text(rt: HostRuntime) {
    let mut sink = StdSink::new(&rt);
    let wrote = write_all(&mut sink, b"written by a test\n");
    assert!(rt; wrote.is_ok());
}
