// Real files and the real output.
use chart_dev::{
    Failed, HostOut, HostShelf, ReadFault, Sink, append_all, put_all, read_whole, write_whole,
};
use std::fs;
use std::test::Fail;

const TEXT: &[u8] = b"depth 12 metres\n";

#[test]
fn files_are_written_and_read(rt: HostRuntime) -> Result<(), Fail> {
    let name = "chart_dev_files_are_written_and_read";
    let mut shelf = HostShelf::new(&rt);
    assert_eq!(rt; write_whole(&mut shelf, name, TEXT), Ok(()));
    assert_eq!(rt; append_all(&mut shelf, name, TEXT), Ok(()));
    let bytes = read_whole(rt.alloc(), &mut shelf, name, 32).map(|bytes| bytes.len());
    fs::remove_file(&rt, name)?;
    assert_eq!(rt; bytes, Ok(32));
    let gone = read_whole(rt.alloc(), &mut shelf, name, 32).map(|bytes| bytes.len());
    assert_eq!(rt; gone, Err(ReadFault::Device));
    assert_eq!(rt; append_all(&mut shelf, name, TEXT), Err(Failed));
    Ok(())
}

#[test]
fn the_output_takes_bytes(rt: HostRuntime) -> Result<(), Fail> {
    let mut out = HostOut::new(&rt);
    assert_eq!(rt; put_all(&mut out, TEXT), Ok(()));
    assert_eq!(rt; out.put(b""), Ok(0));
    Ok(())
}
