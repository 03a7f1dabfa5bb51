use crate::{Failed, FilePort, Port, Sink, Source, Standard, StdSink, StdSource};
use std::fs;
use std::io::BufWriter;
use std::test::Fail;

#[test]
fn a_sink_flushes_and_a_source_reads(rt: HostRuntime) -> Result<(), Fail> {
    let file = fs::create(&rt, "edge_ports_stream")?;
    let buffered: Standard<_, fs::File> = Standard::Out(BufWriter::new(rt.alloc(), file)?);
    let mut sink = StdSink::new(buffered);
    assert_eq!(rt; sink.put(b"abc"), Ok(()));
    let mut source = StdSource::new(fs::open(&rt, "edge_ports_stream")?);
    let mut places = [0; 4];
    assert_eq!(rt; source.take(&mut places), Ok(3));
    assert_eq!(rt; places, *b"abc\0");
    fs::remove_file(&rt, "edge_ports_stream")?;
    Ok(())
}

#[test]
fn a_port_has_two_files(rt: HostRuntime) -> Result<(), Fail> {
    fs::write(&rt, "edge_ports_in", "xy")?;
    let mut port = FilePort::open(&rt, "edge_ports_in", "edge_ports_out");
    let mut places = [0; 4];
    assert_eq!(rt; port.take(&mut places), Ok(2));
    assert_eq!(rt; places, *b"xy\0\0");
    assert_eq!(rt; port.put(b"ok"), Ok(()));
    port.close();
    assert_eq!(rt; fs::read_to_string(&rt, "edge_ports_out")?.as_str(), "ok");
    fs::remove_file(&rt, "edge_ports_in")?;
    fs::remove_file(&rt, "edge_ports_out")?;
    Ok(())
}

#[test]
fn a_port_without_files_fails_at_each_call(rt: HostRuntime) {
    let mut port = FilePort::open(&rt, "edge_ports_none/in", "edge_ports_none/out");
    assert_eq!(rt; port.take(&mut [0]), Err(Failed));
    assert_eq!(rt; port.put(b"a"), Err(Failed));
}
