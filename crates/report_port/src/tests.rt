// What no clause says: that texts go out, in pages, and that a fault is told at the end.
use crate::Report;
use fault_ports::MemSink;
use net_types::List;
use std::test::Fail;

// A piece of which two don't fit a page.
fn long_piece() -> [u8; 5000] {
    [b'.'; 5000]
}

#[test]
fn a_text_goes_out_at_its_end(rt: HostRuntime) -> Result<(), Fail> {
    let mut sink = MemSink::new(rt.alloc(), 4096, List::new(rt.alloc()), 64)?;
    let mut report = Report::new(&mut sink);
    report.add(b"Steps ");
    report.add(b"1440\n");
    assert!(rt; !report.has_failed());
    assert!(rt; report.end().is_ok());
    drop(report);
    assert_eq!(rt; sink.held(), b"Steps 1440\n".as_slice());
    Ok(())
}

#[test]
fn a_page_goes_out_where_it_is_full(rt: HostRuntime) -> Result<(), Fail> {
    let mut fails = List::new(rt.alloc());
    fails.push(2)?;
    let mut sink = MemSink::new(rt.alloc(), 65_536, fails, 65_536)?;
    let mut report = Report::new(&mut sink);
    report.add(&long_piece());
    report.add(&long_piece());
    assert!(rt; !report.has_failed());
    assert!(rt; report.end().is_err());
    drop(report);
    assert_eq!(rt; sink.held().len(), 5000);
    Ok(())
}

#[test]
fn after_a_fault_the_sink_is_left_alone(rt: HostRuntime) -> Result<(), Fail> {
    let mut fails = List::new(rt.alloc());
    fails.push(1)?;
    let mut sink = MemSink::new(rt.alloc(), 65_536, fails, 65_536)?;
    let mut report = Report::new(&mut sink);
    report.add(&long_piece());
    report.add(&long_piece());
    assert!(rt; report.has_failed());
    report.add(&long_piece());
    assert!(rt; report.end().is_err());
    drop(report);
    assert_eq!(rt; sink.held().len(), 0);
    Ok(())
}
