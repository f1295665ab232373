use block_records::{Header, ITermRec, Record};
use odb_base::Kind;
use std::process::Abort;
use std::test::Fail;

#[test]
fn a_new_header_and_kinds(rt: HostRuntime) -> Result<(), Fail> {
    is_empty(&rt, Header::new(rt.alloc())?);
    let terminal = ITermRec {
        inst: 1,
        index: 0,
        net: 0,
    };
    assert_eq!(rt; Record::ITerm(terminal).kind(), Kind::ITerm);
    Ok(())
}

fn is_empty(rt: &impl Abort, header: Header) {
    assert!(rt; header.design.bytes().is_empty());
    assert!(rt; header.divider.bytes() == b"/".as_slice());
    assert!(rt; header.bus.bytes() == b"[]".as_slice());
    assert!(rt; header.vias.items().is_empty());
    drop(header);
}
