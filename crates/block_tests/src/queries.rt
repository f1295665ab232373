use block_store::Database;
use odb_base::{Kind, Text};
use reports::{Query, ReportFault, report};
use std::alloc::Global;
use std::process::Abort;
use std::test::Fail;

// The database without objects answers `wanted`, behind what stood in the reply before.
fn answers(rt: &impl Abort, alloc: Global, query: Query, wanted: &[u8]) -> Result<(), Fail> {
    let mut out = vec![in alloc; b'>']?;
    let db = Database::new(alloc, 16)?;
    let answer = report(&db, &query, &mut out);
    drop(db);
    assert!(rt; answer.is_ok());
    assert!(rt; out.as_slice() == wanted);
    Ok(())
}

#[test]
fn queries_of_an_empty_database(rt: HostRuntime) -> Result<(), Fail> {
    let alloc = rt.alloc();
    let kind = Kind::Net;
    let name = Text::new(alloc, b"a")?;
    answers(&rt, alloc, Query::Find { kind, name }, b">ok 0\n")?;
    answers(&rt, alloc, Query::List { kind: Kind::Inst }, b">ok 0\n")?;
    answers(&rt, alloc, Query::Free { kind }, b">ok 0 0\n")?;
    let counts = b">ok 0 0 0 0 0 0 0 0 0 0 0 0\n";
    answers(&rt, alloc, Query::Counts, counts)
}

#[test]
fn terminals_of_a_net_that_is_not_there(rt: HostRuntime) -> Result<(), Fail> {
    let alloc = rt.alloc();
    let mut out = Vec::new(alloc);
    let db = Database::new(alloc, 16)?;
    let answer = report(&db, &Query::Terms { net: 3 }, &mut out);
    drop(db);
    let fault = ReportFault::NotLive {
        kind: Kind::Net,
        id: 3,
    };
    assert_eq!(rt; answer.err(), Some(fault));
    Ok(())
}
