// Where shelves and sinks fail, and that real files and standard output are reached.
use super::*;
use std::alloc::Global;
use std::fs;
use std::test::Fail;

fn named(alloc: Global, name: &str, content: &str) -> Result<(String, Vec<u8>), Fail> {
    Ok((
        String::from_str(alloc, name)?,
        content.as_bytes().to_vec(alloc)?,
    ))
}

// Load 2 and put 1 fail. Each line is the next call, and what it answers.
#[test]
fn memory_fails_where_told(rt: HostRuntime) -> Result<(), Fail> {
    let alloc = rt.alloc();
    let files = vec![in alloc;
        named(alloc, "two.dyn", "DYN 1")?,
        named(alloc, "pd.nfg", "NFG 1 R")?,
        named(alloc, "pd.nfg", "another")?,
    ]?;
    let mut shelf = MemShelf::new(files, vec![in alloc; 2u64]?);
    let loads = [
        ("two.dyn", 5, Ok("DYN 1")),
        ("pd.nfg", 7, Ok("NFG 1 R")),
        ("pd.nfg", 7, Err(ShelfFault::Failed)),
        ("pd.nfg", 6, Err(ShelfFault::TooLong)),
        ("nil.nfg", 7, Err(ShelfFault::Failed)),
        ("pd.nfg", 7, Ok("NFG 1 R")),
    ];
    for (name, most, wanted) in loads {
        match (shelf.load(alloc, name, most), wanted) {
            (Ok(content), Ok(text)) => assert_eq!(rt; content.as_slice(), text.as_bytes()),
            (Err(fault), Err(wanted)) => assert_eq!(rt; fault, wanted, "{name} within {most}"),
            _ => assert!(rt; false, "{name} within {most}"),
        }
    }

    let mut sink = MemSink::new(alloc, 10, vec![in alloc; 1u64]?)?;
    let text = b"payoff 1\nsettled\n";
    for (piece, wanted) in [
        (&text[..], Ok(10)),
        (&text[10..], Err(SinkFault::Failed)),
        (&text[10..], Ok(7)),
        (&text[17..], Ok(0)),
    ] {
        assert_eq!(rt; sink.put(piece), wanted);
    }
    assert_eq!(rt; sink.taken(), text.as_slice());
    Ok(())
}

#[test]
fn real_files_are_loaded(rt: HostRuntime) -> Result<(), Fail> {
    let alloc = rt.alloc();
    fs::write(&rt, "pd.nfg", "NFG 1 R")?;
    let mut shelf = FileShelf::new(&rt);
    for most in [7, 8, usize::MAX] {
        let content = shelf.load(alloc, "pd.nfg", most)?;
        assert_eq!(rt; content.as_slice(), b"NFG 1 R".as_slice());
    }
    fs::write(&rt, "empty.nfg", "")?;
    for most in [0, 7] {
        assert!(rt; shelf.load(alloc, "empty.nfg", most)?.is_empty());
    }
    for (name, most, fault) in [
        ("pd.nfg", 6, ShelfFault::TooLong),
        ("pd.nfg", 0, ShelfFault::TooLong),
        ("nil.nfg", 7, ShelfFault::Failed),
    ] {
        assert_eq!(rt;
            shelf.load(alloc, name, most).err(),
            Some(fault),
            "{name} within {most}"
        );
    }
    Ok(())
}

#[test]
fn standard_output_is_written(rt: HostRuntime) {
    let mut sink = StdSink::new(&rt);
    assert_eq!(rt; sink.put(b"payoff 1\n"), Ok(9));
    assert_eq!(rt; sink.put(b""), Ok(0));
}
