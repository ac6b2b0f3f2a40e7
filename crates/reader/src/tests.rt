//! Files that read well, and one file for each refusal.
use crate::content::Letter;
use crate::fault::LoadFault;
use crate::load::load;
use std::test::Fail;

/// A fault's number and its line; want of memory has neither.
fn place(fault: LoadFault) -> Option<(u32, u32)> {
    match fault {
        LoadFault::Reading(at) => Some((at.fault.number(), at.line)),
        LoadFault::Chart(at) => Some((at.fault.number(), at.line)),
        LoadFault::Lock(at) => Some((at.fault.fault.number(), at.line)),
        LoadFault::NoMemory => None,
    }
}

/// How many exit lines are loaded, or where the fault is.
// Numbers, and not the cases of `LoadFault`: the numbers are the rules', and a test of cases would not see one go wrong.
fn exit_lines(rt: &HostRuntime, text: &[u8]) -> Result<u32, Option<(u32, u32)>> {
    load(rt.alloc(), text)
        .map(|loaded| loaded.exit_lines)
        .map_err(place)
}

#[test]
fn files(rt: HostRuntime) {
    assert_eq!(rt;
        exit_lines(
            &rt,
            b"3\nrun\nhold\nfeather\n4\n0 1 1 200\n0 2 2 50\n1 0 0 500\n1 2 0 300\n0\n2\n0 2 d 3\n0 2 f 3\n",
        ),
        Ok(4)
    );
    assert_eq!(rt;
        exit_lines(
            &rt,
            b"3\nrun\nhold\nfeather\n4\n0 1 1 200\n0 2 2 50\n1 0 0 500\n1 2 0 300\n0\n2\n0 2 d 3\n0 2 f 3",
        ),
        Err(Some((5, 13)))
    );
    assert_eq!(rt; exit_lines(&rt, &[48; 16385]), Err(Some((1, 0))));
    assert_eq!(rt; exit_lines(&rt, b"1\na\n1\n0 0 256 1\n"), Err(Some((2, 4))));
    assert_eq!(rt; exit_lines(&rt, b"65\n"), Err(Some((3, 1))));
    assert_eq!(rt; exit_lines(&rt, b"1\na\n1\n1 0 1 1\n"), Err(Some((4, 4))));
    assert_eq!(rt;
        exit_lines(&rt, b"1\na\n0\n0\n1\n0 0 d 1\n\n"),
        Err(Some((6, 7)))
    );
    assert_eq!(rt;
        exit_lines(&rt, b"1\na\n1\n0 1 0 1\n0\n1\n0 0 d 1\n"),
        Err(Some((12, 4)))
    );
    assert_eq!(rt;
        exit_lines(&rt, b"1\na\n0\n1\n0 0\n1\n0 0 d 1\n"),
        Err(Some((21, 5)))
    );
}

#[test]
fn texts(rt: HostRuntime) -> Result<(), Fail> {
    let heap = rt.alloc();
    for (file, want) in [
        ("65\n", "fault reading 3 line 1"),
        (
            "1\na\n1\n0 1 0 1\n0\n1\n0 0 d 1\n",
            "fault chart 12 entry 0 line 4",
        ),
        (
            "1\na\n0\n1\n0 0\n1\n0 0 d 1\n",
            "fault lock 21 lock 0 line 5",
        ),
    ] {
        let Err(fault) = load(heap, file.as_bytes()) else {
            return Err(Fail::new("a refused file is loaded"));
        };
        assert_eq!(rt; fault.to_string(heap)?.as_str(), want);
    }
    assert_eq!(rt;
        LoadFault::NoMemory.to_string(heap)?.as_str(),
        "out of memory"
    );
    assert_eq!(rt; Letter::FaultsFirst.to_string(heap)?.as_str(), "f");
    Ok(())
}
