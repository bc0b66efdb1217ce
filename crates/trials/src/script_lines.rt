//! Lines of a script and of its answers.
use calls::call::{Call, Protocol};
use calls::outcome::{Delivered, Outcome};
use calls::refusal::Refusal;
use script::output::OutputLine;
use script::reader::Reader;
use std::test::Fail;

#[test]
fn lines_are_calls(rt: HostRuntime) {
    let mut reader = Reader::new(
        b"N 2 S\nN 16 W\nL 0 1 2\nS 0 1 0000000007 4294967295\nA 1 2 3 4\nX 5 6 7 8\nV 3\nD 3\nT\nE 9\nK 4 9\n",
    );
    for call in [
        Call::Start {
            cores: 2,
            protocol: Protocol::Strong,
        },
        Call::Start {
            cores: 16,
            protocol: Protocol::Weak,
        },
        Call::Load {
            core: 0,
            wave: 1,
            address: 2,
        },
        Call::Store {
            core: 0,
            wave: 1,
            address: 7,
            value: 4294967295,
        },
        Call::Add {
            core: 1,
            wave: 2,
            address: 3,
            value: 4,
        },
        Call::Exchange {
            core: 5,
            wave: 6,
            address: 7,
            value: 8,
        },
        Call::Serve { core: 3 },
        Call::Deliver { core: 3 },
        Call::Tick,
        Call::Evict { address: 9 },
        Call::Forget {
            core: 4,
            address: 9,
        },
    ] {
        assert_eq!(rt; reader.next(), Some(Ok(call)));
    }
    assert_eq!(rt; reader.next(), None);
}

#[test]
fn some_lines_are_no_calls(rt: HostRuntime) {
    let mut reader = Reader::new(
        b"V 4294967296\nV 00000000007\nV \nV  3\nV 3 \n V 3\nV\t3\nT\r\nT\0\nt\nV\nV 3 3\nL 0 1\nN 2 X\n\nT",
    );
    for _ in 0..16 {
        assert_eq!(rt; reader.next(), Some(Err(Refusal::NotACall)));
    }
    assert_eq!(rt; reader.next(), None);
    assert_eq!(rt; Reader::new(b"").next(), None);
}

#[test]
fn a_script_ends_after_the_bytes_that_are_read(rt: HostRuntime) {
    let input = [b'\n'; 65537];
    let mut reader = Reader::new(&input);
    for _ in 0..65536 {
        assert_eq!(rt; reader.next(), Some(Err(Refusal::NotACall)));
    }
    assert_eq!(rt; reader.next(), None);
}

#[test]
fn answers_are_lines(rt: HostRuntime) -> Result<(), Fail> {
    let (wave, address, value, block) = (9, 5, 7, 1);
    let mut out = Vec::new(rt.alloc());
    let outcomes = [
        Outcome::Started,
        Outcome::Sent,
        Outcome::Served,
        Outcome::Hit { address, value: 0 },
        Outcome::Delivered(Delivered::Load {
            wave,
            address,
            value,
        }),
        Outcome::Refused(Refusal::LeaseRuns),
        Outcome::Delivered(Delivered::Store { wave, address }),
        Outcome::Delivered(Delivered::Atomic {
            wave,
            address,
            value,
        }),
        Outcome::Delivered(Delivered::Fault {
            wave,
            address,
            block,
        }),
        Outcome::Ticked(4294967295),
        Outcome::Refused(Refusal::Unreadable { block, address }),
    ];
    let mut line = OutputLine::new();
    for (number, outcome) in (1..).zip(outcomes) {
        line.set(number, outcome);
        out.extend_from_slice(line.as_bytes())?;
    }
    assert_eq!(rt;
        out.as_slice(),
        b"1 started\n2 sent\n3 served\n4 load 5 0\n5 load 5 7\n6 refused 7 lease still runs\n7 store 5\n8 atomic 5 7\n9 fault 5 1\n10 tick 4294967295\n11 refused 11 word unreadable\n".as_slice()
    );
    Ok(())
}

#[test]
fn outcomes_tell_their_causes(rt: HostRuntime) {
    let (wave, address, block) = (9, 5, 1);
    let fault = Outcome::Delivered(Delivered::Fault {
        wave,
        address,
        block,
    });
    assert_eq!(rt; fault.cause(), Some(Refusal::Unreadable { block, address }));
    assert_eq!(rt;
        Outcome::Refused(Refusal::LeaseRuns).cause(),
        Some(Refusal::LeaseRuns)
    );
    assert_eq!(rt;
        Outcome::Delivered(Delivered::Store { wave, address }).cause(),
        None
    );
    assert_eq!(rt; Outcome::Sent.cause(), None);
}
