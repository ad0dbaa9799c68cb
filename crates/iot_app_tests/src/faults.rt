//! Runs whose source or sink fails at each of their calls in turn: how they end, and what they have written by then.
use crate::fixtures::{Failing, NONE, ends, joined};
use std::test::Fail;

/// A transaction, and the server's tree.
const ONE: &[u8] =
    b"client laptop\nscript init {\nmkdir /src\nwrite /src/a \"one\\n\"\ncat /src/a\n}\nrun laptop init abort\nshow server\n";

/// A transaction whose verdict is lost, and comes when it is submitted again.
const TWO: &[u8] = b"client laptop\nclient desk\nscript init {\nmkdir /d\nwrite /d/n 1\n}\n\
    run laptop init abort\nhoard laptop /d\nhoard desk /d\nscript two {\nwrite /d/n 2\n}\n\
    begin laptop two abort\nstep laptop\nlose laptop reply\nend laptop\nconnect laptop\nsync laptop\n";

/// What the server's disk has before any commit: the header; the cell in force, with generation 1 and 2^63 + 43, which marks version 2 and
/// names the place 43; the other cell, closed; and at 43 a checkpoint with a body of 41 bytes, before and behind which there is no record:
/// the root, no labels, and the root's stamp.
const STARTED: &[u8] = b"\xa5IOTSLOT1\
    \xa5\0\0\0\0\0\0\0\x01\x80\0\0\0\0\0\0\x2b\
    \0\0\0\0\0\0\0\0\0\0\0\0\0\0\0\0\0\
    \0\0\0\0\0\0\0\x29\
    \0\0\0\0\0\0\0\x01\0\0\0\0\0\0\0\0\x01\
    \0\0\0\0\0\0\0\0\
    \0\0\0\0\0\0\0\x01\0\0\0\0\0\0\0\x01\
    \0\0\0\0\0\0\0\0\
    \0";

/// What no events leave.
const NOTHING: &[u8] = b"{\"clients\":[],\"commits\":[],\"server\":[[\"/\",\"dir\"]]}\n";

const USAGE: &[u8] = b"usage: iot [--json | --gen N | --save | --image | --upgrade | --audit]\n";

/// Words and an input, how often it is read, what is written by each call, and the status. An input is read until a read gives nothing.
const CASES: [(&[&str], &[u8], u64, &[&[u8]], u8); 5] = [
    (
        &[],
        ONE,
        2,
        &[
            b"client laptop\n",
            b"end laptop.1\ncommit 1 laptop.1 certified\n|one\nsettled laptop.1 1\n",
            b"dir /\ndir /src\nfile /src/a \"one\\n\"\n",
        ],
        0,
    ),
    (
        &[],
        TWO,
        2,
        &[
            b"client laptop\n",
            b"client desk\n",
            b"end laptop.1\ncommit 1 laptop.1 certified\nsettled laptop.1 1\n",
            b"hoard laptop /d\n",
            b"hoard desk /d\n",
            b"begin laptop.2 two first\n",
            b"step laptop.2 1 acts, at end\n",
            b"lose laptop reply\n",
            b"end laptop.2\ncommit 2 laptop.2 certified\naway\npending laptop.2\n",
            b"connect laptop\n",
            b"settled laptop.2 2\n",
        ],
        0,
    ),
    (&["--json"], b"", 1, &[NOTHING], 0),
    (&["--save"], b"", 1, &[STARTED], 0),
    (&["--frob"], ONE, 0, &[USAGE], 2),
];

#[test]
fn a_read_that_fails_ends_a_run(rt: HostRuntime) -> Result<(), Fail> {
    let alloc = rt.alloc();
    for (words, input, reads, texts, status) in CASES {
        for before in 0..reads {
            let failing = Failing {
                read: before.wrapping_add(1),
                ..NONE
            };
            ends(&rt, alloc, words, input, failing, 3, b"")?;
        }

        // No more reads are made.
        let failing = Failing {
            read: reads.wrapping_add(1),
            ..NONE
        };
        let whole = joined(alloc, texts)?;
        ends(&rt, alloc, words, input, failing, status, &whole)?;
    }
    Ok(())
}

#[test]
fn a_write_that_fails_or_takes_nothing_ends_a_run(rt: HostRuntime) -> Result<(), Fail> {
    let alloc = rt.alloc();
    for (words, input, _, texts, status) in CASES {
        for before in 0..texts.len() {
            let call = (before as u64).wrapping_add(1);
            let says = joined(alloc, &texts[..before])?;
            let fails = Failing {
                write: call,
                ..NONE
            };
            ends(&rt, alloc, words, input, fails, 4, &says)?;
            let empty = Failing {
                empty: call,
                ..NONE
            };
            ends(&rt, alloc, words, input, empty, 4, &says)?;
        }

        // No more writes are made.
        let call = (texts.len() as u64).wrapping_add(1);
        let failing = Failing {
            write: call,
            empty: call,
            ..NONE
        };
        let whole = joined(alloc, texts)?;
        ends(&rt, alloc, words, input, failing, status, &whole)?;
    }
    Ok(())
}

#[test]
fn a_sink_that_is_full_ends_a_run(rt: HostRuntime) -> Result<(), Fail> {
    let alloc = rt.alloc();
    for (words, input, _, texts, status) in CASES {
        let whole = joined(alloc, texts)?;
        for room in 0..whole.len() {
            ends(
                &rt,
                alloc,
                words,
                input,
                Failing { room, ..NONE },
                4,
                &whole[..room],
            )?;
        }
        let room = whole.len();
        ends(
            &rt,
            alloc,
            words,
            input,
            Failing { room, ..NONE },
            status,
            &whole,
        )?;
    }
    Ok(())
}
