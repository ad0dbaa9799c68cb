//! Runs with words, on a disk and a source that fail.
use crate::fixtures::{Failing, NONE, ends, ran};
use std::test::Fail;

/// What is counted in the run of the text that is generated from 0.
const COUNTED: &[u8] = b"commits 1405\nconflicts 531\npending 663\nrows 10\n";

#[test]
fn a_disk_that_cannot_be_read_is_not_saved(rt: HostRuntime) -> Result<(), Fail> {
    // Its start makes eight device calls. The one after them is the read of what is saved, which fails too if the start did.
    for (device, status) in [(8, 6), (9, 6), (10, 0)] {
        let failing = Failing { device, ..NONE };
        let (ended, written) = ran(rt.alloc(), b"", &["--save"], failing)?;
        assert_eq!(rt; ended.status, status);
        assert_eq!(rt; written.is_empty(), status != 0);
    }
    Ok(())
}

#[test]
fn a_generated_run_is_summed_up_and_reads_nothing(rt: HostRuntime) -> Result<(), Fail> {
    for words in [["--gen", "0"], ["--gen=0", "--"]] {
        let failing = Failing { read: 1, ..NONE };
        ends(&rt, rt.alloc(), &words, b"no event", failing, 0, COUNTED)?;
    }
    Ok(())
}
