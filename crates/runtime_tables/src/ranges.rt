//! Address ranges at their borders.

use sgx_base::{ENCLAVE_END, ENCLAVE_START, HOST_START, host_range, mapped, outside, within};

const LAST: u64 = u64::MAX;

#[test]
fn outside_at_its_borders(rt: HostRuntime) {
    for (a, n, answer) in [
        (0, 0, true),
        (0, 1, true),
        (ENCLAVE_START - 1, 1, true),
        (ENCLAVE_START - 1, 2, false),
        (ENCLAVE_START, 0, false),
        (ENCLAVE_START, 1, false),
        (ENCLAVE_END - 1, 0, false),
        (ENCLAVE_END - 1, 1, false),
        (ENCLAVE_END, 0, true),
        (ENCLAVE_END, 1, true),
        (0, ENCLAVE_START, true),
        (0, LAST, false),
        (LAST, 0, true),
        (LAST, 1, true),
        (LAST, 2, false),
    ] {
        assert_eq!(rt; outside(a, n), answer);
    }
}

#[test]
fn mapped_at_its_borders(rt: HostRuntime) {
    for (a, n, answer) in [
        (HOST_START - 1, 0, true),
        (HOST_START - 1, 1, false),
        (HOST_START, 1, true),
        (HOST_START, 0x100, true),
        (HOST_START, 0x101, false),
        (HOST_START + 0xff, 1, true),
        (HOST_START + 0xff, 2, false),
        (HOST_START + 0x100, 0, true),
        (HOST_START + 0x100, 1, false),
        (LAST, 1, false),
        (LAST, LAST, false),
    ] {
        assert_eq!(rt; mapped(0x100, a, n), answer);
    }
    assert!(rt; !host_range(0x100, ENCLAVE_START, 0));
}

#[test]
fn within_at_its_borders(rt: HostRuntime) {
    for (a, n, answer) in [
        (0x1fff, 0, false),
        (0x1fff, 1, false),
        (0x2000, 0, true),
        (0x2000, 0x10, true),
        (0x2000, 0x11, false),
        (0x200f, 1, true),
        (0x2010, 0, false),
        (LAST, 2, false),
    ] {
        assert_eq!(rt; within(0x2000, 0x10, a, n), answer);
    }
    assert!(rt; within(LAST, LAST, LAST, 1));
    assert!(rt; !within(LAST, LAST, LAST, 2));
}
