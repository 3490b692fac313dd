// The two hosts, each called for its answers and its faults.
use crate::holds;
use std::alloc::Global;
use std::fs;
use std::os::unix::fs::symlink;
use std::process::Abort;
use zs_host::{Host, HostFault, MemHost, RealHost};

// A file, the most bytes that are read of it, and these bytes or why they are not read.
type Reading = (&'static str, usize, &'static [u8], Option<HostFault>);

fn reads<H: Host, R: Abort>(rt: &R, alloc: Global, host: &mut H, rows: &[Reading]) {
    for (name, limit, bytes, fault) in rows {
        let is_read = match host.read_whole(alloc, name, *limit) {
            Ok(found) => fault.is_none() & (found.as_slice() == *bytes),
            Err(why) => Some(why) == *fault,
        };
        holds(rt, name, is_read);
    }
}

// The second of these calls fails.
static IN_MEMORY: [Reading; 3] = [
    ("a", 2, b"", Some(HostFault::TooLong)),
    ("a", 3, b"", Some(HostFault::Failed)),
    ("a", 3, b"123", None),
];

#[test]
fn memory(rt: HostRuntime) {
    let alloc = rt.alloc();
    let mut host = MemHost::new(alloc);
    host.put_file("a", b"123").expect(&rt, "a");
    host.write_whole(alloc, "b", b"67").expect(&rt, "b");
    host.print(alloc, b"8").expect(&rt, "8");
    host.print(alloc, b"9").expect(&rt, "9");
    host.fail_call(2).expect(&rt, "2");
    reads(&rt, alloc, &mut host, &IN_MEMORY);
    let left = host.file("b") == Some(b"67".as_slice());
    let printed = host.printed() == b"89".as_slice();
    holds(&rt, "left", left & printed & (host.faults() == 1));
}

// The long file, a link to it, and the first name that is tried for a new file.
const NAMES: [&str; 3] = ["zs_host_test.bin", "zs_host_test.link", ".image_tool-0"];

// There is no such file, one is too long, and a folder can be opened but not read.
static READINGS: [Reading; 5] = [
    ("zs_host_none.bin", 9, b"", Some(HostFault::Missing)),
    ("zs_host_test.bin", 2, b"", Some(HostFault::TooLong)),
    (".", 9, b"", Some(HostFault::Failed)),
    ("zs_host_test.bin", 3, b"abc", None),
    (".image_tool-0", 4, b"mine", None),
];

// Neither a file in a folder that does not exist nor a folder can be written.
static WRITINGS: [(&str, bool); 3] = [
    ("zs_host_test.link", true),
    ("no_folder/a", false),
    (".", false),
];

fn carries_out<H: Host, R: Abort>(rt: &R, alloc: Global, host: &mut H) {
    for (name, is_written) in WRITINGS.iter() {
        let ended = host.write_whole(alloc, name, b"abc").is_ok();
        holds(rt, name, ended == *is_written);
    }
    reads(rt, alloc, host, &READINGS);
    host.print(alloc, b"printed\n").expect(rt, "printed");
    holds(rt, "three faults", host.faults() == 3);
}

#[test]
fn real_files(rt: HostRuntime) {
    let alloc = rt.alloc();
    for name in NAMES.iter() {
        let _ = fs::remove_file(&rt, name);
    }
    fs::write(&rt, ".image_tool-0", "mine").expect(&rt, "mine");
    let mut host = RealHost::new(&rt);
    let written = host
        .write_whole(alloc, "zs_host_test.bin", &[7; 10000])
        .is_ok();
    let long = host
        .read_whole(alloc, "zs_host_test.bin", 10000)
        .expect(&rt, "long");
    holds(&rt, "long", written & (long.len() == 10000));
    symlink(&rt, "zs_host_test.bin", "zs_host_test.link").expect(&rt, "link");
    carries_out(&rt, alloc, &mut host);
    for name in NAMES.iter() {
        fs::remove_file(&rt, name).expect(&rt, name);
    }
}
