//! The descriptors of standard input, output and error, where they were closed before the program
//! began.
use std::fs::{File, OpenOptions};
use std::io;
use std::os::fd::{AsRawFd, RawFd};

/// The device that takes everything and gives nothing.
const NULL: &str = "/dev/null";

const OUTPUT: RawFd = 1;

const ERRORS: RawFd = 2;

// What takes the lowest number that is free. It is opened for writing, so that standard input can't
// be read. Where there is no such device, a directory takes the number.
fn lowest(rt: &HostRuntime) -> io::Result<File> {
    match OpenOptions::new().write(true).open(rt, NULL) {
        Ok(file) => Ok(file),
        Err(_) => File::open(rt, "/"),
    }
}

// What takes the number of standard output: it can't be written.
fn unwritten(rt: &HostRuntime) -> io::Result<File> {
    match File::open(rt, NULL) {
        Ok(file) => Ok(file),
        Err(_) => File::open(rt, "/"),
    }
}

// Takes the lowest number that is free, if it is a standard one.
fn take_one(rt: &HostRuntime) -> Option<File> {
    let file = lowest(rt).ok()?;
    let number = file.as_raw_fd();
    if number > ERRORS {
        return None;
    }
    if number != OUTPUT {
        return Some(file);
    }
    drop(file);
    unwritten(rt).ok()
}

/// Takes the numbers of the standard descriptors that are closed, so that no file that is opened
/// later has one of them. As long as what is given is held, reading such an input fails, and so
/// does writing to such an output; what would be said on such a standard error is lost.
pub(crate) fn take_closed(rt: &HostRuntime) -> [Option<File>; 3] {
    let first = take_one(rt);
    if first.is_none() {
        return [None, None, None];
    }
    let second = take_one(rt);
    if second.is_none() {
        return [first, None, None];
    }
    [first, second, take_one(rt)]
}
