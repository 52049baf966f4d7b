// The front of an input, and how many bytes the input has.
#![tactic(auto)]

ghost use Rattle.std.specs.Prelude.{◌≤◌, ◌≡◌, length, IfSome};
ghost use Rattle.io.specs.Counts.{IsPrefixLen};
ghost use Rattle.files.specs.Count.{read_on, Counted};

use std::env::{Env, FillError};
use std::fs::File;
use std::os::fd::AsRawFd;

// A read that begins past so many bytes is taken for the end.
const MOST_COUNTED: usize = 65536 * 1_000_000_000_000;

// How many bytes of an input were kept, how many were read in all, and whether its end was met.
// Kept with a flag: the counts are those of the reads so far, whether or not the end was met.
#[derive(Clone, Copy)]
pub struct Front {
    pub kept: usize,
    pub total: usize,
    pub ended: bool,
}

// The front of an input after one read more, which gave n bytes. A read that gives none is the end of the input.
#[tactic(auto, unfolding(crate::specs::Count::read_on))]
pub fn read_on(f: Front, n: usize) -> Front
    requires { n ≤ 65536 }
    ensures { result ≡ read_on f n }
{
    if n == 0 || MOST_COUNTED < f.total {
        Front { ended: true, ..f }
    } else {
        Front {
            total: f.total + n,
            ended: false,
            ..f
        }
    }
}

// Puts the front of an open file into buf, and reads the rest to count it.
pub fn read_open(fd: i32, buf: &mut [u8]) -> Front
    requires { length buf.old ≤ 65537 }
    ensures { (IsPrefixLen result.kept buf.new) × (Counted result) }
{
    let n = io::read_full(fd, &mut *buf);
    let mut space = io::large_buffer();
    let mut f = Front {
        kept: n,
        total: n,
        ended: false,
    };
    while !f.ended {
        f = read_on(f, io::read_full(fd, &mut space));
    }
    f
}

// What is read of a file that cannot be opened.
fn no_bytes() -> Front
    ensures { (result.kept ≡ 0) × (Counted result) }
{
    Front {
        kept: 0,
        total: 0,
        ended: true,
    }
}

// Puts the front of the file named `path` into buf, and reads the rest to count it. A file that cannot be opened reads as no bytes, as does one whose
// name is not UTF-8.
pub fn read_file(rt: &HostRuntime, path: &[u8], buf: &mut [u8]) -> Front
    requires { length buf.old ≤ 65537 }
    ensures { (IsPrefixLen result.kept buf.new) × (Counted result) }
{
    let Ok(name) = str::from_utf8(path) else {
        return no_bytes();
    };
    match File::open(rt, name) {
        Ok(file) => read_open(file.as_raw_fd(), buf),
        Err(_) => no_bytes(),
    }
}

// Puts argument k of the program at the front of the buffer and returns its length; none where there is no such argument. One that does not fit is taken
// for the empty argument.
pub fn argument(rt: &HostRuntime, k: usize, buf: &mut [u8]) -> Option<usize>
    ensures { IfSome result (λ n. IsPrefixLen n buf.new) }
{
    match rt.arg(k, buf) {
        Ok(n) => Some(n),
        Err(FillError::TooLong) => Some(0),
        Err(FillError::NotPresent) => None,
    }
}
