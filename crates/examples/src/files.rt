// Files by name.
ghost use Rattle.io.specs.Counts.{IsPrefixLen};

use std::fs::File;
use std::os::fd::AsRawFd;

// Reads a file into buf and answers how many bytes it has, 0 for one that cannot be opened.
pub fn read_file(rt: &HostRuntime, path: &[u8], buf: &mut [u8]) -> usize
    ensures { IsPrefixLen result buf.new }
{
    let Ok(name) = str::from_utf8(path) else {
        return 0;
    };
    match File::open(rt, name) {
        Ok(file) => io::read_full(file.as_raw_fd(), buf),
        Err(_) => 0,
    }
}
