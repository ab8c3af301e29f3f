//! The console's input files.
use std::fs::File;
use std::io::Read;
use std::{fs, io};

// One byte more than the longest text: enough to know that a file is too long.
const ENOUGH: usize = 16_385;

/// The bytes of a file, as many as it takes to know that it is too long. A file that cannot be opened has none.
pub fn read_text(rt: &HostRuntime, name: &str) -> io::Result<Vec<u8>> {
    match fs::open(rt, name) {
        Ok(mut file) => read_some(rt, &mut file),
        Err(_) => Ok(Vec::new(rt.alloc())),
    }
}

// At most `ENOUGH` bytes from where the file stands.
fn read_some(rt: &HostRuntime, file: &mut File) -> io::Result<Vec<u8>> {
    let mut text = Vec::new(rt.alloc());
    // at most so many reads, and fewer where the file ends
    for _ in 0..ENOUGH {
        let mut buffer = [0; 4096];
        let count = file.read(&mut buffer)?;
        if count == 0 || text.len() >= ENOUGH {
            break;
        }
        text.extend_from_slice(&buffer[0..count])?;
    }
    text.truncate(ENOUGH);
    Ok(text)
}
