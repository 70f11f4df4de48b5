// Files of data/.
ghost use Rattle.known_report.specs.Counts.{IsPrefixLen};

use std::fs;
use std::io::Read;
use std::rt::Files;

// Opens the file. Where that fails, standard error says why. The path is bytes, as `read` takes any.
fn open<R: Files + Eprint>(rt: &R, path: &[u8]) -> Option<R::File> {
    let Ok(name) = str::from_utf8(path) else {
        let _ = eprintln!(rt; "{path:?}: a path is text");
        return None;
    };
    match fs::open(rt, name) {
        Ok(file) => Some(file),
        Err(e) => {
            let _ = eprintln!(rt; "{name}: {e}");
            None
        }
    }
}

// Reads until the buffer is full, the file ends or a read fails, and answers how many bytes.
fn read_full(file: &mut impl Read, buffer: &mut [u8]) -> usize
    ensures { IsPrefixLen result buffer.new }
{
    let mut done: usize = 0;
    // A while: each step is as long as what was read. std's `read_exact` does not say how much it read before the end.
    while done < buffer.len() {
        let n = file.read(&mut buffer[done..]).unwrap_or(0);
        if n == 0 {
            break;
        }
        done += n;
    }
    done
}

// Reads into the buffer and closes the file.
fn read_open(mut file: impl Read + Drop, buffer: &mut [u8]) -> usize
    ensures { IsPrefixLen result buffer.new }
{
    read_full(&mut file, buffer)
}

// Reads the file into the buffer, and answers how many bytes; 0 where it cannot be opened.
pub fn read<R: Files + Eprint>(rt: &R, path: &[u8], buffer: &mut [u8]) -> usize
    ensures { IsPrefixLen result buffer.new }
{
    let Some(file) = open(rt, path) else {
        return 0;
    };
    read_open(file, buffer)
}
