//! The files of the system.
ghost use Rattle.std.specs.Prelude.{◌≡◌, ◌≤◌, IfOk, None, length};

use crate::counting::counted;
use lsl_ports::{Failed, Shelf};
use std::fs::File;
use std::io::{ErrorKind, Read, Seek, SeekFrom};
use std::rt::Files;
use std::{fs, io};

/// The regular files of the system, by their paths.
///
/// A device or a pipe may have no end, so it is a fault. The shelf keeps and reports no contents, and its one count of
/// faults is for every name.
#[derive(Drop)]
pub struct FileShelf<'a, R: Files> {
    files: &'a R,
    faults: u64,
}

impl<'a, R: Files> FileShelf<'a, R> {
    pub fn new(files: &'a R) -> FileShelf<'a, R>
        ensures { result.faults ≡ 0 }
    {
        FileShelf { files, faults: 0 }
    }
}

impl<R: Files> Shelf for FileShelf<'_, R> {
    ghost held = { λ _. None };

    ghost faults = { λ shelf _. shelf.faults };

    fn read(&mut self, name: &str, place: u64, piece: &mut [u8]) -> Result<usize, Failed> {
        counted(read_at(self.files, name, place, piece), &mut self.faults)
    }
}

fn read_at<R: Files>(files: &R, name: &str, place: u64, piece: &mut [u8]) -> io::Result<usize>
    ensures { IfOk result (λ count. count ≤ length piece.new) }
{
    if !fs::metadata(files, name)?.is_file() {
        return Err(io::Error::from(ErrorKind::InvalidInput));
    }
    let mut file = File::open(files, name)?;
    file.seek(SeekFrom::Start(place))?;
    file.read(piece)
}

#[cfg(test)]
mod tests {
    use super::*;
    use std::test::Fail;
    use std::{env, process};

    #[test]
    fn reads_a_file_that_it_wrote(rt: HostRuntime) -> Result<(), Fail> {
        let process = process::id(rt.process());
        let name = format!(in rt.alloc(); "lsl_file_shelf_{process}")?;
        let path = env::temp_dir(&rt)?.join(rt.alloc(), name.as_str())?;
        fs::write(&rt, path.as_str(), b"abcdef".as_slice())?;
        let mut shelf = FileShelf::new(&rt);
        let mut piece = [0u8; 3];
        assert_eq!(rt; shelf.read(path.as_str(), 2, &mut piece), Ok(3));
        assert_eq!(rt; piece.as_slice(), b"cde".as_slice());
        assert_eq!(rt; shelf.read(path.as_str(), 6, &mut piece), Ok(0));
        assert_eq!(rt; shelf.read("/dev/zero", 0, &mut piece), Err(Failed));
        fs::remove_file(&rt, path.as_str())?;
        assert_eq!(rt; shelf.read(path.as_str(), 0, &mut piece), Err(Failed));
        assert_eq!(rt; shelf.faults, 2);
        Ok(())
    }
}
