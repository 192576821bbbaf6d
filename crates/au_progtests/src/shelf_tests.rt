//! Files read from shelves, in memory and on the host.
use au_io::{MemShelf, RealShelf, Shelf, StartFault};
use au_value::Word;
use std::alloc::{AllocError, Global};
use std::fs;
use std::process::Abort;
use std::test::Fail;

// What a file holds, read in pieces of two bytes, up to 16 of them; or a word for the fault.
fn read_all<S: Shelf>(alloc: Global, shelf: &mut S, path: &str) -> Result<String, AllocError> {
    match shelf.start(alloc, path) {
        Ok(()) => pieces(alloc, shelf),
        Err(StartFault::Absent) => String::from_str(alloc, "absent"),
        Err(StartFault::Failed) => String::from_str(alloc, "not started"),
        Err(StartFault::NoMemory) => String::from_str(alloc, "no memory"),
    }
}

fn pieces<S: Shelf>(alloc: Global, shelf: &mut S) -> Result<String, AllocError> {
    let mut text = String::new(alloc);
    for _ in 0..16 {
        let mut piece = [0; 2];
        match shelf.next(&mut piece) {
            Ok(0) => return Ok(text),
            Ok(n) => text.push_str(str::from_utf8(piece.get(..n).unwrap_or(&[])).unwrap_or("?"))?,
            Err(_) => return String::from_str(alloc, "not read"),
        }
    }
    Ok(text)
}

// Whether each file `PATH -> TEXT` has this text or fault.
fn judge<S: Shelf>(rt: &impl Abort, alloc: Global, shelf: &mut S, cases: &str) -> Result<(), Fail> {
    for case in cases.lines() {
        let (path, wanted) = case.split_once(" -> ").expect(rt, "an arrow");
        let found = read_all(alloc, shelf, path)?;
        assert_eq!(rt; found.as_str(), wanted, "{path}");
    }
    Ok(())
}

fn file(alloc: Global, path: &str, text: &str) -> Result<(Word, Vec<u8>), AllocError> {
    let bytes = text.as_bytes().to_vec(alloc)?;
    Ok((Word::new(String::from_str(alloc, path)?), bytes))
}

// Calls 0 to 4; call 5; calls 6 and 7; call 8, which fails; calls 9 and 10, which fails; and calls from 11 on.
const IN_MEMORY: &str = "a -> hello
none -> absent
empty -> 
a -> not started
a -> not read
a -> hello";

#[test]
fn files_in_memory(rt: HostRuntime) -> Result<(), Fail> {
    let alloc = rt.alloc();
    let mut files = Vec::new(alloc);
    files.push(file(alloc, "a", "hello")?)?;
    files.push(file(alloc, "empty", "")?)?;
    files.push(file(alloc, "a", "second")?)?;
    let mut shelf = MemShelf::new(alloc, files, [8, 10].to_vec(alloc)?);
    judge(&rt, alloc, &mut shelf, IN_MEMORY)
}

const ON_THE_HOST: &str = "au_shelf_test/a.csv -> hello
au_shelf_test/b.csv -> absent
au_shelf_test -> not read
au_shelf_test/a.csv/b -> not started";

#[test]
fn files_on_the_host(rt: HostRuntime) -> Result<(), Fail> {
    let folder = "au_shelf_test";
    let _ = fs::remove_dir_all(&rt, folder);
    fs::create_dir(&rt, folder)?;
    fs::write(&rt, "au_shelf_test/a.csv", b"hello".as_slice())?;
    let mut shelf = RealShelf::new(&rt);
    assert_eq!(rt; shelf.next(&mut [0; 2]), Ok(0), "no file is started");
    judge(&rt, rt.alloc(), &mut shelf, ON_THE_HOST)?;
    fs::remove_dir_all(&rt, folder)?;
    Ok(())
}
