use st_base::Text;
use st_outside::{FetchFault, Files, MemoryFiles, StdFiles};
use std::alloc::Global;
use std::process::{self, Abort};
use std::test::Fail;
use std::{fs, rt};

/// A name, and the result of its fetch, as a length.
pub type Fetch<'a> = (&'a [u8], Result<usize, FetchFault>);

/// Bytes that are all one letter.
pub fn repeated(alloc: Global, len: usize) -> Result<Vec<u8>, Fail> {
    Ok(vec![in alloc; b'x'; len]?)
}

// The result of a fetch, as a length.
fn fetched_len<F: Files>(
    files: &mut F,
    alloc: Global,
    name: &[u8],
) -> Result<Result<usize, FetchFault>, Fail> {
    let name = Text::of(alloc, name)?;
    Ok(match files.fetch(alloc, &name) {
        Ok(text) => Ok(text.bytes().len()),
        Err(fault) => Err(fault),
    })
}

/// Makes a fetch, and compares its result.
pub fn fetch_one(
    rt: &(impl Abort + AllocGlobal),
    files: &mut impl Files,
    name: &[u8],
    gives: Result<usize, FetchFault>,
) -> Result<(), Fail> {
    let got = fetched_len(files, rt.alloc(), name)?;
    assert_eq!(rt; got, gives);
    Ok(())
}

// Makes these fetches in order.
fn fetch_all(
    rt: &(impl Abort + AllocGlobal),
    files: &mut impl Files,
    fetches: &[Fetch<'_>],
) -> Result<(), Fail> {
    for (name, gives) in fetches {
        fetch_one(rt, files, name, *gives)?;
    }
    Ok(())
}

// Makes a fetch, and compares the text that it gives.
fn fetch_text(
    rt: &(impl Abort + AllocGlobal),
    files: &mut impl Files,
    name: &[u8],
    content: &[u8],
) -> Result<(), Fail> {
    let name = Text::of(rt.alloc(), name)?;
    let text = files.fetch(rt.alloc(), &name)?;
    assert!(rt; text.bytes() == content);
    Ok(())
}

// Adds a file.
fn add(files: &mut MemoryFiles, alloc: Global, name: &[u8], content: &[u8]) -> Result<(), Fail> {
    let name = Text::of(alloc, name)?;
    Ok(files.add(name, Text::of(alloc, content)?)?)
}

// Adds a file of this length.
fn add_long(files: &mut MemoryFiles, alloc: Global, name: &[u8], len: usize) -> Result<(), Fail> {
    let bytes = repeated(alloc, len)?;
    add(files, alloc, name, &bytes)
}

// Adds a file twice, one as long as the limit of a fetch, and one that is longer.
fn fill(files: &mut MemoryFiles, alloc: Global) -> Result<(), Fail> {
    add(files, alloc, b"name", b"earlier")?;
    add_long(files, alloc, b"limit", 1_048_576)?;
    add_long(files, alloc, b"more", 1_048_577)?;
    add(files, alloc, b"name", b"content")
}

// The second and the sixth fetch fail.
const FROM_MEMORY: [Fetch<'static>; 6] = [
    (b"name", Ok(7)),
    (b"name", Err(FetchFault::Failed)),
    (b"names", Err(FetchFault::Missing)),
    (b"limit", Ok(1_048_576)),
    (b"more", Err(FetchFault::TooLong)),
    (b"more", Err(FetchFault::Failed)),
];

#[test]
fn fetches_from_memory(rt: HostRuntime) -> Result<(), Fail> {
    let mut files = MemoryFiles::new(rt.alloc());
    fill(&mut files, rt.alloc())?;
    files.fail_at(2)?;
    files.fail_at(6)?;
    fetch_all(&rt, &mut files, &FROM_MEMORY)?;
    fetch_text(&rt, &mut files, b"name", b"content")?;
    assert_eq!(rt; files.faults(), 2);
    Ok(())
}

// The name of a file of this process.
fn path_of(rt: &HostRuntime) -> Result<String, Fail> {
    Ok(format!(in rt.alloc(); "/tmp/st_outside_{}", process::id(rt.process()))?)
}

// Writes a file of this length, and fetches it.
fn fetch_written(
    rt: &(impl Abort + AllocGlobal + rt::Files),
    path: &str,
    len: usize,
    gives: Result<usize, FetchFault>,
) -> Result<(), Fail> {
    let bytes = repeated(rt.alloc(), len)?;
    fs::write(rt, path, bytes.as_slice())?;
    fetch_one(rt, &mut StdFiles::new(rt), path.as_bytes(), gives)
}

// Fetches files that were written, then one that was removed.
fn fetch_until_it_is_removed(
    rt: &(impl Abort + AllocGlobal + rt::Files),
    path: &str,
) -> Result<(), Fail> {
    fetch_written(rt, path, 1_048_576, Ok(1_048_576))?;
    fetch_written(rt, path, 1_048_577, Err(FetchFault::TooLong))?;
    fs::write(rt, path, b"a line\nand more".as_slice())?;
    let mut files = StdFiles::new(rt);
    fetch_text(rt, &mut files, path.as_bytes(), b"a line\nand more")?;
    fs::remove_file(rt, path)?;
    fetch_one(rt, &mut files, path.as_bytes(), Err(FetchFault::Missing))
}

#[test]
fn fetches_from_the_host(rt: HostRuntime) -> Result<(), Fail> {
    let path = path_of(&rt)?;
    fetch_until_it_is_removed(&rt, &path)
}

// A directory, a name that isn't UTF-8, a name through a file, and a file whose reading is refused.
const FAILING: [Fetch<'static>; 4] = [
    (b"/tmp", Err(FetchFault::Failed)),
    (b"/tmp/\xff", Err(FetchFault::Failed)),
    (b"/etc/passwd/x", Err(FetchFault::Failed)),
    (b"/proc/self/mem", Err(FetchFault::Failed)),
];

// Fetches a name whose opening the host refuses.
fn fetch_long_name(rt: &(impl Abort + AllocGlobal), files: &mut impl Files) -> Result<(), Fail> {
    let name = repeated(rt.alloc(), 256)?;
    fetch_one(rt, files, &name, Err(FetchFault::Failed))
}

// Makes fetches that the host fails.
fn count_faults(rt: &(impl Abort + AllocGlobal + rt::Files)) -> Result<(), Fail> {
    let mut files = StdFiles::new(rt);
    fetch_all(rt, &mut files, &FAILING)?;
    fetch_long_name(rt, &mut files)?;
    assert_eq!(rt; files.faults(), 5);
    Ok(())
}

#[test]
fn counts_faults_of_the_host(rt: HostRuntime) -> Result<(), Fail> {
    count_faults(&rt)
}
