use crate::files::{Fetch, fetch_one, repeated};
use st_outside::{FetchFault, StdFiles, Unread};
use std::process::{self, Abort};
use std::test::Fail;
use std::{fs, rt};

// What a name of the folder is made to be: a file of this length, a folder, or a link to this text.
enum Made {
    File(usize),
    Folder,
    Link(&'static str),
}

const FOLDER: [(&str, Made); 10] = [
    ("empty", Made::File(0)),
    ("byte", Made::File(1)),
    ("buffer", Made::File(4096)),
    ("more", Made::File(4097)),
    ("limit", Made::File(1_048_576)),
    ("over", Made::File(1_048_577)),
    ("folder", Made::Folder),
    ("link", Made::Link("more")),
    ("nowhere", Made::Link("nothing")),
    ("circle", Made::Link("circle")),
];

// Each name with the result of its fetch.
const FETCHES: [Fetch<'static>; 11] = [
    (b"empty", Ok(0)),
    (b"byte", Ok(1)),
    (b"buffer", Ok(4096)),
    (b"more", Ok(4097)),
    (b"limit", Ok(1_048_576)),
    (b"over", Err(FetchFault::TooLong)),
    (b"link", Ok(4097)),
    (b"folder/../more", Ok(4097)),
    (b"nothing", Err(FetchFault::Missing)),
    (b"nowhere", Err(FetchFault::Missing)),
    (b"folder/nothing", Err(FetchFault::Missing)),
];

// Each name whose fetch fails, with the reason.
const FAILING: [(&[u8], Unread); 5] = [
    (b"", Unread::Directory),
    (b"folder", Unread::Directory),
    (b"circle", Unread::Other),
    (b"more/name", Unread::Other),
    (b"mor\xff", Unread::Other),
];

// The path of a name in a folder.
fn path_in(rt: &impl AllocGlobal, folder: &str, name: &[u8]) -> Result<Vec<u8>, Fail> {
    let mut path = Vec::new(rt.alloc());
    path.extend_from_slice(folder.as_bytes())?;
    path.push(b'/')?;
    path.extend_from_slice(name)?;
    Ok(path)
}

fn make(
    rt: &(impl Abort + AllocGlobal + rt::Files),
    folder: &str,
    name: &str,
    made: &Made,
) -> Result<(), Fail> {
    let path = format!(in rt.alloc(); "{folder}/{name}")?;
    match made {
        Made::File(len) => fs::write(rt, &path, repeated(rt.alloc(), *len)?.as_slice())?,
        Made::Folder => fs::create_dir(rt, &path)?,
        Made::Link(text) => rt.symlink(text, &path)?,
    }
    Ok(())
}

// Fetches the names of a folder.
fn fetch_from(rt: &(impl Abort + AllocGlobal + rt::Files), folder: &str) -> Result<(), Fail> {
    let mut files = StdFiles::new(rt);
    for (name, gives) in &FETCHES {
        let path = path_in(rt, folder, name)?;
        fetch_one(rt, &mut files, &path, *gives)?;
    }
    Ok(())
}

// Fetches the names of a folder whose fetch fails.
fn fail_from(rt: &(impl Abort + AllocGlobal + rt::Files), folder: &str) -> Result<(), Fail> {
    let mut files = StdFiles::new(rt);
    for (name, reason) in &FAILING {
        let path = path_in(rt, folder, name)?;
        fetch_one(rt, &mut files, &path, Err(FetchFault::Failed))?;
        assert_eq!(rt; files.reason(), *reason);
    }
    assert_eq!(rt; files.faults(), 5);
    Ok(())
}

#[test]
fn fetches_from_a_folder(rt: HostRuntime) -> Result<(), Fail> {
    let folder = format!(in rt.alloc(); "/tmp/st_outside_{}_folder", process::id(rt.process()))?;
    fs::create_dir(&rt, &folder)?;
    for (name, made) in &FOLDER {
        make(&rt, &folder, name, made)?;
    }
    fetch_from(&rt, &folder)?;
    fail_from(&rt, &folder)?;
    fs::remove_dir_all(&rt, &folder)?;
    Ok(())
}
