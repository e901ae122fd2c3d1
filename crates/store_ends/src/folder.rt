// A folder of the system.
ghost use Rattle.std.specs.Prelude.{◌≡◌, ◌≤◌, ◌++◌, ◌∷◌, None, IfOk, OnOk, drop, length};
ghost use Rattle.std.specs.Bool.{OnTrue};
ghost use Rattle.std.specs.Io.{ReadsAtMost};
ghost use Rattle.std.specs.String.{string_bytes};
ghost use Rattle.store_ends.specs.Files.{Fills};
ghost use Rattle.store_ends.specs.Folders.{IsFileName};
ghost use Rattle.store_ends.specs.declared.folder.TheConstants.{BESIDE};

use crate::LONGEST_NAME;
use ri_ends::NoMemory;
use std::fs::{File, OpenFile};
use std::io::{ErrorKind, Read, Seek, SeekFrom, Write};
use std::rt::Files;
use std::{fs, io};

// The file that is written before it takes another's place. No call can name it.
const BESIDE: &str = ".new";

// A page of a file has so many bytes: a block of a segment is mostly smaller, and a page is read as soon as a part of it.
const PAGE: usize = 16 * 1024;

// The pages that were read are kept of a file of so many bytes at most: as much memory as two parts of usual words take.
const MOST_KEPT: u64 = 16 * 1024 * 1024;

/// A file that is open for reading, by its name, with the length that it had when it was opened, and its pages that were read. Of a
/// large file none is kept.
#[derive(Drop)]
struct Opened<'a, R: Files + AllocGlobal> {
    rt: &'a R,
    name: String,
    file: R::File,
    length: u64,
    pages: Vec<Option<Vec<u8>>>,
}

impl<'a, R: Files + AllocGlobal> Opened<'a, R> {
    // An open file of this name and length, of which no page was read.
    fn new(rt: &'a R, name: &str, file: R::File, length: u64) -> io::Result<Self> {
        let mut kept = String::with_capacity(rt.alloc(), name.len())?;
        kept.push_str(name)?;
        Ok(Opened {
            rt,
            name: kept,
            file,
            length,
            pages: unread_pages(rt, length)?,
        })
    }

    // The file's bytes from a place on, as many as there are and as have room.
    fn read_at(&mut self, at: u64, buf: &mut [u8]) -> io::Result<usize>
        ensures bound { ReadsAtMost result buf.new }
    {
        if at >= self.length {
            return Ok(0);
        }
        if self.pages.is_empty() || buf.len() > PAGE {
            return read_from(&mut self.file, at, buf);
        }
        self.read_pages(at, buf)
    }

    // The same of a file whose pages are kept: so many bytes lie in two pages at most.
    fn read_pages(&mut self, at: u64, buf: &mut [u8]) -> io::Result<usize>
        ensures { ReadsAtMost result buf.new }
    {
        let front = self.copy_page(at, buf)?;
        if front == buf.len() {
            return Ok(front);
        }
        let rest = self.copy_page(at.saturating_add(front as u64), &mut buf[front..])?;
        Ok(front + rest)
    }

    // The bytes from a place on to the end of its page, as many as there are and as have room.
    fn copy_page(&mut self, at: u64, buf: &mut [u8]) -> io::Result<usize>
        ensures { ReadsAtMost result buf.new }
    {
        let page = self.page((at / PAGE as u64) as usize)?;
        let bytes = behind(page, (at % PAGE as u64) as usize);
        Ok(copy_front(bytes, buf))
    }

    // The bytes of a page of this number, of which there are none behind the last page.
    fn page(&mut self, number: usize) -> io::Result<&[u8]> {
        if number >= self.pages.len() {
            return Ok(&[]);
        }
        if self.pages[number].is_none() {
            let page = read_page(self.rt, &mut self.file, number)?;
            self.pages[number] = Some(page);
        }
        match &self.pages[number] {
            Some(page) => Ok(page.as_slice()),
            None => Ok(&[]),
        }
    }
}

// Room for the pages of a file of this length, where they are kept.
fn unread_pages<R: AllocGlobal>(rt: &R, length: u64) -> io::Result<Vec<Option<Vec<u8>>>> {
    let mut pages = Vec::new(rt.alloc());
    if length <= MOST_KEPT {
        for _page in 0..length.div_ceil(PAGE as u64) {
            pages.push(None)?;
        }
    }
    Ok(pages)
}

// The page of this number.
fn read_page<R: AllocGlobal>(
    rt: &R,
    file: &mut (impl Read + Seek),
    number: usize,
) -> io::Result<Vec<u8>> {
    let mut page = vec![in rt.alloc(); 0u8; PAGE]?;
    let at = (number as u64).saturating_mul(PAGE as u64);
    let count = read_from(file, at, &mut page)?;
    page.truncate(count);
    Ok(page)
}

// The file's bytes from a place on, as many as there are and as have room.
fn read_from(file: &mut (impl Read + Seek), at: u64, buf: &mut [u8]) -> io::Result<usize>
    ensures { ReadsAtMost result buf.new }
{
    file.seek(SeekFrom::Start(at))?;
    fill(file, buf)
}

// The bytes from a place on, of which there are none behind the last.
fn behind(bytes: &[u8], at: usize) -> &[u8]
    ensures { result.now ≡ drop at bytes.now }
{
    if at >= bytes.len() {
        return &[];
    }
    &bytes[at..]
}

// Copies as many bytes as have room to the front of the buffer, and says how many.
fn copy_front(bytes: &[u8], buf: &mut [u8]) -> usize
    ensures within { result ≤ length buf.new }
    ensures bytes { Fills result buf.new 0 bytes.now }
    ensures others { drop result buf.new ≡ drop result buf.old }
{
    let count = bytes.len().min(buf.len());
    buf[..count].copy_from_slice(&bytes[..count]);
    count
}

/// A folder by its path, with the room for the paths of its files. The file that was read last stays open until one is changed or
/// another one is read: whoever reads a file block by block opens it once.
#[derive(Drop)]
pub(crate) struct Folder<'a, R: Files + AllocGlobal> {
    rt: &'a R,
    folder: &'a str,
    path: String,
    beside: String,
    opened: Option<Opened<'a, R>>,
}

impl<'a, R: Files + AllocGlobal> Folder<'a, R> {
    pub fn new(rt: &'a R, folder: &'a str) -> Result<Self, NoMemory>
        ensures folder { IfOk result (λ f. f.folder.now ≡ folder.now) }
        ensures beside { IfOk result (λ f. string_bytes f.beside ≡ folder.now ++ 47 ∷ BESIDE.now) }
        ensures closed { IfOk result (λ f. f.opened ≡ None) }
    {
        let room = folder.len() + 1 + LONGEST_NAME;
        let path = String::with_capacity(rt.alloc(), room)?;
        let mut beside = String::with_capacity(rt.alloc(), room)?;
        beside.push_str(folder)?;
        beside.push_str("/")?;
        beside.push_str(BESIDE)?;
        Ok(Folder {
            rt,
            folder,
            path,
            beside,
            opened: None,
        })
    }

    // Makes `path` that of the file of this name.
    fn set_path(&mut self, name: &str) -> io::Result<()>
        ensures inside { OnOk result (IsFileName name.now) }
        ensures path { OnOk result (string_bytes self.new.path ≡ self.old.folder.now ++ 47 ∷ name.now) }
        ensures same_opened { self.new.opened ≡ self.old.opened }
        ensures same_beside { self.new.beside ≡ self.old.beside }
    {
        if self.folder.is_empty() || !is_file_name(name) {
            return Err(io::Error::from(ErrorKind::InvalidFilename));
        }
        self.path.clear();
        self.path.push_str(self.folder)?;
        self.path.push_str("/")?;
        self.path.push_str(name)?;
        Ok(())
    }

    // The length of a file, or nothing where there is none.
    pub fn length_of(&mut self, name: &str) -> io::Result<Option<u64>>
        ensures inside { OnOk result (IsFileName name.now) }
    {
        self.set_path(name)?;
        match fs::metadata(self.rt, self.path.as_str()) {
            Ok(metadata) if metadata.is_file() => Ok(Some(metadata.len())),
            Ok(_) => Err(io::Error::from(ErrorKind::IsADirectory)),
            Err(error) if error.kind() == ErrorKind::NotFound => Ok(None),
            Err(error) => Err(error),
        }
    }

    // Opens the file of `path`, which has this name, where there is one.
    fn open(&mut self, name: &str) -> io::Result<()> {
        self.opened = None;
        let Some(length) = self.length_of(name)? else {
            return Ok(());
        };
        let file = File::open(self.rt, self.path.as_str())?;
        self.opened = Some(Opened::new(self.rt, name, file, length)?);
        Ok(())
    }

    // Whether the file of this name is open.
    fn is_open(&self, name: &str) -> bool {
        match &self.opened {
            Some(opened) => opened.name.as_str() == name,
            None => false,
        }
    }

    // The file's bytes from a place on, as many as there are and as have room.
    pub fn read_at(&mut self, name: &str, at: u64, buf: &mut [u8]) -> io::Result<usize>
        ensures bound { ReadsAtMost result buf.new }
        ensures inside { OnOk result (IsFileName name.now) }
    {
        self.set_path(name)?;
        if !self.is_open(name) {
            self.open(name)?;
        }
        match &mut self.opened {
            Some(opened) => opened.read_at(at, buf),
            None => Ok(0),
        }
    }

    // Writes a whole file in its place.
    pub fn write(&mut self, name: &str, bytes: &[u8]) -> io::Result<()>
        ensures inside { OnOk result (IsFileName name.now) }
        ensures closed { self.new.opened ≡ None }
    {
        self.opened = None;
        self.set_path(name)?;
        write_file(self.rt, self.path.as_str(), bytes)?;
        self.keep_entries()
    }

    // Writes a file beside the one of this name, and renames it.
    pub fn exchange(&mut self, name: &str, bytes: &[u8]) -> io::Result<()>
        ensures inside { OnOk result (IsFileName name.now) }
        ensures closed { self.new.opened ≡ None }
    {
        self.opened = None;
        self.set_path(name)?;
        write_file(self.rt, self.beside.as_str(), bytes)?;
        fs::rename(self.rt, self.beside.as_str(), self.path.as_str())?;
        self.keep_entries()
    }

    // Removes a file, where there is one.
    pub fn delete(&mut self, name: &str) -> io::Result<()>
        ensures inside { OnOk result (IsFileName name.now) }
        ensures closed { self.new.opened ≡ None }
    {
        self.opened = None;
        self.set_path(name)?;
        match fs::remove_file(self.rt, self.path.as_str()) {
            Ok(()) => self.keep_entries(),
            Err(error) if error.kind() == ErrorKind::NotFound => Ok(()),
            Err(error) => Err(error),
        }
    }

    // Makes the names of the folder's files reach the disk.
    fn keep_entries(&self) -> io::Result<()> {
        File::open(self.rt, self.folder)?.sync_all()
    }
}

// Whether this is the name of a file that lies in the folder itself.
fn is_file_name(name: &str) -> bool
    ensures { OnTrue result (IsFileName name.now) }
{
    match name.as_bytes() {
        [] | [b'.', ..] => false,
        bytes => !bytes.contains(&b'/') && !bytes.contains(&0),
    }
}

// Reads until the buffer is full or the file ends.
fn fill(file: &mut impl Read, buf: &mut [u8]) -> io::Result<usize>
    ensures { ReadsAtMost result buf.new }
{
    let mut count = 0;
    while count < buf.len() {
        let more = file.read(&mut buf[count..])?;
        if more == 0 {
            break;
        }
        count += more;
    }
    Ok(count)
}

// Writes a whole file, in place of one that is there, and makes its bytes reach the disk.
fn write_file<R: Files>(rt: &R, path: &str, bytes: &[u8]) -> io::Result<()> {
    let mut file = File::create(rt, path)?;
    file.write_all(bytes)?;
    file.sync_all()
}
