// The file that --keep names: the state's sheet of the second form, on the disk before a reply goes out. A new file is written beside it, synced and renamed
// over it, so that at any moment the file holds a whole sheet.
ghost use Rattle.std.specs.Prelude.{◌≡◌, ◌≤◌, ◌⊎◌, ℕ, length, take, codes};

use crate::paths::{PATH, failed, path_text, too_long, went};
use sheets::forms::{Form, SHEET_MOST};
use sheets::writing::write;
use std::fs::{File, Files, OpenFile, OpenOptions};
use std::io::Write;
use std::{fs, io};
use streams::write_all;

// What the new file's name has after the path.
const NEW: &[u8] = b".new";

// A path and what the new file's name has after it.
const NAME: usize = PATH + NEW.len();

// Gives the folder that the file lies in.
fn folder(path: &[u8]) -> &[u8]
    ensures { (result.now ≡ codes ".") ⊎ ((n : ℕ) × ((n ≤ length path.now) × (result.now ≡ take n path.now))) }
{
    match path.iter().rposition(|b| *b == b'/') {
        Some(slash) => &path[..slash + 1],
        None => b".",
    }
}

// Has the folder's list of names on the disk, once a file was renamed in it.
fn sync_folder<F: Files>(files: &F, path: &[u8]) -> io::Result<()> {
    let list = File::open(files, path_text(folder(path))?)?;
    list.sync_all()
}

// Writes a new file and has its bytes on the disk.
fn write_new<F: Files>(files: &F, path: &[u8], sheet: &[u8]) -> io::Result<()> {
    let name = path_text(path)?;
    // what a stand-in left that was cut off
    let _ = fs::remove_file(files, name);
    let mut file = OpenOptions::new()
        .write(true)
        .create_new(true)
        .open(files, name)?;
    write_all(&mut file, sheet)?;
    file.sync_all()
}

// Removes the new file, where that can be done.
fn remove<F: Files>(files: &F, path: &[u8]) {
    if let Ok(name) = path_text(path) {
        let _ = fs::remove_file(files, name);
    }
}

fn rename<F: Files>(files: &F, from: &[u8], to: &[u8]) -> io::Result<()> {
    fs::rename(files, path_text(from)?, path_text(to)?)
}

// Puts the sheet into the file, and tells on standard error where that couldn't be done: nothing is left then of the new file, and the old one is as it was,
// unless only the folder couldn't be synced.
fn save<F: Files, E: Write>(files: &F, err: &mut E, path: &[u8], sheet: &[u8]) -> bool {
    let mut name = [0u8; NAME];
    let n = path.len();
    let Some(new) = name.get_mut(..n.saturating_add(NEW.len())) else {
        failed(err, path, too_long());
        return false;
    };
    new[..n].copy_from_slice(path);
    new[n..].copy_from_slice(NEW);
    let written = went(err, new, write_new(files, new, sheet))
        && went(err, path, rename(files, new, path));
    if !written {
        remove(files, new);
        return false;
    }
    went(err, path, sync_folder(files, path))
}

// Has the state in the file where the last sheet that went there isn't its own, and answers whether it is there.
pub(crate) fn keep<F: Files, E: Write>(
    files: &F,
    err: &mut E,
    path: &[u8],
    image: &[u8],
    last: &mut [u8; SHEET_MOST],
) -> bool {
    let mut sheet = [0u8; SHEET_MOST];
    let n = match write(Form::Two, image, &mut sheet) {
        Ok(n) if 0 < n && n <= SHEET_MOST => n,
        _ => return false,
    };
    if sheet == *last {
        return true;
    }
    if !save(files, err, path, &sheet[..n]) {
        return false;
    }
    *last = sheet;
    true
}
