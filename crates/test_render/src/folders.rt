// Folders that are read, and files that are written whole or not at all.
use crate::failing::FailingFiles;
use std::cell::Cell;
use std::fs;
use std::rc::Rc;
use std::test::Fail;
use tera_folders::{lies_in, name_in, read_bytes, read_folder, write_file, write_files};

/// As many calls as one of the functions makes at most.
const MOST_CALLS: usize = 60;

#[test]
fn folders_are_read_in_byte_order(rt: HostRuntime) -> Result<(), Fail> {
    let files = [
        ("b.html", "2"),
        ("a/z.html", "1"),
        ("a.html", "0"),
        ("c/d/e.txt", "3"),
        (".hidden/x", "4"),
    ];
    assert!(rt; write_files(&rt, "read", files.as_slice()).is_ok());
    let Ok(found) = read_folder(&rt, "read/") else {
        assert!(rt; false, "not read");
        return Ok(());
    };
    let mut names = String::new(rt.alloc());
    for file in &found {
        names.push_str(file.name.as_str())?;
        names.push_str(file.text.as_str())?;
        names.push(' ')?;
    }
    assert!(rt;
        names.as_str() == "a.html0 a/z.html1 b.html2 c/d/e.txt3 ",
        "{names}"
    );
    assert!(rt; read_folder(&rt, "none").is_err());
    assert!(rt; read_folder(&rt, "read/a.html").is_err());
    fs::write(&rt, "read/bad", b"a\n\xff".as_slice())?;
    assert!(rt; read_folder(&rt, "read").is_err());
    assert!(rt; read_bytes(&rt, "read/bad").is_ok());
    Ok(())
}

/// Paths, and whether what is written there lies in the folder `place/t`.
const PLACES: [(&str, bool); 8] = [
    ("place/t", true),
    ("place/t/", true),
    ("place/t/x/y", true),
    ("place/tt/../t/x", true),
    ("place/tt", false),
    ("place/ttt/x", false),
    ("place", false),
    ("new", false),
];

#[test]
fn places_are_told_apart(rt: HostRuntime) {
    assert!(rt; write_files(&rt, "place", [("t/a.html", ""), ("tt/b", "")].as_slice()).is_ok());
    for place in PLACES.iter() {
        let path = place.0;
        match lies_in(&rt, path, "place/t") {
            Ok(lies) => assert!(rt; lies == place.1, "{path}"),
            Err(_) => assert!(rt; false, "{path}"),
        }
    }
}

fn has_name(rt: &HostRuntime, path: &str, want: &str) -> bool {
    match name_in(rt, path, "named/t") {
        Ok(Some(name)) => name.as_str() == want,
        _ => false,
    }
}

fn has_no_name(rt: &HostRuntime, path: &str) -> bool {
    match name_in(rt, path, "named/t") {
        Ok(name) => name.is_none(),
        Err(_) => false,
    }
}

#[test]
fn names_in_a_folder_are_found(rt: HostRuntime) {
    let files = [("t/a.html", ""), ("tt/b", "")];
    assert!(rt; write_files(&rt, "named", files.as_slice()).is_ok());
    assert!(rt; has_name(&rt, "named/tt/../t/a.html", "a.html"));
    assert!(rt; has_no_name(&rt, "named/t/none"));
    assert!(rt; has_no_name(&rt, "named/tt/b"));
}

// Each call fails in turn: then the file is as it was, and nothing lies beside it.
#[test]
fn files_are_written_whole_or_not_at_all(rt: HostRuntime) -> Result<(), Fail> {
    for before in 0..MOST_CALLS {
        fs::create_dir_all(&rt, "write")?;
        fs::write(&rt, "write/page", "old")?;
        let files = FailingFiles {
            rt: rt.clone()?,
            before: Rc::new(rt.alloc(), Cell::new(before))?,
        };
        let answer = write_file(&files, "write/page", "a new text");
        let text = fs::read_to_string(&rt, "write/page")?;
        let want = if answer.is_ok() { "a new text" } else { "old" };
        assert!(rt; text.as_str() == want, "{before}");
        assert!(rt; !fs::exists(&rt, "write/page.part~")?, "{before}");
        assert!(rt; before < MOST_CALLS - 1 || answer.is_ok());
    }
    Ok(())
}
