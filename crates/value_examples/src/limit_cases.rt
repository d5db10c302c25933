//! Texts at a limit and one past it.
use crate::answers::{answer, patched};
use std::alloc::{AllocError, Global};
use std::test::Fail;
use value_json::{JsonFault, JsonWhy, read_patches, read_path};

/// A text of `open`, `middle` and `close`, the outer two repeated, and the answer to it (or `itself`).
const CASES: &[(&str, u32, &str, &str, u32, &str)] = &[
    ("[", 32, "", "]", 32, "itself"),
    ("[", 33, "", "]", 33, "TooDeep"),
    ("{\"a\":", 32, "1", "}", 32, "itself"),
    ("{\"$map\":[[1,", 32, "1", "]]}", 32, "itself"),
    ("[", 127, "", "]", 127, "TooDeep"),
    ("[", 128, "", "]", 128, "NotJson"),
];

/// A text of one letter repeated, in JSON around it, and the answer to it (or `itself`).
const LONG: &[(&str, u32, &str, &str)] = &[
    ("{\"", 1024, "\":1}", "itself"),
    ("{\"", 1025, "\":1}", "KeyTooLong"),
    ("{\"$map\":[[\"", 1024, "\",1]]}", "itself"),
    ("{\"$map\":[[\"", 1025, "\",1]]}", "KeyTooLong"),
    ("{\"$set\":[\"", 1024, "\"]}", "itself"),
    ("{\"$set\":[\"", 1025, "\"]}", "KeyTooLong"),
    ("\"", 1048575, "\"", "itself"),
    ("\"", 1048576, "\"", "TooBig"),
    ("\"", 1048577, "\"", "TextTooLong"),
    ("[\"", 1048574, "\"]", "itself"),
    ("[\"", 1048575, "\"]", "TooBig"),
    ("{\"", 1048577, "\":1.5}", "TextTooLong"),
];

fn repeated(
    alloc: Global,
    open: &str,
    opens: u32,
    middle: &str,
    close: &str,
    closes: u32,
) -> Result<String, AllocError> {
    let mut text = String::new(alloc);
    for _ in 0..opens {
        text.push_str(open)?;
    }
    text.push_str(middle)?;
    for _ in 0..closes {
        text.push_str(close)?;
    }
    Ok(text)
}

#[test]
fn levels(rt: HostRuntime) -> Result<(), Fail> {
    for (open, opens, middle, close, closes, want) in CASES {
        let text = repeated(rt.alloc(), open, *opens, middle, close, *closes)?;
        let got = answer(rt.alloc(), text.as_str().as_bytes())?;
        if *want == "itself" {
            assert!(rt; got.as_str() == text.as_str(), "{open} {opens}");
        } else {
            assert_eq!(rt; got.as_str(), *want, "{open} {opens}");
        }
    }
    Ok(())
}

#[test]
fn lengths(rt: HostRuntime) -> Result<(), Fail> {
    for (open, count, close, want) in LONG {
        let letters = repeated(rt.alloc(), "k", *count, "", "", 0)?;
        let text = repeated(rt.alloc(), open, 1, letters.as_str(), close, 1)?;
        let got = answer(rt.alloc(), text.as_str().as_bytes())?;
        if *want == "itself" {
            assert!(rt; got.as_str() == text.as_str(), "{open} {count}");
        } else {
            assert_eq!(rt; got.as_str(), *want, "{open} {count}");
        }
    }
    Ok(())
}

/// A text that is no list of patches, or one whose values are faulty.
const PATCHES: &[(&str, JsonWhy)] = &[
    ("[", JsonWhy::NotJson),
    ("{}", JsonWhy::NotPatches),
    ("[1]", JsonWhy::NotPatches),
    ("[{\"op\":\"move\",\"path\":[]}]", JsonWhy::NotPatches),
    ("[{\"op\":\"add\"}]", JsonWhy::NotPatches),
    ("[{\"op\":\"add\",\"path\":[[]]}]", JsonWhy::NotPatches),
    (
        "[{\"op\":\"add\",\"path\":[],\"x\":1}]",
        JsonWhy::NotPatches,
    ),
    (
        "[{\"op\":\"add\",\"path\":[1.5],\"value\":{\"$set\":1}}]",
        JsonWhy::NotSafeInteger,
    ),
    (
        "[{\"op\":\"add\",\"path\":[],\"value\":{\"__proto__\":1}},{\"op\":\"add\",\"path\":[],\"value\":{\"$set\":1}}]",
        JsonWhy::BadTag,
    ),
];

#[test]
fn patches_that_are_none(rt: HostRuntime) -> Result<(), Fail> {
    for (text, want) in PATCHES {
        match read_patches(rt.alloc(), text.as_bytes()) {
            Err(JsonFault::Refused(why)) => assert!(rt; why == *want, "{text}"),
            _ => assert!(rt; false, "{text}"),
        }
    }
    Ok(())
}

#[test]
fn paths_that_are_none(rt: HostRuntime) -> Result<(), Fail> {
    for text in ["{}", "[[]]", "1"] {
        match read_path(rt.alloc(), text.as_bytes()) {
            Err(JsonFault::Refused(why)) => assert!(rt; why == JsonWhy::NotPath, "{text}"),
            _ => assert!(rt; false, "{text}"),
        }
    }
    Ok(())
}

#[test]
fn a_long_key_is_refused(rt: HostRuntime) -> Result<(), Fail> {
    let letters = repeated(rt.alloc(), "k", 1025, "", "", 0)?;
    let letters = letters.as_str();
    let text = format!(in rt.alloc(); "[{{\"op\":\"add\",\"path\":[\"{letters}\"],\"value\":1}}]")?;
    let got = patched(rt.alloc(), "{}".as_bytes(), text.as_str().as_bytes())?;
    assert_eq!(rt; got.as_str(), "0 KeyTooLong");
    Ok(())
}
