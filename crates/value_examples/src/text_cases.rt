//! Patch lists that are read and printed again, and paths that are read.
use crate::answers::{patches_answer, path_answer};
use std::test::Fail;

/// A patch list that is printed as it is written here.
const AGAIN: &[&str] = &[
    "[]",
    "[{\"op\":\"add\",\"path\":[\"n\"],\"value\":1}]",
    "[{\"op\":\"replace\",\"path\":[],\"value\":{}}]",
    "[{\"op\":\"remove\",\"path\":[\"l\",0]}]",
    "[{\"op\":\"remove\",\"path\":[\"s\",0],\"value\":null}]",
    "[{\"op\":\"add\",\"path\":[null,false,true,-7,9007199254740991,\"\",\"é\"]}]",
    "[{\"op\":\"add\",\"path\":[0],\"value\":null},{\"op\":\"add\",\"path\":[1],\"value\":false},{\"op\":\"add\",\"path\":[2],\"value\":true}]",
    "[{\"op\":\"replace\",\"path\":[\"i\"],\"value\":-9007199254740991},{\"op\":\"replace\",\"path\":[\"t\"],\"value\":\"a\\\"\\n\"}]",
    "[{\"op\":\"add\",\"path\":[\"o\"],\"value\":{\"a\":[1,[]],\"b\":{}}}]",
    "[{\"op\":\"add\",\"path\":[\"m\"],\"value\":{\"$map\":[[1,\"int\"],[\"1\",{\"$set\":[null,2]}]]}}]",
    "[{\"op\":\"add\",\"path\":[\"$map\"],\"value\":{\"$obj\":{\"$set\":[]}}}]",
    "[{\"op\":\"add\",\"path\":[\"a\"],\"value\":1},{\"op\":\"add\",\"path\":[\"a\"],\"value\":1},{\"op\":\"remove\",\"path\":[\"a\"]}]",
];

/// A patch list, and how it is printed.
const PRINTED: &[(&str, &str)] = &[
    (" [ ] ", "[]"),
    (
        "[ {\"value\": 1, \"path\": [ \"n\" ], \"op\": \"add\"} ]",
        "[{\"op\":\"add\",\"path\":[\"n\"],\"value\":1}]",
    ),
    (
        "[{\"op\":\"add\",\"path\":[\"\\u0061\"],\"value\":{\"b\":1,\"a\":{\"$set\":[2,1]}}}]",
        "[{\"op\":\"add\",\"path\":[\"a\"],\"value\":{\"a\":{\"$set\":[1,2]},\"b\":1}}]",
    ),
];

/// A path, and its steps; or its first fault.
const PATHS: &[(&str, &str)] = &[
    ("[]", ""),
    ("[null]", "null"),
    ("[false,true]", "false, true"),
    (
        "[0,-7,9007199254740991]",
        "integer 0, integer -7, integer 9007199254740991",
    ),
    ("[\"n\"]", "text n"),
    (
        "[\"\",\"1\",1,\"null\",null]",
        "text , text 1, integer 1, text null, null",
    ),
    ("[\"\\u00e9\",\"__proto__\"]", "text é, text __proto__"),
    (" [ \"l\" , 0 ] ", "text l, integer 0"),
    ("[1.5]", "NotSafeInteger"),
    ("[9007199254740992]", "NotSafeInteger"),
    ("[1", "NotJson"),
    ("[{}]", "NotPath"),
];

#[test]
fn patches_are_printed_again(rt: HostRuntime) -> Result<(), Fail> {
    for text in AGAIN {
        let got = patches_answer(rt.alloc(), text.as_bytes())?;
        assert_eq!(rt; got.as_str(), *text);
    }
    Ok(())
}

#[test]
fn patches_are_printed_compactly(rt: HostRuntime) -> Result<(), Fail> {
    for (text, want) in PRINTED {
        let got = patches_answer(rt.alloc(), text.as_bytes())?;
        assert_eq!(rt; got.as_str(), *want, "{text}");
    }
    Ok(())
}

#[test]
fn paths_are_read(rt: HostRuntime) -> Result<(), Fail> {
    for (text, want) in PATHS {
        let got = path_answer(rt.alloc(), text.as_bytes())?;
        assert_eq!(rt; got.as_str(), *want, "{text}");
    }
    Ok(())
}
